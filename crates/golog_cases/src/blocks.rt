// The blocks of a case file, and the bytes that their lines spell.
use golog_base::{Bytes, List, NoMemory, Text, both};
use itoa::Buffer;
use std::alloc::Global;

/// A block: its first line, that line's number, and the bytes that the lines below it spell.
#[derive(Drop)]
pub struct Block {
    pub head: Text,
    pub number: usize,
    pub bytes: Bytes,
}

/// The blocks of a text. A line that spells no bytes begins a block, unless it is empty or begins with `;`.
pub fn blocks_of(alloc: Global, text: &str) -> Result<List<Block>, NoMemory> {
    let mut blocks = List::new(alloc);
    let mut number: usize = 0;
    for line in text.split('\n') {
        number = number.saturating_add(1);
        take_line(alloc, &mut blocks, number, line)?;
    }
    Ok(blocks)
}

fn take_line(
    alloc: Global,
    blocks: &mut List<Block>,
    number: usize,
    line: &str,
) -> Result<(), NoMemory> {
    if line.is_empty() || line.starts_with(';') || put_in_last(alloc, blocks, line)? {
        return Ok(());
    }
    blocks.push(Block {
        head: Text::of(alloc, line)?,
        number,
        bytes: Bytes::new(alloc),
    })
}

/// Whether a line spells bytes, which the last block has then.
fn put_in_last(alloc: Global, blocks: &mut List<Block>, line: &str) -> Result<bool, NoMemory> {
    let Some(mut last) = blocks.pop() else {
        return Ok(false);
    };
    let put = put_line(alloc, &mut last.bytes, blocks.as_slice(), line);
    let ((), is_put) = both(blocks.push(last), put)?;
    Ok(is_put)
}

/// Whether a line below these blocks spells bytes, which stand behind the others then: `@NAME` those of the part of
/// this name, `*FROM..TO LINE` those of the line once for each of these numbers, which stands in place of each `#`.
fn put_line(
    alloc: Global,
    bytes: &mut Bytes,
    blocks: &[Block],
    line: &str,
) -> Result<bool, NoMemory> {
    if let Some(name) = line.strip_prefix('@') {
        return put_part(bytes, blocks, name);
    }
    match line.strip_prefix('*') {
        Some(repeated) => put_repeated(alloc, bytes, repeated),
        None => put_plain(bytes, line),
    }
}

/// The same of other lines: `|TEXT` spells the text and a line feed, `>TEXT` the text alone, and `\XX XX` bytes by
/// their hexadecimal digits.
fn put_plain(bytes: &mut Bytes, line: &str) -> Result<bool, NoMemory> {
    if let Some(text) = line.strip_prefix('|') {
        bytes.extend(text.as_bytes())?;
        bytes.push(b'\n')?;
        return Ok(true);
    }
    if let Some(text) = line.strip_prefix('>') {
        bytes.extend(text.as_bytes())?;
        return Ok(true);
    }
    match line.strip_prefix('\\') {
        Some(digits) => put_hexadecimal(bytes, digits),
        None => Ok(false),
    }
}

fn put_part(bytes: &mut Bytes, blocks: &[Block], name: &str) -> Result<bool, NoMemory> {
    for block in blocks {
        if block.head.as_str().strip_prefix("part ") == Some(name) {
            bytes.extend(block.bytes.as_slice())?;
            return Ok(true);
        }
    }
    Ok(false)
}

fn put_hexadecimal(bytes: &mut Bytes, digits: &str) -> Result<bool, NoMemory> {
    for pair in digits.split(' ') {
        match u8::from_str_radix(pair, 16) {
            Ok(byte) => bytes.push(byte)?,
            Err(_) => return Ok(false),
        }
    }
    Ok(true)
}

/// Two numbers, as `FROM..TO`.
fn range_of(text: &str) -> Option<(u32, u32)> {
    let (from, to) = text.split_once("..")?;
    Some((from.parse::<u32>().ok()?, to.parse::<u32>().ok()?))
}

fn put_repeated(alloc: Global, bytes: &mut Bytes, repeated: &str) -> Result<bool, NoMemory> {
    let Some((range, line)) = repeated.split_once(' ') else {
        return Ok(false);
    };
    match range_of(range) {
        Some(range) => put_times(alloc, bytes, range, line),
        None => Ok(false),
    }
}

fn put_times(
    alloc: Global,
    bytes: &mut Bytes,
    range: (u32, u32),
    line: &str,
) -> Result<bool, NoMemory> {
    let (from, to) = range;
    let mut one = Bytes::new(alloc);
    let is_put = put_plain(&mut one, line)?;
    for number in from..to {
        put_numbered(bytes, one.as_slice(), number)?;
    }
    Ok(is_put)
}

fn put_numbered(bytes: &mut Bytes, one: &[u8], number: u32) -> Result<(), NoMemory> {
    let mut buffer = Buffer::new();
    let digits = buffer.format(number).as_bytes();
    for byte in one {
        if *byte == b'#' {
            bytes.extend(digits)?;
        } else {
            bytes.push(*byte)?;
        }
    }
    Ok(())
}
