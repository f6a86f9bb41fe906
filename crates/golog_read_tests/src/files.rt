// Tests of `read_all` over files in memory, also where a call fails, and over real ones.
use crate::asserting::same;
use golog_base::{
    Bytes, FileFiles, Files, HeldFile, List, MemFiles, NoMemory, ReadFault, Text, read_all,
};
use std::alloc::{AllocError, Global};
use std::fs;
use std::test::Fail;

/// Two files of one name, of which the first counts, and a long one. The calls of these numbers fail.
fn held(alloc: Global, fails: &[u32]) -> Result<MemFiles, NoMemory> {
    let mut held = List::new(alloc);
    held.push(file_of(alloc, "one.agent", b"(agent)")?)?;
    held.push(file_of(alloc, "one.agent", b"(other)")?)?;
    held.push(file_of(alloc, "long", &[b'x'; 3000])?)?;
    Ok(MemFiles::new(held, List::copy_of(alloc, fails)?))
}

fn file_of(alloc: Global, name: &str, bytes: &[u8]) -> Result<HeldFile, NoMemory> {
    Ok(HeldFile {
        name: Text::of(alloc, name)?,
        bytes: Bytes::copy_of(alloc, bytes)?,
    })
}

/// What comes of a reading: so many bytes, or none.
#[derive(Clone, Copy, Debug, PartialEq, Eq)]
enum Came {
    Bytes(usize),
    Failed,
    TooLong,
    NoMemory,
}

/// What comes of the reading of a file of at most so many bytes.
fn came_of<F: Files>(alloc: Global, files: &mut F, name: &str, limit: u32) -> Came {
    let read = read_all(alloc, files, name, limit);
    let came = match &read {
        Ok(bytes) => Came::Bytes(bytes.len()),
        Err(ReadFault::Failed) => Came::Failed,
        Err(ReadFault::TooLong) => Came::TooLong,
        Err(ReadFault::Memory) => Came::NoMemory,
    };
    drop(read);
    came
}

/// Whether the file, of at most as many bytes, is read to have these.
fn is_read<F: Files>(alloc: Global, files: &mut F, name: &str, bytes: &[u8], limit: u32) -> bool {
    match read_all(alloc, files, name, limit) {
        Ok(read) => read.as_slice() == bytes,
        Err(_fault) => false,
    }
}

/// What comes of a text and of what is too long, missing and long.
fn held_came(alloc: Global) -> Result<(bool, [Came; 3]), NoMemory> {
    let mut files = held(alloc, &[])?;
    let is_so = is_read(alloc, &mut files, "one.agent", b"(agent)", 7);
    let came = [
        came_of(alloc, &mut files, "one.agent", 6),
        came_of(alloc, &mut files, "two.agent", 6),
        came_of(alloc, &mut files, "long", 3000),
    ];
    drop(files);
    Ok((is_so, came))
}

#[test]
fn reads_a_held_file(rt: HostRuntime) -> Result<(), NoMemory> {
    let wanted = (true, [Came::TooLong, Came::Failed, Came::Bytes(3000)]);
    same(&rt, "held", held_came(rt.alloc())?, wanted);
    Ok(())
}

/// What comes of a reading whose calls are `select`, `read` and the `read` that fails, and of another one.
fn failing_came(alloc: Global) -> Result<(Came, Came), NoMemory> {
    let mut files = held(alloc, &[2])?;
    let first = came_of(alloc, &mut files, "long", 3000);
    let second = came_of(alloc, &mut files, "long", 3000);
    drop(files);
    Ok((first, second))
}

#[test]
fn a_read_fails_in_mid_stream(rt: HostRuntime) -> Result<(), NoMemory> {
    let wanted = (Came::Failed, Came::Bytes(3000));
    same(&rt, "failing", failing_came(rt.alloc())?, wanted);
    Ok(())
}

/// Whether a real file has these bytes, and what comes of one that isn't there.
fn real_came(rt: &HostRuntime, name: &str, bytes: &[u8]) -> Result<(bool, Came), AllocError> {
    let mut files = FileFiles::new(rt.clone()?);
    let is_so = is_read(rt.alloc(), &mut files, name, bytes, 100);
    let missing = came_of(rt.alloc(), &mut files, "no_such_file", 100);
    drop(files);
    Ok((is_so, missing))
}

#[test]
fn reads_a_real_file(rt: HostRuntime) -> Result<(), Fail> {
    fs::write(&rt, "read_test_file", "real bytes")?;
    let came = real_came(&rt, "read_test_file", b"real bytes")?;
    fs::remove_file(&rt, "read_test_file")?;
    same(&rt, "real", came, (true, Came::Failed));
    Ok(())
}
