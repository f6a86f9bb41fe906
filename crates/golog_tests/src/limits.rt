// A test of files at a limit of the check, and above it.
use crate::asserting::same;
use golog_base::NoMemory;
use golog_file::{AgentFault, read_agent};
use std::alloc::Global;

/// A file with so many copies of one part, the most that it may have, and the code with one more. A `#` in
/// the part is the number of the copy.
struct Limit {
    before: &'static [u8],
    part: &'static [u8],
    after: &'static [u8],
    most: u16,
    code: u8,
}

/// Limits that are tested after a file was read. The built-in fluent and the two built-in actions count.
const LIMITS: [Limit; 5] = [
    Limit {
        before: b"(agent",
        part: b"(proc p# () nil)",
        after: b"(main nil))",
        most: 256,
        code: 25,
    },
    Limit {
        before: b"(agent (sort a 1 63) (sort b 1 65) (fluent f (a b) bool)",
        part: b"(fluent g# () bool)",
        after: b"(main nil))",
        most: 0,
        code: 34,
    },
    Limit {
        before: b"(agent (sort a 1 254) (sort b 1 129) (action x (a b)) (action y (a b))",
        part: b"(action z# ())",
        after: b"(main nil))",
        most: 2,
        code: 34,
    },
    Limit {
        before: b"(agent (proc p () (seq",
        part: b" nil",
        after: b")) (main (call p)))",
        most: 1024,
        code: 38,
    },
    Limit {
        before: b"(agent (main (seq",
        part: b" nil",
        after: b")))",
        most: 3072,
        code: 38,
    },
];

/// Puts the part behind the bytes, as the copy with this number.
fn put_copy(
    alloc: Global,
    bytes: &mut Vec<u8>,
    part: &[u8],
    number: usize,
) -> Result<(), NoMemory> {
    let digits = format!(in alloc; "{number}")?;
    for byte in part {
        if *byte == b'#' {
            bytes.extend_from_slice(digits.as_bytes())?;
        } else {
            bytes.push(*byte)?;
        }
    }
    Ok(())
}

/// The file with so many copies.
fn file_of(alloc: Global, limit: &Limit, copies: usize) -> Result<Vec<u8>, NoMemory> {
    let mut bytes = Vec::new(alloc);
    bytes.extend_from_slice(limit.before)?;
    for number in 0..copies {
        put_copy(alloc, &mut bytes, limit.part, number)?;
    }
    bytes.extend_from_slice(limit.after)?;
    Ok(bytes)
}

/// The code of a file that is refused, and 0 where an agent is read.
fn code_of(alloc: Global, file: &[u8]) -> Result<u8, NoMemory> {
    let read = read_agent(alloc, file);
    let answer = match &read {
        Ok(_agent) => Ok(0),
        Err(AgentFault::Refused { code, at: _ }) => Ok(*code),
        Err(AgentFault::Memory) => Err(NoMemory),
    };
    drop(read);
    answer
}

/// The codes of the files with as many copies as may be, and with one more.
fn codes_at(alloc: Global, limit: &Limit) -> Result<(u8, u8), NoMemory> {
    let most = usize::from(limit.most);
    let last = file_of(alloc, limit, most)?;
    let first_above = file_of(alloc, limit, most + 1)?;
    Ok((code_of(alloc, &last)?, code_of(alloc, &first_above)?))
}

#[test]
fn limits_are_reached_and_not_passed(rt: HostRuntime) {
    for limit in &LIMITS {
        let codes = codes_at(rt.alloc(), limit).ok();
        same(&rt, limit.part, codes, Some((0, limit.code)));
    }
}
