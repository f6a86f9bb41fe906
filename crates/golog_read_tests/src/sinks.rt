// Tests of `write_all` over sinks in memory, also where a call fails, and over standard output, and
// of `put_reserved`.
use crate::asserting::same;
use golog_base::{Failed, List, MemSink, NoMemory, OutSink, put_reserved, write_all};
use std::alloc::Global;

/// A sink with room for so many bytes. The calls of these numbers fail.
fn sink_of(alloc: Global, room: u32, fails: &[u32]) -> Result<MemSink, NoMemory> {
    let fails = List::copy_of(alloc, fails)?;
    MemSink::new(alloc, room, fails)
}

/// Whether two pieces are written to a sink one after another, and whether it has these bytes then.
fn takes(out: &mut MemSink, pieces: [&[u8]; 2], taken: &[u8]) -> [bool; 3] {
    let first = write_all(out, pieces[0]).is_ok();
    let second = write_all(out, pieces[1]).is_ok();
    [first, second, out.bytes() == taken]
}

fn full(alloc: Global) -> Result<[bool; 3], NoMemory> {
    let mut out = sink_of(alloc, 5, &[])?;
    let told = takes(&mut out, [b"abc", b"def"], b"abcde");
    drop(out);
    Ok(told)
}

fn failing(alloc: Global) -> Result<([bool; 3], [bool; 3]), NoMemory> {
    let mut out = sink_of(alloc, 9, &[1])?;
    let first = takes(&mut out, [b"abc", b"def"], b"abc");
    let again = takes(&mut out, [b"", b"ghi"], b"abcghi");
    drop(out);
    Ok((first, again))
}

#[test]
fn a_sink_is_filled_and_fails_in_mid_stream(rt: HostRuntime) -> Result<(), NoMemory> {
    same(&rt, "full", full(rt.alloc())?, [true, false, true]);
    let wanted = ([true, false, true], [true; 3]);
    same(&rt, "failing", failing(rt.alloc())?, wanted);
    Ok(())
}

/// Whether a vector with room for three bytes has these once two, none and one are put there, and what room it has.
fn filled(alloc: Global) -> Result<(bool, usize), NoMemory> {
    let mut buffer = Vec::with_capacity(alloc, 3)?;
    put_reserved(&mut buffer, b"ab");
    put_reserved(&mut buffer, b"");
    put_reserved(&mut buffer, b"c");
    let told = (buffer.as_slice() == b"abc".as_slice(), buffer.capacity());
    drop(buffer);
    Ok(told)
}

#[test]
fn room_that_is_reserved_is_filled(rt: HostRuntime) -> Result<(), NoMemory> {
    same(&rt, "full", filled(rt.alloc())?, (true, 3));
    Ok(())
}

#[test]
fn writes_to_standard_output(rt: HostRuntime) -> Result<(), Failed> {
    let mut out = OutSink::new(rt);
    let written = write_all(&mut out, b"written\n");
    drop(out);
    written
}
