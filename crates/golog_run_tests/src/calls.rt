// The calls of the program that the tests make, over files and sinks in memory, and what is
// asserted of them.
ghost use Rattle.std.specs.Prelude.{◌≤◌, length};
ghost use Rattle.golog_device.specs.Slots.{standings, FreshBelow};

use crate::asserting::same;
use golog_base::{Bytes, HeldFile, List, MemFiles, MemSink, NoMemory, Sink, Text, both};
use golog_device::Device;
use golog_main::{NO_MEMORY, Plain, golog, is_threaded, script_devices, serve_inline};
use golog_words::{WordsFault, order_of};
use std::alloc::Global;
use std::process::Abort;
use std::sync::Wait;
use std::thread::Threads;

/// How many bytes the journal of a run over threads may have.
const ROOM: u32 = 4_000_000;

/// The words of a run of `x.agent`.
const RUN: &[&str] = &["run", "x.agent", "--inline"];

/// The words of a run of `x.agent` with the scripts of `x.devices`.
const RUN_BOTH: &[&str] = &["run", "x.agent", "x.devices", "--inline"];

/// The words of a run of `x.agent` from `x.journal`.
pub const RUN_FROM: &[&str] = &["run", "x.agent", "--inline", "--from", "x.journal"];

/// The words of a run with scripts that follows plans.
pub const PLAN: &[&str] = &["plan", "4", "100", "x.agent", "x.devices", "--inline"];

/// The words of a run with scripts over threads.
pub const RUN_ON_THREADS: &[&str] = &["run", "x.agent", "x.devices"];

/// The words of a replay of `x.journal`.
pub const REPLAY: &[&str] = &["replay", "x.agent", "x.journal"];

/// An agent file, of an action that makes a test true.
pub const ONE: &[u8] = b"(agent (fluent p () bool false) (action a ()) (causes (a) (p) true)
    (main (seq (act a) (test (p)))))";

/// No file.
pub const NO_FILE: (&str, &[u8]) = ("", b"");

/// The status that tests give to words that `serve_inline` does not serve; no call of the program ends with it.
const NOT_SERVED: u8 = u8::MAX;

/// No call.
const NONE: &[u32] = &[];

/// A call of the program: its words, two files in memory, of which one without a name isn't there, and the room of
/// its sink. The calls of the files and of the sink with these numbers fail.
#[derive(Clone, Copy)]
pub struct Setting<'a> {
    pub words: &'a [&'a str],
    pub files: [(&'a str, &'a [u8]); 2],
    pub reads: &'a [u32],
    pub room: u32,
    pub writes: &'a [u32],
}

impl<'a> Setting<'a> {
    /// A call with ample room in which nothing fails.
    pub fn of(
        words: &'a [&'a str],
        one: (&'a str, &'a [u8]),
        other: (&'a str, &'a [u8]),
    ) -> Setting<'a> {
        Setting {
            words,
            files: [one, other],
            reads: NONE,
            room: 1000,
            writes: NONE,
        }
    }

    /// The same with room for the journal of a run over threads.
    pub fn roomy(
        words: &'a [&'a str],
        one: (&'a str, &'a [u8]),
        other: (&'a str, &'a [u8]),
    ) -> Setting<'a> {
        Setting {
            room: ROOM,
            ..Setting::of(words, one, other)
        }
    }

    /// A run of an agent file of these bytes.
    pub fn run(agent: &'a [u8]) -> Setting<'a> {
        Setting::of(RUN, ("x.agent", agent), NO_FILE)
    }

    /// The same with a devices file of these bytes.
    pub fn run_with(agent: &'a [u8], scripts: &'a [u8]) -> Setting<'a> {
        Setting::of(RUN_BOTH, ("x.agent", agent), ("x.devices", scripts))
    }

    /// A replay of a journal of an agent file.
    pub fn replay(agent: &'a [u8], journal: &'a [u8]) -> Setting<'a> {
        Setting::of(REPLAY, ("x.agent", agent), ("x.journal", journal))
    }
}

/// What a call answered and wrote.
#[derive(Drop)]
pub struct Call {
    pub status: u8,
    pub out: MemSink,
}

impl Call {
    /// The status and what was written.
    pub fn said(&self) -> (u8, &str) {
        let text = std::str::from_utf8(self.out.bytes());
        (self.status, text.unwrap_or("no text"))
    }
}

/// Asserts that a call, which is that of a row, ended with this status and wrote this.
pub fn has_said<A: Abort>(
    rt: &A,
    row: &str,
    call: Result<Call, NoMemory>,
    said: (u8, &str),
) -> Result<(), NoMemory> {
    let call = call?;
    same(rt, row, call.said(), said);
    drop(call);
    Ok(())
}

/// Asserts it of a call over devices that follow scripts.
pub fn says<A: Abort + AllocGlobal>(
    rt: &A,
    row: &str,
    setting: &Setting<'_>,
    said: (u8, &str),
) -> Result<(), NoMemory> {
    has_said(rt, row, called(rt.alloc(), setting), said)
}

/// A file in memory of this name and these bytes.
fn held(alloc: Global, name: &str, bytes: &[u8]) -> Result<HeldFile, NoMemory> {
    let (name, bytes) = both(Text::of(alloc, name), Bytes::copy_of(alloc, bytes))?;
    Ok(HeldFile { name, bytes })
}

fn files_of(alloc: Global, setting: &Setting<'_>) -> Result<MemFiles, NoMemory> {
    let mut files = List::new(alloc);
    for (name, bytes) in &setting.files {
        if !name.is_empty() {
            files.push(held(alloc, name, bytes)?)?;
        }
    }
    let fails = List::copy_of(alloc, setting.reads)?;
    Ok(MemFiles::new(files, fails))
}

fn sink_of(alloc: Global, setting: &Setting<'_>) -> Result<MemSink, NoMemory> {
    let fails = List::copy_of(alloc, setting.writes)?;
    MemSink::new(alloc, setting.room, fails)
}

/// The words of a command, as a program is given them. `NoMemory` where none is left for them.
fn words_of(alloc: Global, of: &[&str]) -> Result<Vec<String>, NoMemory> {
    let mut words = Vec::new(alloc);
    for word in of {
        words.push(String::from_str(alloc, word)?)?;
    }
    Ok(words)
}

/// What a call is handed.
#[derive(Drop)]
struct Handed {
    words: Vec<String>,
    files: MemFiles,
    out: MemSink,
}

fn hand_over(alloc: Global, setting: &Setting<'_>) -> Result<Handed, NoMemory> {
    let words = words_of(alloc, setting.words);
    let outside = both(files_of(alloc, setting), sink_of(alloc, setting));
    let (words, (files, out)) = both(words, outside)?;
    Ok(Handed { words, files, out })
}

/// Calls the program over devices that follow scripts.
pub fn called(alloc: Global, setting: &Setting<'_>) -> Result<Call, NoMemory> {
    match script_devices(alloc) {
        Ok(mut devices) => {
            let call = called_by(alloc, setting, devices.as_mut_slice());
            drop(devices);
            call
        }
        Err(NoMemory) => Err(NoMemory),
    }
}

/// The same over these devices.
pub fn called_by<D: Device>(
    alloc: Global,
    setting: &Setting<'_>,
    devices: &mut [D],
) -> Result<Call, NoMemory>
    requires boxes { 16 ≤ length devices.old }
    requires fresh { FreshBelow 16 (standings D.fresh D.meaning devices.old) }
{
    match hand_over(alloc, setting) {
        Ok(handed) => Ok(call_of(alloc, handed, devices)),
        Err(NoMemory) => Err(NoMemory),
    }
}

fn call_of<D: Device>(alloc: Global, handed: Handed, devices: &mut [D]) -> Call
    requires boxes { 16 ≤ length devices.old }
    requires fresh { FreshBelow 16 (standings D.fresh D.meaning devices.old) }
{
    let Handed {
        words,
        mut files,
        mut out,
    } = handed;
    let status = served(alloc, words.as_slice(), &mut files, &mut out, devices);
    drop(words);
    drop(files);
    Call { status, out }
}

/// The exit status of a call over these devices that writes to this sink.
pub fn served_to<K: Sink, D: Device>(
    alloc: Global,
    setting: &Setting<'_>,
    out: &mut K,
    devices: &mut [D],
) -> Result<u8, NoMemory>
    requires boxes { 16 ≤ length devices.old }
    requires fresh { FreshBelow 16 (standings D.fresh D.meaning devices.old) }
{
    let words = words_of(alloc, setting.words);
    let (words, mut files) = both(words, files_of(alloc, setting))?;
    let status = served(alloc, words.as_slice(), &mut files, out, devices);
    drop(words);
    drop(files);
    Ok(status)
}

/// Does what these words say, which need no threads, and answers the exit status. It promises nothing, so that no test
/// carries the clauses of the call.
fn served<K: Sink, D: Device>(
    alloc: Global,
    words: &[String],
    files: &mut MemFiles,
    out: &mut K,
    devices: &mut [D],
) -> u8
    requires boxes { 16 ≤ length devices.old }
    requires fresh { FreshBelow 16 (standings D.fresh D.meaning devices.old) }
{
    match order_of(alloc, words) {
        Ok(order) if !is_threaded(order) => serve_inline(alloc, order, files, out, devices, Plain),
        Err(WordsFault::Memory) => NO_MEMORY,
        _ => NOT_SERVED,
    }
}

/// Calls the program over devices that follow scripts, each on a thread of its own.
pub fn called_on_threads<R: Threads + Wait + Sync>(
    rt: &R,
    alloc: Global,
    setting: &Setting<'_>,
) -> Result<Call, NoMemory> {
    match script_devices(alloc) {
        Ok(mut devices) => {
            let call = threaded_by(rt, alloc, setting, devices.as_mut_slice());
            drop(devices);
            call
        }
        Err(NoMemory) => Err(NoMemory),
    }
}

/// The same over these devices.
pub fn threaded_by<R: Threads + Wait + Sync, D: Device + Send>(
    rt: &R,
    alloc: Global,
    setting: &Setting<'_>,
    devices: &mut [D],
) -> Result<Call, NoMemory>
    requires boxes { 16 ≤ length devices.old }
    requires fresh { FreshBelow 16 (standings D.fresh D.meaning devices.old) }
{
    match hand_over(alloc, setting) {
        Ok(handed) => Ok(threaded(rt, alloc, handed, devices)),
        Err(NoMemory) => Err(NoMemory),
    }
}

fn threaded<R: Threads + Wait + Sync, D: Device + Send>(
    rt: &R,
    alloc: Global,
    handed: Handed,
    devices: &mut [D],
) -> Call
    requires boxes { 16 ≤ length devices.old }
    requires fresh { FreshBelow 16 (standings D.fresh D.meaning devices.old) }
{
    let Handed {
        words,
        mut files,
        mut out,
    } = handed;
    let status = status_of(rt, alloc, words.as_slice(), &mut files, &mut out, devices);
    drop(words);
    drop(files);
    Call { status, out }
}

/// The exit status of a call over these devices, each on a thread of its own, that writes to this sink.
pub fn threaded_to<R: Threads + Wait + Sync, K: Sink, D: Device + Send>(
    rt: &R,
    alloc: Global,
    setting: &Setting<'_>,
    out: &mut K,
    devices: &mut [D],
) -> Result<u8, NoMemory>
    requires boxes { 16 ≤ length devices.old }
    requires fresh { FreshBelow 16 (standings D.fresh D.meaning devices.old) }
{
    let words = words_of(alloc, setting.words);
    let (words, mut files) = both(words, files_of(alloc, setting))?;
    let status = status_of(rt, alloc, words.as_slice(), &mut files, out, devices);
    drop(words);
    drop(files);
    Ok(status)
}

/// The same of words that may need threads.
fn status_of<R: Threads + Wait + Sync, K: Sink, D: Device + Send>(
    rt: &R,
    alloc: Global,
    words: &[String],
    files: &mut MemFiles,
    out: &mut K,
    devices: &mut [D],
) -> u8
    requires boxes { 16 ≤ length devices.old }
    requires fresh { FreshBelow 16 (standings D.fresh D.meaning devices.old) }
{
    golog(rt, alloc, words, files, out, devices)
}

/// An agent file of these items and this program.
pub fn file_of(alloc: Global, items: &str, program: &str) -> Result<Bytes, NoMemory> {
    joined(alloc, &["(agent ", items, "(main ", program, "))"])
}

/// The bytes of these parts, one after another.
pub fn joined(alloc: Global, parts: &[&str]) -> Result<Bytes, NoMemory> {
    let mut bytes = Bytes::new(alloc);
    for part in parts {
        bytes.extend(part.as_bytes())?;
    }
    Ok(bytes)
}
