//! A test of `run_inline` with a scribe: a device sees how many lines are written in each round,
//! and nothing is written after a write that failed.
ghost use Rattle.golog_semantics.specs.WellFormed.{WellFormed};

use crate::asserting::same;
use crate::runs::agent_of;
use golog_agent::{Pen, Scribe, run_inline};
use golog_base::{Bytes, Failed, List, MemSink, NoMemory, Sink};
use golog_device::{Begun, Device, Idle, Served};
use golog_journal::Journal;
use golog_semantics::Answer;
use golog_tree::Agent;
use std::alloc::Global;
use std::sync::atomic::{AtomicU64, Ordering};

/// A program of two steps beside a device that posts.
const AGENT: &[u8] =
    b"(agent (device one) (action step ()) (exo tick () one) (main (seq (act step) (act step))))";

/// A sink that counts the lines that are written to it. A write that is no line counts as a hundred.
#[derive(Drop)]
struct Counting<'a> {
    lines: &'a AtomicU64,
}

// Whether the bytes are a line with its line feed.
fn is_line(bytes: &[u8]) -> bool {
    match bytes.iter().position(|byte| *byte == b'\n') {
        Some(place) => place + 1 == bytes.len(),
        None => false,
    }
}

impl Sink for Counting<'_> {
    ghost use Rattle.std.specs.Prelude.{None};

    ghost taken = { λ _. None };

    ghost faults = { λ _. 0 };

    fn write(&mut self, bytes: &[u8]) -> Result<usize, Failed> {
        let count = if is_line(bytes) { 1 } else { 100 };
        self.lines.fetch_add(count, Ordering::SeqCst);
        Ok(bytes.len())
    }
}

/// A device that follows the journal: it looks how many lines are written whenever it may post. It posts twice, and
/// closes.
#[derive(Drop)]
struct Follower<'a> {
    lines: &'a AtomicU64,
    posts: Vec<Bytes>,
    /// The numbers of lines that it saw, each as a digit.
    saw: u64,
    fresh: bool,
}

impl<'a> Follower<'a> {
    fn new(alloc: Global, lines: &'a AtomicU64) -> Result<Follower<'a>, NoMemory> {
        let mut posts = Vec::new(alloc);
        posts.push(List::copy_of(alloc, b"tick")?)?;
        posts.push(List::copy_of(alloc, b"tick")?)?;
        Ok(Follower {
            lines,
            posts,
            saw: 0,
            fresh: true,
        })
    }
}

impl Device for Follower<'_> {
    ghost use Rattle.std.specs.Prelude.{false, None};

    ghost fresh = { λ follower. follower.fresh };

    ghost meaning = { λ _. record { name = None; cut = false; given = None; told = None; left = None } };

    fn begin(&mut self, _alloc: Global, _name: &[u8], _script: &[u8]) -> Begun {
        self.fresh = false;
        Begun::Ready
    }

    fn serve(&mut self, _action: &[u8], _asked: bool) -> Served {
        Served::Nothing
    }

    fn idle(&mut self) -> Idle {
        let lines = self.lines.load(Ordering::SeqCst);
        self.saw = self.saw.wrapping_mul(10).wrapping_add(lines);
        match self.posts.pop() {
            Some(text) => Idle::Post(text),
            None => Idle::Close,
        }
    }
}

/// What a run in rounds with a scribe comes to: whether a write has failed, and the answer.
type Came = (bool, Option<Answer>);

fn written<K: Sink>(
    alloc: Global,
    agent: &Agent,
    out: &mut K,
    devices: &mut [Follower<'_>],
) -> Result<Option<Came>, NoMemory>
    requires { WellFormed agent.now }
{
    if devices.len() < agent.devices.len() {
        return Ok(None);
    }
    let pen = Pen::new(alloc, agent)?;
    let mut journal = Journal::new(alloc, agent)?;
    let mut scribe = Scribe::new(pen, out);
    run_inline(&mut scribe, devices, agent, &mut journal);
    Ok(Some((scribe.faulted(), scribe.answer())))
}

/// The same over a sink that counts lines, with the numbers that the device saw, and how many there were.
fn followed(alloc: Global, agent: &Agent) -> Result<(Option<Came>, u64, u64), NoMemory>
    requires { WellFormed agent.now }
{
    let lines = AtomicU64::new(0);
    let mut out = Counting { lines: &lines };
    let mut devices = [Follower::new(alloc, &lines)?];
    let came = written(alloc, agent, &mut out, &mut devices)?;
    Ok((came, devices[0].saw, lines.load(Ordering::SeqCst)))
}

/// The same over a sink whose second call fails, and whether it took the first line alone.
fn cut_short(alloc: Global, agent: &Agent) -> Result<(Option<Came>, bool), NoMemory>
    requires { WellFormed agent.now }
{
    let lines = AtomicU64::new(0);
    let fails = List::copy_of(alloc, &[1])?;
    let mut out = MemSink::new(alloc, 1000, fails)?;
    let mut devices = [Follower::new(alloc, &lines)?];
    let came = written(alloc, agent, &mut out, &mut devices)?;
    Ok((came, out.bytes() == b"0 exo one tick\n".as_slice()))
}

fn followed_all(alloc: Global) -> Result<(Option<Came>, u64, u64), NoMemory> {
    match agent_of(alloc, AGENT) {
        Some(agent) => {
            let followed = followed(alloc, &agent);
            drop(agent);
            followed
        }
        None => Ok((None, 0, 0)),
    }
}

fn all_cut_short(alloc: Global) -> Result<(Option<Came>, bool), NoMemory> {
    match agent_of(alloc, AGENT) {
        Some(agent) => {
            let cut_short = cut_short(alloc, &agent);
            drop(agent);
            cut_short
        }
        None => Ok((None, false)),
    }
}

// The device saw none, two and four lines: in each round its post, and the step that the program took behind it.
#[test]
fn each_line_is_seen_with_its_entry(rt: HostRuntime) -> Result<(), NoMemory> {
    let told = followed_all(rt.alloc())?;
    same(
        &rt,
        "lines",
        told,
        (Some((false, Some(Answer::Done))), 24, 6),
    );
    Ok(())
}

#[test]
fn nothing_is_written_after_a_fault(rt: HostRuntime) -> Result<(), NoMemory> {
    let told = all_cut_short(rt.alloc())?;
    same(
        &rt,
        "cut short",
        told,
        (Some((true, Some(Answer::Done))), true),
    );
    Ok(())
}
