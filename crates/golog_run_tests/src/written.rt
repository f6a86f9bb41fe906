//! Tests of journals that are written while the program runs: a device sees how many lines of a
//! call are written in each round, and one on a thread of its own posts once two are.
use crate::actors::{Actor, Actors, Part};
use crate::asserting::same;
use crate::calls::{NO_FILE, Setting, served_to, threaded_to};
use crate::slots::{Maker, sixteen};
use golog_base::{Bytes, Failed, List, NoMemory, Sink};
use golog_device::{Begun, Device, Idle, Served};
use std::alloc::Global;
use std::sync::Wait;
use std::sync::atomic::{AtomicU64, Ordering};
use std::thread::Threads;

/// A program of two steps beside a device that posts.
const AGENT: &[u8] =
    b"(agent (device one) (action step ()) (exo tick () one) (main (seq (act step) (act step))))";

/// A sink that counts the lines that are written to it. A write that is no line counts as a hundred.
#[derive(Drop)]
struct Counting<'a> {
    lines: &'a AtomicU64,
}

// Whether the bytes are a line with its line feed.
fn is_line(bytes: &[u8]) -> bool {
    match bytes.iter().position(|byte| *byte == b'\n') {
        Some(place) => place + 1 == bytes.len(),
        None => false,
    }
}

impl Sink for Counting<'_> {
    ghost use Rattle.std.specs.Prelude.{None};

    ghost taken = { λ _. None };

    ghost faults = { λ _. 0 };

    fn write(&mut self, bytes: &[u8]) -> Result<usize, Failed> {
        let count = if is_line(bytes) { 1 } else { 100 };
        self.lines.fetch_add(count, Ordering::SeqCst);
        Ok(bytes.len())
    }
}

/// A device that looks how many lines are written whenever it may post. It posts twice, and closes.
#[derive(Drop)]
struct Follower<'a> {
    fresh: bool,
    lines: &'a AtomicU64,
    posts: Vec<Bytes>,
    /// The numbers of lines that it saw, each as a digit.
    saw: u64,
}

impl Device for Follower<'_> {
    ghost use Rattle.std.specs.Prelude.{false, None};

    ghost fresh = { λ follower. follower.fresh };

    ghost meaning = { λ _. record { name = None; cut = false; given = None; told = None; left = None } };

    fn begin(&mut self, _alloc: Global, _name: &[u8], _script: &[u8]) -> Begun {
        self.fresh = false;
        Begun::Ready
    }

    fn serve(&mut self, _action: &[u8], _asked: bool) -> Served {
        Served::Nothing
    }

    fn idle(&mut self) -> Idle {
        let lines = self.lines.load(Ordering::SeqCst);
        self.saw = self.saw.wrapping_mul(10).wrapping_add(lines);
        match self.posts.pop() {
            Some(text) => Idle::Post(text),
            None => Idle::Close,
        }
    }
}

/// Makes them.
#[derive(Drop)]
struct Following<'a> {
    lines: &'a AtomicU64,
}

impl<'a> Maker<Follower<'a>> for Following<'a> {
    fn device_at(&self, alloc: Global, _slot: usize) -> Result<Follower<'a>, NoMemory> {
        let mut posts = Vec::new(alloc);
        posts.push(List::copy_of(alloc, b"tick")?)?;
        posts.push(List::copy_of(alloc, b"tick")?)?;
        Ok(Follower {
            fresh: true,
            lines: self.lines,
            posts,
            saw: 0,
        })
    }
}

/// The exit status of a call, the numbers of lines that its device saw, and how many there were.
fn followed(alloc: Global) -> Result<(u8, u64, u64), NoMemory> {
    let lines = AtomicU64::new(0);
    let following = Following { lines: &lines };
    let mut devices = sixteen::<Follower<'_>, Following<'_>>(alloc, &following)?;
    let mut out = Counting { lines: &lines };
    let setting = Setting::run(AGENT);
    let status = served_to(alloc, &setting, &mut out, devices.as_mut_slice());
    let saw = match devices.as_slice().first() {
        Some(device) => device.saw,
        None => 0,
    };
    drop(devices);
    match status {
        Ok(status) => Ok((status, saw, lines.load(Ordering::SeqCst))),
        Err(NoMemory) => Err(NoMemory),
    }
}

// The device saw none, two and four lines: in each round its post, and the step that the program took behind it. A call
// that wrote the journal at the end of its run would have shown it none.
#[test]
fn each_line_of_a_call_is_seen_with_its_entry(rt: HostRuntime) -> Result<(), NoMemory> {
    same(&rt, "lines", followed(rt.alloc())?, (0, 24, 6));
    Ok(())
}

/// The words of a run over threads.
const ON_THREADS: &[&str] = &["run", "x.agent"];

/// A program of two steps, which goes on where its device says so.
const WAITING: &[u8] =
    b"(agent (device one) (fluent over () bool false) (action step ()) (exo stop () one)
    (causes (stop) (over) true) (main (seq (act step) (act step) (test (over)))))";

/// The exit status of a call over threads whose device awaits two lines before it posts, and how many lines there were.
fn followed_on_threads<R: Threads + Wait + Sync>(
    threads: &R,
    rt: &HostRuntime,
) -> Result<(u8, u64), NoMemory> {
    let (come, lines) = (AtomicU64::new(0), AtomicU64::new(0));
    let part = Part {
        awaited: 2,
        ..Part::of("", "stop")
    };
    let actors = Actors {
        clock: rt,
        first: part,
        others: part,
        one: &come,
        two: &lines,
    };
    let alloc = rt.alloc();
    let mut devices = sixteen::<Actor<'_, '_, HostRuntime>, _>(alloc, &actors)?;
    let mut out = Counting { lines: &lines };
    let setting = Setting::of(ON_THREADS, ("x.agent", WAITING), NO_FILE);
    let status = threaded_to(threads, alloc, &setting, &mut out, devices.as_mut_slice());
    drop(devices);
    match status {
        Ok(status) => Ok((status, lines.load(Ordering::SeqCst))),
        Err(NoMemory) => Err(NoMemory),
    }
}

// The lines of the two steps are written while the program waits for the device, which posts behind them. It would wait
// in vain for those of a call that wrote the journal at the end of its run, and the program would be stuck.
#[test]
fn each_line_over_threads_is_seen_with_its_entry(rt: HostRuntime) -> Result<(), NoMemory> {
    same(&rt, "lines", followed_on_threads(&rt, &rt)?, (0, 6));
    Ok(())
}
