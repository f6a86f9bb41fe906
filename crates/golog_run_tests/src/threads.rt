// Tests of runs over threads: devices that wait for each other, and one that posts while the
// program steps.
use crate::actors::{Actors, Part};
use crate::asserting::same;
use crate::calls::{Call, NO_FILE, Setting};
use crate::slots::{Maker, threaded_with};
use crate::tables::Table;
use golog_base::NoMemory;
use golog_device::Device;
use std::alloc::Global;
use std::sync::Wait;
use std::sync::atomic::AtomicU64;
use std::thread::Threads;

/// The words of a run over threads without scripts.
const RUN: &[&str] = &["run", "x.agent"];

/// Such a run of an agent file of these bytes.
fn run_of(agent: &[u8]) -> Setting<'_> {
    Setting::roomy(RUN, ("x.agent", agent), NO_FILE)
}

/// Runs it over devices of the maker.
fn ran_with<R: Threads + Wait + Sync, D: Device + Send, M: Maker<D>>(
    rt: &R,
    alloc: Global,
    agent: &[u8],
    maker: &M,
) -> Result<Call, NoMemory> {
    threaded_with(rt, alloc, &run_of(agent), maker)
}

/// A program that waits for devices that post once and close.
const MEETING: &[u8] = b"(agent (device one) (device two) (fluent over () bool false)
    (exo met () one two) (main (test (over))))";

/// Runs it over devices of which each posts when the other has come to that too, which they tell by these counts.
fn met_by<'a, R: Threads + Wait + Sync>(
    threads: &R,
    rt: &HostRuntime,
    one: &'a AtomicU64,
    two: &'a AtomicU64,
) -> Result<Call, NoMemory> {
    let part = Part {
        awaited: 1,
        ..Part::of("", "met")
    };
    let actors = Actors {
        clock: rt,
        first: part,
        others: part,
        one,
        two,
    };
    ran_with(threads, rt.alloc(), MEETING, &actors)
}

/// The same from the first word on.
fn met<R: Threads + Wait + Sync>(threads: &R, rt: &HostRuntime) -> Result<Call, NoMemory> {
    let (one, two) = (AtomicU64::new(0), AtomicU64::new(0));
    met_by(threads, rt, &one, &two)
}

/// The status of a call, and whether what it wrote has all these lines and ends so.
fn status_if(call: &Call, lines: &[&str], end: &str) -> (u8, bool) {
    let (status, text) = call.said();
    let has_all = lines.iter().all(|line| text.contains(*line));
    (status, has_all && text.ends_with(end))
}

// Two devices that wait for each other meet: each has a thread of its own.
#[test]
fn devices_meet(rt: HostRuntime) -> Result<(), NoMemory> {
    let lines = [
        " exo one met\n",
        " exo two met\n",
        " close one ended 0\n",
        " close two ended 0\n",
    ];
    let call = met(&rt, &rt)?;
    same(
        &rt,
        "meeting",
        status_if(&call, &lines, "4 end stuck\n"),
        (10, true),
    );
    Ok(())
}

/// A program that goes on and on until a device stops it.
const STOPPED: &[u8] =
    b"(agent (device one) (fluent over () bool false) (action a ()) (exo stop () one)
    (causes (stop) (over) true) (main (while (not (over)) (act a))))";

// A device posts while the program goes on and on, and stops it.
#[test]
fn a_device_posts_while_the_program_steps(rt: HostRuntime) -> Result<(), NoMemory> {
    let lines = [" exo one stop\n", " end done\n"];
    let call = ran_with(&rt, rt.alloc(), STOPPED, &Table::of("", "stop"))?;
    same(&rt, "stopped", status_if(&call, &lines, ""), (0, true));
    Ok(())
}
