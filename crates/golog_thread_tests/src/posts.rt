//! A test of two devices that post 2,000 actions each beside a program that steps all the time: all
//! stand there, in order.
ghost use Rattle.golog_semantics.specs.WellFormed.{WellFormed};

use crate::asserting::same;
use crate::runs::{agent_of, answer_in, posts_of, report_over};
use golog_base::{Bytes, List, NoMemory};
use golog_device::{Begun, Idle, TableDevice};
use golog_ground::read_action;
use golog_journal::Report;
use golog_semantics::Answer;
use golog_tree::Agent;
use std::alloc::Global;
use std::sync::Wait;
use std::thread::Threads;

/// A program that steps until both devices have finished.
const AGENT: &[u8] = b"(agent (sort mark 0 99) (sort who 1 2) (device one) (device two)
    (fluent over (who) bool false) (action step ())
    (exo tick (mark) one two) (exo finish (who) one two) (causes (finish w) (over w) true)
    (main (while (not (and (over 1) (over 2))) (act step))))";

/// How many marks there are.
const MARKS: u32 = 100;

/// How many ticks a device posts.
const TICKS: u32 = 2_000;

/// A device that posts ticks, each with the next mark, then that it has finished, and closes.
fn clock_of(alloc: Global, who: u32) -> Result<TableDevice, NoMemory> {
    let idles = idles_of(alloc, who)?;
    TableDevice::new(alloc, Begun::Ready, List::new(alloc), idles)
}

fn idles_of(alloc: Global, who: u32) -> Result<List<Idle>, NoMemory> {
    let mut idles = List::new(alloc);
    for tick in 0..TICKS {
        idles.push(Idle::Post(text_of(alloc, "tick", mark_of(tick))?))?;
    }
    idles.push(Idle::Post(text_of(alloc, "finish", who)?))?;
    Ok(idles)
}

// The mark of a tick.
fn mark_of(tick: u32) -> u32 {
    tick % MARKS
}

// The text of an action with one argument.
fn text_of(alloc: Global, action: &str, argument: u32) -> Result<Bytes, NoMemory> {
    let text = format!(in alloc; "{action}({argument})")?;
    List::copy_of(alloc, text.as_bytes())
}

/// The first place where a device's posts, if anywhere, aren't its ticks in order and behind them that it has
/// finished. The last place also where there are more or fewer.
fn fault_in(
    alloc: Global,
    agent: &Agent,
    report: &Report,
    device: u8,
) -> Result<Option<u32>, NoMemory>
    requires formed { WellFormed agent.now }
{
    let wanted = finish_of(alloc, agent, device)?;
    let posts = posts_of(alloc, report.entries.as_slice(), device)?;
    Ok(match (read_action(agent, b"tick(0)"), wanted) {
        (Some(first), Some(wanted)) => fault_among(posts.as_slice(), first, wanted),
        _ => Some(0),
    })
}

/// The action by which a device says that it has finished.
fn finish_of(alloc: Global, agent: &Agent, device: u8) -> Result<Option<u32>, NoMemory>
    requires formed { WellFormed agent.now }
{
    let text = text_of(alloc, "finish", device as u32 + 1)?;
    Ok(read_action(agent, text.as_slice()))
}

/// The first place where these aren't the ticks, from the first one on, and behind them the last action.
fn fault_among(posts: &[u32], first: u32, last: u32) -> Option<u32> {
    if posts.len() != TICKS as usize + 1 {
        return Some(TICKS);
    }
    for (place, action) in (0..TICKS + 1).zip(posts) {
        let tick = first.wrapping_add(mark_of(place));
        if *action != if place < TICKS { tick } else { last } {
            return Some(place);
        }
    }
    None
}

/// The faults in both devices' posts, and how the program ended.
type Told = ([Option<u32>; 2], Option<Answer>);

fn told_by(alloc: Global, agent: &Agent, report: &Report) -> Result<Told, NoMemory>
    requires formed { WellFormed agent.now }
{
    let one = fault_in(alloc, agent, report, 0)?;
    let two = fault_in(alloc, agent, report, 1)?;
    Ok(([one, two], answer_in(report.entries.as_slice())))
}

fn tick_with<R: Threads + Wait + Sync>(
    rt: &R,
    alloc: Global,
    agent: &Agent,
    devices: &mut [TableDevice],
) -> Result<Option<Told>, NoMemory>
    requires formed { WellFormed agent.now }
{
    match report_over(rt, alloc, agent, devices) {
        Ok(Some(report)) => {
            let told = told_by(alloc, agent, &report);
            drop(report);
            match told {
                Ok(told) => Ok(Some(told)),
                Err(error) => Err(error),
            }
        }
        Ok(None) => Ok(None),
        Err(error) => Err(error),
    }
}

fn tick<R: Threads + Wait + Sync>(
    rt: &R,
    alloc: Global,
    agent: &Agent,
) -> Result<Option<Told>, NoMemory>
    requires formed { WellFormed agent.now }
{
    let one = clock_of(alloc, 1)?;
    let two = clock_of(alloc, 2)?;
    let mut devices = [one, two];
    tick_with(rt, alloc, agent, &mut devices)
}

fn tick_all<R: Threads + Wait + Sync>(rt: &R, alloc: Global) -> Result<Option<Told>, NoMemory> {
    match agent_of(alloc, AGENT) {
        Some(agent) => {
            let told = tick(rt, alloc, &agent);
            drop(agent);
            told
        }
        None => Ok(None),
    }
}

#[test]
fn posts_stand_in_order_and_whole(rt: HostRuntime) -> Result<(), NoMemory> {
    let told = tick_all(&rt, rt.alloc())?;
    same(&rt, "posts", told, Some(([None, None], Some(Answer::Done))));
    Ok(())
}
