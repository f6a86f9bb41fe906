// A test of `Line`.
ghost use Rattle.std.specs.Prelude.{◌≡◌, ◌≤◌, IfSome, length, option_copied, false};
ghost use Rattle.golog_semantics.specs.Reports.{IsReport};
ghost use Rattle.golog_semantics.specs.InSorts.{AreInSorts};
ghost use Rattle.golog_semantics.specs.WellFormed.{WellFormed};

use crate::asserting::same;
use golog_base::{Bytes, List, NoMemory};
use golog_file::read_agent;
use golog_progress::{State, start};
use golog_reports::read_journal;
use golog_semantics::Report;
use golog_text::{Line, run_here};
use golog_tree::{Agent, Label};
use std::alloc::Global;

/// An action with a name, a device and three arguments, each of 31 bytes, and one without arguments.
const WIDE: &[u8] = b"(agent
    (device d23456789-123456789-123456789-1)
    (sort place c23456789-123456789-123456789-1)
    (action a23456789-123456789-123456789-1 (place place place) d23456789-123456789-123456789-1)
    (action up ())
    (main nil))";

/// The text of the ground action of the wide one.
const ACTION: &[u8] = b"a23456789-123456789-123456789-1(\
c23456789-123456789-123456789-1,c23456789-123456789-123456789-1,c23456789-123456789-123456789-1)";

/// How many labels the run of the longest line has.
const LABELS: usize = 64;

/// Whether the run has more labels than a line is filled with.
fn is_long(run: Option<&List<Label>>) -> bool
    ensures { result ≡ false → IfSome (option_copied run.entry) (λ labels. length labels ≤ 64) }
{
    match run {
        Some(labels) => labels.len() > LABELS,
        None => false,
    }
}

/// Whether the room is filled with this line for the first entry of a report.
fn is_first_line(
    line: &mut Line,
    agent: &Agent,
    before: &State,
    report: &Report,
    text: &[u8],
) -> bool
    requires formed { WellFormed agent.now }
    requires sorts { AreInSorts agent.now before.now }
    requires report { IsReport agent.now report.now }
{
    let entries = report.entries.as_slice();
    let runs = report.runs.as_slice();
    let run = run_here(runs, 0);
    if is_long(run) {
        return false;
    }
    match entries.first() {
        Some(entry) => line.fill(agent, 0, *entry, before, run) == text,
        None => false,
    }
}

/// Whether the room is filled with this line for the entry that it says.
fn is_filled(line: &mut Line, alloc: Global, agent: &Agent, before: &State, text: &[u8]) -> bool
    requires formed { WellFormed agent.now }
    requires sorts { AreInSorts agent.now before.now }
{
    let read = read_journal(alloc, agent, text);
    let answer = match &read {
        Ok(report) => is_first_line(line, agent, before, report, text),
        Err(_fault) => false,
    };
    drop(read);
    answer
}

/// The longest line of the wide agent at the first place.
fn longest(alloc: Global) -> Result<Bytes, NoMemory> {
    let mut text = Bytes::new(alloc);
    text.extend(b"0 do ")?;
    text.extend(ACTION)?;
    text.extend(b" @d23456789-123456789-123456789-1 run ")?;
    text.extend(ACTION)?;
    for _ in 1..LABELS {
        text.extend(b"; ")?;
        text.extend(ACTION)?;
    }
    text.extend(b"\n")?;
    Ok(text)
}

/// Whether the same room is filled with the longest line, and then with short ones alone.
fn is_filled_again(alloc: Global, agent: &Agent) -> Result<[bool; 4], NoMemory>
    requires { WellFormed agent.now }
{
    let text = longest(alloc)?;
    let before = start(alloc, agent)?;
    let mut line = Line::new(alloc)?;
    Ok([
        is_filled(&mut line, alloc, agent, &before, text.as_slice()),
        is_filled(&mut line, alloc, agent, &before, b"0 test run -; up\n"),
        is_filled(&mut line, alloc, agent, &before, b"0 do up\n"),
        is_filled(&mut line, alloc, agent, &before, text.as_slice()),
    ])
}

/// The same, where there is memory for it.
fn is_filled_where_there_is_room(alloc: Global, agent: &Agent) -> [bool; 4]
    requires { WellFormed agent.now }
{
    match is_filled_again(alloc, agent) {
        Ok(answer) => answer,
        Err(NoMemory) => [false; 4],
    }
}

/// The same of the wide agent.
fn wide_is_filled(alloc: Global) -> [bool; 4] {
    let read = read_agent(alloc, WIDE);
    let answer = match &read {
        Ok(agent) => is_filled_where_there_is_room(alloc, agent),
        Err(_fault) => [false; 4],
    };
    drop(read);
    answer
}

#[test]
fn the_longest_line_fits_and_the_next_stands_alone(rt: HostRuntime) {
    same(&rt, "lines", wide_is_filled(rt.alloc()), [true; 4]);
}
