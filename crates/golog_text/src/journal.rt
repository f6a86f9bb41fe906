// `write_journal`, which walks the entries with their places, the values before each and the runs
// from there on, and adds one line after another.
ghost use Rattle.std.specs.Prelude.{◌≡◌, ◌<◌, [], ◌++◌, IfOk, OnOk};
ghost use Rattle.std.specs.Option.{option_map_or};
ghost use Rattle.golog_semantics.specs.Progress.{values_after};
ghost use Rattle.golog_semantics.specs.Reports.{IsReport, entry_limit};
ghost use Rattle.golog_semantics.specs.Restart.{journal_text, started};
ghost use Rattle.golog_semantics.specs.InSorts.{AreInSorts};
ghost use Rattle.golog_semantics.specs.Text.{head_text, report_text, run_at};
ghost use Rattle.golog_semantics.specs.WellFormed.{WellFormed};
ghost use Rattle.golog_text.specs.Filled.{full_line};
ghost use Rattle.golog_text.specs.Named.{AreFrom, AreNamed, IsNamed};

use crate::head::add_head;
use crate::line::Line;
use crate::runs::{run_here, runs_behind};
use golog_base::{Bytes, NoMemory};
use golog_progress::{State, start};
use golog_semantics::{Entry, PlacedRun, Report};
use golog_tree::Agent;
use std::alloc::Global;

// Adds the lines of a report's entries, each of which is written in the room first. The values are those that the
// report starts from, and then those after all entries.
fn add_lines(
    text: &mut Bytes,
    line: &mut Line,
    state: &mut State,
    agent: &Agent,
    report: &Report,
) -> Result<(), NoMemory>
    requires formed { WellFormed agent.now }
    requires report { IsReport agent.now report.now }
    requires values { state.old ≡ values_after (started agent.now report.now.start) [] }
    requires sorts { AreInSorts agent.now state.old }
    ensures { OnOk result
        (text.new ≡ text.old ++ report_text (started agent.now report.now.start) report.now) }
{
    let mut runs = report.runs.as_slice();
    for (place, entry) in report.entries.as_slice().iter().enumerate() {
        add_line(text, line, agent, state, runs, place, *entry)?;
        state.roll(agent, &[*entry]);
        runs = runs_behind(runs, place);
    }
    Ok(())
}

// The values that a report starts from: its own, or those of the agent.
fn start_of(alloc: Global, agent: &Agent, report: &Report) -> Result<State, NoMemory>
    requires formed { WellFormed agent.now }
    requires report { IsReport agent.now report.now }
    ensures values { IfOk result (λ state. state ≡ values_after (started agent.now report.now.start) []) }
    ensures sorts { IfOk result (λ state. AreInSorts agent.now state) }
{
    match &report.start {
        Some(values) => State::of(alloc, agent, values.as_slice()),
        None => start(alloc, agent),
    }
}

// Adds the head of a report, where it has a start.
fn add_head_of(text: &mut Bytes, agent: &Agent, report: &Report) -> Result<(), NoMemory>
    requires formed { WellFormed agent.now }
    requires report { IsReport agent.now report.now }
    ensures { OnOk result
        (text.new ≡ text.old ++ option_map_or (head_text agent.now) report.now.start []) }
{
    match &report.start {
        Some(values) => add_head(text, agent, values.as_slice()),
        None => Ok(()),
    }
}

// Adds the text of a report to one that is empty.
fn add_report(
    text: &mut Bytes,
    line: &mut Line,
    state: &mut State,
    agent: &Agent,
    report: &Report,
) -> Result<(), NoMemory>
    requires formed { WellFormed agent.now }
    requires report { IsReport agent.now report.now }
    requires empty { text.old ≡ [] }
    requires values { state.old ≡ values_after (started agent.now report.now.start) [] }
    requires sorts { AreInSorts agent.now state.old }
    ensures { OnOk result (text.new ≡ journal_text agent.now report.now) }
{
    add_head_of(text, agent, report)?;
    add_lines(text, line, state, agent, report)
}

// The text of a report, each line of which is written in this room first.
fn write_in(
    line: &mut Line,
    alloc: Global,
    agent: &Agent,
    report: &Report,
) -> Result<Bytes, NoMemory>
    requires formed { WellFormed agent.now }
    requires report { IsReport agent.now report.now }
    ensures { IfOk result (λ text. text ≡ journal_text agent.now report.now) }
{
    let mut state = start_of(alloc, agent, report)?;
    let mut text = Bytes::new(alloc);
    let added = add_report(&mut text, line, &mut state, agent, report);
    drop(state);
    match added {
        Ok(()) => Ok(text),
        Err(fault) => {
            drop(text);
            Err(fault)
        }
    }
}

/// The text of a report: a line for each entry, which is its place, a space and what the entry says, as in
/// `3 do move(a,3) @arm`, `4 sense arm 3 true against false` or `5 end done`. A step that begins a run says
/// its labels too, as in `0 test run -; move(a,3)`. Numbers are in decimal, places from 0 on. Where the report has a
/// start, its head stands before the lines, as `head_text` gives it.
///
/// `NoMemory` comes only for want of memory.
pub fn write_journal(alloc: Global, agent: &Agent, report: &Report) -> Result<Bytes, NoMemory>
    requires formed { WellFormed agent.now }
    requires report { IsReport agent.now report.now }
    ensures { IfOk result (λ text. text ≡ journal_text agent.now report.now) }
{
    let mut line = Line::new(alloc)?;
    let text = write_in(&mut line, alloc, agent, report);
    drop(line);
    text
}

// Adds the line of an entry that stands at this place, with these values before it, and its line feed. The
// runs are those from the place on.
fn add_line(
    text: &mut Bytes,
    line: &mut Line,
    agent: &Agent,
    before: &State,
    runs: &[PlacedRun],
    place: usize,
    entry: Entry,
) -> Result<(), NoMemory>
    requires formed { WellFormed agent.now }
    requires sorts { AreInSorts agent.now before.now }
    requires place { place < entry_limit }
    requires in_order { AreFrom place runs.now }
    requires runs { AreNamed agent.now runs.now }
    requires entry { IsNamed agent.now entry }
    ensures { OnOk result (text.new
        ≡ text.old ++ full_line agent.now place before.now (run_at runs.now place) entry) }
{
    let run = run_here(runs, place);
    text.extend(line.try_fill(agent, place as u32, entry, before, run)?)
}
