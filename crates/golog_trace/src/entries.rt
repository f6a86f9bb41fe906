// The lines of the entries of a report, each with the ground fluents whose value the entry changed.
ghost use Rattle.std.specs.Prelude.{◌≡◌, ◌<◌, ◌++◌, OnOk};
ghost use Rattle.golog_semantics.specs.InSorts.{AreInSorts};
ghost use Rattle.golog_semantics.specs.Progress.{after_entry, values_after};
ghost use Rattle.golog_semantics.specs.Reports.{IsReport, entry_limit};
ghost use Rattle.golog_semantics.specs.Text.{run_at};
ghost use Rattle.golog_semantics.specs.WellFormed.{WellFormed};
ghost use Rattle.golog_text.specs.Filled.{full_line};
ghost use Rattle.golog_text.specs.Named.{AreFrom, AreNamed, IsNamed};
ghost use Rattle.golog_trace.specs.Traced.{entries_text, entry_text};

use crate::changes::Happening;
use golog_base::{Bytes, NoMemory};
use golog_progress::State;
use golog_semantics::{Entry, PlacedRun, Report};
use golog_text::{Line, run_here, runs_behind};
use golog_tree::Agent;
use std::alloc::Global;

/// An entry at its place, with the runs that begin from there on.
#[derive(Clone, Copy)]
struct Placed<'a> {
    place: usize,
    entry: Entry,
    runs: &'a [PlacedRun],
}

/// Adds the line of an entry.
fn add_line(
    text: &mut Bytes,
    line: &mut Line,
    agent: &Agent,
    before: &State,
    here: &Placed<'_>,
) -> Result<(), NoMemory>
    requires formed { WellFormed agent.now }
    requires sorts { AreInSorts agent.now before.now }
    requires place { here.now.place < entry_limit }
    requires in_order { AreFrom here.now.place here.now.runs.now }
    requires runs { AreNamed agent.now here.now.runs.now }
    requires entry { IsNamed agent.now here.now.entry }
    ensures { OnOk result (text.new ≡ text.old
        ++ full_line agent.now here.now.place before.now (run_at here.now.runs.now here.now.place) here.now.entry) }
{
    let run = run_here(here.runs, here.place);
    text.extend(line.try_fill(agent, here.place as u32, here.entry, before, run)?)
}

/// Adds the line of an entry and the ground fluents that it changed. The state is the one before the entry, and then the
/// one after it.
fn add_entry(
    text: &mut Bytes,
    line: &mut Line,
    state: &mut State,
    alloc: Global,
    agent: &Agent,
    here: &Placed<'_>,
) -> Result<(), NoMemory>
    requires formed { WellFormed agent.now }
    requires sorts { AreInSorts agent.now state.old }
    requires place { here.now.place < entry_limit }
    requires in_order { AreFrom here.now.place here.now.runs.now }
    requires runs { AreNamed agent.now here.now.runs.now }
    requires entry { IsNamed agent.now here.now.entry }
    ensures text { OnOk result (text.new ≡ text.old
        ++ entry_text agent.now here.now.runs.now here.now.place state.old here.now.entry) }
    ensures values { OnOk result (state.new ≡ after_entry agent.now state.old here.now.entry) }
    ensures sorts { OnOk result (AreInSorts agent.now state.new) }
{
    add_line(text, line, agent, state, here)?;
    let before = state.copy(alloc)?;
    state.roll(agent, &[here.entry]);
    let happening = Happening {
        alloc,
        agent,
        entry: here.entry,
        before: before.values(),
    };
    happening.add_changes(text, state.values())
}

/// Adds the lines of a report's entries, each with the ground fluents that the entry changed. The values are those that
/// the report starts from, and then those after all entries.
pub fn add_entries(
    text: &mut Bytes,
    line: &mut Line,
    state: &mut State,
    alloc: Global,
    agent: &Agent,
    report: &Report,
) -> Result<(), NoMemory>
    requires formed { WellFormed agent.now }
    requires report { IsReport agent.now report.now }
    requires values { state.old ≡ agent.now.starts }
    requires sorts { AreInSorts agent.now state.old }
    ensures text { OnOk result (text.new ≡ text.old
        ++ entries_text agent.now report.now.runs 0 agent.now.starts report.now.entries) }
    ensures values { OnOk result (state.new ≡ values_after agent.now report.now.entries) }
    ensures sorts { OnOk result (AreInSorts agent.now state.new) }
{
    let mut runs = report.runs.as_slice();
    for (place, entry) in report.entries.as_slice().iter().enumerate() {
        let here = Placed {
            place,
            entry: *entry,
            runs,
        };
        add_entry(text, line, state, alloc, agent, &here)?;
        runs = runs_behind(runs, place);
    }
    Ok(())
}
