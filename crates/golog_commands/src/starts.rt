// The values that a run, a replay or a question starts from where a journal gives them, and the
// head that tells them.
ghost use Rattle.std.specs.Prelude.{◌≡◌, IfOk, IfErr, IfSome, MatchResult, OnOk, option_map, unwrap_or};
ghost use Rattle.golog_semantics.specs.InSorts.{AreInSorts};
ghost use Rattle.golog_semantics.specs.Reports.{IsReport};
ghost use Rattle.golog_semantics.specs.Restart.{migrated, started, values_left};
ghost use Rattle.golog_semantics.specs.WellFormed.{WellFormed};
ghost use Rattle.golog_commands.specs.Inputs.{LeavesValues, Reads, ReadsStart, RefusesJournal};
ghost use Rattle.golog_commands.specs.Outcome.{FileFails, IfEnded, Never, OfFrom};
ghost use Rattle.golog_commands.specs.Runs.{head_of};
ghost use Rattle.golog_commands.specs.declared.outcome.Input.TheVariants.{Journal as JournalFile};

use crate::ready::{Told, Unready, told_in};
use golog_base::{Bytes, Files, List, NoMemory};
use golog_progress::{State, restart};
use golog_semantics::Report;
use golog_text::head_text;
use golog_tree::Agent;
use std::alloc::Global;

/// The agent starts from these values now, if there are some. Else, and where memory runs out, it stays as it was.
pub fn restart_at(
    alloc: Global,
    agent: &mut Agent,
    start: &Option<List<u8>>,
) -> Result<(), NoMemory>
    requires formed { WellFormed agent.old }
    requires sorts { IfSome start.now (AreInSorts agent.old) }
    ensures started { MatchResult result (λ _. agent.new ≡ started agent.old start.now)
        (λ _. agent.new ≡ agent.old) }
    ensures formed { WellFormed agent.new }
    ensures kept { IfSome start.now (AreInSorts agent.new) }
{
    match start {
        Some(values) => restart(alloc, agent, values.as_slice()),
        None => Ok(()),
    }
}

/// The head of a journal with this start; nothing where it has none.
pub fn head_of(alloc: Global, agent: &Agent, start: &Option<List<u8>>) -> Result<Bytes, NoMemory>
    requires formed { WellFormed agent.now }
    requires sorts { IfSome start.now (AreInSorts agent.now) }
    ensures { IfOk result (λ head. head ≡ head_of agent.now start.now) }
{
    match start {
        Some(values) => head_text(alloc, agent, values.as_slice()),
        None => Ok(Bytes::new(alloc)),
    }
}

// The values that the journal file of this name leaves to a run of the agent; none where there is no name.
pub(crate) fn start_in<F: Files>(
    alloc: Global,
    files: &mut F,
    name: Option<&str>,
    agent: &Agent,
) -> Result<Option<List<u8>>, Unready>
    requires { WellFormed agent.now }
    ensures sorts { IfOk result (λ start. IfSome start (AreInSorts agent.now)) }
    ensures reads { IfOk result (ReadsStart (F.held files.old) agent.now (option_map (λ file. file.now) name.entry)) }
    ensures unready { IfErr result (λ fault. IfEnded fault
        (OfFrom (F.held files.old) (F.faults files.old) (F.faults files.new) agent.now
        (option_map (λ file. file.now) name.entry) Never)) }
{
    match name {
        Some(name) => match values_under(alloc, files, name, agent) {
            Ok(values) => Ok(Some(values)),
            Err(unready) => Err(unready),
        },
        None => Ok(None),
    }
}

// The values that the journal file of this name leaves to a run of the agent.
fn values_under<F: Files>(
    alloc: Global,
    files: &mut F,
    name: &str,
    agent: &Agent,
) -> Result<List<u8>, Unready>
    requires { WellFormed agent.now }
    ensures sorts { IfOk result (AreInSorts agent.now) }
    ensures reads { IfOk result (λ values. Reads (F.held files.old) name.now
        (λ bytes. LeavesValues agent.now bytes values)) }
    ensures unready { IfErr result (λ fault. IfEnded fault (FileFails JournalFile (RefusesJournal agent.now)
        (F.held files.old) name.now (F.faults files.old) (F.faults files.new))) }
{
    match told_in(alloc, files, name, agent) {
        Ok(told) => values_of(alloc, agent, told),
        Err(unready) => Err(unready),
    }
}

// The values that a journal leaves which was read. What was read is let go.
fn values_of(alloc: Global, agent: &Agent, told: Told) -> Result<List<u8>, Unready>
    requires formed { WellFormed agent.now }
    requires fits { IsReport agent.now told.report }
    ensures left { IfOk result (λ values. values ≡ values_left agent.now told.report) }
    ensures sorts { IfOk result (AreInSorts agent.now) }
    ensures memory { IfErr result (λ fault. fault ≡ Unready.Memory) }
{
    let values = values_left(alloc, agent, &told.report);
    drop(told);
    match values {
        Ok(values) => Ok(values),
        Err(NoMemory) => Err(Unready::Memory),
    }
}

// The values that a report leaves to the next run.
fn values_left(alloc: Global, agent: &Agent, report: &Report) -> Result<List<u8>, NoMemory>
    requires formed { WellFormed agent.now }
    requires fits { IsReport agent.now report.now }
    ensures left { IfOk result (λ values. values ≡ values_left agent.now report.now) }
    ensures sorts { IfOk result (AreInSorts agent.now) }
{
    let mut state = first_of(alloc, agent, report)?;
    state.roll(agent, report.entries.as_slice());
    state.after_sense(0, 0);
    let values = List::copy_of(alloc, state.values());
    drop(state);
    values
}

// The state before the entries of a report.
fn first_of(alloc: Global, agent: &Agent, report: &Report) -> Result<State, NoMemory>
    requires formed { WellFormed agent.now }
    requires fits { IsReport agent.now report.now }
    ensures values { IfOk result (λ state. state ≡ unwrap_or report.now.start agent.now.starts) }
    ensures sorts { IfOk result (λ state. AreInSorts agent.now state) }
{
    match &report.start {
        Some(values) => State::of(alloc, agent, values.as_slice()),
        None => State::of(alloc, agent, agent.starts.as_slice()),
    }
}

// The report has its start written out: its own, or else the agent's.
pub(crate) fn put_start(alloc: Global, agent: &Agent, report: &mut Report) -> Result<(), NoMemory>
    requires formed { WellFormed agent.now }
    requires fits { IsReport agent.now report.old }
    ensures start { OnOk result (report.new ≡ migrated agent.now report.old) }
    ensures fits { OnOk result (IsReport agent.now report.new) }
{
    if report.start.is_some() {
        return Ok(());
    }
    let values = List::copy_of(alloc, agent.starts.as_slice())?;
    report.start = Some(values);
    Ok(())
}
