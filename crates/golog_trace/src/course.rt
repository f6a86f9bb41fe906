// `followed`: the program that is left behind the entries of a journal.
ghost use Rattle.std.specs.Prelude.{◌≡◌, IfOk, IfSome, IsTrue};
ghost use Rattle.golog_semantics.specs.InSorts.{AreInSorts};
ghost use Rattle.golog_semantics.specs.Online.{label_of as label_in};
ghost use Rattle.golog_semantics.specs.ProgFits.{fits};
ghost use Rattle.golog_semantics.specs.WellFormed.{WellFormed};
ghost use Rattle.golog_progress.specs.Entries.{EntriesFit};
ghost use Rattle.golog_search.specs.Decided.{decision};
ghost use Rattle.golog_trace.specs.Followed.{FollowedIsLeft, followed as followed_by, left_behind, left_if as left_where};

use golog_base::NoMemory;
use golog_memo::is_same_label;
use golog_progress::{State, start};
use golog_search::{Decision, decide_unbounded};
use golog_semantics::{Entry, Move};
use golog_tree::{Agent, Label, Prog, copy_prog};
use std::alloc::Global;

/// What is followed to is what is left.
pub fn followed_is_left()
    ensures { FollowedIsLeft }
{}

/// The label of a step.
fn label_of(entry: Entry) -> Option<Label>
    ensures { result ≡ label_in entry }
{
    match entry {
        Entry::Do { action } => Some(Label::Do(action)),
        Entry::Test => Some(Label::Quiet),
        Entry::Exo { .. }
        | Entry::Sense { .. }
        | Entry::Rest { .. }
        | Entry::Close { .. }
        | Entry::End { .. } => None,
    }
}

/// What a step leaves, if it has this label.
fn left_if_same(label: Label, step: Move) -> Option<Prog>
    ensures { result ≡ left_where label (Decision.Step step) }
{
    let same = is_same_label(label, step.label);
    let Move { left, run, .. } = step;
    drop(run);
    if same {
        return Some(left);
    }
    drop(left);
    None
}

/// What a decision leaves, if it is a step of this label.
fn left_if(label: Label, decision: Decision) -> Option<Prog>
    ensures { result ≡ left_where label decision }
{
    match decision {
        Decision::Step(step) => left_if_same(label, step),
        _ => None,
    }
}

/// What a program leaves that does this step next; `None` where it does another, or none.
fn stepped(
    alloc: Global,
    agent: &Agent,
    prog: Prog,
    state: &State,
    label: Label,
) -> Result<Option<Prog>, NoMemory>
    requires formed { WellFormed agent.now }
    requires program { IsTrue (fits agent.now prog) }
    requires sorts { AreInSorts agent.now state.now }
    ensures { IfOk result (λ left. left ≡ left_where label (decision agent.now state.now prog)) }
{
    let decision = decide_unbounded(alloc, agent, &prog, state);
    drop(prog);
    Ok(left_if(label, decision?))
}

/// What a program leaves behind an entry; `None` where the entry is a step, and the program does another next, or none.
fn along(
    alloc: Global,
    agent: &Agent,
    prog: Prog,
    state: &State,
    entry: Entry,
) -> Result<Option<Prog>, NoMemory>
    requires formed { WellFormed agent.now }
    requires program { IsTrue (fits agent.now prog) }
    requires sorts { AreInSorts agent.now state.now }
    ensures { IfOk result (λ left. left ≡ left_behind agent.now state.now prog entry) }
{
    match label_of(entry) {
        Some(label) => stepped(alloc, agent, prog, state, label),
        None => Ok(Some(prog)),
    }
}

/// The program that is left behind the entries of a journal of the agent; `None` where one of them is a step, and the
/// program did another next, or none.
pub fn followed(alloc: Global, agent: &Agent, entries: &[Entry]) -> Result<Option<Prog>, NoMemory>
    requires formed { WellFormed agent.now }
    requires entries { EntriesFit agent.now entries.now }
    ensures followed { IfOk result (λ left. left ≡ followed_by agent.now agent.now.starts agent.now.main entries.now) }
    ensures inside { IfOk result (λ left. IfSome left (λ prog. IsTrue (fits agent.now prog))) }
{
    let mut state = start(alloc, agent)?;
    let mut left = copy_prog(alloc, &agent.main)?;
    for entry in entries {
        let behind = along(alloc, agent, left, &state, *entry)?;
        match behind {
            Some(next) => left = next,
            None => return Ok(None),
        }
        state.roll(agent, &[*entry]);
    }
    Ok(Some(left))
}
