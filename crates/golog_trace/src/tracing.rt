// `trace`: the text of a trace.
ghost use Rattle.std.specs.Prelude.{◌≡◌, [], ◌∷◌, ◌++◌, IfOk, IfSome, IsTrue, OnOk, codes};
ghost use Rattle.golog_semantics.specs.InSorts.{AreInSorts};
ghost use Rattle.golog_semantics.specs.ProgFits.{fits};
ghost use Rattle.golog_semantics.specs.Reports.{IsReport};
ghost use Rattle.golog_semantics.specs.WellFormed.{WellFormed};
ghost use Rattle.golog_fronts.specs.Closed.{IsClosed};
ghost use Rattle.golog_fronts.specs.FrontBlock.{has_front_block};
ghost use Rattle.golog_trace.specs.Traced.{IsTrace, TellsEnd};
ghost use Rattle.golog_trace.specs.Ways.{TellsLeft, TellsNext};

use crate::blocks::blocks_text;
use crate::course::followed;
use crate::entries::add_entries;
use crate::ways::ways_text;
use golog_base::{Bytes, NoMemory};
use golog_fronts::has_front_block;
use golog_print::print_prog;
use golog_progress::{State, start};
use golog_semantics::Report;
use golog_text::Line;
use golog_tree::{Agent, Prog};
use std::alloc::Global;

/// What the search blocks at the front of a program want, where there are some; else when it may end, and its steps.
fn next_text(alloc: Global, agent: &Agent, prog: &Prog, state: &State) -> Result<Bytes, NoMemory>
    requires formed { WellFormed agent.now }
    requires program { IsClosed agent.now prog.now }
    requires sorts { AreInSorts agent.now state.now }
    ensures { IfOk result (TellsNext agent.now state.now prog.now (has_front_block agent.now prog.now)) }
{
    if has_front_block(agent, prog) {
        blocks_text(alloc, agent, prog, state)
    } else {
        ways_text(alloc, agent, prog, state)
    }
}

/// A program's text, and what is said of it, one behind the other.
fn headed(alloc: Global, shown: &[u8], next: &[u8]) -> Result<Bytes, NoMemory>
    ensures { IfOk result (λ text. text ≡ (codes "left " ++ shown.now ++ 10 ∷ []) ++ next.now) }
{
    let mut text = Bytes::new(alloc);
    text.extend(b"left ")?;
    text.extend(shown)?;
    text.extend(b"\n")?;
    text.extend(next)?;
    Ok(text)
}

/// What is said of a program that is left in a state.
fn left_text(alloc: Global, agent: &Agent, prog: &Prog, state: &State) -> Result<Bytes, NoMemory>
    requires formed { WellFormed agent.now }
    requires program { IsTrue (fits agent.now prog.now) }
    requires sorts { AreInSorts agent.now state.now }
    ensures { IfOk result (TellsLeft agent.now state.now prog.now) }
{
    let shown = print_prog(alloc, agent, prog)?;
    let next = next_text(alloc, agent, prog, state)?;
    let text = headed(alloc, shown.as_slice(), next.as_slice())?;
    Ok(text)
}

/// What is said of the program that is left, if it is known.
fn end_text(
    alloc: Global,
    agent: &Agent,
    left: Option<Prog>,
    state: &State,
) -> Result<Bytes, NoMemory>
    requires formed { WellFormed agent.now }
    requires program { IfSome left (λ prog. IsTrue (fits agent.now prog)) }
    requires sorts { AreInSorts agent.now state.now }
    ensures { IfOk result (TellsEnd agent.now state.now left) }
{
    match left {
        Some(prog) => {
            let text = left_text(alloc, agent, &prog, state);
            drop(prog);
            text
        }
        None => Bytes::copy_of(alloc, b"left unknown: an entry is no step of the program\n"),
    }
}

/// Adds what is said of a report's entries and of the program that is left behind them to a text that is empty.
fn add_trace(
    text: &mut Bytes,
    line: &mut Line,
    alloc: Global,
    agent: &Agent,
    report: &Report,
) -> Result<(), NoMemory>
    requires formed { WellFormed agent.now }
    requires report { IsReport agent.now report.now }
    requires empty { text.old ≡ [] }
    ensures { OnOk result (IsTrace agent.now report.now text.new) }
{
    let mut state = start(alloc, agent)?;
    add_entries(text, line, &mut state, alloc, agent, report)?;
    let left = followed(alloc, agent, report.entries.as_slice())?;
    let end = end_text(alloc, agent, left, &state)?;
    text.extend(end.as_slice())?;
    Ok(())
}

/// The trace of a journal: for each entry its line, and behind it a line for each ground fluent whose value it changed,
/// with both values and by which effect, or that it was sensed. At the end the program that is left, as text, the
/// condition under which it may end, and each step that it may take, each with its condition, the truth of that, and
/// the ground fluents that it may read of which no value is known; or, where a search block stands at its front, each
/// block there and what it wants: fuel, knowledge or depth. The agent is the one that starts from the report's start,
/// where it has one.
///
/// What it calls true, false or unknown is what `golog_known::value` answers of the condition at the values after the
/// entries. `NoMemory` comes only for want of memory.
pub fn trace(alloc: Global, agent: &Agent, report: &Report) -> Result<Bytes, NoMemory>
    requires formed { WellFormed agent.now }
    requires report { IsReport agent.now report.now }
    ensures { IfOk result (IsTrace agent.now report.now) }
{
    let mut line = Line::new(alloc)?;
    let mut text = Bytes::new(alloc);
    let added = add_trace(&mut text, &mut line, alloc, agent, report);
    drop(line);
    match added {
        Ok(()) => Ok(text),
        Err(fault) => {
            drop(text);
            Err(fault)
        }
    }
}
