// What is said of a program whose front has no search block: the condition under which it may end, and its steps, each
// with its condition.
ghost use Rattle.std.specs.Prelude.{◌≡◌, false, ◌++◌, All, IfOk, IsTrue, OnOk, codes};
ghost use Rattle.std.specs.List.{flat_map};
ghost use Rattle.golog_tree.specs.Ground.{IsCountable};
ghost use Rattle.golog_semantics.specs.Fits.{cond_fits, nothing_bound};
ghost use Rattle.golog_semantics.specs.InSorts.{AreInSorts};
ghost use Rattle.golog_semantics.specs.Reports.{fits_label};
ghost use Rattle.golog_semantics.specs.Text.{label_text};
ghost use Rattle.golog_semantics.specs.WellFormed.{WellFormed};
ghost use Rattle.golog_fronts.specs.Closed.{IsClosed};
ghost use Rattle.golog_fronts.specs.FrontBlock.{has_front_block};
ghost use Rattle.golog_trace.specs.Judged.{judged_text};
ghost use Rattle.golog_trace.specs.Ways.{TellsWays, way_text};

use crate::judging::add_judged;
use golog_base::{Bytes, List, NoMemory};
use golog_fronts::{Front, end_cond, fronts};
use golog_ground::action_text;
use golog_progress::State;
use golog_tree::{Agent, Cond, Label, Prog};
use std::alloc::Global;

/// Adds what a step does: its action, or `-` for a test.
fn add_label(text: &mut Bytes, agent: &Agent, label: Label) -> Result<(), NoMemory>
    requires countable { IsCountable agent.now }
    requires label { IsTrue (fits_label agent.now label) }
    ensures { OnOk result (text.new ≡ text.old ++ label_text agent.now label) }
{
    match label {
        Label::Quiet => text.extend(b"-"),
        Label::Do(action) => text.extend(action_text(agent, action).as_bytes()),
    }
}

/// Adds a step and its condition.
fn add_way(
    text: &mut Bytes,
    alloc: Global,
    agent: &Agent,
    front: &Front,
    state: &State,
) -> Result<(), NoMemory>
    requires formed { WellFormed agent.now }
    requires closed { IsTrue (cond_fits agent.now front.now.cond nothing_bound) }
    requires label { IsTrue (fits_label agent.now front.now.label) }
    requires sorts { AreInSorts agent.now state.now }
    ensures { OnOk result (text.new ≡ text.old ++ way_text agent.now state.now front.now) }
{
    text.extend(b"way ")?;
    add_label(text, agent, front.label)?;
    text.extend(b" if ")?;
    add_judged(text, alloc, agent, &front.cond, state)
}

/// Adds these steps in order.
fn add_ways(
    text: &mut Bytes,
    alloc: Global,
    agent: &Agent,
    fronts: &[Front],
    state: &State,
) -> Result<(), NoMemory>
    requires formed { WellFormed agent.now }
    requires closed { All (λ f. IsTrue (cond_fits agent.now f.cond nothing_bound)) fronts.now }
    requires labels { All (λ f. IsTrue (fits_label agent.now f.label)) fronts.now }
    requires sorts { AreInSorts agent.now state.now }
    ensures { OnOk result (text.new ≡ text.old ++ flat_map (way_text agent.now state.now) fronts.now) }
{
    for front in fronts {
        add_way(text, alloc, agent, front, state)?;
    }
    Ok(())
}

/// What is said of the condition under which a program may end, which is let go.
fn end_text(alloc: Global, agent: &Agent, end: Cond, state: &State) -> Result<Bytes, NoMemory>
    requires formed { WellFormed agent.now }
    requires closed { IsTrue (cond_fits agent.now end nothing_bound) }
    requires sorts { AreInSorts agent.now state.now }
    ensures { IfOk result (λ text. text ≡ codes "end if " ++ judged_text agent.now end state.now) }
{
    let mut text = Bytes::new(alloc);
    text.extend(b"end if ")?;
    let added = add_judged(&mut text, alloc, agent, &end, state);
    drop(end);
    added?;
    Ok(text)
}

/// What is said of a program, at whose front no search block stands: the condition under which it may end, and its steps
/// in order.
pub fn ways_text(
    alloc: Global,
    agent: &Agent,
    prog: &Prog,
    state: &State,
) -> Result<Bytes, NoMemory>
    requires formed { WellFormed agent.now }
    requires program { IsClosed agent.now prog.now }
    requires free { has_front_block agent.now prog.now ≡ false }
    requires sorts { AreInSorts agent.now state.now }
    ensures { IfOk result (TellsWays agent.now state.now prog.now) }
{
    let end = end_cond(alloc, agent, prog)?;
    let mut text = end_text(alloc, agent, end, state)?;
    let fronts = fronts(alloc, agent, prog)?;
    let added = add_ways(&mut text, alloc, agent, fronts.as_slice(), state);
    drop(fronts);
    added?;
    Ok(text)
}
