// `goes_through`, which steps a run again; the state after a step, and copies of steps.
ghost use Rattle.std.specs.Prelude.{◌≡◌, ◌&&◌, IfOk, IsTrue};
ghost use Rattle.std.specs.List.{list_any};
ghost use Rattle.golog_semantics.specs.declared.Mode.TheVariants.{Must};
ghost use Rattle.golog_semantics.specs.Blocks.{goes_through as leads_to_final};
ghost use Rattle.golog_semantics.specs.Reports.{fits_label};
ghost use Rattle.golog_semantics.specs.Same.{same_way};
ghost use Rattle.golog_semantics.specs.Search.{plain_ways};
ghost use Rattle.golog_semantics.specs.InSorts.{AreInSorts};
ghost use Rattle.golog_semantics.specs.Values.{after};
ghost use Rattle.golog_semantics.specs.WellFormed.{WellFormed};
ghost use Rattle.golog_ways.specs.Searched.{IsSearched};

use crate::listing::ways_of;
use crate::programs::is_final;
use golog_base::{List, NoMemory};
use golog_progress::State;
use golog_semantics::Mode;
use golog_tree::{Agent, Label, Prog, Way, copy_prog, is_same_way};
use std::alloc::Global;

/// A copy of the step.
pub fn copy_way(alloc: Global, way: &Way) -> Result<Way, NoMemory>
    ensures { IfOk result (λ copy. copy ≡ way.now) }
{
    let left = copy_prog(alloc, &way.left)?;
    Ok(Way {
        label: way.label,
        left,
    })
}

/// A copy of the steps.
pub fn copy_ways(alloc: Global, ways: &[Way]) -> Result<List<Way>, NoMemory>
    ensures { IfOk result (λ copy. copy ≡ ways.now) }
{
    let mut copy = List::new(alloc);
    for way in ways {
        copy.push(copy_way(alloc, way)?)?;
    }
    Ok(copy)
}

/// The state after a step.
pub fn state_after(
    alloc: Global,
    agent: &Agent,
    state: &State,
    label: Label,
) -> Result<State, NoMemory>
    requires agent { WellFormed agent.now }
    requires sorts { AreInSorts agent.now state.now }
    requires label { IsTrue (fits_label agent.now label) }
    ensures { IfOk result (λ next. next ≡ after agent.now state.now label) }
{
    let mut next = state.copy(alloc)?;
    if let Label::Do(action) = label {
        next.after_do(agent, action);
    }
    Ok(next)
}

/// Whether the way is among these.
fn is_among(way: &Way, ways: &[Way]) -> bool
    ensures { result ≡ list_any (same_way way.now) ways.now }
{
    for other in ways {
        if is_same_way(way, other) {
            return true;
        }
    }
    false
}

/// Whether the way is a certain step of the program.
pub fn is_certain(
    alloc: Global,
    agent: &Agent,
    prog: &Prog,
    way: &Way,
    state: &State,
) -> Result<bool, NoMemory>
    requires agent { WellFormed agent.now }
    requires searched { IsSearched agent.now prog.now state.now }
    ensures { IfOk result (λ b. b
        ≡ list_any (same_way way.now) (plain_ways agent.now state.now Must prog.now)) }
{
    let ways = ways_of(alloc, agent, Mode::Must, prog, state)?;
    Ok(is_among(way, ways.as_slice()))
}

/// Whether a run goes through from the state: each of its ways is a certain step of the program left, and
/// where they lead the program certainly may end.
pub fn goes_through(
    alloc: Global,
    agent: &Agent,
    body: &Prog,
    rest: &[Way],
    state: &State,
) -> Result<bool, NoMemory>
    requires agent { WellFormed agent.now }
    requires searched { IsSearched agent.now body.now state.now }
    ensures { IfOk result (λ b. b ≡ leads_to_final agent.now body.now rest.now state.now) }
{
    let mut left = body;
    let mut there = state.copy(alloc)?;
    for way in rest {
        if !is_certain(alloc, agent, left, way, &there)? {
            return Ok(false);
        }
        there = state_after(alloc, agent, &there, way.label)?;
        left = &way.left;
    }
    is_final(alloc, agent, Mode::Must, left, &there)
}
