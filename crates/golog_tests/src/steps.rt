// Tests of `first`, `is_certain` and `is_same_label`.
ghost use Rattle.golog_semantics.specs.InSorts.{AreInSorts};
ghost use Rattle.golog_semantics.specs.WellFormed.{WellFormed};
ghost use Rattle.golog_tests.specs.Blockless.{IsBlockless};

use crate::agents::LAMP;
use crate::asserting::same;
use crate::blockless::has_blocks;
use golog_base::{NoMemory, both};
use golog_file::read_agent;
use golog_memo::is_same_label;
use golog_progress::{State, start};
use golog_tree::{Agent, Label, Prog, Way};
use golog_ways::{first, is_certain};
use std::alloc::Global;

/// Whether the step is to switch the lamp, and leaves nothing.
fn is_switching(way: &Way) -> bool {
    way.label == Label::Do(2) && way.left == Prog::Nil
}

/// Whether the way is a certain step of the agent's program.
fn is_step(alloc: Global, agent: &Agent, way: &Way, state: &State) -> Result<bool, NoMemory>
    requires formed { WellFormed agent.now }
    requires blockless { IsBlockless agent.now }
    requires sorts { AreInSorts agent.now state.now }
{
    is_certain(alloc, agent, &agent.main, way, state)
}

/// Whether the way is one, and to ring the bell is none.
fn is_step_beside_none(alloc: Global, agent: &Agent, way: &Way, state: &State) -> bool
    requires formed { WellFormed agent.now }
    requires blockless { IsBlockless agent.now }
    requires sorts { AreInSorts agent.now state.now }
{
    let ringing = Way {
        label: Label::Do(3),
        left: Prog::Nil,
    };
    let other = is_step(alloc, agent, &ringing, state);
    drop(ringing);
    matches!(
        both(is_step(alloc, agent, way, state), other),
        Ok((true, false))
    )
}

/// Whether the first certain step of the agent's program is to switch the lamp.
#[tactic(auto, using(crate::proofs::Closed::main_closed))]
fn goes_on_by_switching(alloc: Global, agent: &Agent, state: &State) -> bool
    requires agent { WellFormed agent.now }
    requires blockless { IsBlockless agent.now }
    requires sorts { AreInSorts agent.now state.now }
{
    let found = first(alloc, agent, &agent.main, state);
    let answer = match &found {
        Ok(Some(way)) => is_switching(way) && is_step_beside_none(alloc, agent, way, state),
        _ => false,
    };
    drop(found);
    answer
}

/// The same at the start.
fn begins_by_switching(alloc: Global, agent: &Agent) -> bool
    requires formed { WellFormed agent.now }
    requires blockless { IsBlockless agent.now }
{
    match start(alloc, agent) {
        Ok(state) => goes_on_by_switching(alloc, agent, &state),
        Err(NoMemory) => false,
    }
}

/// The same of the agent of `LAMP`.
#[tactic(auto, using(crate::proofs::Unblocked::blockless))]
fn lamp_begins_by_switching(alloc: Global) -> bool {
    let read = read_agent(alloc, LAMP);
    let answer = match &read {
        Ok(agent) => !has_blocks(agent) && begins_by_switching(alloc, agent),
        Err(_fault) => false,
    };
    drop(read);
    answer
}

#[test]
fn the_first_certain_step_is_found(rt: HostRuntime) {
    same(&rt, "lamp", lamp_begins_by_switching(rt.alloc()), true);
}

#[test]
fn steps_of_one_kind_and_action_do_the_same(rt: HostRuntime) {
    let labels = [
        (Label::Quiet, Label::Quiet, true),
        (Label::Quiet, Label::Do(0), false),
        (Label::Do(0), Label::Quiet, false),
        (Label::Do(0), Label::Do(0), true),
        (Label::Do(7), Label::Do(8), false),
        (Label::Do(0), Label::Do(u32::MAX), false),
        (Label::Do(u32::MAX), Label::Do(u32::MAX), true),
    ];
    for (one, other, is_same) in labels {
        same(&rt, (one, other), is_same_label(one, other), is_same);
    }
}
