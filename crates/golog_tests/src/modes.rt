// Tests of `any`, `is_final`, `holds` and `flip`.
ghost use Rattle.golog_semantics.specs.WellFormed.{WellFormed};

use crate::agents::BELL;
use crate::asserting::same;
use golog_base::NoMemory;
use golog_file::read_agent;
use golog_progress::start;
use golog_semantics::Mode;
use golog_tree::{Agent, Truth};
use golog_ways::{any, flip, holds, is_final};
use std::alloc::Global;

/// Whether the agent's program has a step at the start, in this mode.
#[tactic(auto, using(crate::proofs::Closed::main_closed))]
pub fn has_step(alloc: Global, agent: &Agent, mode: Mode) -> Option<bool>
    requires { WellFormed agent.now }
{
    match start(alloc, agent) {
        Ok(state) => any(alloc, agent, mode, &agent.main, &state).ok(),
        Err(NoMemory) => None,
    }
}

/// Whether the agent's program may end at the start, in this mode.
#[tactic(auto, using(crate::proofs::Closed::main_closed))]
pub fn may_end(alloc: Global, agent: &Agent, mode: Mode) -> Option<bool>
    requires { WellFormed agent.now }
{
    match start(alloc, agent) {
        Ok(state) => is_final(alloc, agent, mode, &agent.main, &state).ok(),
        Err(NoMemory) => None,
    }
}

/// Whether the program of `BELL` has a step at the start, and whether it may end there, in this mode.
fn bell_goes(alloc: Global, mode: Mode) -> [Option<bool>; 2] {
    let read = read_agent(alloc, BELL);
    let answer = match &read {
        Ok(agent) => [has_step(alloc, agent, mode), may_end(alloc, agent, mode)],
        Err(_fault) => [None; 2],
    };
    drop(read);
    answer
}

#[test]
fn what_is_not_certain_may_be(rt: HostRuntime) {
    for (mode, goes) in [(Mode::Must, false), (Mode::Near, true)] {
        same(&rt, mode, bell_goes(rt.alloc(), mode), [Some(goes); 2]);
    }
}

#[test]
fn modes_are_turned(rt: HostRuntime) {
    let unknown = [
        holds(Mode::May, Truth::Unknown),
        holds(Mode::Must, Truth::Unknown),
    ];
    same(&rt, "unknown", unknown, [true, false]);
    let known = [holds(Mode::Must, Truth::Yes), holds(Mode::Near, Truth::No)];
    same(&rt, "known", known, [true, false]);
    let turned = flip(Mode::Must) == Mode::May && flip(Mode::Near) == Mode::Must;
    same(&rt, "turned", turned, true);
}
