// A test of programs whose steps differ from world to world.
ghost use Rattle.golog_semantics.specs.InSorts.{AreInSorts};
ghost use Rattle.golog_semantics.specs.WellFormed.{WellFormed};

use crate::asserting::same;
use crate::modes::{has_step, may_end};
use golog_base::NoMemory;
use golog_file::read_agent;
use golog_progress::{State, start};
use golog_semantics::Mode;
use golog_tree::{Agent, Label, Way};
use golog_ways::first;
use std::alloc::Global;

/// A `prio` whose higher part asks what nobody knows.
const UNKNOWN: &[u8] = b"(agent (fluent u () bool) (action a ()) (action b ())
    (main (prio (seq (test (u)) (act a)) (act b))))";

/// The same in the world where it is false.
const FALSE: &[u8] = b"(agent (fluent u () bool false) (action a ()) (action b ())
    (main (prio (seq (test (u)) (act a)) (act b))))";

/// The same in the world where it is true.
const TRUE: &[u8] = b"(agent (fluent u () bool true) (action a ()) (action b ())
    (main (prio (seq (test (u)) (act a)) (act b))))";

/// Whether the step has this label.
fn is_of(way: &Way, label: Label) -> bool {
    way.label == label
}

/// Whether the first certain step of the agent's program in this state has this label.
#[tactic(auto, using(crate::proofs::Closed::main_closed))]
fn goes_on_with(alloc: Global, agent: &Agent, state: &State, label: Label) -> bool
    requires agent { WellFormed agent.now }
    requires sorts { AreInSorts agent.now state.now }
{
    let found = first(alloc, agent, &agent.main, state);
    let answer = match &found {
        Ok(Some(way)) => is_of(way, label),
        _ => false,
    };
    drop(found);
    answer
}

/// The same at the start, of a program that has a certain step and may not end there.
fn begins_with(alloc: Global, agent: &Agent, label: Label) -> bool
    requires { WellFormed agent.now }
{
    let goes = match start(alloc, agent) {
        Ok(state) => goes_on_with(alloc, agent, &state, label),
        Err(NoMemory) => false,
    };
    goes && has_step(alloc, agent, Mode::Must) == Some(true)
        && may_end(alloc, agent, Mode::May) == Some(false)
}

/// Whether the program has no certain step at the start, but one that there may be, and may not end.
fn is_open(alloc: Global, agent: &Agent) -> bool
    requires { WellFormed agent.now }
{
    has_step(alloc, agent, Mode::Must) == Some(false)
        && has_step(alloc, agent, Mode::May) == Some(true)
        && may_end(alloc, agent, Mode::May) == Some(false)
}

/// Whether the program of this file begins in the world that the file spells with this label, or is open where there is
/// none.
fn goes(alloc: Global, file: &[u8], label: Option<Label>) -> bool {
    let read = read_agent(alloc, file);
    let answer = match (&read, label) {
        (Ok(agent), Some(label)) => begins_with(alloc, agent, label),
        (Ok(agent), None) => is_open(alloc, agent),
        (Err(_fault), _) => false,
    };
    drop(read);
    answer
}

// What is unknown may be either way: the lower part goes in the one world, and the higher in the other, so
// neither step is certain.
#[test]
fn no_step_is_certain_where_worlds_differ(rt: HostRuntime) {
    let told = [
        goes(rt.alloc(), UNKNOWN, None),
        goes(rt.alloc(), FALSE, Some(Label::Do(3))),
        goes(rt.alloc(), TRUE, Some(Label::Quiet)),
    ];
    same(&rt, "worlds", told, [true; 3]);
}
