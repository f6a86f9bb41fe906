// Tests of `decide` and its halves, `decide_unbounded` and `heavy`.
ghost use Rattle.golog_semantics.specs.InSorts.{AreInSorts};
ghost use Rattle.golog_semantics.specs.WellFormed.{WellFormed};

use crate::asserting::same;
use golog_base::NoMemory;
use golog_file::read_agent;
use golog_progress::{State, start};
use golog_search::{
    Blocked, Decision, Move, decide, decide_blocked, decide_step, decide_unbounded, heavy,
};
use golog_tree::{Agent, Label};
use golog_ways::Plain;
use std::alloc::Global;

/// A search for `a` or `b`, and `c`, that looks at three states, and has fuel for two.
const SCANT: &[u8] = b"(agent
    (fluent p () bool false) (fluent q () bool false)
    (action a ()) (action b ()) (action c ())
    (causes (a) (p) true) (causes (b) (q) true)
    (main (search 4 2 (seq (choice (act a) (act b)) (act c)))))";

/// The same with fuel for all three.
const AMPLE: &[u8] = b"(agent
    (fluent p () bool false) (fluent q () bool false)
    (action a ()) (action b ()) (action c ())
    (causes (a) (p) true) (causes (b) (q) true)
    (main (search 4 3 (seq (choice (act a) (act b)) (act c)))))";

/// A test of what nobody knows.
const UNKNOWN: &[u8] = b"(agent (fluent u () bool) (main (test (u))))";

/// A test of what is false.
const STUCK: &[u8] = b"(agent (fluent p () bool false) (main (test (p))))";

/// A search that would have to look at more than two steps.
const SHALLOW: &[u8] = b"(agent (fluent p () bool false) (action a ())
    (main (search 2 9 (seq (star (act a)) (test (p))))))";

/// A program that may end.
const ENDED: &[u8] = b"(agent (main nil))";

/// What is told of a program at the start.
#[derive(Clone, Copy, Debug, PartialEq, Eq)]
enum Told {
    /// It ends.
    Ends,
    /// It begins the run `a; c`.
    Begins,
    /// It is blocked.
    Is(Blocked),
    /// Its fuel does not suffice.
    WantsFuel,
    /// It does something else, or no memory was left.
    Else,
}

/// Whether the step begins the run `a; c`.
fn begins(step: &Move) -> bool {
    match &step.run {
        Some(run) => run.as_slice() == [Label::Do(2), Label::Do(4)].as_slice(),
        None => false,
    }
}

/// What is told by a decision.
fn told_from(decision: &Decision) -> Told {
    match decision {
        Decision::Final => Told::Ends,
        Decision::Step(step) if begins(step) => Told::Begins,
        Decision::Blocked(why) => Told::Is(*why),
        Decision::Fuel => Told::WantsFuel,
        _ => Told::Else,
    }
}

/// The same of one that may be wanting.
fn told_by(decided: Result<Decision, NoMemory>) -> Told {
    let answer = match &decided {
        Ok(decision) => told_from(decision),
        Err(_fault) => Told::Else,
    };
    drop(decided);
    answer
}

/// What the two halves of a decision tell, the second where the first tells nothing.
#[tactic(auto, using(crate::proofs::Closed::main_fits))]
fn told_in_halves(alloc: Global, agent: &Agent, state: &State) -> Told
    requires agent { WellFormed agent.now }
    requires sorts { AreInSorts agent.now state.now }
{
    match decide_step(alloc, agent, &agent.main, state) {
        Ok(Some(decision)) => told_by(Ok(decision)),
        Ok(None) => told_by(decide_blocked(alloc, agent, &agent.main, state, &Plain::new())),
        Err(NoMemory) => Told::Else,
    }
}

/// What the agent's program does next in a state, by the decision, by its two halves, and whatever the fuel;
/// and whether the program is heavy.
#[tactic(auto, using(crate::proofs::Closed::main_fits))]
fn told_in(alloc: Global, agent: &Agent, state: &State) -> ([Told; 3], Option<bool>)
    requires agent { WellFormed agent.now }
    requires sorts { AreInSorts agent.now state.now }
{
    let by_decision = told_by(decide(alloc, agent, &agent.main, state));
    let in_halves = told_in_halves(alloc, agent, state);
    let unbounded = told_by(decide_unbounded(alloc, agent, &agent.main, state));
    let weighs = heavy(alloc, agent, &agent.main, state).ok();
    ([by_decision, in_halves, unbounded], weighs)
}

/// The same at the start.
fn told_at_start(alloc: Global, agent: &Agent) -> ([Told; 3], Option<bool>)
    requires { WellFormed agent.now }
{
    match start(alloc, agent) {
        Ok(state) => told_in(alloc, agent, &state),
        Err(NoMemory) => ([Told::Else; 3], None),
    }
}

/// The same of the program of a file.
fn told_of(alloc: Global, file: &[u8]) -> ([Told; 3], Option<bool>) {
    let read = read_agent(alloc, file);
    let answer = match &read {
        Ok(agent) => told_at_start(alloc, agent),
        Err(_fault) => ([Told::Else; 3], None),
    };
    drop(read);
    answer
}

// Where fuel is wanted, the unbounded decision tells what there would be with more.
#[test]
fn a_heavy_program_steps_whatever_its_fuel(rt: HostRuntime) {
    let wanted = ([Told::WantsFuel, Told::WantsFuel, Told::Begins], Some(true));
    same(&rt, "scant", told_of(rt.alloc(), SCANT), wanted);
}

// All ways to ask tell the same, and that the program is not heavy.
#[test]
fn a_program_goes_on_ends_or_is_blocked(rt: HostRuntime) {
    for (file, wanted) in [
        (AMPLE, Told::Begins),
        (ENDED, Told::Ends),
        (UNKNOWN, Told::Is(Blocked::Unknown)),
        (STUCK, Told::Is(Blocked::Stuck)),
        (SHALLOW, Told::Is(Blocked::Depth)),
    ] {
        let all = ([wanted; 3], Some(false));
        same(&rt, file, told_of(rt.alloc(), file), all);
    }
}
