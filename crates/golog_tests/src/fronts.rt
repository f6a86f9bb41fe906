// A test of `fronts`.
ghost use Rattle.std.specs.Prelude.{◌≡◌, false};
ghost use Rattle.golog_semantics.specs.WellFormed.{WellFormed};
ghost use Rattle.golog_fronts.specs.FrontBlock.{has_front_block as block_in_front};

use crate::agents::{LAMP, is_first_fluent};
use crate::asserting::same;
use golog_file::read_agent;
use golog_tree::{Agent, Cond, Label, Prog};
use golog_ways::{Front, fronts, has_front_block};
use std::alloc::Global;

/// Whether the program is to switch the lamp.
fn is_switch(prog: &Prog) -> bool {
    match prog {
        Prog::Act { action, args } => *action == 2 && args.is_empty(),
        _ => false,
    }
}

/// Whether the step is to ring where the lamp is on, and leaves to switch it.
fn is_ringing(front: &Front) -> bool {
    is_first_fluent(&front.cond) && front.label == Label::Do(3) && is_switch(&front.left)
}

/// Whether the step is to switch the lamp anywhere, and leaves nothing.
fn is_switching(front: &Front) -> bool {
    front.cond == Cond::Truth(true) && front.label == Label::Do(2) && front.left == Prog::Nil
}

/// Whether the steps are to ring and then to switch the lamp, and to switch it.
fn are_ringing_and_switching(found: &[Front]) -> bool {
    match found {
        [one, other] => is_ringing(one) && is_switching(other),
        _ => false,
    }
}

/// Whether these are the steps of the agent's program.
#[tactic(auto, using(crate::proofs::Closed::main_closed))]
fn rings_or_switches(alloc: Global, agent: &Agent) -> bool
    requires formed { WellFormed agent.now }
    requires free { block_in_front agent.now agent.now.main ≡ false }
{
    let found = fronts(alloc, agent, &agent.main);
    let answer = match &found {
        Ok(fronts) => are_ringing_and_switching(fronts.as_slice()),
        Err(_fault) => false,
    };
    drop(found);
    answer
}

/// Whether no block stands at the front of the agent's program, and these are its steps.
fn has_two_steps(alloc: Global, agent: &Agent) -> bool
    requires { WellFormed agent.now }
{
    !has_front_block(agent, &agent.main) && rings_or_switches(alloc, agent)
}

/// The same of the agent of `LAMP`.
fn lamp_has_two_steps(alloc: Global) -> bool {
    let read = read_agent(alloc, LAMP);
    let answer = match &read {
        Ok(agent) => has_two_steps(alloc, agent),
        Err(_fault) => false,
    };
    drop(read);
    answer
}

#[test]
fn steps_have_a_condition(rt: HostRuntime) {
    same(&rt, "lamp", lamp_has_two_steps(rt.alloc()), true);
}
