// A test of `end_cond`.
ghost use Rattle.golog_semantics.specs.WellFormed.{WellFormed};

use crate::agents::{BELL, is_first_fluent};
use crate::asserting::same;
use golog_file::read_agent;
use golog_tree::{Agent, Cond};
use golog_ways::end_cond;
use std::alloc::Global;

/// Whether the condition is that the bell is not awaited.
fn is_not_awaited(cond: &Cond) -> bool {
    match cond {
        Cond::Not(cond) => is_first_fluent(cond.get()),
        _ => false,
    }
}

/// Whether the condition is that the bell is not awaited, or else one that never holds.
fn is_not_awaited_or_never(cond: &Cond) -> bool {
    match cond {
        Cond::Or(conds) => match conds.as_slice() {
            [one, other] => is_not_awaited(one) && *other == Cond::Truth(false),
            _ => false,
        },
        _ => false,
    }
}

/// Whether the agent's program may end where the bell is not awaited.
#[tactic(auto, using(crate::proofs::Closed::main_closed))]
fn ends_unless_awaited(alloc: Global, agent: &Agent) -> bool
    requires { WellFormed agent.now }
{
    let found = end_cond(alloc, agent, &agent.main);
    let answer = match &found {
        Ok(cond) => is_not_awaited_or_never(cond),
        Err(_fault) => false,
    };
    drop(found);
    answer
}

/// The same of the agent of `BELL`.
fn bell_ends_unless_awaited(alloc: Global) -> bool {
    let read = read_agent(alloc, BELL);
    let answer = match &read {
        Ok(agent) => ends_unless_awaited(alloc, agent),
        Err(_fault) => false,
    };
    drop(read);
    answer
}

#[test]
fn ends_have_a_condition(rt: HostRuntime) {
    same(&rt, "bell", bell_ends_unless_awaited(rt.alloc()), true);
}
