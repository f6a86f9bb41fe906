// A test of `regress`, `regress_all` and `nodes`.
ghost use Rattle.std.specs.Prelude.{◌<◌, All, length};
ghost use Rattle.golog_tree.specs.Ground.{ground_actions};
ghost use Rattle.golog_semantics.specs.WellFormed.{WellFormed};
ghost use Rattle.golog_regress.specs.Regression.{EventFits};

use crate::agents::{WORLD, action_of};
use crate::asserting::same;
use golog_base::{Boxed, List, NoMemory};
use golog_file::read_agent;
use golog_regress::{Event, nodes, regress, regress_all};
use golog_tree::{Agent, Arg, Cond};
use std::alloc::Global;

/// The fluent `blocked`: one is built in.
const BLOCKED: u32 = 1;

/// The sort of places: `bool` is built in.
const PLACE: u32 = 1;

/// That the way to a place is blocked.
fn blocked(alloc: Global, place: Arg) -> Result<Cond, NoMemory> {
    Ok(Cond::Is {
        fluent: BLOCKED,
        args: List::copy_of(alloc, &[place])?,
    })
}

/// That the way to some place is blocked.
fn some_blocked(alloc: Global) -> Result<Cond, NoMemory> {
    Ok(Cond::ForSome {
        var: 0,
        sort: PLACE,
        body: Boxed::new(alloc, blocked(alloc, Arg::Var(0))?)?,
    })
}

/// Whether the condition is `true` as it stands.
fn is_true(cond: &Cond) -> bool {
    matches!(cond, Cond::Truth(true))
}

/// Whether the condition is that the way to `c` is blocked, the third place.
fn is_c_blocked(cond: &Cond) -> bool {
    match cond {
        Cond::Is { fluent, args } => {
            *fluent == BLOCKED && args.as_slice() == [Arg::Const(2)].as_slice()
        }
        _ => false,
    }
}

/// What was made of a condition.
#[derive(Clone, Copy)]
struct Made {
    is_true: bool,
    is_c_blocked: bool,
    nodes: u64,
}

/// The condition that was made, as it stands.
fn seen(made: Result<Cond, NoMemory>) -> Option<Made> {
    let answer = match &made {
        Ok(cond) => Some(Made {
            is_true: is_true(cond),
            is_c_blocked: is_c_blocked(cond),
            nodes: nodes(cond),
        }),
        Err(NoMemory) => None,
    };
    drop(made);
    answer
}

/// What a condition is before the action of this number.
fn before(alloc: Global, agent: &Agent, action: u32, cond: Result<Cond, NoMemory>) -> Option<Made>
    requires formed { WellFormed agent.now }
    requires action { action < length (ground_actions agent.now) }
{
    let answer = match &cond {
        Ok(cond) => seen(regress(alloc, agent, cond, Event::Did(action))),
        Err(NoMemory) => None,
    };
    drop(cond);
    answer
}

/// What a condition is before these events.
fn before_all(
    alloc: Global,
    agent: &Agent,
    events: &[Event],
    cond: Result<Cond, NoMemory>,
) -> Option<Made>
    requires formed { WellFormed agent.now }
    requires events { All (EventFits agent.now) events.now }
{
    let answer = match &cond {
        Ok(cond) => seen(regress_all(alloc, agent, cond, events)),
        Err(NoMemory) => None,
    };
    drop(cond);
    answer
}

/// Once the way to `b` is blocked it is, and that to `c` is if it was; of a place that is not named it turns on
/// whether it is `b`: so many nodes more.
fn is_taken_back(alloc: Global, agent: &Agent, action: u32) -> bool
    requires formed { WellFormed agent.now }
    requires action { action < length (ground_actions agent.now) }
{
    let b = before(alloc, agent, action, blocked(alloc, Arg::Const(1)));
    let c = before(alloc, agent, action, blocked(alloc, Arg::Const(2)));
    let some = before(alloc, agent, action, some_blocked(alloc));
    match (b, c, some) {
        (Some(b), Some(c), Some(some)) => b.is_true && c.is_c_blocked && some.nodes == 12,
        _ => false,
    }
}

/// Over no event a condition stays; over two of them the last comes first.
fn is_taken_back_over_all(alloc: Global, agent: &Agent, action: u32) -> bool
    requires formed { WellFormed agent.now }
    requires action { action < length (ground_actions agent.now) }
{
    let events = [Event::Did(action), Event::Did(action)];
    let none = before_all(alloc, agent, &[], blocked(alloc, Arg::Const(2)));
    let twice = before_all(alloc, agent, &events, blocked(alloc, Arg::Const(1)));
    match (none, twice) {
        (Some(none), Some(twice)) => none.is_c_blocked && twice.is_true,
        _ => false,
    }
}

/// Whether all of that holds over the agent.
fn regresses(alloc: Global, agent: &Agent) -> bool
    requires { WellFormed agent.now }
{
    match action_of(agent, b"block(b)") {
        Some(action) => {
            is_taken_back(alloc, agent, action) && is_taken_back_over_all(alloc, agent, action)
        }
        None => false,
    }
}

/// Whether all of that holds over the agent of `WORLD`.
fn world_regresses(alloc: Global) -> bool {
    let read = read_agent(alloc, WORLD);
    let answer = match &read {
        Ok(agent) => regresses(alloc, agent),
        Err(_fault) => false,
    };
    drop(read);
    answer
}

#[test]
fn conditions_are_taken_back(rt: HostRuntime) {
    same(&rt, "world", world_regresses(rt.alloc()), true);
}
