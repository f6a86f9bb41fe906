// Tests of `action_of`, `action_no`, `fluent_of`, `fluent_no`, `fluent_text` and `args_count`.
ghost use Rattle.std.specs.Prelude.{◌<◌, length};
ghost use Rattle.golog_tree.specs.Ground.{action_args, ground_count};
ghost use Rattle.golog_semantics.specs.WellFormed.{WellFormed};

use crate::agents::LIFT;
use crate::asserting::same;
use golog_file::read_agent;
use golog_ground::{fluent_text, read_action};
use golog_tree::{
    Agent, Ground, MOST_ARGS, action_no, action_of, args_count, fluent_no, fluent_of,
};
use std::alloc::Global;

/// To turn the right door at level 1, the third level: two actions are built in, and `off` is before it too.
const TURN_RIGHT_AT_1: Ground = Ground {
    item: 3,
    count: 2,
    args: [1, 2, 0],
};

/// That the right door is open at level 1, the third level: one fluent is built in.
const RIGHT_OPEN_AT_1: Ground = Ground {
    item: 1,
    count: 2,
    args: [1, 2, 0],
};

/// Whether the action of this number is `TURN_RIGHT_AT_1`, and the number of that is this one.
#[tactic(auto, using(crate::proofs::Grounded::few, crate::proofs::Grounded::action_declared))]
fn is_turning(agent: &Agent, number: u32) -> bool
    requires formed { WellFormed agent.now }
    requires number { number < ground_count agent.now (action_args agent.now) }
{
    let ground = action_of(agent, number);
    let args = &ground.args[..ground.count as usize];
    ground == TURN_RIGHT_AT_1 && action_no(agent, ground.item, args) == number
}

/// Whether the fluent of this number is `RIGHT_OPEN_AT_1`, and the number of that is this one.
#[tactic(auto, using(crate::proofs::Grounded::few, crate::proofs::Grounded::fluent_declared))]
fn is_open(agent: &Agent, number: u32) -> bool
    requires formed { WellFormed agent.now }
    requires number { number < length agent.now.starts }
{
    let ground = fluent_of(agent, number);
    let args = &ground.args[..ground.count as usize];
    ground == RIGHT_OPEN_AT_1 && fluent_no(agent, ground.item, args) == number
}

/// Whether the fluent of this number has this text.
fn has_text(agent: &Agent, number: u32, text: &[u8]) -> bool
    requires formed { WellFormed agent.now }
    requires number { number < length agent.now.starts }
{
    fluent_text(agent, number).as_bytes() == text
}

/// Whether that action is the one of number 14, as its text is read: before it are the 2 built in, 5 of
/// `off`, 5 that turn the left door, and 2 that turn the right one at lower levels.
fn turning_is_numbered(agent: &Agent) -> bool
    requires { WellFormed agent.now }
{
    match read_action(agent, b"turn(right,1)") {
        Some(number) => number == 14 && is_turning(agent, number),
        None => false,
    }
}

/// Whether that fluent is the one of number 8: before it are the one built in, 5 of the left door, and 2 of
/// the right one at lower levels. Both have their texts.
fn open_is_numbered(agent: &Agent) -> bool
    requires { WellFormed agent.now }
{
    8 < agent.starts.as_slice().len()
        && is_open(agent, 8)
        && has_text(agent, 8, b"open(right,1)")
        && has_text(agent, 0, b"interrupts_running")
}

/// Whether both hold of the agent of `LIFT`.
fn lift_is_numbered(alloc: Global) -> [bool; 2] {
    let read = read_agent(alloc, LIFT);
    let answer = match &read {
        Ok(agent) => [turning_is_numbered(agent), open_is_numbered(agent)],
        Err(_fault) => [false; 2],
    };
    drop(read);
    answer
}

#[test]
fn ground_things_are_numbered(rt: HostRuntime) {
    same(&rt, "lift", lift_is_numbered(rt.alloc()), [true; 2]);
}

/// The sorts of that agent: `bool` is built in, and no sort has the last number.
const BOOL: u32 = 0;

const LEVEL: u32 = 1;

const DOOR: u32 = 2;

const NO_SORT: u32 = 3;

/// How many lists of arguments of these sorts there are.
fn counts(agent: &Agent) -> [u32; 6]
    requires { WellFormed agent.now }
{
    [
        args_count(agent, &[]),
        args_count(agent, &[BOOL]),
        args_count(agent, &[DOOR, LEVEL]),
        args_count(agent, &[LEVEL, LEVEL, LEVEL]),
        args_count(agent, &[NO_SORT]),
        args_count(agent, &[LEVEL, NO_SORT, DOOR]),
    ]
}

/// The same of the agent of `LIFT`.
fn lift_counts(alloc: Global) -> [u32; 6] {
    let read = read_agent(alloc, LIFT);
    let answer = match &read {
        Ok(agent) => counts(agent),
        Err(_fault) => [99; 6],
    };
    drop(read);
    answer
}

#[test]
fn arguments_are_counted(rt: HostRuntime) {
    let wanted = [1, 2, 10, 125, 0, 0];
    same(&rt, "lift", lift_counts(rt.alloc()), wanted);
    same(&rt, "the most arguments", MOST_ARGS, 3);
}
