// A test of `check_condition`.
ghost use Rattle.golog_semantics.specs.WellFormed.{WellFormed};

use crate::agents::LAMP;
use crate::asserting::same;
use golog_check::{CheckFault, SORT_CLASH, check_condition};
use golog_file::read_agent;
use golog_tree::{Agent, Cond, DraftArg, DraftCond, DraftTerm};
use std::alloc::Global;

/// Whether the condition that always holds is checked to be that.
fn is_taken(alloc: Global, agent: &Agent) -> bool
    requires { WellFormed agent.now }
{
    let cond = DraftCond::Truth { truth: true, at: 0 };
    let checked = check_condition(alloc, agent, &cond);
    let answer = match &checked {
        Ok(cond) => *cond == Cond::Truth(true),
        Err(_fault) => false,
    };
    drop(checked);
    drop(cond);
    answer
}

/// Whether the fault refuses a sort at the place 3.
fn is_clash(fault: &CheckFault) -> bool {
    match fault {
        CheckFault::Refused { code, at } => *code == SORT_CLASH && *at == 3,
        CheckFault::Memory => false,
    }
}

/// Whether a comparison of two numbers, which have no sort, is refused at the first.
fn is_refused(alloc: Global, agent: &Agent) -> bool
    requires { WellFormed agent.now }
{
    let cond = DraftCond::Equal {
        one: DraftTerm::Arg(DraftArg::Number { number: 1, at: 3 }),
        other: DraftTerm::Arg(DraftArg::Number { number: 1, at: 9 }),
        at: 0,
    };
    let checked = check_condition(alloc, agent, &cond);
    let answer = match &checked {
        Ok(_cond) => false,
        Err(fault) => is_clash(fault),
    };
    drop(checked);
    drop(cond);
    answer
}

/// Whether both hold of the agent of `LAMP`.
fn lamp_checks_conditions(alloc: Global) -> [bool; 2] {
    let read = read_agent(alloc, LAMP);
    let answer = match &read {
        Ok(agent) => [is_taken(alloc, agent), is_refused(alloc, agent)],
        Err(_fault) => [false; 2],
    };
    drop(read);
    answer
}

#[test]
fn conditions_are_checked(rt: HostRuntime) {
    same(&rt, "lamp", lamp_checks_conditions(rt.alloc()), [true; 2]);
}
