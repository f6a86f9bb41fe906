//! Conditions made ready, each with its check: those of an agent's program that have many parts, for whoever asks them
//! again and again.
ghost use Rattle.std.specs.Prelude.{◌≡◌, [], IfOk, IfSome, IsTrue, length};
ghost use Rattle.golog_tree.specs.Ground.{IsCountable, ground_fluents};
ghost use Rattle.golog_semantics.specs.Fits.{cond_fits, nothing_bound};
ghost use Rattle.golog_semantics.specs.Truth.{env_of, truth_of};
ghost use Rattle.golog_semantics.specs.WellFormed.{WellFormed};
ghost use Rattle.golog_fronts.specs.Closed.{IsClosed};
ghost use Rattle.golog_ways.specs.Ready.{AreReady, IsReady};

use golog_base::{List, NoMemory};
use golog_flat::{Check, parts_of};
use golog_tree::{Agent, Cond, Prog, Truth, copy_cond};
use std::alloc::Global;

/// So many conditions of a program are made ready.
const MOST_READY: usize = 16;

/// A condition of fewer parts is as soon asked as it is found among those that are ready.
const FEWEST_PARTS: u32 = 8;

/// A condition is made ready where it has fewer parts with its binders put in.
const MOST_PARTS: u32 = 4096;

/// A condition with no free variable, and its check.
#[derive(Drop)]
pub struct Ready {
    cond: Cond,
    check: Check,
}

/// The condition and its check.
fn one_ready(alloc: Global, agent: &Agent, cond: &Cond) -> Result<Ready, NoMemory>
    requires agent { WellFormed agent.now }
    requires closed { IsTrue (cond_fits agent.now cond.now nothing_bound) }
    ensures { IfOk result (IsReady agent.now) }
{
    let check = Check::within(alloc, agent, cond, MOST_PARTS)?;
    match copy_cond(alloc, cond) {
        Ok(cond) => Ok(Ready { cond, check }),
        Err(refused) => {
            drop(check);
            Err(refused)
        }
    }
}

/// Whether a condition has many parts, and not too many.
fn is_worth(agent: &Agent, cond: &Cond) -> bool
    requires { IsCountable agent.now }
{
    let parts = parts_of(agent, cond);
    FEWEST_PARTS <= parts && parts < MOST_PARTS
}

/// Adds a condition that is worth it, unless there are enough, or memory is wanted.
fn add_cond(ready: &mut List<Ready>, alloc: Global, agent: &Agent, cond: &Cond)
    requires agent { WellFormed agent.now }
    requires closed { IsTrue (cond_fits agent.now cond.now nothing_bound) }
    requires ready { AreReady agent.now ready.old }
    ensures { AreReady agent.now ready.new }
{
    if ready.len() >= MOST_READY || !is_worth(agent, cond) {
        return;
    }
    if let Ok(one) = one_ready(alloc, agent, cond) {
        let _ = ready.push(one);
    }
}

/// Adds the conditions that a walk over the program may meet, but for those of search blocks, and of bodies of picks and
/// procedures, where a variable may be free.
fn add_prog(ready: &mut List<Ready>, alloc: Global, agent: &Agent, prog: &Prog)
    requires agent { WellFormed agent.now }
    requires closed { IsClosed agent.now prog.now }
    requires ready { AreReady agent.now ready.old }
    ensures { AreReady agent.now ready.new }
{
    match prog {
        Prog::Test(cond) => add_cond(ready, alloc, agent, cond),
        Prog::Seq(one, other) => {
            add_prog(ready, alloc, agent, one.get());
            add_prog(ready, alloc, agent, other.get());
        }
        Prog::Choice(one, other) => {
            add_prog(ready, alloc, agent, one.get());
            add_prog(ready, alloc, agent, other.get());
        }
        Prog::Conc(one, other) => {
            add_prog(ready, alloc, agent, one.get());
            add_prog(ready, alloc, agent, other.get());
        }
        Prog::Prio(high, low) => {
            add_prog(ready, alloc, agent, high.get());
            add_prog(ready, alloc, agent, low.get());
        }
        Prog::Star(body) => add_prog(ready, alloc, agent, body.get()),
        Prog::Cstar(body) => add_prog(ready, alloc, agent, body.get()),
        Prog::If { cond, yes, no } => {
            add_cond(ready, alloc, agent, cond);
            add_prog(ready, alloc, agent, yes.get());
            add_prog(ready, alloc, agent, no.get());
        }
        Prog::While { cond, body } => {
            add_cond(ready, alloc, agent, cond);
            add_prog(ready, alloc, agent, body.get());
        }
        _ => {}
    }
}

/// The conditions of an agent's program that are worth it, made ready: the first 16 of at least 8 parts and fewer than
/// 4,096, their binders put in. Where memory is wanted there are fewer.
pub fn ready_of(alloc: Global, agent: &Agent) -> List<Ready>
    requires { WellFormed agent.now }
    ensures { AreReady agent.now result }
{
    let mut ready = List::new(alloc);
    add_prog(&mut ready, alloc, agent, &agent.main);
    ready
}

/// The truth of a condition by its check, where it is made ready.
pub(crate) fn ready_truth(
    agent: &Agent,
    ready: &[Ready],
    cond: &Cond,
    values: &[u8],
) -> Option<Truth>
    requires countable { IsCountable agent.now }
    requires ready { AreReady agent.now ready.now }
    requires whole { length values.now ≡ length (ground_fluents agent.now) }
    ensures { IfSome result (λ truth. truth ≡ truth_of agent.now values.now cond.now (env_of [])) }
{
    for one in ready {
        if one.cond == *cond {
            return Some(one.check.truth(agent, values));
        }
    }
    None
}
