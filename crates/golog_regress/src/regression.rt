// `regress` and `regress_all`: a condition taken back over one event, and over a list of events,
// the last first.
ghost use Rattle.std.specs.Prelude.{◌≡◌, [], ◌∷◌, All, IfOk, IsTrue, ◌<◌, length, map, slice_get};
ghost use Rattle.golog_tree.specs.Ground.{ground_actions};
ghost use Rattle.golog_semantics.specs.Reports.{is_value};
ghost use Rattle.golog_semantics.specs.WellFormed.{WellFormed};
ghost use Rattle.golog_regress.specs.Causes.{action_sorts};
ghost use Rattle.golog_regress.specs.Regression.{EventFits, IsRegressed};

use crate::change::Change;
use crate::event::Event;
use crate::happened::Happened;
use crate::taking_back::cond_back;
use golog_base::{List, NoMemory};
use golog_tree::{Agent, Arg, CauseItem, Cond, Term, action_of, copy_cond, fluent_of};
use std::alloc::Global;
use std::slice;

/// The constants as arguments.
fn constants(alloc: Global, values: &[u8]) -> Result<List<Arg>, NoMemory>
    ensures { IfOk result (λ list. list ≡ map Arg.Const values.now) }
{
    let mut list = List::new(alloc);
    for value in values {
        list.push(Arg::Const(*value))?;
    }
    Ok(list)
}

/// The sorts of an action's arguments.
fn sorts_of_action(alloc: Global, agent: &Agent, action: u32) -> Result<List<u32>, NoMemory>
    ensures { IfOk result (λ sorts. sorts ≡ action_sorts (slice_get agent.now.actions action)) }
{
    match agent.actions.as_slice().get(action as usize) {
        Some(item) => List::copy_of(alloc, item.args.as_slice()),
        None => Ok(List::new(alloc)),
    }
}

/// The condition before a ground action.
fn before_action(alloc: Global, agent: &Agent, cond: &Cond, action: u32) -> Result<Cond, NoMemory>
    requires agent { WellFormed agent.now }
    requires action { action < length (ground_actions agent.now) }
    ensures { IfOk result (λ answer. IsRegressed agent.now (Event.Did action ∷ []) cond.now answer) }
{
    let ground = action_of(agent, action);
    let happened = Happened {
        action: ground.item,
        sorts: sorts_of_action(alloc, agent, ground.item)?,
        args: constants(alloc, &ground.args[..usize::from(ground.count)])?,
    };
    let change = Change {
        agent,
        happened: &happened,
        causes: agent.causes.as_slice(),
    };
    cond_back(alloc, &change, cond)
}

/// The condition before a ground fluent is sensed to have a value: sensing is one cause, of an action
/// without arguments.
fn before_sensing(
    alloc: Global,
    agent: &Agent,
    cond: &Cond,
    fluent: u32,
    value: u8,
) -> Result<Cond, NoMemory>
    requires agent { WellFormed agent.now }
    requires value { IsTrue (is_value agent.now fluent value) }
    ensures { IfOk result (λ answer. IsRegressed agent.now (Event.Sensed fluent value ∷ []) cond.now answer) }
{
    let ground = fluent_of(agent, fluent);
    let fluent_args = constants(alloc, &ground.args[..usize::from(ground.count)])?;
    let cause = CauseItem {
        action: 0,
        action_args: List::new(alloc),
        fluent: ground.item,
        fluent_args,
        term: Term::Arg(Arg::Const(value)),
        cond: Cond::Truth(true),
    };
    let happened = Happened {
        action: 0,
        sorts: List::new(alloc),
        args: List::new(alloc),
    };
    let change = Change {
        agent,
        happened: &happened,
        causes: slice::from_ref(&cause),
    };
    let before = cond_back(alloc, &change, cond);
    drop(happened);
    drop(cause);
    before
}

/// The condition taken back over an event: at all values, its truth before the event is that of the
/// condition after it, in all three values. The variables of the condition are below 32, and so are those
/// of the answer.
pub fn regress(alloc: Global, agent: &Agent, cond: &Cond, event: Event) -> Result<Cond, NoMemory>
    requires agent { WellFormed agent.now }
    requires event { EventFits agent.now event }
    ensures { IfOk result (λ answer. IsRegressed agent.now (event ∷ []) cond.now answer) }
{
    match event {
        Event::Did(action) => before_action(alloc, agent, cond, action),
        Event::Sensed { fluent, value } => before_sensing(alloc, agent, cond, fluent, value),
    }
}

/// The condition taken back over one event, in place of it.
fn stepped(alloc: Global, agent: &Agent, cond: Cond, event: Event) -> Result<Cond, NoMemory>
    requires agent { WellFormed agent.now }
    requires event { EventFits agent.now event }
    ensures { IfOk result (λ answer. IsRegressed agent.now (event ∷ []) cond answer) }
{
    let answer = regress(alloc, agent, &cond, event);
    drop(cond);
    answer
}

/// The condition taken back over all of these events, the last of them first.
pub fn regress_all(
    alloc: Global,
    agent: &Agent,
    cond: &Cond,
    events: &[Event],
) -> Result<Cond, NoMemory>
    requires agent { WellFormed agent.now }
    requires events { All (EventFits agent.now) events.now }
    ensures { IfOk result (λ answer. IsRegressed agent.now events.now cond.now answer) }
{
    let mut answer = copy_cond(alloc, cond)?;
    for index in (0..events.len()).rev() {
        answer = stepped(alloc, agent, answer, events[index])?;
    }
    Ok(answer)
}
