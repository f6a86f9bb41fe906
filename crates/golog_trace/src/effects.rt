// `effect_on`: by which effect of an action a ground fluent has its value after it.
ghost use Rattle.std.specs.Prelude.{◌≡◌, ◌<◌, ◌≤◌, ◌==◌, ◌&&◌, [], ◌++◌, IfOk, IsTrue, length};
ghost use Rattle.golog_tree.specs.Ground.{AreWithin, IsCountable, action_args, args_at, fluent_args, ground_count, ground_fluents, sizes};
ghost use Rattle.golog_semantics.specs.Truth.{arg_value, env_of, truth_of};
ghost use Rattle.golog_semantics.specs.Values.{matched_values};
ghost use Rattle.golog_semantics.specs.WellFormed.{WellFormed, cause_fits};
ghost use Rattle.golog_known.specs.Fits.{CondFitsAt};
ghost use Rattle.golog_progress.specs.Effects.{is_next as next_is};
ghost use Rattle.golog_trace.specs.Effects.{UntoldStays, effect_if, effect_on as effect_at, first_effect, truth_for};

use golog_base::{List, NoMemory};
use golog_known::{Env, value};
use golog_tree::{Agent, Arg, CauseItem, Truth, action_of, fluent_of};
use std::alloc::Global;

/// An effect of an agent, by its number among all, and the truth of its condition: it applies, or may apply.
#[derive(Clone, Copy, Debug, PartialEq, Eq)]
pub struct Effect {
    pub number: usize,
    pub truth: Truth,
}

/// A ground action and a ground fluent, each by its item and its arguments, and the values before the action.
#[derive(Clone, Copy)]
struct Meeting<'a> {
    alloc: Global,
    agent: &'a Agent,
    values: &'a [u8],
    action: u32,
    args: &'a [u8],
    fluent: u32,
    at: &'a [u8],
}

/// Where no effect applies, the value stays as it was.
pub fn untold_stays()
    ensures { UntoldStays }
{}

/// Whether the argument is the next variable, which has no value yet.
fn is_next(found: &[u8], arg: Arg) -> bool
    ensures { result ≡ next_is found.now arg }
{
    match arg {
        Arg::Const(_) => false,
        Arg::Var(var) => usize::from(var) == found.len(),
    }
}

/// The value of an argument: a constant, or the value of a variable; of one that has none yet, 0.
fn value_of(found: &[u8], arg: Arg) -> u8
    ensures { result ≡ arg_value found.now arg }
{
    match arg {
        Arg::Const(value) => value,
        Arg::Var(var) => found.get(usize::from(var)).copied().unwrap_or(0),
    }
}

/// The values of the variables of these arguments, behind those that are found already: `None` exactly where a
/// constant, or a variable that has a value, has another one.
fn matched(args: &[Arg], values: &[u8], mut found: List<u8>) -> Result<Option<List<u8>>, NoMemory>
    ensures { IfOk result (λ all. all ≡ matched_values args.now values.now found) }
{
    match (args.split_first(), values.split_first()) {
        (None, _) => Ok(Some(found)),
        (Some(_), None) => Ok(None),
        (Some((arg, args)), Some((value, values))) => {
            if is_next(found.as_slice(), *arg) {
                found.push(*value)?;
                matched(args, values, found)
            } else if value_of(found.as_slice(), *arg) == *value {
                matched(args, values, found)
            } else {
                Ok(None)
            }
        }
    }
}

/// The arguments of a cause's head: those of its action, and then those of its fluent.
fn head_of(alloc: Global, cause: &CauseItem) -> Result<List<Arg>, NoMemory>
    ensures { IfOk result (λ head. head ≡ cause.now.action_args ++ cause.now.fluent_args) }
{
    let mut head = List::copy_of(alloc, cause.action_args.as_slice())?;
    head.extend(cause.fluent_args.as_slice())?;
    Ok(head)
}

/// The effect of this number, where its condition has this truth, if it isn't false.
fn told(number: usize, truth: Option<Truth>) -> Option<Effect>
    ensures { result ≡ effect_if number truth }
{
    match truth {
        None | Some(Truth::No) => None,
        Some(Truth::Yes) => Some(Effect {
            number,
            truth: Truth::Yes,
        }),
        Some(Truth::Unknown) => Some(Effect {
            number,
            truth: Truth::Unknown,
        }),
    }
}

impl<'a> Meeting<'a> {
    /// The values of a cause's variables, where it speaks of the action and the fluent.
    fn found_in(&self, cause: &CauseItem) -> Result<Option<List<u8>>, NoMemory>
        ensures { IfOk result (λ found. found ≡ matched_values (cause.now.action_args ++ cause.now.fluent_args)
            (self.now.args.now ++ self.now.at.now) []) }
    {
        let head = head_of(self.alloc, cause)?;
        let mut given = List::copy_of(self.alloc, self.args)?;
        given.extend(self.at)?;
        matched(head.as_slice(), given.as_slice(), List::new(self.alloc))
    }

    /// Whether a cause is of the action and of the fluent, at whatever arguments.
    fn is_of(&self, cause: &CauseItem) -> bool
        ensures { result ≡ (cause.now.action == self.now.action && cause.now.fluent == self.now.fluent) }
    {
        cause.action == self.action && cause.fluent == self.fluent
    }

    /// The truth of the condition of a cause whose variables have these values.
    fn truth_at(&self, cause: &CauseItem, found: &[u8]) -> Truth
        requires countable { IsCountable self.now.agent.now }
        requires few { length found.now ≤ 32 }
        requires cond { CondFitsAt self.now.agent.now cause.now.cond (env_of found.now) }
        requires whole { length self.now.values.now ≡ length (ground_fluents self.now.agent.now) }
        ensures { result ≡ truth_of self.now.agent.now self.now.values.now cause.now.cond (env_of found.now) }
    {
        let env = Env::of(found);
        value(self.agent, &cause.cond, &env, self.values)
    }

    /// The truth of the condition of a cause, where it speaks of the action and the fluent.
    fn truth_by(&self, cause: &CauseItem) -> Result<Option<Truth>, NoMemory>
        requires agent { WellFormed self.now.agent.now }
        requires cause { IsTrue (cause_fits self.now.agent.now cause.now) }
        requires args { AreWithin (sizes self.now.agent.now
            (args_at (action_args self.now.agent.now) self.now.action)) self.now.args.now }
        requires at { AreWithin (sizes self.now.agent.now
            (args_at (fluent_args self.now.agent.now) self.now.fluent)) self.now.at.now }
        requires whole { length self.now.values.now ≡ length (ground_fluents self.now.agent.now) }
        ensures { IfOk result (λ truth. truth ≡ truth_for self.now.agent.now self.now.values.now cause.now
            (self.now.action, self.now.args.now) (self.now.fluent, self.now.at.now)) }
    {
        if !self.is_of(cause) {
            return Ok(None);
        }
        let all = self.found_in(cause)?;
        match all {
            Some(found) => Ok(Some(self.truth_at(cause, found.as_slice()))),
            None => Ok(None),
        }
    }

    /// The first effect of the action on the fluent whose condition isn't false.
    fn first(&self) -> Result<Option<Effect>, NoMemory>
        requires agent { WellFormed self.now.agent.now }
        requires args { AreWithin (sizes self.now.agent.now
            (args_at (action_args self.now.agent.now) self.now.action)) self.now.args.now }
        requires at { AreWithin (sizes self.now.agent.now
            (args_at (fluent_args self.now.agent.now) self.now.fluent)) self.now.at.now }
        requires whole { length self.now.values.now ≡ length (ground_fluents self.now.agent.now) }
        ensures { IfOk result (λ effect. effect ≡ first_effect self.now.agent.now self.now.values.now 0
            self.now.agent.now.causes (self.now.action, self.now.args.now) (self.now.fluent, self.now.at.now)) }
    {
        for (number, cause) in self.agent.causes.as_slice().iter().enumerate() {
            let truth = self.truth_by(cause)?;
            if let Some(effect) = told(number, truth) {
                return Ok(Some(effect));
            }
        }
        Ok(None)
    }
}

/// The first effect of a ground action on a ground fluent whose condition isn't false, where these were the values before
/// the action: where its condition is true, the fluent has its value by it.
pub fn effect_on(
    alloc: Global,
    agent: &Agent,
    values: &[u8],
    action: u32,
    fluent: u32,
) -> Result<Option<Effect>, NoMemory>
    requires formed { WellFormed agent.now }
    requires whole { length values.now ≡ length (ground_fluents agent.now) }
    requires action { action < ground_count agent.now (action_args agent.now) }
    requires fluent { fluent < ground_count agent.now (fluent_args agent.now) }
    ensures { IfOk result (λ effect. effect ≡ effect_at agent.now values.now action fluent) }
{
    let doing = action_of(agent, action);
    let reading = fluent_of(agent, fluent);
    let args = &doing.args[..usize::from(doing.count)];
    let at = &reading.args[..usize::from(reading.count)];
    let meeting = Meeting {
        alloc,
        agent,
        values,
        action: doing.item,
        args,
        fluent: reading.item,
        at,
    };
    meeting.first()
}
