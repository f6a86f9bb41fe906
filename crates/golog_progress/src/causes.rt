// What the causes of an action make of the values, the last of them first.
ghost use Rattle.std.specs.Prelude.{◌≡◌, ℕ, ◌+◌, ◌*◌, ◌<◌, ◌≤◌, [], ◌∷◌, ◌++◌, Some, IsTrue, length, slice_index, take};
ghost use Rattle.std.specs.List.{list_all};
ghost use Rattle.golog_tree.specs.Ground.{AreWithin, action_args, args_at, ground_fluents, product, sizes};
ghost use Rattle.golog_semantics.specs.Truth.{env_of};
ghost use Rattle.golog_semantics.specs.Values.{value_caused, after_do, ground_actions};
ghost use Rattle.golog_semantics.specs.WellFormed.{WellFormed, cause_fits};
ghost use Rattle.golog_known.specs.Fits.{CondFitsAt, TermFitsAt};
ghost use Rattle.golog_progress.specs.Effects.{HeadFits, IsSpread, IsRanged, ArePlaces, IsAffected, AreRuled, effect_in};

use crate::bindings::{Bindings, bound_by};
use crate::causing::Causing;
use golog_known::{Env, chosen, term, value};
use golog_tree::{Agent, Arg, CauseItem, action_of, args_count, fluent_no, sort_size};

/// Ground things that stand together: the number of the first, and how many there are.
#[derive(Clone, Copy)]
struct Places {
    first: usize,
    count: usize,
}

/// The places of the ground fluents of a fluent.
fn places_of(agent: &Agent, fluent: u32) -> Places
    requires agent { WellFormed agent.now }
    requires fluent { fluent < length agent.now.fluents }
    ensures { ArePlaces agent.now fluent result.first result.count }
{
    let sorts = agent.fluents.as_slice()[fluent as usize].args.as_slice();
    let zeros = [0; 3];
    Places {
        first: fluent_no(agent, fluent, &zeros[..sorts.len()]) as usize,
        count: args_count(agent, sorts) as usize,
    }
}

/// The arguments in the head of a cause: those of the action, and then those of the fluent.
fn head_of(cause: &CauseItem) -> [Arg; 6]
    requires { length cause.now.action_args + length cause.now.fluent_args ≤ 6 }
    ensures room { length result ≡ 6 }
    ensures head { take (length cause.now.action_args + length cause.now.fluent_args) result
        ≡ cause.now.action_args ++ cause.now.fluent_args }
{
    let mut head = [Arg::Const(0); 6];
    for (i, arg) in cause.action_args.as_slice().iter().enumerate() {
        head[i] = *arg;
    }
    let first = cause.action_args.len();
    for (j, arg) in cause.fluent_args.as_slice().iter().enumerate() {
        head[first + j] = *arg;
    }
    head
}

impl<'a, 'c, 'v> Causing<'a, 'c, 'v> {
    /// What the cause, whose variables have these values, makes of a value, given what the causes after it
    /// make of it.
    fn effect(&self, found: &Bindings, later: u8) -> u8
        requires few { length found.now ≤ 32 }
        requires cond { CondFitsAt self.now.agent.now self.now.cause.now.cond (env_of found.now) }
        requires term { TermFitsAt self.now.agent.now self.now.cause.now.term (env_of found.now) }
        ensures { result
            ≡ value_caused self.now.agent.now self.now.values.now self.now.cause.now (Some found.now) later }
    {
        let env = Env::of(found.as_slice());
        chosen(
            value(self.agent, &self.cause.cond, &env, self.values),
            term(self.agent, &self.cause.term, &env, self.values),
            later,
        )
    }

    /// Puts the cause into the values of the ground fluents at these places, whose arguments are of these
    /// sorts, where the variables of its head before these arguments are bound.
    #[cycle(spread)]
    fn spread(&self, sorts: &[u32], args: &[Arg], found: &Bindings, places: Places, next: &mut [u8])
        requires head { HeadFits self.now.agent.now self.now.cause.now sorts.now args.now found.now }
        requires count { places.count ≡ product (sizes self.now.agent.now sorts.now) }
        requires some { 0 < places.count }
        requires inside { places.first + places.count ≤ length next.old }
        ensures { IsSpread (effect_in self.now) (sizes self.now.agent.now sorts.now) args.now found.now places.first
            next.old next.new }
    {
        match (sorts.split_first(), args.split_first()) {
            (Some((sort, sorts)), Some((arg, args))) => {
                let size = sort_size(self.agent, *sort);
                let count = places.count / size as usize;
                if found.is_next(*arg) {
                    let places = Places { count, ..places };
                    self.range_over(size, sorts, args, found, places, next);
                } else {
                    let first = places.first + usize::from(found.value_of(*arg)) * count;
                    self.spread(sorts, args, found, Places { first, count }, next);
                }
            }
            (None, _) => {
                let later = next[places.first];
                next[places.first] = self.effect(found, later);
            }
            (Some(_), None) => {}
        }
    }

    /// Puts the cause into the values of the ground fluents at these places and the parts of the same size
    /// behind them, one for each constant of the next variable.
    #[cycle(spread)]
    fn range_over(
        &self,
        size: u32,
        sorts: &[u32],
        args: &[Arg],
        found: &Bindings,
        places: Places,
        next: &mut [u8],
    )
        requires small { size ≤ 255 }
        requires head { (c : ℕ) → c < size
            → HeadFits self.now.agent.now self.now.cause.now sorts.now args.now (found.now ++ c ∷ []) }
        requires room { length found.now < 6 }
        requires count { places.count ≡ product (sizes self.now.agent.now sorts.now) }
        requires some { 0 < places.count }
        requires inside { places.first + size * places.count ≤ length next.old }
        ensures { IsRanged (effect_in self.now) (sizes self.now.agent.now sorts.now) args.now found.now places.first
            next.old size next.new }
    {
        for constant in 0..size {
            let first = places.first + constant as usize * places.count;
            let places = Places { first, ..places };
            self.spread(sorts, args, &found.with(constant as u8), places, next);
        }
    }

    /// Puts the cause of an action with these arguments into the values of the ground fluents that it speaks
    /// of, where its head is split at the end of the action's arguments.
    fn affect_by(&self, given: &[Arg], free: &[Arg], args: &[u8], next: &mut [u8])
        requires agent { WellFormed self.now.agent.now }
        requires cause { IsTrue (cause_fits self.now.agent.now self.now.cause.now) }
        requires args { AreWithin (sizes self.now.agent.now
            (args_at (action_args self.now.agent.now) self.now.cause.now.action)) args.now }
        requires head { given.now ++ free.now ≡ self.now.cause.now.action_args ++ self.now.cause.now.fluent_args }
        requires even { length given.now ≡ length args.now }
        requires room { length next.old ≡ length (ground_fluents self.now.agent.now) }
        ensures { IsAffected self.now.agent.now self.now.values.now self.now.cause.now
            (self.now.cause.now.action, args.now) next.old next.new }
    {
        let cause = self.cause;
        if let Some(found) = bound_by(given, args, Bindings::new()) {
            let sorts = self.agent.fluents.as_slice()[cause.fluent as usize]
                .args
                .as_slice();
            let places = places_of(self.agent, cause.fluent);
            self.spread(sorts, free, &found, places, next);
        }
    }
}

/// Puts a cause of an action with these arguments into the values of the ground fluents that it speaks
/// of.
fn affect(agent: &Agent, cause: &CauseItem, args: &[u8], values: &[u8], next: &mut [u8])
    requires agent { WellFormed agent.now }
    requires cause { IsTrue (cause_fits agent.now cause.now) }
    requires args { AreWithin (sizes agent.now (args_at (action_args agent.now) cause.now.action)) args.now }
    requires whole { length values.now ≡ length (ground_fluents agent.now) }
    requires room { length next.old ≡ length (ground_fluents agent.now) }
    ensures { IsAffected agent.now values.now cause.now (cause.now.action, args.now) next.old next.new }
{
    let head = head_of(cause);
    let count = cause.action_args.len() + cause.fluent_args.len();
    let given = &head[..args.len()];
    let free = &head[args.len()..count];
    let causing = Causing {
        agent,
        cause,
        values,
    };
    causing.affect_by(given, free, args, next);
}

/// Puts these causes into the values after an action, the last of them first.
fn rule(
    agent: &Agent,
    causes: &[CauseItem],
    action: u32,
    args: &[u8],
    values: &[u8],
    next: &mut [u8],
)
    requires agent { WellFormed agent.now }
    requires causes { IsTrue (list_all (cause_fits agent.now) causes.now) }
    requires args { AreWithin (sizes agent.now (args_at (action_args agent.now) action)) args.now }
    requires whole { length values.now ≡ length (ground_fluents agent.now) }
    requires room { length next.old ≡ length (ground_fluents agent.now) }
    ensures { AreRuled agent.now values.now causes.now (action, args.now) next.old next.new }
{
    for index in (0..causes.len()).rev() {
        let cause = &causes[index];
        if cause.action == action {
            affect(agent, cause, args, values, next);
        }
    }
}

/// Makes `next` the values after a ground action, all taken from the values before.
pub fn advance(agent: &Agent, action: u32, values: &[u8], next: &mut [u8])
    requires agent { WellFormed agent.now }
    requires action { action < length (ground_actions agent.now) }
    requires whole { length values.now ≡ length (ground_fluents agent.now) }
    requires room { length next.old ≡ length (ground_fluents agent.now) }
    ensures { next.new ≡ after_do agent.now values.now action }
{
    let ground = action_of(agent, action);
    let args = &ground.args[..usize::from(ground.count)];
    next.copy_from_slice(values);
    rule(
        agent,
        agent.causes.as_slice(),
        ground.item,
        args,
        values,
        next,
    );
}
