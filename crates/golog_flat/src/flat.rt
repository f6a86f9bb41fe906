// The check of a condition, made by a walk with the values of the variables bound outside.
ghost use Rattle.std.specs.Prelude.{◌≡◌, false, true, [], IfErr, IfOk, IsTrue};
ghost use Rattle.golog_semantics.specs.Fits.{cond_fits, nothing_bound};
ghost use Rattle.golog_tree.specs.Ground.{IsCountable};
ghost use Rattle.golog_semantics.specs.WellFormed.{WellFormed};
ghost use Rattle.golog_flat.specs.Checks.{IsCheckOf};
ghost use Rattle.golog_flat.specs.Making.{EqualFits, IsMadeOf, Stands, cond_joined, cond_order, cond_over, cond_turned, joins_all as all_joined};

use crate::check::Check;
use crate::joining::joined;
use crate::making::{Making, Stop};
use crate::sides::{equality_check, order_check, place_of, plain_check, side_of, truth_check};
use golog_base::{Boxed, List, NoMemory};
use golog_known::Env;
use golog_tree::{Agent, Cond, Term, copy_cond, sort_size};
use std::alloc::Global;

/// A binder of a condition that is asked of many states is put in where the condition below it then has fewer parts.
const MOST_PARTS: u32 = 64;

/// How many parts a condition has where each binder is put in; the greatest `u32` stands for itself and all above. It
/// decides how a check is made and who asks it, and no answer.
pub fn parts_of(agent: &Agent, cond: &Cond) -> u32
    requires { IsCountable agent.now }
{
    match cond {
        Cond::Not(body) => parts_of(agent, body.get()),
        Cond::And(conds) | Cond::Or(conds) => {
            let mut parts = 1u32;
            for cond in conds.as_slice() {
                parts = parts.saturating_add(parts_of(agent, cond));
            }
            parts
        }
        Cond::ForSome { sort, body, .. } | Cond::ForAll { sort, body, .. } => {
            sort_size(agent, *sort).saturating_mul(parts_of(agent, body.get()))
        }
        _ => 1,
    }
}

/// Whether all parts are to hold: of a conjunction, or of the negation of a disjunction.
fn joins_all(conjunction: bool, negated: bool) -> bool
    ensures { result ≡ all_joined conjunction negated }
{
    if negated { !conjunction } else { conjunction }
}

/// The condition, or its negation, in memory of its own.
fn turned(alloc: Global, cond: &Cond, negated: bool) -> Result<Boxed<Cond>, NoMemory>
    ensures { IfOk result (λ c. c ≡ cond_turned negated cond.now) }
{
    let copy = copy_cond(alloc, cond)?;
    let boxed = Boxed::new(alloc, copy)?;
    if negated {
        Boxed::new(alloc, Cond::Not(boxed))
    } else {
        Ok(boxed)
    }
}

impl<'a> Making<'a> {
    /// The condition as it stands, or its negation, where no variable is bound outside it.
    fn other(&self, cond: &Cond, env: &Env, negated: bool, bound: bool) -> Result<Check, Stop>
        requires { Stands self.now.agent.now cond.now env.now bound }
        ensures made { IfOk result (IsMadeOf self.now.agent.now cond.now env.now negated) }
        ensures stop { IfErr result (λ stop. stop ≡ Stop.Bound → bound ≡ true) }
    {
        // What the values of the variables are matters to the contract alone.
        let _ = env;
        if bound {
            return Err(Stop::Bound);
        }
        let cond = turned(self.alloc, cond, negated)?;
        Ok(Check::Other(cond))
    }

    /// The equality of two terms, where each is a constant, a variable or a fluent, and not both are fluents.
    fn equality(
        &self,
        sort: u32,
        one: &Term,
        other: &Term,
        env: &Env,
        negated: bool,
    ) -> Result<Check, Stop>
        requires { EqualFits self.now.agent.now one.now other.now env.now }
        ensures { IfOk result (IsMadeOf self.now.agent.now (Cond.Equal sort one.now other.now) env.now negated) }
    {
        // What the sort is matters to the contract alone.
        let _ = sort;
        let one = side_of(self.agent, one, env)?;
        let other = side_of(self.agent, other, env)?;
        equality_check(one, other, negated)
    }

    /// That one of two terms is below the other, or at most the other, where each is a constant, a variable or a
    /// fluent, and not both are fluents.
    fn order(
        &self,
        strict: bool,
        sort: u32,
        one: &Term,
        other: &Term,
        env: &Env,
        negated: bool,
    ) -> Result<Check, Stop>
        requires { EqualFits self.now.agent.now one.now other.now env.now }
        ensures { IfOk result (IsMadeOf self.now.agent.now (cond_order strict sort one.now other.now) env.now negated) }
    {
        // What the sort is matters to the contract alone.
        let _ = sort;
        let one = side_of(self.agent, one, env)?;
        let other = side_of(self.agent, other, env)?;
        if strict {
            order_check(one, other, negated)
        } else {
            order_check(other, one, !negated)
        }
    }

    /// The check of a condition, or of its negation, where its variables have these values.
    #[cycle(flat)]
    fn check_of(&self, cond: &Cond, env: &Env, negated: bool, bound: bool) -> Result<Check, Stop>
        requires { Stands self.now.agent.now cond.now env.now bound }
        ensures made { IfOk result (IsMadeOf self.now.agent.now cond.now env.now negated) }
        ensures stop { IfErr result (λ stop. stop ≡ Stop.Bound → bound ≡ true) }
    {
        match self.by_parts(cond, env, negated, bound) {
            Ok(check) => Ok(check),
            Err(Stop::Memory) => Err(Stop::Memory),
            Err(Stop::Bound) => self.other(cond, env, negated, bound),
        }
    }

    /// The same without a condition that stands as it is, but for those that parts of it are.
    #[cycle(flat)]
    fn by_parts(&self, cond: &Cond, env: &Env, negated: bool, bound: bool) -> Result<Check, Stop>
        requires { Stands self.now.agent.now cond.now env.now bound }
        ensures { IfOk result (IsMadeOf self.now.agent.now cond.now env.now negated) }
    {
        match cond {
            Cond::Truth(plain) => Ok(plain_check(*plain, negated)),
            Cond::Is { fluent, args } => {
                let place = place_of(self.agent, *fluent, args.as_slice(), env);
                Ok(truth_check(place, negated))
            }
            Cond::Equal { sort, one, other } => self.equality(*sort, one, other, env, negated),
            Cond::Less { sort, one, other } => self.order(true, *sort, one, other, env, negated),
            Cond::AtMost { sort, one, other } => {
                self.order(false, *sort, one, other, env, negated)
            }
            Cond::Not(body) => self.of_negation(body.get(), env, negated, bound),
            Cond::And(conds) => self.of_parts(true, conds.as_slice(), env, negated, bound),
            Cond::Or(conds) => self.of_parts(false, conds.as_slice(), env, negated, bound),
            Cond::ForAll { var, sort, body } => self.of_each(
                true,
                *var,
                *sort,
                body.get(),
                env,
                negated,
                bound,
            ),
            Cond::ForSome { var, sort, body } => self.of_each(
                false,
                *var,
                *sort,
                body.get(),
                env,
                negated,
                bound,
            ),
        }
    }

    /// The check of a negation.
    #[cycle(flat)]
    fn of_negation(&self, body: &Cond, env: &Env, negated: bool, bound: bool) -> Result<Check, Stop>
        requires { Stands self.now.agent.now (Cond.Not body.now) env.now bound }
        ensures { IfOk result (IsMadeOf self.now.agent.now (Cond.Not body.now) env.now negated) }
    {
        self.check_of(body, env, !negated, bound)
    }

    /// The check of a conjunction or a disjunction.
    #[cycle(flat)]
    fn of_parts(
        &self,
        conjunction: bool,
        conds: &[Cond],
        env: &Env,
        negated: bool,
        bound: bool,
    ) -> Result<Check, Stop>
        requires { Stands self.now.agent.now (cond_joined conjunction conds.now) env.now bound }
        ensures { IfOk result (IsMadeOf self.now.agent.now (cond_joined conjunction conds.now) env.now negated) }
    {
        let all = joins_all(conjunction, negated);
        let mut parts = List::new(self.alloc);
        for cond in conds {
            let part = self.check_of(cond, env, negated, bound)?;
            parts.push(part)?;
        }
        Ok(joined(all, parts))
    }

    /// The check of a binder, with each constant put in for its variable, unless it then has too many parts.
    #[cycle(flat)]
    fn of_each(
        &self,
        universal: bool,
        var: u8,
        sort: u32,
        body: &Cond,
        env: &Env,
        negated: bool,
        bound: bool,
    ) -> Result<Check, Stop>
        requires { Stands self.now.agent.now (cond_over universal var sort body.now) env.now bound }
        ensures { IfOk result (IsMadeOf self.now.agent.now (cond_over universal var sort body.now) env.now negated) }
    {
        // Whether a variable is bound outside matters to the contract alone: below, one is.
        let _ = bound;
        let size = sort_size(self.agent, sort);
        if size.saturating_mul(parts_of(self.agent, body)) >= self.most_parts {
            return Err(Stop::Bound);
        }
        let all = joins_all(universal, negated);
        let mut parts = List::new(self.alloc);
        for constant in 0..size {
            let part = self.check_of(body, &env.with(var, constant as u8), negated, true)?;
            parts.push(part)?;
        }
        Ok(joined(all, parts))
    }
}

impl Check {
    /// The check of a condition with no free variable. Binders are put in where that makes few parts.
    pub fn of(alloc: Global, agent: &Agent, cond: &Cond) -> Result<Check, NoMemory>
        requires agent { WellFormed agent.now }
        requires closed { IsTrue (cond_fits agent.now cond.now nothing_bound) }
        ensures { IfOk result (IsCheckOf agent.now cond.now) }
    {
        Check::within(alloc, agent, cond, MOST_PARTS)
    }

    /// The same. Binders are put in where that makes fewer parts than are said.
    pub fn within(
        alloc: Global,
        agent: &Agent,
        cond: &Cond,
        most_parts: u32,
    ) -> Result<Check, NoMemory>
        requires agent { WellFormed agent.now }
        requires closed { IsTrue (cond_fits agent.now cond.now nothing_bound) }
        ensures { IfOk result (IsCheckOf agent.now cond.now) }
    {
        let making = Making {
            alloc,
            agent,
            most_parts,
        };
        match making.check_of(cond, &Env::new(), false, false) {
            Ok(check) => Ok(check),
            Err(Stop::Memory) => Err(NoMemory),
            Err(Stop::Bound) => unreachable!(),
        }
    }
}
