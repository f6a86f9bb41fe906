// The recursion over conditions and terms that gives their truths and values.
ghost use Rattle.std.specs.Prelude.{◌≡◌, length};
ghost use Rattle.golog_tree.specs.Ground.{IsCountable, ground_fluents};
ghost use Rattle.golog_semantics.specs.Truth.{truth_of, value_of};
ghost use Rattle.golog_known.specs.Fits.{CondFitsAt, TermFitsAt};

use crate::env::Env;
use crate::fluent::fluent_at;
use crate::kleene::{at_most, both, chosen, either, equal, less, negation, truth};
use crate::shift::shifted;
use golog_tree::{Agent, Cond, Term, Truth, sort_size};

/// The value of a term, where `values` has the value of each ground fluent, by their numbers: a constant
/// by its position in the term's sort, or 255 where it is unknown. Takes no memory.
#[cycle(value)]
pub fn term(agent: &Agent, term: &Term, env: &Env, values: &[u8]) -> u8
    requires countable { IsCountable agent.now }
    requires fits { TermFitsAt agent.now term.now env.now }
    requires whole { length values.now ≡ length (ground_fluents agent.now) }
    ensures { result ≡ value_of agent.now values.now term.now env.now }
{
    match term {
        Term::Arg(arg) => env.arg_value(*arg),
        Term::Fluent { fluent, args } => fluent_at(agent, *fluent, args.as_slice(), env, values),
        Term::Shift {
            sort,
            term: inner,
            by,
        } => shifted(
            sort_size(agent, *sort),
            self::term(agent, inner.get(), env, values),
            *by,
        ),
        Term::Ite { cond, yes, no } => chosen(
            value(agent, cond.get(), env, values),
            self::term(agent, yes.get(), env, values),
            self::term(agent, no.get(), env, values),
        ),
    }
}

/// The truth of a condition by the strong Kleene tables (Kleene 1952), where `values` has the value of
/// each ground fluent, by their numbers: unknown where what is known doesn't settle it. Takes no memory.
#[cycle(value)]
pub fn value(agent: &Agent, cond: &Cond, env: &Env, values: &[u8]) -> Truth
    requires countable { IsCountable agent.now }
    requires fits { CondFitsAt agent.now cond.now env.now }
    requires whole { length values.now ≡ length (ground_fluents agent.now) }
    ensures { result ≡ truth_of agent.now values.now cond.now env.now }
{
    match cond {
        Cond::Truth(plain) => truth(*plain),
        Cond::Is { fluent, args } => {
            less(0, fluent_at(agent, *fluent, args.as_slice(), env, values))
        }
        Cond::Equal { one, other, .. } => {
            equal(
                side(agent, one, env, values),
                side(agent, other, env, values),
            )
        }
        Cond::Less { one, other, .. } => {
            less(
                side(agent, one, env, values),
                side(agent, other, env, values),
            )
        }
        Cond::AtMost { one, other, .. } => {
            at_most(
                side(agent, one, env, values),
                side(agent, other, env, values),
            )
        }
        Cond::Not(body) => negation(value(agent, body.get(), env, values)),
        Cond::And(conds) => all_of(agent, conds.as_slice(), env, values),
        Cond::Or(conds) => any_of(agent, conds.as_slice(), env, values),
        Cond::ForSome { var, sort, body } => {
            for_some(agent, *var, *sort, body.get(), env, values)
        }
        Cond::ForAll { var, sort, body } => for_all(agent, *var, *sort, body.get(), env, values),
    }
}

/// The value of a side of a comparison, as [`term`] gives it: a constant, a variable and a fluent without a call.
#[cycle(value)]
#[inline]
fn side(agent: &Agent, side: &Term, env: &Env, values: &[u8]) -> u8
    requires countable { IsCountable agent.now }
    requires fits { TermFitsAt agent.now side.now env.now }
    requires whole { length values.now ≡ length (ground_fluents agent.now) }
    ensures { result ≡ value_of agent.now values.now side.now env.now }
{
    match side {
        Term::Arg(arg) => env.arg_value(*arg),
        Term::Fluent { fluent, args } => fluent_at(agent, *fluent, args.as_slice(), env, values),
        Term::Shift { .. } | Term::Ite { .. } => term(agent, side, env, values),
    }
}

/// The truth of a part of a condition, as [`value`] gives it: a fluent, which most parts are, without a call.
#[cycle(value)]
#[inline]
fn part(agent: &Agent, cond: &Cond, env: &Env, values: &[u8]) -> Truth
    requires countable { IsCountable agent.now }
    requires fits { CondFitsAt agent.now cond.now env.now }
    requires whole { length values.now ≡ length (ground_fluents agent.now) }
    ensures { result ≡ truth_of agent.now values.now cond.now env.now }
{
    match cond {
        Cond::Is { fluent, args } => {
            less(0, fluent_at(agent, *fluent, args.as_slice(), env, values))
        }
        _ => value(agent, cond, env, values),
    }
}

/// Whether all of the conditions are true. Behind one that is false, none is looked at.
#[cycle(value)]
fn all_of(agent: &Agent, conds: &[Cond], env: &Env, values: &[u8]) -> Truth
    requires countable { IsCountable agent.now }
    requires fits { CondFitsAt agent.now (Cond.And conds.now) env.now }
    requires whole { length values.now ≡ length (ground_fluents agent.now) }
    ensures { result ≡ truth_of agent.now values.now (Cond.And conds.now) env.now }
{
    let mut all = Truth::Yes;
    for cond in conds {
        all = both(all, part(agent, cond, env, values));
        if all == Truth::No {
            return all;
        }
    }
    all
}

/// Whether one of the conditions is true. Behind one that is true, none is looked at.
#[cycle(value)]
fn any_of(agent: &Agent, conds: &[Cond], env: &Env, values: &[u8]) -> Truth
    requires countable { IsCountable agent.now }
    requires fits { CondFitsAt agent.now (Cond.Or conds.now) env.now }
    requires whole { length values.now ≡ length (ground_fluents agent.now) }
    ensures { result ≡ truth_of agent.now values.now (Cond.Or conds.now) env.now }
{
    let mut any = Truth::No;
    for cond in conds {
        any = either(any, part(agent, cond, env, values));
        if any == Truth::Yes {
            return any;
        }
    }
    any
}

/// Whether the condition is true with some constant of the sort for the variable, up to the first such one.
#[cycle(value)]
fn for_some(agent: &Agent, var: u8, sort: u32, body: &Cond, env: &Env, values: &[u8]) -> Truth
    requires countable { IsCountable agent.now }
    requires fits { CondFitsAt agent.now (Cond.ForSome var sort body.now) env.now }
    requires whole { length values.now ≡ length (ground_fluents agent.now) }
    ensures { result ≡ truth_of agent.now values.now (Cond.ForSome var sort body.now) env.now }
{
    let mut some = Truth::No;
    for witness in 0..sort_size(agent, sort) {
        some = either(
            some,
            value(agent, body, &env.with(var, witness as u8), values),
        );
        if some == Truth::Yes {
            return some;
        }
    }
    some
}

/// Whether the condition is true with each constant of the sort for the variable, up to the first with which
/// it is false.
#[cycle(value)]
fn for_all(agent: &Agent, var: u8, sort: u32, body: &Cond, env: &Env, values: &[u8]) -> Truth
    requires countable { IsCountable agent.now }
    requires fits { CondFitsAt agent.now (Cond.ForAll var sort body.now) env.now }
    requires whole { length values.now ≡ length (ground_fluents agent.now) }
    ensures { result ≡ truth_of agent.now values.now (Cond.ForAll var sort body.now) env.now }
{
    let mut all = Truth::Yes;
    for constant in 0..sort_size(agent, sort) {
        all = both(
            all,
            value(agent, body, &env.with(var, constant as u8), values),
        );
        if all == Truth::No {
            return all;
        }
    }
    all
}
