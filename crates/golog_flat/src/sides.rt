//! Fluents and the sides of comparisons by places, where the variables have values.
ghost use Rattle.std.specs.Prelude.{◌≡◌, ◌==◌, nat_lt, true, IfOk, map, slice_index};
ghost use Rattle.golog_tree.specs.Ground.{IsCountable, fluent_no as spec_fluent_no};
ghost use Rattle.golog_tree.specs.declared.agent.Agent.{Agent as AnyAgent};
ghost use Rattle.golog_semantics.specs.Truth.{arg_value, comparison_of, truth};
ghost use Rattle.golog_known.specs.Fits.{FluentFitsAt, TermFitsAt};
ghost use Rattle.golog_flat.specs.Checks.{Tells, is_place, ordered, turned};
ghost use Rattle.golog_flat.specs.Making.{IsSide, side_fits, side_value};

use crate::check::Check;
use crate::making::Stop;
use golog_known::{Env, UNKNOWN};
use golog_tree::{Agent, Arg, Term, fluent_no};

/// A side of a comparison: a value, or the ground fluent at a place.
#[derive(Clone, Copy)]
pub enum Side {
    Value(u8),
    At(u32),
}

/// The place of a fluent at these arguments.
pub fn place_of(agent: &Agent, fluent: u32, args: &[Arg], env: &Env) -> u32
    requires countable { IsCountable agent.now }
    requires fits { FluentFitsAt agent.now fluent args.now env.now }
    ensures number { result ≡ spec_fluent_no agent.now fluent (map (arg_value env.now) args.now) }
    ensures inside { is_place agent.now result ≡ true }
{
    let args_of = env.arg_values(args);
    fluent_no(agent, fluent, &args_of[..args.len()])
}

/// The value of an argument.
fn value_of(arg: Arg, env: &Env) -> u8
    ensures { result ≡ arg_value env.now arg }
{
    env.arg_values(&[arg])[0]
}

/// The side that a term is, where it is one.
pub fn side_of(agent: &Agent, term: &Term, env: &Env) -> Result<Side, Stop>
    requires countable { IsCountable agent.now }
    requires fits { TermFitsAt agent.now term.now env.now }
    ensures { IfOk result (IsSide agent.now term.now env.now) }
{
    match term {
        Term::Arg(arg) => Ok(Side::Value(value_of(*arg, env))),
        Term::Fluent { fluent, args } => {
            Ok(Side::At(place_of(agent, *fluent, args.as_slice(), env)))
        }
        Term::Shift { .. } | Term::Ite { .. } => Err(Stop::Bound),
    }
}

/// What is plainly true or false, or its negation.
pub fn plain_check(plain: bool, negated: bool) -> Check
    ensures { (agent : AnyAgent) → Tells agent (λ values. turned negated (truth plain)) result }
{
    if negated {
        Check::Known(!plain)
    } else {
        Check::Known(plain)
    }
}

/// That the ground fluent is true, or that it is not.
pub fn truth_check(place: u32, negated: bool) -> Check
    ensures { (agent : AnyAgent) → is_place agent place ≡ true
        → Tells agent (λ values. turned negated (comparison_of nat_lt 0 (slice_index values place))) result }
{
    if negated {
        Check::IsNot(place)
    } else {
        Check::Is(place)
    }
}

/// That the ground fluent has the value, or that it has another.
fn value_check(place: u32, value: u8, negated: bool) -> Check
    ensures { (agent : AnyAgent) → is_place agent place ≡ true
        → Tells agent (λ values. turned negated (comparison_of (λ a b. a == b) (slice_index values place) value)) result }
{
    if negated {
        Check::Differs { place, value }
    } else {
        Check::Equals { place, value }
    }
}

/// That two values are equal, or that they differ, where both are known.
fn values_check(one: u8, other: u8, negated: bool) -> Result<Check, Stop>
    ensures { IfOk result (λ check. (agent : AnyAgent)
        → side_fits agent (Side.Value one) ≡ true → side_fits agent (Side.Value other) ≡ true
        → Tells agent (λ values. turned negated (comparison_of (λ a b. a == b)
        (side_value values (Side.Value one)) (side_value values (Side.Value other)))) check) }
{
    if one == UNKNOWN || other == UNKNOWN {
        Err(Stop::Bound)
    } else if negated {
        Ok(Check::Known(one != other))
    } else {
        Ok(Check::Known(one == other))
    }
}

/// That the two sides are equal, or that they differ, where a check can say so.
pub fn equality_check(one: Side, other: Side, negated: bool) -> Result<Check, Stop>
    ensures { IfOk result (λ check. (agent : AnyAgent) → side_fits agent one ≡ true → side_fits agent other ≡ true
        → Tells agent (λ values. turned negated
        (comparison_of (λ a b. a == b) (side_value values one) (side_value values other))) check) }
{
    match (one, other) {
        (Side::Value(one), Side::Value(other)) => values_check(one, other, negated),
        (Side::At(place), Side::Value(value)) => Ok(value_check(place, value, negated)),
        (Side::Value(value), Side::At(place)) => Ok(value_check(place, value, negated)),
        (Side::At(_), Side::At(_)) => Err(Stop::Bound),
    }
}

/// That the value of the ground fluent is below this one, or above it, or is not.
fn place_order(place: u32, value: u8, above: bool, negated: bool) -> Check
    ensures { (agent : AnyAgent) → is_place agent place ≡ true
        → Tells agent (λ values. turned negated (ordered above (slice_index values place) value)) result }
{
    Check::Order {
        place,
        value,
        above,
        negated,
    }
}

/// That the one value is below the other, or that it is not, where both are known.
fn values_order(one: u8, other: u8, negated: bool) -> Result<Check, Stop>
    ensures { IfOk result (λ check. (agent : AnyAgent)
        → side_fits agent (Side.Value one) ≡ true → side_fits agent (Side.Value other) ≡ true
        → Tells agent (λ values. turned negated (comparison_of nat_lt
        (side_value values (Side.Value one)) (side_value values (Side.Value other)))) check) }
{
    if one == UNKNOWN || other == UNKNOWN {
        Err(Stop::Bound)
    } else if negated {
        Ok(Check::Known(!(one < other)))
    } else {
        Ok(Check::Known(one < other))
    }
}

/// That the one side is below the other, or that it is not, where a check can say so.
pub fn order_check(one: Side, other: Side, negated: bool) -> Result<Check, Stop>
    ensures { IfOk result (λ check. (agent : AnyAgent) → side_fits agent one ≡ true → side_fits agent other ≡ true
        → Tells agent (λ values. turned negated
        (comparison_of nat_lt (side_value values one) (side_value values other))) check) }
{
    match (one, other) {
        (Side::Value(one), Side::Value(other)) => values_order(one, other, negated),
        (Side::At(place), Side::Value(value)) => Ok(place_order(place, value, false, negated)),
        (Side::Value(value), Side::At(place)) => Ok(place_order(place, value, true, negated)),
        (Side::At(_), Side::At(_)) => Err(Stop::Bound),
    }
}
