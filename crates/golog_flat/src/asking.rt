// Whether a check holds: a walk that stops where its answer is settled.
ghost use Rattle.std.specs.Prelude.{◌≡◌, IsTrue, true, [], length};
ghost use Rattle.golog_tree.specs.Ground.{IsCountable, ground_fluents};
ghost use Rattle.golog_tree.specs.declared.cond.Cond.{Cond as AnyCond};
ghost use Rattle.golog_semantics.specs.Fits.{cond_fits, nothing_bound};
ghost use Rattle.golog_semantics.specs.Modes.{holds};
ghost use Rattle.golog_semantics.specs.Truth.{env_of, truth_of};
ghost use Rattle.golog_semantics.specs.Ways.{is_so};
ghost use Rattle.golog_flat.specs.Checks.{IsCheckOf, check_fits, check_truth, holds_by};

use crate::check::Check;
use crate::leaves::{
    is_equal, is_not_true, is_ordered, is_other, is_true, truth_holds, unknown_holds,
};
use golog_known::{Env, value};
use golog_semantics::Mode;
use golog_tree::{Agent, Cond, Truth};

/// Whether a condition holds, as it stands.
fn other_holds(agent: &Agent, cond: &Cond, values: &[u8], lenient: bool) -> bool
    requires countable { IsCountable agent.now }
    requires closed { IsTrue (cond_fits agent.now cond.now nothing_bound) }
    requires whole { length values.now ≡ length (ground_fluents agent.now) }
    ensures { result ≡ holds_by lenient (truth_of agent.now values.now cond.now (env_of [])) }
{
    truth_holds(value(agent, cond, &Env::new(), values), lenient)
}

/// Whether a part may hold, by the one fluent that it speaks of: not, where that settles that it doesn't.
#[inline]
fn may_hold(agent: &Agent, part: &Check, values: &[u8], lenient: bool) -> bool
    requires fits { IsTrue (check_fits agent.now part.now) }
    requires whole { length values.now ≡ length (ground_fluents agent.now) }
    ensures { holds_by lenient (check_truth agent.now values.now part.now) ≡ true → result ≡ true }
{
    // Who has the fluents matters to the contract alone.
    let _ = agent;
    match part {
        Check::Is(place) => is_true(values[*place as usize], lenient),
        Check::Equals { place, value } => is_equal(values[*place as usize], *value, lenient),
        Check::Order {
            place,
            value,
            above,
            negated,
        } => is_ordered(values[*place as usize], *value, *above, *negated, lenient),
        _ => true,
    }
}

/// Whether all of these may hold, by the first and the last of them.
#[inline]
fn ends_may_hold(agent: &Agent, parts: &[Check], values: &[u8], lenient: bool) -> bool
    requires fits { IsTrue (check_fits agent.now (Check.Both parts.now)) }
    requires whole { length values.now ≡ length (ground_fluents agent.now) }
    ensures { holds_by lenient (check_truth agent.now values.now (Check.Both parts.now)) ≡ true → result ≡ true }
{
    if parts.is_empty() {
        return true;
    }
    may_hold(agent, &parts[0], values, lenient)
        && may_hold(agent, &parts[parts.len() - 1], values, lenient)
}

/// Whether a check may hold, by both ends of it where it is a conjunction. Of a binder that was put in most parts don't,
/// and this look at them takes no call.
#[inline]
fn could_hold(agent: &Agent, check: &Check, values: &[u8], lenient: bool) -> bool
    requires fits { IsTrue (check_fits agent.now check.now) }
    requires whole { length values.now ≡ length (ground_fluents agent.now) }
    ensures { holds_by lenient (check_truth agent.now values.now check.now) ≡ true → result ≡ true }
{
    match check {
        Check::Both(parts) => ends_may_hold(agent, parts.as_slice(), values, lenient),
        _ => true,
    }
}

/// Whether a check holds, where what is unknown holds or not.
#[cycle(holds)]
fn check_holds(agent: &Agent, check: &Check, values: &[u8], lenient: bool) -> bool
    requires countable { IsCountable agent.now }
    requires fits { IsTrue (check_fits agent.now check.now) }
    requires whole { length values.now ≡ length (ground_fluents agent.now) }
    ensures { result ≡ holds_by lenient (check_truth agent.now values.now check.now) }
{
    match check {
        Check::Known(plain) => *plain,
        Check::Is(place) => is_true(values[*place as usize], lenient),
        Check::IsNot(place) => is_not_true(values[*place as usize], lenient),
        Check::Equals { place, value } => is_equal(values[*place as usize], *value, lenient),
        Check::Differs { place, value } => is_other(values[*place as usize], *value, lenient),
        Check::Order {
            place,
            value,
            above,
            negated,
        } => is_ordered(values[*place as usize], *value, *above, *negated, lenient),
        Check::Both(parts) => all_hold(agent, parts.as_slice(), values, lenient),
        Check::Either(parts) => any_holds(agent, parts.as_slice(), values, lenient),
        Check::Other(cond) => other_holds(agent, cond.get(), values, lenient),
    }
}

/// Whether all of these hold. Behind one that does not, none is asked.
#[cycle(holds)]
fn all_hold(agent: &Agent, parts: &[Check], values: &[u8], lenient: bool) -> bool
    requires countable { IsCountable agent.now }
    requires fits { IsTrue (check_fits agent.now (Check.Both parts.now)) }
    requires whole { length values.now ≡ length (ground_fluents agent.now) }
    ensures { result ≡ holds_by lenient (check_truth agent.now values.now (Check.Both parts.now)) }
{
    for part in parts {
        if !check_holds(agent, part, values, lenient) {
            return false;
        }
    }
    true
}

/// Whether one of these holds. Behind one that does, none is asked.
#[cycle(holds)]
fn any_holds(agent: &Agent, parts: &[Check], values: &[u8], lenient: bool) -> bool
    requires countable { IsCountable agent.now }
    requires fits { IsTrue (check_fits agent.now (Check.Either parts.now)) }
    requires whole { length values.now ≡ length (ground_fluents agent.now) }
    ensures { result ≡ holds_by lenient (check_truth agent.now values.now (Check.Either parts.now)) }
{
    for part in parts {
        if could_hold(agent, part, values, lenient) && check_holds(agent, part, values, lenient) {
            return true;
        }
    }
    false
}

impl Check {
    /// Whether it holds at these values, in the mode. Takes no memory.
    pub fn holds(&self, agent: &Agent, mode: Mode, values: &[u8]) -> bool
        requires countable { IsCountable agent.now }
        requires fits { IsTrue (check_fits agent.now self.now) }
        requires whole { length values.now ≡ length (ground_fluents agent.now) }
        ensures holds { result ≡ holds mode (check_truth agent.now values.now self.now) }
        // The same of the condition that the check was made of.
        ensures so { (cond : AnyCond) → IsCheckOf agent.now cond self.now
            → result ≡ is_so agent.now values.now mode cond }
    {
        check_holds(agent, self, values, unknown_holds(mode))
    }

    /// Its truth at these values. Takes no memory.
    pub fn truth(&self, agent: &Agent, values: &[u8]) -> Truth
        requires countable { IsCountable agent.now }
        requires fits { IsTrue (check_fits agent.now self.now) }
        requires whole { length values.now ≡ length (ground_fluents agent.now) }
        ensures { result ≡ check_truth agent.now values.now self.now }
    {
        if !check_holds(agent, self, values, true) {
            Truth::No
        } else if check_holds(agent, self, values, false) {
            Truth::Yes
        } else {
            Truth::Unknown
        }
    }
}
