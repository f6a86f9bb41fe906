// The two public calls, `value` and `term`, which also say what their answers mean in each world.
ghost use Rattle.std.specs.Prelude.{◌≡◌, length};
ghost use Rattle.golog_tree.specs.Ground.{IsCountable, ground_fluents};
ghost use Rattle.golog_semantics.specs.Truth.{truth_of, value_of};
ghost use Rattle.golog_known.specs.Fits.{CondFitsAt, TermFitsAt};
ghost use Rattle.golog_known.specs.InWorlds.{IsTruthInEach, IsValueInEach};

use crate::env::Env;
use crate::valuation;
use golog_tree::{Agent, Cond, Term, Truth};

/// The value of a term, where `values` has the value of each ground fluent, by their numbers: a constant
/// by its position in the term's sort, or 255 where it is unknown. A value that is known is the term's in
/// each world in which all is so that is known. Takes no memory.
pub fn term(agent: &Agent, term: &Term, env: &Env, values: &[u8]) -> u8
    requires countable { IsCountable agent.now }
    requires fits { TermFitsAt agent.now term.now env.now }
    requires whole { length values.now ≡ length (ground_fluents agent.now) }
    ensures value { result ≡ value_of agent.now values.now term.now env.now }
    ensures known { IsValueInEach agent.now values.now term.now env.now result }
{
    valuation::term(agent, term, env, values)
}

/// The truth of a condition by the strong Kleene tables (Kleene 1952), where `values` has the value of
/// each ground fluent, by their numbers: unknown where what is known doesn't settle it. Where the answer is
/// yes, the condition is true in each world in which all is so that is known; where it is no, false there.
/// Takes no memory.
pub fn value(agent: &Agent, cond: &Cond, env: &Env, values: &[u8]) -> Truth
    requires countable { IsCountable agent.now }
    requires fits { CondFitsAt agent.now cond.now env.now }
    requires whole { length values.now ≡ length (ground_fluents agent.now) }
    ensures truth { result ≡ truth_of agent.now values.now cond.now env.now }
    ensures yes { IsTruthInEach agent.now values.now cond.now env.now Truth.Yes result }
    ensures no { IsTruthInEach agent.now values.now cond.now env.now Truth.No result }
{
    valuation::value(agent, cond, env, values)
}
