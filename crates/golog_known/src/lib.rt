//! The truth of conditions, and the values of terms, in a state that is known in part.
//!
//! `Env` has the values of the 32 variables (contracts see it as their list); `Env::of(args)` sets
//! the first variables to arguments. `value(agent, cond, env, values)` is the truth of a condition
//! and `term(agent, term, env, values)` the value of a term, 255 (`UNKNOWN`) where it is unknown;
//! `chosen` picks one of two values by a truth. `values` has one byte for each ground fluent, by
//! the numbers that golog_tree gives. No call takes memory. specs/Fits has the condition of both
//! calls: `CondFitsAt agent cond env` and `TermFitsAt agent term env` say that there is a scope at
//! which the condition fits the agent and each variable of which has, in `env`, a value of its
//! sort. specs/Laws says that this holds where the variables are set to arguments of their sorts;
//! callers take `conditions_fit`, `terms_fit` and `set_by` of proofs/Arguments.
#![tactic(auto)]

mod answer;
mod env;
mod fluent;
mod kleene;
mod laws;
mod shift;
mod valuation;

pub use answer::{term, value};
pub use env::Env;
pub use kleene::{UNKNOWN, both, chosen, either, negation};
pub use laws::{conditions_fit_at_arguments, terms_fit_at_arguments};
