//! Conditions and effects by the places of ground fluents, made once and then asked and written many
//! times.
//!
//! At all values a check is as true as its condition, unknown included, so in each mode it holds
//! exactly where the condition does; and what an effect writes makes of any values those after the
//! step. A check is made by a walk down the condition with the values of the variables that are bound
//! outside, so nothing is put into a condition. A negation goes down to the ground fluents. Where the
//! walk comes to a comparison of two fluents or a term that is computed, the condition stands as it
//! is, if no variable is bound outside it; else the outermost binder does, and so where a binder with
//! each constant put in has too many parts: 64 (`Check::of`), or as many as are said
//! (`Check::within`). Of a disjunction those parts are passed over without a call that are
//! conjunctions whose first or last part says of one fluent what isn't so: most parts of a binder
//! that was put in.
//!
//! An effect is made by `advance` of golog_progress from values that are all 0 and from values that
//! are all unknown: plain causes make of a ground fluent one value or leave what it was, so exactly
//! the places where both end the same are written.
#![tactic(auto)]

mod asking;
mod check;
mod effect;
mod flat;
mod joining;
mod leaves;
mod making;
mod plain;
mod sides;
mod writes;

pub use check::Check;
pub use effect::{Effect, take_step};
pub use flat::parts_of;
pub use writes::Write;
