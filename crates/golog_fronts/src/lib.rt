//! The steps of a program and its end without a state: each front with the condition under which it may be taken.
//!
//! `has_front_block` says, with no memory, whether a search block stands at the front of a program.
//! `end_cond` gives one condition that holds, in every mode and at all values, exactly where the
//! program may end. `fronts` gives the steps with a condition each, so that the steps in a mode at
//! some values are those whose condition holds there, in order. The conditions of both have no free
//! variable and stay inside the agent's numbers and sorts, so that `value` of golog_known can be
//! asked for their truth; what a step leaves is closed, and its action is the agent's.
//!
//! The recursions end since each goes to programs of less front height (the height of the program
//! with what it calls without a step), which the definitions have for guarded agents; the code
//! neither computes nor keeps it.
//!
//! golog_ways uses `fronts`, `end_cond`, `may_skip`, `body_of` and `put_at`, golog_find and
//! golog_watch the first two. No edit stands here: the calls of golog_ways show that each of these
//! is needed.
#![tactic(auto)]

mod blocks;
mod bodies;
mod combining;
mod context;
mod ending;
mod front_lists;
mod here;
mod laws;
mod laying;
mod opening;

pub use blocks::{has_front_block, may_skip};
pub use bodies::body_of;
pub use combining::conjunction;
pub use context::{Place, put_at};
pub use ending::end_cond;
pub use front_lists::Front;
pub use laws::{none_is_reached, well_formed_is_fit};
pub use opening::fronts;
