//! Drafts that are checked, and made agents and conditions.
//!
//! It tells what a draft's words and numbers mean, of which sorts they are, and whether the whole
//! is well-formed. What is refused of a program by its shape alone is told by golog_shapes.
//!
//! `names`, `scope`, `args`, `terms`, `conditions` and `programs` read the parts of a draft down to
//! the agent's own types, or to their first refusal. `check` works in one pass over each list of
//! the draft, and never stops at a refusal: each list is checked to its end, and the least refusal
//! is kept.
#![tactic(auto)]

mod args;
mod checked;
mod checking;
mod conditions;
mod copies;
mod effects;
mod fault;
mod heads;
mod laws;
mod names;
mod numbering;
mod procs;
mod programs;
mod scope;
mod sensing;
mod start_values;
mod starts;
mod sums;
mod terms;

pub use checking::check;
pub use conditions::{check_condition, cond_in};
pub use fault::{BAD_START, CheckFault, GROUND_TOO_MANY, SENSE_CLASH, SORT_CLASH, UNBOUND};
pub use golog_shapes::{FRONT_DEEP, NESTED_SEARCH, SEARCH_NUMBERS, UNGUARDED};
pub use laws::{agents_fit, args_fit, conds_fit, progs_fit, terms_fit, unguarded_is_reached};
pub use names::Names;
pub use programs::prog_in;
pub use scope::{Meant, Variable};
pub use terms::Sides;
