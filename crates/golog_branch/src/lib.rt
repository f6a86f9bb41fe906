//! Plans that branch on what is sensed, for programs without search blocks.
//!
//! `has_block(agent, prog)` tells whether a program holds or reaches a block; `plan(alloc, agent,
//! facts, prog, state, depth, fuel)` is the first plan of least height, or says why there is none;
//! `goes(.., tree, prog, state)` tells whether a plan goes through from a state; `tree_text(..,
//! tree)` is its text; `Kept` is what is left of a program that follows plans, and the plan that
//! it keeps. `plans_lead`, `plan_journals_are_so` and `plans_end_plainly` are the laws.
//!
//! A search goes on level by level: the states of a level, each once (`Reached`), and where their
//! steps lead among those of the next (`Linked`). With one level more the plans of its states are
//! tables, each by that behind it, and the first level's is the answer. So a plan costs as much as
//! its levels have edges, for each level once, and never as much as its tree has paths: a rest that
//! stands in several branches is shared. How many steps a tree has is counted up to one more than a
//! plan may have.
#![tactic(auto)]

mod blocks;
mod cases;
mod counting;
mod following;
mod going;
mod last;
mod laws;
mod links;
mod places;
mod planner;
mod planning;
mod search;
mod spot;
mod tables;
mod telling;
mod tree;

pub use blocks::has_block;
pub use cases::UNSENSED;
pub use following::Kept;
pub use going::goes;
pub use laws::{plan_journals_are_so, plans_end_plainly, plans_lead};
pub use planning::{MOST_STEPS, plan};
pub use telling::tree_text;
pub use tree::{Branch, Planned, Tree};
