//! Programs by numbers, and places by hashes.
//!
//! `Nodes` is seen as a list of programs in which each stands at one place, its number; `number`
//! finds a program's number or gives it the next one. It keeps each program twice: in the list, and
//! as the key by which its number is found. `Places` has the places of a caller's things by their
//! hashes: `find` asks the caller which of those with a hash is meant, so no key is copied. Both
//! keep the allocator of their making.
//!
//! It exports again the calls of golog_tree by which programs and steps are compared
//! (`is_same_prog`, `is_same_way`, `are_same_ways`).
#![tactic(auto)]

mod code;
mod key;
mod labels;
mod nodes;
mod places;

pub use labels::is_same_label;
pub use nodes::Nodes;
pub use places::Places;
