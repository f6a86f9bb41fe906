//! What a check says of an agent that is well-formed.
//!
//! `check_text` counts the ground fluents and the ground actions of an agent, and `add_count`
//! writes what is counted with its number, for golog_commands' lines too.
#![tactic(auto)]

mod counts;

pub use counts::{add_count, check_text};
