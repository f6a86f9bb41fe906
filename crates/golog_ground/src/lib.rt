//! Texts of ground actions, ground fluents and constants, and the way back from those of actions and constants: each
//! has one text.
//!
//! `action_text`, `fluent_text` and `constant_text` write into an `ActionText`, which holds at most
//! 128 bytes in itself; `read_action` and `read_constant` give the number back. None of them takes
//! memory.
#![tactic(auto)]

mod action;
mod args;
mod constant;
mod fluent;
mod ground;
mod number;
mod text;

pub use action::{action_text, read_action};
pub use constant::{constant_text, place_of_name, read_constant};
pub use fluent::fluent_text;
pub use text::ActionText;
