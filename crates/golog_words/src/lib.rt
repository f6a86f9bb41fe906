//! The words of a command: which order they give, or that they give none.
//!
//! `order_of` first tests the words, without memory, and refuses what is no command; what is one is
//! read with the kit's `clap`, by a `Command` for each first word, which stands where a program's
//! name does. What may stand behind `team`, and behind the numbers of a `plan`, may stand behind
//! `run`, and is read as that. The layer above uses of its contracts `command_in`, `command_of` and
//! `Answers`. In proofs a row is what `clap` holds for an argument.
#![tactic(auto)]

mod command;
mod matches;
mod order;
mod reading;
mod said;
mod size;

pub use order::{Order, WordsFault};
pub use reading::order_of;
