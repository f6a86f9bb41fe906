//! What the entries of a journal make of the values of the ground fluents.
//!
//! `State` has one byte for each ground fluent and a second buffer of the same length, reserved at
//! its making; contracts see it as the list of its values. `start(alloc, agent)`, `State::{of, set,
//! after_do, after_sense, roll, copy, values}`; `advance` makes the values after an action of those
//! before, and `restart` gives an agent other start values. `Entry`, `Reason` and `Answer` are
//! those of golog_semantics, exported again. A step copies the values into the second buffer, goes
//! over the causes from the last to the first, so that each finds there what the causes after it
//! made, binds the head of each cause of the action to the action's arguments, and from there goes
//! over the ground fluents of the cause alone: a fluent's argument that is a constant or a bound
//! variable picks one part of the fluent's places, a free one goes over all parts. specs/Effects
//! has these intermediate meanings, specs/Entries which entries fit an agent.
#![tactic(auto)]

mod bindings;
mod causes;
mod causing;
mod laws;
mod restarting;
mod state;

pub use causes::advance;
pub use golog_semantics::{Answer, Entry, Reason};
pub use laws::{happening_is_doing, values_go_on};
pub use restarting::restart;
pub use state::{State, start};
