//! Many programs at once: threads share out the listing of their steps and the asking of conditions. What comes of it
//! names no thread: it is what one thread answers that does all in turn.
#![tactic(auto)]

mod chunks;
mod known;
mod workers;

pub use workers::Workers;
