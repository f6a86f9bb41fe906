//! What is known after the entries of a journal.
//!
//! `ask` takes a condition back over the entries of a journal, from the last one on, until it has
//! more than 10,000 nodes or no entry before may change what it reads, and asks for its truth at
//! the state after the entries that are left. `specs/Events` has the events among entries.
#![tactic(auto)]

mod asking;
mod earlier;
mod laws;

pub use asking::ask;
pub use laws::entries_of_reports_fit;
