//! The report that the text of a journal says, or its first refusal.
//!
//! `read_journal(alloc, agent, bytes)` gives it, or a code with its line. A run writes journals and
//! reads none, so the runner doesn't wait for it.
#![tactic(auto)]

mod fault;
mod forms;
mod head;
mod laws;
mod lookups;
mod named;
mod numbers;
mod reading;
mod said;

pub use fault::{HEAD, MISPLACED, NO_BODY, NO_RESULT, NOT_OWN, TextFault};
pub use laws::{
    journal_is_read, lines_say_their_texts, migrated_reads_back, read_is_spelled, read_or_refused,
    reports_are_read, written_reads_back,
};
pub use reading::read_journal;
