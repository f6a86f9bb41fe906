//! Why a run went as it did: the trace of a journal.
//!
//! `trace(alloc, agent, report)` says of each entry which values it changed and how, and of the
//! program that is left when it may end, which steps it may take and under which conditions, how
//! true these are, and what is unknown in them; of a search block at its front, what it wants.
//! golog_tracer is the program over it.
//!
//! It stands on public calls alone, and has no meaning of its own: `specs/Traced` puts the text
//! together of the line of an entry (golog_text), of `value_by_causes` and `truth_of`
//! (golog_semantics), of the fronts of a program (golog_fronts), of what a program does next and
//! of the blocks that it reaches (golog_search), and of what a search finds (golog_find).
//! `specs/Effects` has the one notion that is new: the first effect that applies, or may apply.
#![tactic(auto)]

mod blocks;
mod changes;
mod course;
mod effects;
mod entries;
mod judging;
mod reading;
mod tracing;
mod wanted;
mod ways;

pub use course::{followed, followed_is_left};
pub use effects::{Effect, effect_on, untold_stays};
pub use reading::may_read;
pub use tracing::trace;
pub use wanted::{Want, want_of};
