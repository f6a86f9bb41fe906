//! Conditions taken back over what happens: their truth before it is that of the conditions after it (Reiter 2001).
//!
//! `regress` gives a condition whose truth before an event is that of the condition after it, true,
//! false or unknown; `regress_all` does so over a list of events, and `nodes` counts the nodes of a
//! condition. `touches` says whether a cause of an action is of a fluent that a condition reads, or
//! such a fluent is sensed; before an event that doesn't touch it a condition has the truth that it
//! has after it. A fluent that an action may cause goes to a choice over the matching causes in the
//! order of the file; variables of a cause are renamed away from those of the condition. The
//! definitions are `specs/Regression` (`IsRegressed`), over all values, whatever is known of them,
//! and `specs/Touched`.
#![tactic(auto)]

mod causes;
mod change;
mod event;
mod happened;
mod matching;
mod numbers;
mod regression;
mod size;
mod substitute;
mod taking_back;
mod touched;

pub use event::Event;
pub use regression::{regress, regress_all};
pub use size::nodes;
pub use touched::touches;
