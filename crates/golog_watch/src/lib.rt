//! Whether a kept run still goes through, by conditions that are made once: the end's and the steps', taken back
//! over the actions before them.
//!
//! A `Watch` of a run has conditions for the run and for all that is left of it after its first
//! ways, the shortest first: that of the empty run is the end's (`end_cond`), and that of a longer
//! one says that its first way is a step (the conditions of the fronts that are this way) and,
//! taken back over that step by `regress`, what the rest of the run wants. So one pass backward
//! serves each later step of the run. A condition of more than 10,000 nodes is not kept, nor any of
//! a longer run; where there is none the run is stepped again (`goes_through`). `Watches` has at
//! most 16 of them, the one used last standing last, and finds a run that is what another leaves;
//! it is the `Keep` of runs.
//!
//! `specs/Watched` defines it: a condition holds for certain exactly where a run goes through
//! (`Tells`), `IsWatch`, `AreWatches`, and that the watch which stands last is of the run
//! (`LastKeeps`).
#![tactic(auto)]

mod conditions;
mod looks;
mod opens;
mod watch;
mod watches;

pub use watch::Watch;
pub use watches::Watches;
