//! Whether a journal is an online execution of its program.
//!
//! `replay(alloc, agent, bytes, report)` answers a `Verdict` of golog_semantics: `Online` with the
//! answer of the end, or `Not` with the first place at which a rule is broken and the first of the
//! ten rules (`Why`) that is broken there. What a rule asks is defined in golog_semantics
//! (`specs/Online`: `fault_of`); nothing of it is said again here.
//!
//! An entry costs a look at what is kept, a pass over the ground fluents, and, where it is a step
//! or an end, one decision. golog_agent isn't used: a journal is judged by the rules, whoever wrote
//! it.
#![tactic(auto)]

mod course;
mod judged;
mod laws;
mod lines;
mod placed;
mod replaying;
mod standing;
mod tracked;

pub use golog_semantics::{Answer, Report, Verdict, Why};
pub use laws::{online_is_an_online_run, runs_replay_online};
pub use replaying::replay;
