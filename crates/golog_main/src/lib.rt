//! The top call: does what the words of a command say, and answers the exit status.
//!
//! `golog(rt, alloc, words, files, out, devices)` does what the words say over any `Files`, any
//! `Sink` and any 16 devices or more, of which the first 16 are fresh, and answers the exit status.
//! The devices of a `run` or a `plan` have threads of this runtime, or with `--inline` their turns in rounds;
//! `serve_inline` serves every order but a run or a plan over threads and a team, without a runtime, so it is
//! proved to return where what it is handed for the searches of a run does. That is `Plain`, or the
//! `Workers` that the words ask for; no clause names it.
//!
//! A run is written line by line while it goes on, by a scribe. Its end and that of the other
//! commands are one clause (`IsReported`): the outcome's text was written whole with the outcome's
//! status, or a write failed and a prefix of it was written. So a fault of the sink takes
//! precedence over every outcome, and nothing is written twice.
#![tactic(auto)]

mod commands;
mod demos;
mod devices;
mod judged;
mod laws;
mod nowhere;
mod plans;
mod run;
mod teams;
mod top;
mod words;

pub use commands::is_threaded;
pub use devices::script_devices;
pub use golog_commands::{Input, NO_MEMORY, Outcome};
pub use golog_journal::DEVICES;
pub use golog_par::Workers;
pub use golog_ways::{Expand, Plain};
pub use laws::{
    chains_replay, cut_short_begins_online, each_status_where_its_cause_is, fuel_is_heavy,
    online_replays_run, plans_end_plainly, searchless_runs_end_plainly,
};
pub use teams::team_reports;
pub use top::{golog, serve_inline};
pub use words::words_of;
