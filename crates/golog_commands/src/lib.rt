//! What each command of the program comes to: what its inputs hold, the outcomes with their causes, texts and statuses,
//! and the commands that run no program.
//!
//! All is here but a run itself and a replay itself: so it waits neither for golog_agent,
//! golog_threads nor golog_search.
//!
//! The inputs are read in one order, the agent, the devices, the journal and the condition, or the
//! agents of a team, as far as a command has them, and what is read first is refused first. A command that runs no program
//! decides first and writes afterwards: what it comes to is an `Outcome`, whose cause a clause
//! says, and `report` writes its text. The `Outcome` of a run (`Ran`) stands in contracts alone,
//! since a run is written while it goes on.
//!
//! The definitions are `specs/Inputs`, `specs/Runs`, `specs/Demos`, `specs/Outcome` (`ComesOf` once
//! for each input, `Comes` for each command), `specs/Teams`, `specs/Plans`, `specs/Writing`,
//! `specs/InWorlds`, `specs/CutShort` and `specs/Exact`.
//!
//! golog_main uses `ready_in`, `plannable_in`, `agent_in`, `told_in`, `ended`, `checked`, `asked`, `migrated`,
//! `restart_at`, `head_of`, `verdict_line`, `demo_of`, `demo_outcome`, `pair_in`, `team_outcome`,
//! `begun_with`, `report`, `report_if`, `report_unready`, `run_status`, `call_status`, `NO_MEMORY`,
//! `WRITE_FAULT` and the types.
#![tactic(auto)]

mod beginning;
mod commands;
mod demos;
mod outcome;
mod plans;
mod ready;
mod starts;
mod teams;
mod verdicts;
mod writing;

pub use beginning::begun_with;
pub use commands::{asked, checked, migrated};
pub use demos::{demo_of, demo_outcome};
pub use outcome::{Input, Outcome};
pub use plans::plannable_in;
pub use ready::{Ready, Told, Unready, agent_in, ended, let_go, ready_in, told_in};
pub use starts::{head_of, restart_at};
pub use teams::{Pair, pair_in, team_outcome};
pub use verdicts::verdict_line;
pub use writing::{
    NO_MEMORY, WRITE_FAULT, call_status, report, report_if, report_unready, run_status,
};
