//! Laws and worked examples of the definitions, which nothing stands on.
//!
//! Those of the definitions stand here that no proof above cites. Like those of golog_semantics
//! they are the contracts of public functions with empty bodies. No crate stands on it, so that a
//! law or an example more proves this crate alone. A law goes to golog_semantics only when a proof
//! of a crate above is to cite it.
#![tactic(auto)]

mod examples;
mod programs;
mod texts;

pub use examples::{scripted_turns, steps_in_worlds, worked_examples, wrong_journals};
pub use programs::{
    constants_put_in, lefts_are_tidy, no_near_no_certain, plainly_written, runs_stay_within,
    well_formed_has_no_runs,
};
pub use texts::{one_report_is_spelled, results_of_reports_fit, text_tells_reports};
