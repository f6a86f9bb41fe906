//! What conditions, programs and journals mean.
//!
//! Beside the definitions (docs/SEMANTICS.md) it has the plain types that these definitions speak
//! of (`Mode`, `Entry`, `Reason`, `Answer`, `Item`, `Report`, `PlacedRun`, `Why`, `Verdict`,
//! `Move`, `Block`), and the laws of them whose proofs the crates above cite. golog_progress,
//! golog_journal, golog_ways, golog_find, golog_search and golog_replay export again those of the
//! types that their calls take or give. It has no code that runs: a law is carried by a public
//! function with an empty body whose contract is the law, so that the gate (`rt ci`) asks for its
//! proof. Above golog_tree, what a program or a journal means is defined in this crate alone. The
//! `specs/` of another crate defines what is a matter of that crate: what bytes spell, what its
//! calls do, what its types mean in contracts.
#![tactic(auto)]

mod journal;
mod journal_laws;
mod laws;
mod search;
mod step_laws;

pub use journal::{Answer, Entry, Item, PlacedRun, Reason, Report, Verdict, Why};
pub use journal_laws::{
    best_is_least, ground_things_have_one_number, later_runs_change_nothing, levels_are_reached,
    names_tell_apart, new_runs_are_found, no_fault_is_online, nothing_without_devices,
    one_more_command, one_more_entry, one_more_line, one_more_posted, one_more_step,
    online_is_whole, online_stays_in_sorts, restarted_is_well_formed, runs_are_sound, sorts_stay,
    starts_are_in_sorts, steps_stay_in_sorts, values_stay_in_sorts,
};
pub use laws::{faults_of_one_more, same_programs};
pub use search::{Block, Move};
pub use step_laws::{
    blockless_steps, ends_ordered, final_settles, final_unfolds, guarded_by_reach, left_stays,
    moves_settle, moves_unfold, near_steps_are_possible, no_possible_no_near, plain_steps_ordered,
    steps_stay, steps_unfold, well_formed_fits,
};

/// How sure the conditions of a step are to be.
#[derive(Clone, Copy, Debug, PartialEq, Eq)]
pub enum Mode {
    /// Each condition is known to be true.
    Must,
    /// No condition is known to be false, and a search block may also go on where its search, for its depth
    /// or for a program that nests too deep, leaves something unseen.
    May,
    /// No condition is known to be false, and a search block goes on only where one of its runs begins.
    Near,
}
