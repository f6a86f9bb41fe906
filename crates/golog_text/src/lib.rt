//! The text of a report: its head, where it has a start, and a line for each entry of its journal with the run that
//! it begins.
//!
//! `write_journal(alloc, agent, report)` gives the bytes of a report, its head where it names the
//! values that it starts from, and a line for each entry; `head_text(alloc, agent, values)` gives a
//! head alone; `Line` is room for one line, which `fill` fills with that of an entry, without
//! memory.
//!
//! Each piece adds to a `Line` and says by its contract which text of golog_semantics `specs/Text`
//! it added, how many bytes that is at most, and that it fails only where the room lacks so many
//! (`Takes`). By these bounds a line with a run of 64 labels has at most 8,725 bytes, so `fill` has
//! no failure to hand on. `try_fill` gives the line with any run, as a journal that was read may
//! have it, and takes memory where that is longer than the room. The runs are in the order of their
//! places, so each is looked at once; a Do or an Exo costs a pass over the ground fluents, and the
//! other entries nothing beside their text.
//!
//! The layers above use `write_journal`, `head_text`, `Line`, `run_here`, `runs_behind` and
//! `answer_name`; golog_reports also `reason_name`, `fluent_sort` and `device_of`.
#![tactic(auto)]

mod body;
mod head;
mod journal;
mod line;
mod names;
mod runs;
mod words;

pub use head::head_text;
pub use journal::write_journal;
pub use line::Line;
pub use names::{device_of, fluent_sort};
pub use runs::{run_here, runs_behind};
pub use words::{answer_name, reason_name};
