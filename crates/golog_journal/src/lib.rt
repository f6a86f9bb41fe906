//! The journal of a run: what devices post, what the program commits, and what they see of it.
//!
//! Contracts are stated on lists of entries: what may be asked at a list (`MayPost`, `IsReady`,
//! `MayCommit`), and what is answered and added there (`PostIs`, `NextIs`, `MoreIs`, `CopyIs`,
//! `CommitIs`). `Called` ties them to a board: others may have added entries before the call. So
//! the same facts serve a journal under a lock: its op is one of the five calls, allowed and
//! answered by the same definitions, and the laws say that what is allowed at what a seat has seen
//! stays allowed at each list that goes on from it.
//!
//! A `Journal` is a `Counts` with the entries beside it, and with how far they were gone through
//! for the commands of each device. Contracts see both as the agent and the entries. Of a `Counts`
//! no entry is left at run time: what clauses see of it is remembered by a chain of snapshots, each
//! of which clauses alone can read.
//!
//! Beside being a board, a `Journal` is the list that a runner copies into: `add` takes any lawful
//! entry; `len`, `is_full` and `is_quiet` answer from what is counted, in time that does not grow
//! with the entries; `into_entries` hands the list out. `Counts` has the same calls but the last,
//! and `has_end`; `held_of` (whose result the program waits for behind an action), `lacks_results`
//! (a result is still to come) and `may_be_answered` (of a device that is open); and `facts`, those
//! of the agent's actions.
//!
//! The layers above use `Board` with its answers, `Journal`, `Lead` and `Led`; `Counts`
//! (golog_agent); `AgentFacts` (golog_replay, golog_reports); `is_counted`, `poster_of` and `LIMIT`
//! (golog_replay); `sense_for`, what an action's result tells (golog_device); for proofs
//! `specs/Growing` (`Sight`, `Called`), `specs/Taken`, `specs/Posting`, `specs/Commands`,
//! `specs/Commits`, `specs/Copies`, `specs/Leading`, and the laws.
#![tactic(auto)]

mod board;
mod counts;
mod facts;
mod journal;
mod laws;
mod lead;
mod ledger;
mod quiet;
mod reached;
mod standing;
mod table;
mod totals;
mod trail;

pub use board::{BATCH, Batch, Board, Commit, LIMIT, LONGEST, Next, Posted};
pub use counts::{Counts, poster_of};
pub use facts::{AgentFacts, DEVICES};
pub use golog_semantics::{Answer, Entry, Item, PlacedRun, Reason, Report};
pub use journal::Journal;
pub use laws::{driven_stays, fitting_stays, ready_stays, well_formed_serves};
pub use lead::{Lead, Led};
pub use table::sense_for;
pub use totals::is_counted;
