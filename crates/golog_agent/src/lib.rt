//! The online execution of an agent's program, over a board.
//!
//! A `Runner` and a `Scribe` are each a `Driver` over a record of golog_lead: a runner's is a
//! `Kept`, a scribe's a `Printed`, made by a `Pen`. A driver owns its record and a `Core`, and a
//! core owns its `Decider`.
//!
//! A core keeps the configuration after the entries that it has seen, their counts (`Counts` of
//! golog_journal), the one command whose result the program waits for, if it waits for one
//! (`held`), and the answer of the end. A result that may come later is waited for only where the
//! program may end or is blocked, and then by what is counted. It keeps no entry. Its model is the
//! agent and the entries; its invariant says that these are an online execution so far, and that
//! what is kept belongs to them. A driver hands each entry first to its record and then to its
//! core. Its turn copies all that it lacks in batches of 64, decides with no turn held, and commits
//! at the length of what it has seen; where that has become longer it begins again, with what it
//! decided if the values are the same. Each failed attempt has made the journal longer, which has
//! at most 1,048,593 entries, so a turn returns. A decider has made the conditions of the agent's
//! program ready (`ready_of` of golog_ways), which it asks at each step. Who lists the steps of many programs while a block
//! is searched is a driver's too (`Expand` of golog_ways): `Plain` for a runner, and for a scribe
//! what it is made with. No clause names it.
//!
//! A runner's record stands for exactly these entries and the runs that they begin, and a runner's
//! invariant says so; its report is then theirs. A scribe's has written their text; after a write
//! that failed the run goes on to its end. The line of an entry is written when the entry is
//! copied, with no turn held, and that of an entry that is committed in the turn that commits it,
//! by the state before it that the core knows anyway. So a scribe needs room for one batch and one
//! line, however long the journal is. It has no model: a struct with a `&mut` in it can have none.
//! A caller learns what its sink holds by `into_sink`. Memory is taken by `Pen::new`, before the
//! sink is lent.
#![tactic(auto)]

mod decider;
mod driver;
mod held;
mod laws;
mod pen;
mod plan;
mod runner;
mod scribe;
mod under_way;

pub use golog_lead::{RoundLead, Stepped, run_inline};
pub use laws::leads_alone;
pub use pen::Pen;
pub use runner::Runner;
pub use scribe::Scribe;
