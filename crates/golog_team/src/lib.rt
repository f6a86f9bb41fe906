//! Two agents, each the other's device: the link between them, and what each of its sides does step by
//! step.
//!
//! A side sends a ground action of its own agent, says that its program waits and how long its journal
//! is then, and that it has ended. It has said that it waits while only such notes stand behind its
//! last one. `Link` is made with room for all that both may put: of each side as many sends as a
//! journal counts entries, one end, and between two of its waits one note that is none. A note is put
//! only where there are exactly so many, so a side says of itself only what is so at all notes that
//! there are. Before each call of a `Wire` others may have put notes, none of them its own.
//!
//! One step of a side reads up to the next news of the other, and then does the first of ten things
//! that it can. What it keeps is said of the notes that it has read, those that it has seen behind
//! them, its journal and its count of commands taken, and of no lock.
//!
//! - `Link` (`link.rt`), the object in a turn lock whose list is the notes; `Wire` (`wire.rt`), a link
//!   as a side has it, and `SeatWire` (`seat_wire.rt`), a seat at that lock as a wire. A call through
//!   a wire tells nothing of the lock, so the lock is told by a type, `N: AtLock`; `meet_seats`
//!   (`seats.rt`) hands a party over and back, after which both seats have seen the same.
//! - `Side` (`side.rt`), with what it reads and says (`told.rt`, `reading.rt`) and what it does with
//!   its journal (`posting.rt`).
//! - `run_team` (`team.rt`): both sides go on until both are over, beside each other by
//!   `thread::join_mut` (`goes.rt`), or a step each in turn, with a meeting behind each step, so that
//!   a step in turn is known to be one at all notes that there are. Who can do nothing sleeps on its
//!   bell (`bells.rt`). `run_agents` (`pair.rt`) makes all that they need first.
//!
//! The layer above uses `team_refusal` and `unrefused_match`, `run_agents` and `HavePlayed`.
#![tactic(auto)]

mod at_lock;
mod bells;
mod did;
mod goes;
mod laws;
mod link;
mod note;
mod pair;
mod posting;
mod reading;
mod seat_wire;
mod seats;
mod shape;
mod side;
mod team;
mod told;
mod wire;

pub use at_lock::AtLock;
pub use bells::Bells;
pub use did::Did;
pub use laws::{steps_keep, teams_are_linked, unrefused_match};
pub use link::{Link, LinkOp, LinkReply, ROOM};
pub use note::{Note, SideNote};
pub use pair::run_agents;
pub use seat_wire::SeatWire;
pub use shape::{TEAM_SHAPE, TEAM_WORD, TeamRefusal, has_shape, team_refusal, unheard};
pub use side::Side;
pub use team::run_team;
pub use wire::Wire;
