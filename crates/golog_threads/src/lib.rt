//! Devices that threads drive beside each other and beside the lead of a program, over one journal that lies in a
//! turn lock.
//!
//! It offers `run_threads` and the laws `post_stays` and `commit_stays`.
//!
//! - `Op` and `Reply` (`ops.rt`), the calls of a board as ops, and `Shared<A>` (`shared.rt`), a
//!   journal as the object in a lock. `allows` of the object is the condition of the board's call,
//!   `answers` its answer, and that the list then keeps the rules (`specs/Sharing`). What may be
//!   asked of an object at each of its lists can name no value, so the agent is told by a type, `A:
//!   Naming`.
//! - `SeatBoard` (`board.rt`), a seat at that lock as a `Board`: each call is one act. What a seat
//!   may ask it may ask at each list that goes on from what it has seen with no entry of its
//!   parties: conditions stay while others add entries (`post_stays`, `commit_stays`, and the laws
//!   of golog_journal). The refusal of a script is the one item whose condition does not stay; it
//!   asks for a board that is alone, which this one never is. A call through a `&mut` board tells
//!   nothing of the lock, so the lock is told by a type too, `N: AtLock`.
//! - `Hall` (`hall.rt`), what threads share beside the lock: which devices were open at first, and
//!   bells. A device at rest sleeps until a command of its own or the end, a lead that committed
//!   nothing until a post. Who waits reads the count of rings before it asks the journal, who rings
//!   has changed the journal before. No contract speaks of waking.
//! - The drivers (`drive.rt`): `serve` gives one device its turns until it is closed. `drive`
//!   splits a seat off for the first device and serves it beside the others by `thread::join_mut`,
//!   and so on, so each device has a thread and a seat of its own; after each pair the two seats
//!   are joined.
//! - The run (`run.rt`): the lead's turns are the second closure of `join_mut`, which runs on the
//!   caller's thread, where the large stack is. After the join one seat has all parties, and the
//!   lead gathers. The lock is made in `run_named`, before any turn, and takes the only memory.
//!
//! Where the system makes no thread, `join_mut` runs one closure after the other, and a run may
//! then not return. What is promised holds of each run that returns.
#![tactic(auto)]

mod board;
mod drive;
mod hall;
mod laws;
mod naming;
mod ops;
mod run;
mod shared;

pub use laws::{commit_stays, post_stays};
pub use run::run_threads;
