//! A lock round an object that stands for a list of entries, which only grows. Threads take turns at it in
//! the order of their tickets, each with a seat that has seen a prefix of the one history and knows which
//! entries are its own.
//!
//! - `Object` (`object.rt`), the trait of what lies in a lock. An object stands for a list of
//!   entries that only grows, by at most one entry at a call of `apply`; `length` is the length of
//!   that list modulo 2^64. Its ghost members say which list it stands for (`list`), whose an entry
//!   is (`party`), which op may be asked at a list (`allows`) and what is answered and added there
//!   (`answers`).
//! - `TurnLock<O>` and `Seat<O>` (`lock.rt`). A lock is a table of three words and one slot: word 0
//!   counts the tickets drawn, word 1 the turns passed on, word 2 the entries of the history, each
//!   modulo 2^64; the slot has the object. A seat has no bytes. It exists so that contracts can say
//!   what its holder knows: the prefix of the history that it has seen, and the parties whose
//!   entries it alone adds.
//! - The calls: `new` makes a lock and its first seat, which holds all parties; `act` applies one
//!   op in the seat's turn; `split` gives one party to a new seat; `join` takes a seat back in.
//! - `Rest<O>` (`rest.rt`), a seat that rests between threads. Closures that threads run borrow
//!   what they share, so a seat reaches one by `Rest::of` and `Rest::take`.
//! - `steps.rt` and `view.rt`, which no other crate sees: the steps on the table, what a seat knows
//!   (`View`) and the rule that holds between any two steps (`TurnRule`).
//!
//! `act` is five steps in a row: it backs off while others are at the lock (no step on the table),
//! draws a ticket, reads the number served until its turn has come, applies the op to the object in
//! place, announces what the object added, and passes the turn on. The slot is taken by the step
//! that reads the ticket's own number, and given back by the step that passes on. `split` is one
//! step and `join` two: the seats become one, and one load of word 0 then settles which of the two
//! histories is the longer.
//!
//! The layer above uses `CanAct` before an `act`, `Acted` after it, `Joined` after a `join`
//! (`specs/Seats.antt`, `specs/Acts.antt`): one history, of which each seat has seen a prefix; its
//! own entries exactly known; each reply the object's at one point. From `Acted` it also has that
//! some object of the type stood for the history at that point, so that what every such object
//! keeps about its list holds of what a seat has seen.
//!
//! `bench/lock` times it. Its program is data (`bench/lock.*.txt`), which the script proves and
//! builds in a folder of its own.
#![tactic(auto)]

mod lock;
mod object;
mod rest;
mod steps;
mod view;

pub use lock::{Seat, TurnLock};
pub use object::Object;
pub use rest::Rest;
