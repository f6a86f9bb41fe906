//! `View`, what a seat knows, and `TurnRule`, which holds of the lock's words and views between any
//! two steps.
ghost use Rattle.std.specs.Prelude.{◌≡◌, ℕ, List};

use crate::object::Object;
use atomic_table::TableRule;
use std::collections::LinkedList;
use std::marker::PhantomData;
use std::snapshot::Snapshot;

/// Where a seat is in the row of tickets.
pub enum Turn {
    /// It has no ticket.
    Away,
    /// It has this ticket, and its turn has not come.
    Waits(u64),
    /// It has this ticket, and its turn has come.
    Served(u64),
}

/// What a seat knows. It exists in proofs alone: no value of it is made.
pub struct View<E> {
    /// Where it is in the row of tickets.
    pub turn: Turn,
    /// The prefix of the history that it has seen.
    pub seen: LinkedList<E>,
    /// The parties that it holds.
    pub parties: LinkedList<u32>,
    /// What a seat that it has just taken in had seen.
    pub other_seen: LinkedList<E>,
    /// The parties of that seat.
    pub other_parties: LinkedList<u32>,
}

/// What a lock is made of, as its rule knows it.
#[derive(Drop)]
pub struct Opening<O> {
    /// The object.
    pub object: Snapshot<O>,
    /// The number of its parties.
    pub parties: u32,
}

/// The rule of the lock's table: word 0 counts the tickets drawn, word 1 the turns passed on, and word 2
/// the entries of the history; slot 0 has the object.
pub struct TurnRule<O> {
    object: PhantomData<O>,
}

impl<O: Object> TableRule<O, View<O::Entry>, Opening<O>> for TurnRule<O> {
    ghost use Rattle.golog_turn.specs.Turns.{IsKept, opened};

    ghost holds = { λ _. IsKept O.list O.party };

    ghost first = { λ made. opened (O.list made.object.value) made.parties };
}
