//! The steps on the lock's table: what each tells its seat, and how views are split and joined.
use crate::object::Object;
use crate::view::View;
use atomic_table::{Join, Play, Split};
use std::marker::{Brand, PhantomData};

/// Draws a ticket.
pub struct DrawTicket;

impl<O, E> Play<O, View<E>> for DrawTicket {
    ghost use Rattle.golog_turn.specs.Steps.{DrawsTicket};

    ghost then = { DrawsTicket };
}

/// Reads the number that is served. Where it is the ticket's, the seat takes the object.
pub struct ReadServing;

impl<O: Object> Play<O, View<O::Entry>> for ReadServing {
    ghost use Rattle.golog_turn.specs.Steps.{ReadsServing};

    ghost then = { ReadsServing O.list O.party };
}

/// Puts what the object has added at the end of the history.
pub struct Announce;

impl<O: Object> Play<O, View<O::Entry>> for Announce {
    ghost use Rattle.golog_turn.specs.Steps.{Announces};

    ghost then = { Announces O.list };
}

/// Gives the object back and passes the turn on.
pub struct PassOn;

impl<O, E> Play<O, View<E>> for PassOn {
    ghost use Rattle.golog_turn.specs.Steps.{PassesOn};

    ghost then = { PassesOn };
}

/// A party that a split is told by its type, since a step on views sees no argument.
pub trait PickedParty {
    ghost use Rattle.std.specs.Prelude.{ℕ};

    ghost party: { ℕ };
}

impl PickedParty for Brand {
    ghost party = { 0 };
}

/// Splits off a seat that has seen the same and holds one party, which the first seat gives up.
pub struct GiveParty<P> {
    party: PhantomData<P>,
}

impl<E, P: PickedParty> Split<View<E>> for GiveParty<P> {
    ghost use Rattle.golog_turn.specs.Parties.{without};
    ghost use Rattle.golog_turn.specs.Turns.{view};
    ghost use Rattle.std.specs.Prelude.{[], ◌∷◌};
    ghost use Rattle.golog_turn.specs.declared.view.Turn.TheVariants.{Away};

    ghost left = { λ v. view Away v.seen (without P.party v.parties) };

    ghost right = { λ v. view Away v.seen (P.party ∷ []) };
}

/// Joins two seats; which of their histories is the longer is not known yet.
pub struct TakeIn;

impl<E> Join<View<E>> for TakeIn {
    ghost use Rattle.golog_turn.specs.Turns.{taking, view};
    ghost use Rattle.std.specs.Prelude.{[]};
    ghost use Rattle.golog_turn.specs.declared.view.Turn.TheVariants.{Away};

    ghost both = { taking };

    ghost spent = { view Away [] [] };
}

/// Keeps the longer of the two histories of a seat that has taken in another, and the parties of both.
pub struct Compare;

impl<O: Object> Play<O, View<O::Entry>> for Compare {
    ghost use Rattle.golog_turn.specs.Steps.{Compared};

    ghost then = { Compared O.party };
}
