//! A seat at the lock of a link, as what one of its sides has of it.
ghost use Rattle.std.specs.Prelude.{◌≡◌, ◌≤◌, [], ◌∷◌};
ghost use Rattle.golog_turn.specs.Seats.{IsSeatOf, parties_of};
ghost use Rattle.atomic_table.specs.Seated.{table_id_coded};
ghost use Rattle.std.specs.Coded.{codes};

use crate::at_lock::AtLock;
use crate::bells::Bells;
use crate::link::{Link, LinkOp, LinkReply};
use crate::note::{Note, SideNote};
use crate::seats::meet_seats;
use crate::wire::Wire;
use golog_turn::{Seat, TurnLock};
use std::marker::PhantomData;
use std::sync::Wait;

/// A seat at the lock round a link, which holds one of the two sides: each look or put is one act at the lock, which may
/// wait.
#[derive(Drop)]
pub struct SeatWire<'a, R: Wait, N: AtLock> {
    rt: &'a R,
    lock: &'a TurnLock<Link>,
    bells: &'a Bells,
    seat: Seat<Link>,
    side: u8,
    home: PhantomData<N>,
    ghost lock_home: { lock.now.table.shared.table_id ≡ N.home } by { Prim.hlevel (codes, table_id_coded) },
    ghost seat_home: { seat.token.table_id ≡ N.home } by { Prim.hlevel (codes, table_id_coded) },
    ghost holds: { parties_of seat ≡ side ∷ [] },
    ghost one_of_two: { side ≤ 1 },
}

impl<'a, R: Wait, N: AtLock> SeatWire<'a, R, N> {
    /// What a side has of the link, by a seat that holds this side alone. The bells are those of both sides.
    pub fn of(
        rt: &'a R,
        lock: &'a TurnLock<Link>,
        bells: &'a Bells,
        seat: Seat<Link>,
        side: u8,
    ) -> SeatWire<'a, R, N>
        requires lock { IsSeatOf lock.now seat × (lock.now.table.shared.table_id ≡ N.home) }
        requires held { parties_of seat ≡ side ∷ [] }
        requires side { side ≤ 1 }
        ensures { (result.seat ≡ seat) × (result.side ≡ side) }
    {
        SeatWire {
            rt,
            lock,
            bells,
            seat,
            side,
            home: PhantomData,
        }
    }

    /// The seat, handed back.
    pub fn into_seat(self) -> Seat<Link>
        ensures same { result ≡ self.entry.seat }
        ensures home { result.token.table_id ≡ N.home }
    {
        self.seat
    }
}

impl<'a, R: Wait, N: AtLock> Wire for SeatWire<'a, R, N> {
    ghost use Rattle.golog_turn.specs.Seats.{seen};
    ghost use Rattle.golog_team.specs.Wires.{View};

    ghost view = { λ wire. record { side = wire.side; seen = seen wire.seat } };

    fn look(&mut self, at: u32) -> Option<SideNote> {
        match self.lock.act(self.rt, &mut self.seat, LinkOp::Look { at }) {
            LinkReply::Seen { side, note, .. } => Some(SideNote { side, note }),
            LinkReply::Nothing { .. } => None,
            LinkReply::At(_) | LinkReply::Longer(_) => unreachable!(),
        }
    }

    fn put(&mut self, note: Note) {
        let side = self.side;
        let _at = self
            .lock
            .act(self.rt, &mut self.seat, LinkOp::Put { side, note });
        self.bells.tell_other(side);
    }

    fn put_at(&mut self, at: u32, note: Note) -> bool {
        let side = self.side;
        match self
            .lock
            .act(self.rt, &mut self.seat, LinkOp::PutAt { side, at, note })
        {
            LinkReply::At(_) => {
                self.bells.tell_other(side);
                true
            }
            LinkReply::Longer(_) => false,
            LinkReply::Seen { .. } | LinkReply::Nothing { .. } => unreachable!(),
        }
    }

    fn meet(&mut self, other: &mut SeatWire<'a, R, N>) {
        meet_seats(
            self.lock,
            &mut self.seat,
            &mut other.seat,
            other.side as u32,
        );
    }

    fn heard(&self) -> u64 {
        self.bells.heard_by(self.side)
    }

    fn sleep(&self, heard: u64) {
        self.bells.await_note(self.rt, self.side, heard);
    }
}
