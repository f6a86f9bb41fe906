//! `SeatBoard`, a seat at the lock of a journal as a board: each call is one act.
ghost use Rattle.std.specs.Prelude.{◌≡◌};
ghost use Rattle.golog_turn.specs.Seats.{IsSeatOf, HoldsParty};
ghost use Rattle.atomic_table.specs.Seated.{table_id_coded};
ghost use Rattle.std.specs.Coded.{codes};

use crate::hall::Hall;
use crate::naming::{AtLock, Naming};
use crate::ops::{Op, Reply};
use crate::shared::Shared;
use golog_journal::{Batch, Board, Commit, Entry, Item, Next, Posted};
use golog_tree::Agent;
use golog_turn::{Object, Seat, TurnLock};
use std::marker::PhantomData;
use std::sync::Wait;

/// A seat at the lock round a journal, as a board: each call is one act at the lock, which may wait. The board has seen
/// what the seat has seen, and holds the seat's parties; others may add entries of all other parties.
#[derive(Drop)]
pub struct SeatBoard<'a, R: Wait, O: Object, N: AtLock> {
    rt: &'a R,
    lock: &'a TurnLock<O>,
    agent: &'a Agent,
    hall: &'a Hall,
    seat: Seat<O>,
    home: PhantomData<N>,
    ghost lock_home: { lock.now.table.shared.table_id ≡ N.home } by { Prim.hlevel (codes, table_id_coded) },
    ghost seat_home: { seat.token.table_id ≡ N.home } by { Prim.hlevel (codes, table_id_coded) },
    ghost holding: { HoldsParty seat },
}

impl<'a, R: Wait, O: Object, N: AtLock> SeatBoard<'a, R, O, N> {
    // The board of a seat, which tells the devices of the agent and the lead what they wait for.
    pub(crate) fn of(
        rt: &'a R,
        lock: &'a TurnLock<O>,
        agent: &'a Agent,
        hall: &'a Hall,
        seat: Seat<O>,
    ) -> SeatBoard<'a, R, O, N>
        requires lock { IsSeatOf lock.now seat × (lock.now.table.shared.table_id ≡ N.home) }
        requires held { HoldsParty seat }
        ensures { result.seat ≡ seat }
    {
        SeatBoard {
            rt,
            lock,
            agent,
            hall,
            seat,
            home: PhantomData,
        }
    }

    // The seat, handed back.
    pub(crate) fn into_seat(self) -> Seat<O>
        ensures same { result ≡ self.entry.seat }
        ensures home { result.token.table_id ≡ N.home }
    {
        self.seat
    }
}

impl<'a, R: Wait, A: Naming, N: AtLock> Board for SeatBoard<'a, R, Shared<A>, N> {
    ghost use Rattle.std.specs.Prelude.{true, false};
    ghost use Rattle.golog_turn.specs.Parties.{contains};
    ghost use Rattle.golog_turn.specs.Seats.{seen, parties_of};
    ghost use Rattle.golog_journal.specs.Growing.{Sight};
    ghost use Rattle.golog_threads.specs.Absurd.{not_alone};

    ghost sight = { λ board. record {
      agent = A.agent;
      seen = seen board.seat;
      alone = false;
      holds = contains (parties_of board.seat);
    } };

    ghost holds_all = { λ board alone party within. not_alone alone };

    fn post(&mut self, poster: u8, item: Item, taken: u32) -> Posted {
        let op = Op::Post {
            poster,
            item,
            taken,
        };
        match self.lock.act(self.rt, &mut self.seat, op) {
            Reply::OfPost(posted) => {
                self.hall.tell_lead();
                posted
            }
            _ => unreachable!(),
        }
    }

    fn next_command(&mut self, poster: u8, taken: u32) -> Next {
        let op = Op::NextCommand { poster, taken };
        match self.lock.act(self.rt, &mut self.seat, op) {
            Reply::OfNext(next) => next,
            _ => unreachable!(),
        }
    }

    fn has_more(&mut self, since: u32) -> bool {
        let op = Op::HasMore { since };
        match self.lock.act(self.rt, &mut self.seat, op) {
            Reply::OfMore(more) => more,
            _ => unreachable!(),
        }
    }

    fn copy_since(&mut self, since: u32) -> Batch {
        let op = Op::CopySince { since };
        match self.lock.act(self.rt, &mut self.seat, op) {
            Reply::OfCopy(batch) => batch,
            _ => unreachable!(),
        }
    }

    fn commit(&mut self, at: u32, entry: Entry) -> Commit {
        let op = Op::Commit { at, entry };
        match self.lock.act(self.rt, &mut self.seat, op) {
            Reply::OfCommit(commit) => {
                self.hall.tell_devices(self.agent, commit, entry);
                commit
            }
            _ => unreachable!(),
        }
    }
}
