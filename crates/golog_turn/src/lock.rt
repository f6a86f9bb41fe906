//! `TurnLock`, words that count tickets, turns and entries and a slot with the object; `Seat`, what
//! its holder has seen of the history, and the parties whose entries it alone adds.
ghost use Rattle.std.specs.Prelude.{◌≡◌, ◌<◌, ◌≤◌, List, [], ◌∷◌, ◌++◌, length, true};
ghost use Rattle.golog_turn.specs.Parties.{contains, without, GoesOn};
ghost use Rattle.golog_turn.specs.Acts.{Grows};
ghost use Rattle.golog_turn.specs.Turns.{view};
ghost use Rattle.golog_turn.specs.Steps.{seen_by, held_by, IsIdle, IsWaiting, IsServed, KeepsKnowledge, TakesLonger, TokenMayAct, TokenActed};
ghost use Rattle.golog_turn.specs.declared.view.Turn.TheVariants.{Away};

use crate::object::Object;
use crate::steps::{
    Announce, Compare, DrawTicket, GiveParty, PassOn, PickedParty, ReadServing, TakeIn,
};
use crate::view::{Opening, TurnRule, View};
use atomic_table::Table;
use golog_base::NoMemory;
use std::alloc::Global;
use std::marker::Brand;
use std::snapshot::Snapshot;
use std::sync::Wait;
use std::thread;

/// A lock round an object. Threads take turns at the object in the order of their tickets, and the object's
/// list is the one history that all of them see prefixes of.
#[derive(Drop)]
pub struct TurnLock<O: Object> {
    table: Table<O, View<O::Entry>, Opening<O>, TurnRule<O>, Global>,
    ghost sized: { (table.shared.table_id.words ≡ 3) × (table.shared.table_id.slots ≡ 1) },
}

pub(crate) type Token<O> = atomic_table::Seat<O, View<<O as Object>::Entry>>;

/// A place at a lock: the prefix of the history that was seen, and the parties whose entries this seat
/// alone adds. It has no bytes.
#[derive(Drop)]
pub struct Seat<O: Object> {
    pub(crate) token: Token<O>,
    ghost idle: { IsIdle token.me },
}

// How often a thread gives up its processor before it draws a ticket, and again before it sleeps.
const YIELDS: u32 = 32;

const DRAWN: usize = 0;

const SERVING: usize = 1;

const LENGTH: usize = 2;

impl<O: Object> TurnLock<O> {
    ghost use Rattle.std.specs.Prelude.{IfOk};
    ghost use Rattle.golog_turn.specs.Parties.{parties_below};
    ghost use Rattle.golog_turn.specs.Seats.{IsSeatOf, seen, parties_of, HoldsParty, CanAct, Acted, Joined};

    /// A lock round the object, and its first seat, which holds the parties from 0 up to and without
    /// `parties` and has seen the object's whole list. Where memory runs out the object is dropped.
    pub fn new(alloc: Global, object: O, parties: u32) -> Result<(TurnLock<O>, Seat<O>), NoMemory>
        ensures lock { IfOk result (λ made. IsSeatOf made.0 made.1) }
        ensures seen { IfOk result (λ made. seen made.1 ≡ O.list object) }
        ensures parties { IfOk result (λ made. parties_of made.1 ≡ parties_below parties) }
    {
        let opening = Opening {
            object: Snapshot::of(&object),
            parties,
        };
        let words = [0, 0, object.length()];
        let mut slots = Vec::with_capacity(alloc, 1)?;
        slots.push_reserved(object);
        let Ok((table, token)) = Table::new(alloc, &words, slots, &opening) else {
            return Err(NoMemory);
        };
        Ok((TurnLock { table }, Seat { token }))
    }

    /// Waits for the seat's turn and applies the op to the object, at one point of the one history. The
    /// seat has then seen the history up to that point, with the op's entry where it adds one; the reply is
    /// the object's there. It takes no memory. It may wait for ever, as where a thread ends in the middle
    /// of its turn.
    pub fn act<R: Wait>(&self, rt: &R, seat: &mut Seat<O>, op: O::Op) -> O::Reply
        requires lock { IsSeatOf self.now seat.old }
        requires party { HoldsParty seat.old }
        requires allowed { CanAct seat.old op }
        ensures lock { IsSeatOf self.now seat.new }
        ensures acted { Acted seat.old op result seat.new }
    {
        self.back_off();
        let ticket = self.draw(&mut seat.token);
        self.wait(rt, &mut seat.token, ticket);
        let reply = self.apply(&mut seat.token, ticket, op);
        self.pass(&mut seat.token, ticket);
        reply
    }

    /// A new seat, which has seen what this one has and holds the party alone. This one holds it no more.
    /// It takes no memory.
    pub fn split(&self, seat: &mut Seat<O>, party: u32) -> Seat<O>
        requires lock { IsSeatOf self.now seat.old }
        requires party { contains (parties_of seat.old) party ≡ true }
        ensures lock { IsSeatOf self.now seat.new × IsSeatOf self.now result }
        ensures seen { (seen seat.new ≡ seen seat.old) × (seen result ≡ seen seat.old) }
        ensures left { parties_of seat.new ≡ without party (parties_of seat.old) }
        ensures given { parties_of result ≡ party ∷ [] }
    {
        let token = self.split_token::<Brand>(&mut seat.token, party);
        Seat { token }
    }

    fn split_token<P: PickedParty>(&self, token: &mut Token<O>, party: u32) -> Token<O>
        requires lock { token.old.table_id ≡ self.now.table.shared.table_id }
        requires idle { IsIdle token.old.me }
        requires party { (party ≡ P.party) × (contains (held_by token.old) party ≡ true) }
        ensures kept { (token.new.table_id ≡ token.old.table_id)
            × (token.new.me ≡ (view Away (seen_by token.old) (without party (held_by token.old)), [])) }
        ensures given { (result.table_id ≡ token.old.table_id)
            × (result.me ≡ (view Away (seen_by token.old) (party ∷ []), [])) }
    {
        self.table.shared.split_seat::<GiveParty<P>>(token)
    }

    /// Takes in the other seat: this one then holds the parties of both, and has seen the longer of what
    /// both had. The shorter is a prefix of the longer, which has no entry behind it of the parties of the
    /// seat that saw the shorter. It takes no memory.
    pub fn join(&self, seat: &mut Seat<O>, other: Seat<O>)
        requires lock { IsSeatOf self.now seat.old × IsSeatOf self.now other }
        ensures lock { IsSeatOf self.now seat.new }
        ensures joined { Joined seat.old other seat.new }
    {
        let Seat { token: other } = other;
        self.join_token(&mut seat.token, other);
    }

    fn join_token(&self, token: &mut Token<O>, other: Token<O>)
        requires lock { token.old.table_id ≡ self.now.table.shared.table_id }
        requires other_lock { other.table_id ≡ self.now.table.shared.table_id }
        requires idle { IsIdle token.old.me × IsIdle other.me }
        ensures lock { token.new.table_id ≡ token.old.table_id }
        ensures idle { IsIdle token.new.me }
        ensures parties { held_by token.new ≡ held_by token.old ++ held_by other }
        ensures seen { TakesLonger O.party token.old other token.new }
    {
        let shared = &self.table.shared;
        shared.join_seat::<TakeIn>(token, other);
        shared.load::<Compare>(token, DRAWN);
    }

    // A thread draws no ticket at once where others are at the lock: threads that act often would else hand
    // the turn over at each act, which costs more than the act.
    fn back_off(&self) {
        let shared = &self.table.shared;
        for _ in 0..YIELDS {
            if shared.peek(DRAWN) == shared.peek(SERVING) {
                return;
            }
            thread::yield_now();
        }
    }

    fn draw(&self, token: &mut Token<O>) -> u64
        requires lock { token.old.table_id ≡ self.now.table.shared.table_id }
        requires idle { IsIdle token.old.me }
        requires party { 0 < length (held_by token.old) }
        ensures same { KeepsKnowledge token.old token.new }
        ensures waits { IsWaiting result token.new.me }
    {
        self.table.shared.fetch_add::<DrawTicket>(token, DRAWN, 1)
    }

    // The thread gives up its processor where its turn may be near, and sleeps where that took long.
    fn wait<R: Wait>(&self, rt: &R, token: &mut Token<O>, ticket: u64)
        requires lock { token.old.table_id ≡ self.now.table.shared.table_id }
        requires waits { IsWaiting ticket token.old.me }
        ensures lock { token.new.table_id ≡ token.old.table_id }
        ensures parties { held_by token.new ≡ held_by token.old }
        ensures goes_on { GoesOn O.party (seen_by token.new) (seen_by token.old) (held_by token.old) }
        ensures served { IsServed O.list ticket [] token.new.me }
    {
        let shared = &self.table.shared;
        let mut looks = 0;
        for _ in rt.forever() {
            let serving = shared.load::<ReadServing>(token, SERVING);
            if serving == ticket {
                return;
            }
            if looks < YIELDS {
                looks += 1;
                thread::yield_now();
            } else {
                shared.park(rt, SERVING, low_half(serving));
            }
        }
        unreachable!()
    }

    fn apply(&self, token: &mut Token<O>, ticket: u64, op: O::Op) -> O::Reply
        requires lock { token.old.table_id ≡ self.now.table.shared.table_id }
        requires served { IsServed O.list ticket [] token.old.me }
        requires allowed { TokenMayAct O.list O.party O.allows O.answers token.old op }
        ensures lock { token.new.table_id ≡ token.old.table_id }
        ensures parties { held_by token.new ≡ held_by token.old }
        ensures served { IsServed O.list ticket [] token.new.me }
        ensures applied { TokenActed O.list O.party O.answers token.old op result token.new }
    {
        let shared = &self.table.shared;
        let object = token.slot_mut(shared, 0);
        let (reply, added) = apply_counted(object, op);
        shared.fetch_add::<Announce>(token, LENGTH, added);
        reply
    }

    // It wakes all that sleep, since the next in line is one of them; where nobody waits, nobody sleeps.
    fn pass(&self, token: &mut Token<O>, ticket: u64)
        requires lock { token.old.table_id ≡ self.now.table.shared.table_id }
        requires served { IsServed O.list ticket [] token.old.me }
        ensures same { KeepsKnowledge token.old token.new }
        ensures idle { IsIdle token.new.me }
    {
        let shared = &self.table.shared;
        let next = ticket.wrapping_add(1);
        shared.store::<PassOn>(token, SERVING, next);
        if shared.peek(DRAWN) != next {
            shared.wake_all(SERVING);
        }
    }
}

// The reply, and the number of entries that were added.
fn apply_counted<O: Object>(object: &mut O, op: O::Op) -> (O::Reply, u64)
    requires { O.allows (O.list object.old) op }
    ensures { (added : List O.Entry)
        × Grows O.list O.answers object.old op result.0 added object.new × (result.1 ≡ length added) }
{
    let before = object.length();
    let reply = object.apply(op);
    let added = if object.length() == before { 0 } else { 1 };
    (reply, added)
}

// What a sleep compares.
fn low_half(number: u64) -> u32 {
    (number % (1 << 32)) as u32
}
