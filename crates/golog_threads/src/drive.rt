//! A thread for each device with a seat of its own, which is split off before and joined after;
//! `serve` gives a device its turns until it is closed.
ghost use Rattle.std.specs.Prelude.{◌≡◌, ◌≢◌, ◌+◌, true, false, length};
ghost use Rattle.std.specs.Thread.{IsSync, IsSend};
ghost use Rattle.golog_semantics.specs.WellFormed.{WellFormed};
ghost use Rattle.golog_journal.specs.Boards.{IsBoardList};
ghost use Rattle.golog_journal.specs.Taken.{IsReady};
ghost use Rattle.golog_device.specs.declared.turn.Turned.TheVariants.{Closed};
ghost use Rattle.golog_turn.specs.Parties.{contains};
ghost use Rattle.golog_turn.specs.Seats.{IsSeatOf, seen, parties_of, Joined};
ghost use Rattle.golog_threads.specs.Resting.{RestsAt, rest_seen, rest_parties};
ghost use Rattle.golog_threads.specs.Driving.{GoesFrom, HasServed, MayDrive, HasDriven};

use crate::board::SeatBoard;
use crate::hall::Hall;
use crate::naming::{AtLock, Known, Naming};
use crate::shared::Shared;
use golog_device::{Device, Turned, one_turn};
use golog_tree::Agent;
use golog_turn::{Rest, Seat, TurnLock};
use std::sync::Wait;
use std::thread::{Threads, join_mut};

// Whether the device was closed.
fn is_closed(turned: Turned) -> bool
    ensures { (result ≡ true → turned ≡ Closed) × (result ≡ false → turned ≢ Closed) }
{
    match turned {
        Turned::Closed => true,
        Turned::Served | Turned::Posted | Turned::Rested | Turned::Nothing => false,
    }
}

// A device at rest sleeps until it has a command or the program has ended.
fn rest_after<R: Wait>(rt: &R, hall: &Hall, poster: u8, turned: Turned, heard: u64) {
    if let Turned::Nothing = turned {
        hall.await_command(rt, poster, heard);
    }
}

// Gives an open device its turns until it is closed.
fn serve<A: Naming, N: AtLock, D: Device, R: Wait>(
    rt: &R,
    lock: &TurnLock<Shared<A>>,
    seat: Seat<Shared<A>>,
    agent: &Agent,
    hall: &Hall,
    poster: u8,
    device: &mut D,
) -> Seat<Shared<A>>
    requires formed { WellFormed agent.now }
    requires agent { A.agent ≡ agent.now }
    requires home { lock.now.table.shared.table_id ≡ N.home }
    requires lock { IsSeatOf lock.now seat }
    requires held { contains (parties_of seat) poster ≡ true }
    requires lawful { IsBoardList agent.now (seen seat) }
    requires ready { IsReady agent.now (seen seat) poster 0 }
    ensures lock { IsSeatOf lock.now result }
    ensures held { contains (parties_of result) poster ≡ true }
    ensures goes { GoesFrom (seen seat) (seen result) }
    ensures lawful { IsBoardList agent.now (seen result) }
    ensures served { HasServed agent.now D.meaning (seen seat) (seen result) poster device.old device.new }
{
    let mut board = SeatBoard::<R, Shared<A>, N>::of(rt, lock, agent, hall, seat);
    let mut taken: u32 = 0;
    for _ in rt.forever() {
        let heard = hall.heard_by(poster);
        let turned = one_turn(device, agent, poster, &mut taken, &mut board);
        if is_closed(turned) {
            return board.into_seat();
        }
        rest_after(rt, hall, poster, turned, heard);
    }
    unreachable!()
}

// The seat that rests serves the one device, unless that was closed at first.
fn serve_rest<A: Naming, N: AtLock, G: Known, D: Device, R: Wait>(
    rt: &R,
    lock: &TurnLock<Shared<A>>,
    rest: &Rest<Shared<A>>,
    agent: &G,
    first: usize,
    hall: &Hall,
    devices: &mut [D],
) -> Seat<Shared<A>>
    requires formed { WellFormed (G.agent agent.now) }
    requires agent { A.agent ≡ G.agent agent.now }
    requires home { lock.now.table.shared.table_id ≡ N.home }
    requires lock { RestsAt lock.now rest.now }
    requires one { length devices.old ≡ 1 }
    requires may { MayDrive (G.agent agent.now) first (length devices.old)
        (rest_seen rest.now) (rest_parties rest.now) hall.now.opens }
    ensures lock { IsSeatOf lock.now result }
    ensures driven { HasDriven (G.agent agent.now) D.meaning first (rest_seen rest.now)
        (seen result) (parties_of result) devices.old devices.new }
{
    let seat = rest.take(rt);
    if hall.opens[first] {
        serve::<A, N, D, R>(
            rt,
            lock,
            seat,
            agent.get(),
            hall,
            first as u8,
            &mut devices[0],
        )
    } else {
        seat
    }
}

// A seat for the first party.
fn split_first<A: Naming, G: Known>(
    lock: &TurnLock<Shared<A>>,
    seat: &mut Seat<Shared<A>>,
    agent: &G,
    first: usize,
    rest: usize,
    hall: &Hall,
) -> Seat<Shared<A>>
    requires lock { IsSeatOf lock.now seat.old }
    requires may { MayDrive (G.agent agent.now) first (rest + 1) (seen seat.old) (parties_of seat.old) hall.now.opens }
    ensures lock { IsSeatOf lock.now seat.new × IsSeatOf lock.now result }
    ensures seen { (seen seat.new ≡ seen seat.old) × (seen result ≡ seen seat.old) }
    ensures one { MayDrive (G.agent agent.now) first 1 (seen result) (parties_of result) hall.now.opens }
    ensures others { MayDrive (G.agent agent.now) (first + 1) rest
        (seen seat.new) (parties_of seat.new) hall.now.opens }
{
    // The contract alone speaks of these.
    let _count = rest;
    let _opens = &hall.opens;
    let _agent = agent.get();
    lock.split(seat, first as u32)
}

// One seat with what both have seen.
pub(crate) fn join_seats<A: Naming>(
    lock: &TurnLock<Shared<A>>,
    seat: &mut Seat<Shared<A>>,
    other: Seat<Shared<A>>,
)
    requires lock { IsSeatOf lock.now seat.old × IsSeatOf lock.now other }
    ensures lock { IsSeatOf lock.now seat.new }
    ensures joined { Joined seat.old other seat.new }
{
    lock.join(seat, other);
}

// The seat that rests serves the devices.
#[cycle(drives)]
pub(crate) fn drive_rest<
    A: Naming + Send,
    N: AtLock + Send,
    G: Known,
    D: Device + Send,
    R: Threads + Wait + Sync,
>(
    rt: &R,
    lock: &TurnLock<Shared<A>>,
    rest: &Rest<Shared<A>>,
    agent: &G,
    first: usize,
    hall: &Hall,
    devices: &mut [D],
) -> Seat<Shared<A>>
    requires formed { WellFormed (G.agent agent.now) }
    requires agent { A.agent ≡ G.agent agent.now }
    requires home { lock.now.table.shared.table_id ≡ N.home }
    requires lock { RestsAt lock.now rest.now }
    requires may { MayDrive (G.agent agent.now) first (length devices.old)
        (rest_seen rest.now) (rest_parties rest.now) hall.now.opens }
    ensures lock { IsSeatOf lock.now result }
    ensures driven { HasDriven (G.agent agent.now) D.meaning first (rest_seen rest.now)
        (seen result) (parties_of result) devices.old devices.new }
{
    let seat = rest.take(rt);
    drive::<A, N, G, D, R>(rt, lock, seat, agent, first, hall, devices)
}

// Each device has a thread and a seat of its own.
#[cycle(drives)]
fn drive<A: Naming + Send, N: AtLock + Send, G: Known, D: Device + Send, R: Threads + Wait + Sync>(
    rt: &R,
    lock: &TurnLock<Shared<A>>,
    seat: Seat<Shared<A>>,
    agent: &G,
    first: usize,
    hall: &Hall,
    devices: &mut [D],
) -> Seat<Shared<A>>
    requires formed { WellFormed (G.agent agent.now) }
    requires agent { A.agent ≡ G.agent agent.now }
    requires home { lock.now.table.shared.table_id ≡ N.home }
    requires lock { IsSeatOf lock.now seat }
    requires may { MayDrive (G.agent agent.now) first (length devices.old)
        (seen seat) (parties_of seat) hall.now.opens }
    ensures lock { IsSeatOf lock.now result }
    ensures driven { HasDriven (G.agent agent.now) D.meaning first (seen seat)
        (seen result) (parties_of result) devices.old devices.new }
{
    let count = devices.len();
    if count == 0 {
        return seat;
    }
    let left = count - 1;
    let mut seat = seat;
    let given = split_first::<A, G>(lock, &mut seat, agent, first, left, hall);
    let (head, rest) = devices.split_at_mut(1);
    let one = Rest::of(given);
    let others = Rest::of(seat);
    let (own, kept) = drive_beside::<A, N, G, D, R>(
        rt, lock, &one, &others, agent, first, hall, head, rest,
    );
    let mut seat = kept;
    join_seats(lock, &mut seat, own);
    seat
}

// The first device beside the others. What both threads share is passed part by part: a struct of it would need a
// proof of its own that threads may share it.
#[cycle(drives)]
fn drive_beside<
    A: Naming + Send,
    N: AtLock + Send,
    G: Known,
    D: Device + Send,
    R: Threads + Wait + Sync,
>(
    rt: &R,
    lock: &TurnLock<Shared<A>>,
    one: &Rest<Shared<A>>,
    others: &Rest<Shared<A>>,
    agent: &G,
    first: usize,
    hall: &Hall,
    head: &mut [D],
    rest: &mut [D],
) -> (Seat<Shared<A>>, Seat<Shared<A>>)
    requires formed { WellFormed (G.agent agent.now) }
    requires agent { A.agent ≡ G.agent agent.now }
    requires home { lock.now.table.shared.table_id ≡ N.home }
    requires lock { RestsAt lock.now one.now × RestsAt lock.now others.now }
    requires one { (length head.old ≡ 1) × MayDrive (G.agent agent.now) first (length head.old)
        (rest_seen one.now) (rest_parties one.now) hall.now.opens }
    requires others { MayDrive (G.agent agent.now) (first + 1) (length rest.old)
        (rest_seen others.now) (rest_parties others.now) hall.now.opens }
    ensures lock { IsSeatOf lock.now result.0 × IsSeatOf lock.now result.1 }
    ensures one { HasDriven (G.agent agent.now) D.meaning first (rest_seen one.now)
        (seen result.0) (parties_of result.0) head.old head.new }
    ensures others { HasDriven (G.agent agent.now) D.meaning (first + 1) (rest_seen others.now)
        (seen result.1) (parties_of result.1) rest.old rest.new }
{
    join_mut(
        rt,
        &mut || -> Seat<Shared<A>>
            requires { WellFormed (G.agent agent.now) × (A.agent ≡ G.agent agent.now)
                × (lock.now.table.shared.table_id ≡ N.home) × RestsAt lock.now one.now × (length head.now ≡ 1)
                × MayDrive (G.agent agent.now) first (length head.now)
                (rest_seen one.now) (rest_parties one.now) hall.now.opens }
            ensures { IsSeatOf lock.entry.now result
                × HasDriven (G.agent agent.entry.now) D.meaning first (rest_seen one.entry.now)
                (seen result) (parties_of result) head.entry.now head.exit.now }
        { serve_rest::<A, N, G, D, R>(rt, lock, one, agent, first, hall, head) },
        &mut || -> Seat<Shared<A>>
            requires { IsSync R.row × IsSend D.row × IsSend A.row × IsSend N.row × IsSync G.row
                × WellFormed (G.agent agent.now) × (A.agent ≡ G.agent agent.now)
                × (lock.now.table.shared.table_id ≡ N.home) × RestsAt lock.now others.now
                × MayDrive (G.agent agent.now) (first + 1) (length rest.now)
                (rest_seen others.now) (rest_parties others.now) hall.now.opens }
            ensures { IsSeatOf lock.entry.now result
                × HasDriven (G.agent agent.entry.now) D.meaning (first + 1) (rest_seen others.entry.now)
                (seen result) (parties_of result) rest.entry.now rest.exit.now }
        { drive_rest::<A, N, G, D, R>(rt, lock, others, agent, first + 1, hall, rest) },
    )
}
