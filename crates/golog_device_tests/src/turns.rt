//! Threads that take turns at a counter and at a log of numbers.
ghost use Rattle.std.specs.Prelude.{◌≡◌, ◌<◌, [], All, IfOk, IfSome, length, true};
ghost use Rattle.golog_turn.specs.Parties.{contains, parties_below};
ghost use Rattle.golog_turn.specs.Seats.{IsSeatOf, HoldsParty, seen, parties_of};

mod counter;
mod number_log;

use crate::asserting::same;
use counter::{Add, Counter};
use golog_base::NoMemory;
use golog_turn::{Object, Rest, Seat, TurnLock};
use number_log::{Item, LogOp, LogReply, NumberLog};
use std::alloc::Global;
use std::sync::Wait;
use std::thread;
use std::thread::Threads;

/// A seat with one party, and the number of entries that it has seen.
#[derive(Drop)]
struct Worker {
    seat: Seat<Counter>,
    party: u32,
    count: u64,
    ghost holds: { contains (parties_of seat) party ≡ true },
    ghost counted: { length (seen seat) ≡ count },
}

// Adds an entry of the party, and answers how many entries the seat has then seen. None is added where the
// room is full.
fn add<R: Wait>(rt: &R, lock: &TurnLock<Counter>, seat: &mut Seat<Counter>, party: u32) -> u64
    requires lock { IsSeatOf lock.now seat.old }
    requires party { contains (parties_of seat.old) party ≡ true }
    ensures lock { IsSeatOf lock.now seat.new }
    ensures parties { parties_of seat.new ≡ parties_of seat.old }
    ensures counted { length (seen seat.new) ≡ result }
{
    match lock.act(rt, seat, Add(party)) {
        0 => 4096,
        count => count,
    }
}

fn has_seen(seat: &Seat<Counter>, count: u64)
    requires { length (seen seat.now) ≡ count }
{
    let _count = count;
}

fn may_cross<T: Send>(_value: &T) {}

pub fn may_be_shared<T: Send + Sync>(_value: &T) {}

// A lock is shared by threads, and a seat goes to one, whatever object that may go there lies in the lock.
fn crosses_threads<O: Object + Send>(lock: &TurnLock<O>, seat: &Seat<O>, rest: &Rest<O>) {
    may_be_shared(lock);
    may_cross(seat);
    may_be_shared(rest);
}

// What is counted by two seats of one thread, one after the other.
fn count_by_seats<R: Wait>(rt: &R, alloc: Global) -> Result<[u64; 4], NoMemory> {
    let (lock, mut first) = TurnLock::new(alloc, Counter::new(alloc)?, 2)?;
    let one = add(rt, &lock, &mut first, 0);
    let two = add(rt, &lock, &mut first, 0);
    let three = add(rt, &lock, &mut first, 0);
    has_seen(&first, three);
    let mut second = lock.split(&mut first, 1);
    let four = add(rt, &lock, &mut second, 1);
    has_seen(&second, four);
    if four <= three {
        return Ok([0; 4]);
    }
    lock.join(&mut first, second);
    has_seen(&first, four);
    Ok([one, two, three, four])
}

#[test]
fn counts_on_one_thread(rt: HostRuntime) -> Result<(), NoMemory> {
    same(
        &rt,
        "counts",
        count_by_seats(&rt, rt.alloc())?,
        [1, 2, 3, 4],
    );
    Ok(())
}

impl Worker {
    // Adds that many entries of the worker's party.
    fn add_many<R: Wait>(&mut self, rt: &R, lock: &TurnLock<Counter>, times: u32)
        requires { IsSeatOf lock.now self.old.seat }
        ensures { IsSeatOf lock.now self.new.seat }
    {
        for _ in 0..times {
            self.count = add(rt, lock, &mut self.seat, self.party);
        }
    }
}

// A worker for each party of a new lock's seat.
fn deal(
    alloc: Global,
    lock: &TurnLock<Counter>,
    seat: Seat<Counter>,
    parties: u32,
) -> Result<Vec<Worker>, NoMemory>
    requires lock { IsSeatOf lock.now seat }
    requires new { (seen seat ≡ []) × (parties_of seat ≡ parties_below parties) × (0 < parties) }
    ensures { IfOk result (λ workers. All (λ worker. IsSeatOf lock.now worker.seat) workers.items) }
{
    let mut seat = seat;
    let mut workers = Vec::new(alloc);
    for party in 1..parties {
        workers.push(Worker {
            seat: lock.split(&mut seat, party),
            party,
            count: 0,
        })?;
    }
    workers.push(Worker {
        seat,
        party: 0,
        count: 0,
    })?;
    Ok(workers)
}

// Each worker adds that many entries, in a thread of its own.
fn work_together<R: Threads + Wait + Sync>(
    rt: &R,
    lock: &TurnLock<Counter>,
    workers: &mut [Worker],
    times: u32,
)
    requires { All (λ worker. IsSeatOf lock.now worker.seat) workers.old }
    ensures { All (λ worker. IsSeatOf lock.now worker.seat) workers.new }
{
    thread::for_each_mut(
        rt,
        workers,
        8,
        &|_, worker| worker.add_many(rt, lock, times),
    );
}

// The one worker with the seats of all.
fn join_all(lock: &TurnLock<Counter>, workers: Vec<Worker>) -> Option<Worker>
    requires { All (λ worker. IsSeatOf lock.now worker.seat) workers.items }
    ensures { IfSome result (λ worker. IsSeatOf lock.now worker.seat) }
{
    let mut all: Option<Worker> = None;
    for worker in workers {
        all = Some(joined(lock, all, worker));
    }
    all
}

fn joined(lock: &TurnLock<Counter>, one: Option<Worker>, other: Worker) -> Worker
    requires { IfSome one (λ worker. IsSeatOf lock.now worker.seat) × IsSeatOf lock.now other.seat }
    ensures { IsSeatOf lock.now result.seat }
{
    let Some(Worker { seat, party, count }) = one else {
        return other;
    };
    let mut seat = seat;
    lock.join(&mut seat, other.seat);
    Worker {
        seat,
        party,
        count: count.max(other.count),
    }
}

// So many threads add so many entries each: how many entries the joined seat has seen then, and what the
// next add replies.
fn count_together<R: Threads + Wait + Sync>(
    rt: &R,
    alloc: Global,
    threads: u32,
    times: u32,
) -> Result<(u64, u64), NoMemory>
    requires { 0 < threads }
{
    let (lock, seat) = TurnLock::new(alloc, Counter::new(alloc)?, threads)?;
    let mut workers = deal(alloc, &lock, seat, threads)?;
    work_together(rt, &lock, workers.as_mut_slice(), times);
    let Some(mut all) = join_all(&lock, workers) else {
        return Ok((0, 0));
    };
    let (seen, party) = (all.count, all.party);
    Ok((seen, lock.act(rt, &mut all.seat, Add(party))))
}

// So many threads add so many entries each. Where the room is full no more are counted.
#[test]
fn threads_count_on(rt: HostRuntime) -> Result<(), NoMemory> {
    let two = count_together(&rt, rt.alloc(), 2, 1000)?;
    same(&rt, "two threads", two, (2000, 2001));
    let eight = count_together(&rt, rt.alloc(), 8, 250)?;
    same(&rt, "eight threads", eight, (2000, 2001));
    let full = count_together(&rt, rt.alloc(), 8, 1000)?;
    same(&rt, "the room is full", full, (4096, 0));
    Ok(())
}

// What a log replies to what two parties put, and to reading it.
fn log_by_seats<R: Wait>(rt: &R, alloc: Global) -> Result<[LogReply; 5], NoMemory> {
    let (lock, mut first) = TurnLock::new(alloc, NumberLog::new(alloc)?, 2)?;
    let rest = Rest::of(lock.split(&mut first, 1));
    let seven = put(rt, &lock, &mut first, 0, 7);
    let mut second = rest.take(rt);
    let nine = put(rt, &lock, &mut second, 1, 9);
    let one = read(rt, &lock, &mut first, 0);
    let two = read(rt, &lock, &mut first, 1);
    let none = read(rt, &lock, &mut second, 2);
    Ok([seven, nine, one, two, none])
}

#[test]
fn logs_what_each_party_puts(rt: HostRuntime) -> Result<(), NoMemory> {
    let wanted = [
        LogReply::Added,
        LogReply::Added,
        LogReply::Number(7),
        LogReply::Number(9),
        LogReply::Nothing,
    ];
    same(&rt, "log", log_by_seats(&rt, rt.alloc())?, wanted);
    Ok(())
}

fn put<R: Wait>(
    rt: &R,
    lock: &TurnLock<NumberLog>,
    seat: &mut Seat<NumberLog>,
    party: u32,
    number: u32,
) -> LogReply
    requires lock { IsSeatOf lock.now seat.old }
    requires party { contains (parties_of seat.old) party ≡ true }
    ensures lock { IsSeatOf lock.now seat.new }
    ensures parties { parties_of seat.new ≡ parties_of seat.old }
{
    lock.act(rt, seat, LogOp::Put(Item { party, number }))
}

fn read<R: Wait>(
    rt: &R,
    lock: &TurnLock<NumberLog>,
    seat: &mut Seat<NumberLog>,
    place: u32,
) -> LogReply
    requires lock { IsSeatOf lock.now seat.old }
    requires party { HoldsParty seat.old }
    ensures lock { IsSeatOf lock.now seat.new }
    ensures parties { parties_of seat.new ≡ parties_of seat.old }
{
    lock.act(rt, seat, LogOp::Read(place))
}
