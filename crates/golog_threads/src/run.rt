//! A run over threads: the devices beside each other, and the lead on the caller's thread, where
//! the large stack is; then the lead gathers.
ghost use Rattle.std.specs.Prelude.{◌≡◌, ◌≤◌, ◌<◌, ℕ, true, false, IsTrue, length, OnOk, OnErr, slice_index_or};
ghost use Rattle.std.specs.Thread.{IsSync, IsSend};
ghost use Rattle.golog_semantics.specs.WellFormed.{WellFormed};
ghost use Rattle.golog_semantics.specs.Journal.{device_limit, has_end, longest, is_open as is_open_in};
ghost use Rattle.golog_journal.specs.Boards.{IsBoardList};
ghost use Rattle.golog_journal.specs.Growing.{program};
ghost use Rattle.golog_journal.specs.Leading.{IsBehind, SameMind, Watches};
ghost use Rattle.golog_turn.specs.Parties.{contains, parties_below};
ghost use Rattle.golog_turn.specs.Seats.{IsSeatOf, seen, parties_of};
ghost use Rattle.golog_journal.specs.declared.lead.Led.TheVariants.{More, Ended};
ghost use Rattle.golog_threads.specs.Resting.{RestsAt, rest_seen, rest_parties};
ghost use Rattle.golog_threads.specs.Driving.{HoldsFrom, MayDrive, HasDriven, RunsOverThreads};
ghost use Rattle.golog_threads.specs.Gathering.{Gathered};
ghost use Rattle.golog_threads.specs.Running.{AreReady, MayRunSealed};

use crate::board::SeatBoard;
use crate::drive::{drive_rest, join_seats};
use crate::hall::Hall;
use crate::naming::{AtLock, Held, Known, Naming};
use crate::shared::Shared;
use golog_base::NoMemory;
use golog_device::Device;
use golog_journal::{Board, DEVICES, Journal, Lead, Led};
use golog_tree::Agent;
use golog_turn::{Rest, Seat, TurnLock};
use std::alloc::Global;
use std::marker::Brand;
use std::sync::Wait;
use std::thread::{Threads, join_mut};

// The party of the lead, after those of the devices.
const LEAD: u32 = DEVICES as u32;

// Whether the lead has ended.
fn is_ended(led: Led) -> bool
    ensures { (result ≡ true → led ≡ Ended) × (result ≡ false → led ≡ More) }
{
    match led {
        Led::Ended => true,
        Led::More => false,
    }
}

// A lead that committed nothing sleeps until a device posts.
fn wait_after<R: Wait>(rt: &R, hall: &Hall, commits: u64, heard: u64) {
    if hall.commits() == commits {
        hall.await_post(rt, heard);
    }
}

// Gives the lead its turns until the program has ended.
fn lead_on<A: Naming, N: AtLock, L: Lead, R: Wait>(
    rt: &R,
    lock: &TurnLock<Shared<A>>,
    agent: &Agent,
    hall: &Hall,
    rest: &Rest<Shared<A>>,
    lead: &mut L,
) -> Seat<Shared<A>>
    requires home { lock.now.table.shared.table_id ≡ N.home }
    requires lock { RestsAt lock.now rest.now }
    requires agent { (L.mind lead.old).agent ≡ A.agent }
    requires held { contains (rest_parties rest.now) program ≡ true }
    requires behind { IsBehind (L.mind lead.old).list (rest_seen rest.now) }
    ensures lock { IsSeatOf lock.now result }
    ensures held { contains (parties_of result) program ≡ true }
    ensures same { SameMind (L.mind lead.old) (L.mind lead.new) }
    ensures stands { L.stands lead.old → L.stands lead.new }
    ensures behind { IsBehind (L.mind lead.new).list (seen result) }
    ensures ended { IsTrue (has_end (seen result)) }
{
    let seat = rest.take(rt);
    let mut board = SeatBoard::<R, Shared<A>, N>::of(rt, lock, agent, hall, seat);
    for _ in rt.forever() {
        let (commits, heard) = (hall.commits(), hall.heard_by_lead());
        let led = lead.turn(&mut board);
        if is_ended(led) {
            return board.into_seat();
        }
        wait_after(rt, hall, commits, heard);
    }
    unreachable!()
}

// Which devices are open.
fn opens_of(journal: &Journal, count: usize) -> [bool; DEVICES]
    requires few { (count ≤ length journal.now.agent.devices) × (count ≤ device_limit) }
    ensures { (device : ℕ) → device < count
        → slice_index_or result device false ≡ is_open_in device journal.now.entries }
{
    let mut opens = [false; DEVICES];
    for device in 0..count {
        opens[device] = journal.is_open(device as u8);
    }
    opens
}

// A seat for the lead, whose party is above the devices'.
fn split_lead<A: Naming>(lock: &TurnLock<Shared<A>>, seat: &mut Seat<Shared<A>>) -> Seat<Shared<A>>
    requires lock { IsSeatOf lock.now seat.old }
    requires parties { parties_of seat.old ≡ parties_below 17 }
    ensures lock { IsSeatOf lock.now seat.new × IsSeatOf lock.now result }
    ensures seen { (seen seat.new ≡ seen seat.old) × (seen result ≡ seen seat.old) }
    ensures lead { contains (parties_of result) program ≡ true }
    ensures devices { (count : ℕ) → count ≤ device_limit → HoldsFrom 0 count (parties_of seat.new) }
{
    lock.split(seat, LEAD)
}

// The lead copies all that the board has seen.
fn gather_at<L: Lead, B: Board>(lead: &mut L, board: &mut B)
    requires agent { (L.mind lead.old).agent ≡ (B.sight board.old).agent }
    requires held { (B.sight board.old).holds program ≡ true }
    requires behind { IsBehind (L.mind lead.old).list (B.sight board.old).seen }
    ensures same { SameMind (L.mind lead.old) (L.mind lead.new) }
    ensures stands { L.stands lead.old → L.stands lead.new }
    ensures whole { (L.mind lead.new).list ≡ (B.sight board.new).seen }
    ensures watches { Watches (B.sight board.old) (B.sight board.new) }
    ensures lawful { IsBoardList (L.mind lead.new).agent (B.sight board.new).seen }
    ensures short { length (B.sight board.new).seen ≤ longest }
{
    lead.gather(board);
}

// The lead copies all that the seat comes to see.
fn gather_all<A: Naming, N: AtLock, L: Lead, R: Wait>(
    rt: &R,
    lock: &TurnLock<Shared<A>>,
    agent: &Agent,
    hall: &Hall,
    seat: Seat<Shared<A>>,
    lead: &mut L,
)
    requires home { lock.now.table.shared.table_id ≡ N.home }
    requires lock { IsSeatOf lock.now seat }
    requires agent { (L.mind lead.old).agent ≡ A.agent }
    requires held { contains (parties_of seat) program ≡ true }
    requires behind { IsBehind (L.mind lead.old).list (seen seat) }
    ensures same { SameMind (L.mind lead.old) (L.mind lead.new) }
    ensures stands { L.stands lead.old → L.stands lead.new }
    ensures gathered { Gathered A.agent (seen seat) (L.mind lead.new).list (parties_of seat) }
{
    let mut board = SeatBoard::<R, Shared<A>, N>::of(rt, lock, agent, hall, seat);
    gather_at(lead, &mut board);
}

// The devices beside each other, and beside the lead. What both threads share is passed part by part: a struct of it
// would need a proof of its own that threads may share it.
fn run_beside<
    A: Naming + Send,
    N: AtLock + Send,
    G: Known,
    L: Lead,
    D: Device + Send,
    R: Threads + Wait + Sync,
>(
    rt: &R,
    lock: &TurnLock<Shared<A>>,
    rest: &Rest<Shared<A>>,
    lead_rest: &Rest<Shared<A>>,
    agent: &G,
    hall: &Hall,
    lead: &mut L,
    devices: &mut [D],
) -> (Seat<Shared<A>>, Seat<Shared<A>>)
    requires home { lock.now.table.shared.table_id ≡ N.home }
    requires lock { RestsAt lock.now rest.now × RestsAt lock.now lead_rest.now }
    requires formed { WellFormed (G.agent agent.now) }
    requires agent { A.agent ≡ G.agent agent.now }
    requires may { MayDrive (G.agent agent.now) 0 (length devices.old)
        (rest_seen rest.now) (rest_parties rest.now) hall.now.opens }
    requires lead_agent { (L.mind lead.old).agent ≡ A.agent }
    requires held { contains (rest_parties lead_rest.now) program ≡ true }
    requires behind { IsBehind (L.mind lead.old).list (rest_seen lead_rest.now) }
    ensures lock { IsSeatOf lock.now result.0 × IsSeatOf lock.now result.1 }
    ensures driven { HasDriven (G.agent agent.now) D.meaning 0 (rest_seen rest.now)
        (seen result.0) (parties_of result.0) devices.old devices.new }
    ensures held { contains (parties_of result.1) program ≡ true }
    ensures same { SameMind (L.mind lead.old) (L.mind lead.new) }
    ensures stands { L.stands lead.old → L.stands lead.new }
    ensures behind { IsBehind (L.mind lead.new).list (seen result.1) }
    ensures ended { IsTrue (has_end (seen result.1)) }
{
    join_mut(
        rt,
        &mut || -> Seat<Shared<A>>
            requires { IsSync R.row × IsSend D.row × IsSend A.row × IsSend N.row × IsSync G.row
                × WellFormed (G.agent agent.now) × (A.agent ≡ G.agent agent.now)
                × (lock.now.table.shared.table_id ≡ N.home) × RestsAt lock.now rest.now
                × MayDrive (G.agent agent.now) 0 (length devices.now)
                (rest_seen rest.now) (rest_parties rest.now) hall.now.opens }
            ensures { IsSeatOf lock.entry.now result
                × HasDriven (G.agent agent.entry.now) D.meaning 0 (rest_seen rest.entry.now)
                (seen result) (parties_of result) devices.entry.now devices.exit.now }
        { drive_rest::<A, N, G, D, R>(rt, lock, rest, agent, 0, hall, devices) },
        &mut || -> Seat<Shared<A>>
            requires { (lock.now.table.shared.table_id ≡ N.home) × RestsAt lock.now lead_rest.now
                × ((L.mind lead.now).agent ≡ A.agent)
                × (contains (rest_parties lead_rest.now) program ≡ true)
                × IsBehind (L.mind lead.now).list (rest_seen lead_rest.now) }
            ensures { IsSeatOf lock.entry.now result × (contains (parties_of result) program ≡ true)
                × SameMind (L.mind lead.entry.now) (L.mind lead.exit.now)
                × (L.stands lead.entry.now → L.stands lead.exit.now)
                × IsBehind (L.mind lead.exit.now).list (seen result) × IsTrue (has_end (seen result)) }
        { lead_on::<A, N, L, R>(rt, lock, agent.get(), hall, lead_rest, lead) },
    )
}

// The whole run with a new lock's seat.
fn run_locked<
    A: Naming + Send,
    N: AtLock + Send,
    G: Known,
    L: Lead,
    D: Device + Send,
    R: Threads + Wait + Sync,
>(
    rt: &R,
    lock: &TurnLock<Shared<A>>,
    seat: Seat<Shared<A>>,
    agent: &G,
    hall: &Hall,
    lead: &mut L,
    devices: &mut [D],
)
    requires home { lock.now.table.shared.table_id ≡ N.home }
    requires lock { IsSeatOf lock.now seat }
    requires parties { parties_of seat ≡ parties_below 17 }
    requires formed { WellFormed (G.agent agent.now) }
    requires agent { A.agent ≡ G.agent agent.now }
    requires lead_agent { (L.mind lead.old).agent ≡ A.agent }
    requires few { length devices.old ≤ device_limit }
    requires lawful { IsBoardList (G.agent agent.now) (seen seat) }
    requires opens { (device : ℕ) → device < length devices.old
        → slice_index_or hall.now.opens device false ≡ is_open_in device (seen seat) }
    requires ready { AreReady (G.agent agent.now) (seen seat) (length devices.old) }
    requires behind { IsBehind (L.mind lead.old).list (seen seat) }
    ensures same { SameMind (L.mind lead.old) (L.mind lead.new) }
    ensures stands { L.stands lead.old → L.stands lead.new }
    ensures ran { RunsOverThreads (G.agent agent.now) D.meaning
        (seen seat) (L.mind lead.new).list devices.old devices.new }
{
    let mut seat = seat;
    let lead_seat = split_lead(lock, &mut seat);
    let rest = Rest::of(seat);
    let lead_rest = Rest::of(lead_seat);
    let (kept, led) = run_beside::<A, N, G, L, D, R>(
        rt, lock, &rest, &lead_rest, agent, hall, lead, devices,
    );
    let mut seat = kept;
    join_seats(lock, &mut seat, led);
    gather_all::<A, N, L, R>(rt, lock, agent.get(), hall, seat, lead);
}

// The whole run with a new lock, of the agent that the type stands for.
fn run_named<
    A: Naming + Send,
    G: Known,
    H: Held,
    L: Lead,
    D: Device + Send,
    R: Threads + Wait + Sync,
>(
    rt: &R,
    alloc: Global,
    lead: &mut L,
    devices: &mut [D],
    agent: &G,
    hall: &Hall,
    journal: H,
) -> Result<(), NoMemory>
    requires named { A.agent ≡ G.agent agent.now }
    requires may { MayRunSealed (G.agent agent.now) (H.journal journal) (L.mind lead.old)
        (length devices.old) hall.now.opens }
    ensures same { SameMind (L.mind lead.old) (L.mind lead.new) }
    ensures stands { L.stands lead.old → L.stands lead.new }
    ensures ran { OnOk result (RunsOverThreads (G.agent agent.now) D.meaning
        (H.journal journal).entries (L.mind lead.new).list devices.old devices.new) }
    ensures memory { OnErr result ((lead.new ≡ lead.old) × (devices.new ≡ devices.old)) }
{
    let journal = journal.open();
    match TurnLock::new(alloc, Shared::<A>::new(journal), LEAD + 1) {
        Ok((lock, seat)) => {
            run_locked::<A, Brand, G, L, D, R>(rt, &lock, seat, agent, hall, lead, devices);
            drop(lock);
            Ok(())
        }
        Err(fault) => Err(fault),
    }
}

// The same of an agent, which threads may share.
fn run_sealed<H: Held, L: Lead, D: Device + Send, R: Threads + Wait + Sync>(
    rt: &R,
    alloc: Global,
    lead: &mut L,
    devices: &mut [D],
    agent: &Agent,
    hall: &Hall,
    journal: H,
) -> Result<(), NoMemory>
    requires may { MayRunSealed agent.now (H.journal journal) (L.mind lead.old)
        (length devices.old) hall.now.opens }
    ensures same { SameMind (L.mind lead.old) (L.mind lead.new) }
    ensures stands { L.stands lead.old → L.stands lead.new }
    ensures ran { OnOk result (RunsOverThreads agent.now D.meaning
        (H.journal journal).entries (L.mind lead.new).list devices.old devices.new) }
    ensures memory { OnErr result ((lead.new ≡ lead.old) × (devices.new ≡ devices.old)) }
{
    run_named::<Brand, Agent, H, L, D, R>(rt, alloc, lead, devices, agent, hall, journal)
}

/// Runs the devices beside each other and beside the lead: one thread for each device, which gives it its turns until
/// it is closed, and the lead on the caller's thread, which has its turns until it has ended. Then the lead gathers all
/// entries. It may wait for ever, as where a device's call does, or where no thread can be made. A device that is at
/// rest has its next turn after a command for it or the end; a lead that has committed nothing has its next one after
/// a post. `NoMemory` comes before any device or the lead had a turn; the journal is then dropped, and the lead and the
/// devices are as they were.
pub fn run_threads<L: Lead, D: Device + Send, R: Threads + Wait + Sync>(
    rt: &R,
    alloc: Global,
    lead: &mut L,
    devices: &mut [D],
    agent: &Agent,
    journal: Journal,
) -> Result<(), NoMemory>
    requires formed { WellFormed agent.now }
    requires agent { journal.agent ≡ agent.now }
    requires lead_agent { (L.mind lead.old).agent ≡ agent.now }
    requires boxes { length devices.old ≡ length agent.now.devices }
    requires lawful { IsBoardList agent.now journal.entries }
    requires ready { AreReady agent.now journal.entries (length devices.old) }
    requires behind { IsBehind (L.mind lead.old).list journal.entries }
    ensures same { SameMind (L.mind lead.old) (L.mind lead.new) }
    ensures stands { L.stands lead.old → L.stands lead.new }
    ensures ran { OnOk result (RunsOverThreads agent.now D.meaning
        journal.entries (L.mind lead.new).list devices.old devices.new) }
    ensures memory { OnErr result ((lead.new ≡ lead.old) × (devices.new ≡ devices.old)) }
{
    let hall = Hall::new(opens_of(&journal, devices.len()));
    let ran = run_sealed::<Journal, L, D, R>(rt, alloc, lead, devices, agent, &hall, journal);
    drop(hall);
    ran
}
