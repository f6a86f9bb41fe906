//! Two agents as a team, from nothing: their journals, the link, and the lock round it.
ghost use Rattle.std.specs.Prelude.{◌≡◌, ◌≤◌, [], IfOk, not};
ghost use Rattle.golog_semantics.specs.WellFormed.{WellFormed};
ghost use Rattle.golog_turn.specs.Parties.{parties_below};
ghost use Rattle.golog_turn.specs.Seats.{IsSeatOf, seen, parties_of};
ghost use Rattle.golog_team.specs.Shapes.{AreMatched};
ghost use Rattle.golog_team.specs.Played.{AreNew, HavePlayed, nothing_done};
ghost use Rattle.golog_team.specs.Standing.{station_of, IsSide};

use crate::at_lock::AtLock;
use crate::bells::Bells;
use crate::link::Link;
use crate::seat_wire::SeatWire;
use crate::side::Side;
use crate::team::run_team;
use crate::wire::Wire;
use golog_base::{NoMemory, both};
use golog_journal::{AgentFacts, Journal, Lead};
use golog_tree::Agent;
use golog_turn::{Seat, TurnLock};
use std::alloc::Global;
use std::marker::Brand;
use std::sync::Wait;
use std::thread::Threads;

// What one side brings: its journal and the facts of its agent's actions.
#[derive(Drop)]
struct Kit {
    journal: Journal,
    facts: AgentFacts,
}

impl Kit {
    fn new(alloc: Global, agent: &Agent) -> Result<Kit, NoMemory>
        requires { WellFormed agent.now }
        ensures { IfOk result (λ kit. (kit.journal ≡ record { agent = agent.now; entries = [] }) × (kit.facts ≡ agent.now)) }
    {
        let (journal, facts) = both(Journal::new(alloc, agent), AgentFacts::of(alloc, agent))?;
        Ok(Kit { journal, facts })
    }
}

/// Runs the programs of two agents, each of which is the other's one device, beside each other on threads or in turn.
/// Their leads, which have copied nothing yet, are handed back with the whole journals. `NoMemory` comes before either
/// has had a turn, and the leads are dropped. It may wait for ever, as where no thread can be made.
pub fn run_agents<L: Lead + Drop, M: Lead + Send + Drop, R: Threads + Wait + Sync>(
    rt: &R,
    alloc: Global,
    first: &Agent,
    second: &Agent,
    lead: L,
    their_lead: M,
    beside: bool,
) -> Result<(L, M), NoMemory>
    requires formed { WellFormed first.now × WellFormed second.now }
    requires matched { AreMatched first.now second.now × AreMatched second.now first.now }
    requires leads { AreNew first.now second.now (L.mind lead) (M.mind their_lead) }
    ensures played { IfOk result (λ leads. HavePlayed first.now second.now (not beside)
        (L.mind lead) (L.mind leads.0) (M.mind their_lead) (M.mind leads.1)) }
    ensures stands { IfOk result (λ leads. (L.stands lead → L.stands leads.0) × (M.stands their_lead → M.stands leads.1)) }
{
    let (one, other) = both(Kit::new(alloc, first), Kit::new(alloc, second))?;
    let link = Link::new(alloc)?;
    match TurnLock::new(alloc, link, 2) {
        Ok((lock, seat)) => {
            let leads = run_locked::<Brand, L, M, R>(
                rt, &lock, seat, first, second, one, other, lead, their_lead, beside,
            );
            drop(lock);
            Ok(leads)
        }
        Err(fault) => Err(fault),
    }
}

// A side that has done nothing yet, of an agent that may be one of a team with the other.
fn side_of<'a, L: Lead, W: Wire>(
    side: u8,
    agent: &'a Agent,
    other: &'a Agent,
    facts: &'a AgentFacts,
    journal: Journal,
    lead: L,
    wire: W,
) -> Side<'a, L, W>
    requires formed { WellFormed agent.now × WellFormed other.now }
    requires matched { AreMatched agent.now other.now }
    requires one_of_two { side ≤ 1 }
    requires facts { facts.now ≡ other.now }
    requires journal { journal ≡ record { agent = agent.now; entries = [] } }
    requires lead { ((L.mind lead).agent ≡ agent.now) × ((L.mind lead).list ≡ []) }
    requires wire { ((W.view wire).side ≡ side) × ((W.view wire).seen ≡ []) }
    ensures parts { (result.side ≡ side) × (result.agent.now ≡ agent.now) × (result.other.now ≡ other.now)
        × (result.lead ≡ lead) × (result.wire ≡ wire) }
    ensures side { IsSide L.mind W.view result }
    ensures new { station_of L.mind W.view result ≡ nothing_done }
{
    Side::new(side, agent, other, facts, journal, lead, wire)
}

// The same with a new lock's seat.
fn run_locked<N: AtLock + Send, L: Lead, M: Lead + Send, R: Threads + Wait + Sync>(
    rt: &R,
    lock: &TurnLock<Link>,
    seat: Seat<Link>,
    first: &Agent,
    second: &Agent,
    one: Kit,
    other: Kit,
    lead: L,
    their_lead: M,
    beside: bool,
) -> (L, M)
    requires lock { IsSeatOf lock.now seat × (lock.now.table.shared.table_id ≡ N.home) }
    requires new { (parties_of seat ≡ parties_below 2) × (seen seat ≡ []) }
    requires formed { WellFormed first.now × WellFormed second.now }
    requires matched { AreMatched first.now second.now × AreMatched second.now first.now }
    requires leads { AreNew first.now second.now (L.mind lead) (M.mind their_lead) }
    requires one { (one.journal ≡ record { agent = first.now; entries = [] }) × (one.facts ≡ first.now) }
    requires other { (other.journal ≡ record { agent = second.now; entries = [] }) × (other.facts ≡ second.now) }
    ensures played { HavePlayed first.now second.now (not beside)
        (L.mind lead) (L.mind result.0) (M.mind their_lead) (M.mind result.1) }
    ensures stands { (L.stands lead → L.stands result.0) × (M.stands their_lead → M.stands result.1) }
{
    let bells = Bells::new();
    let mut seat = seat;
    let given = lock.split(&mut seat, 1);
    let wire = SeatWire::<R, N>::of(rt, lock, &bells, seat, 0);
    let their_wire = SeatWire::<R, N>::of(rt, lock, &bells, given, 1);
    let Kit { journal, facts } = one;
    let Kit {
        journal: their_journal,
        facts: their_facts,
    } = other;
    let mut one = side_of(0, first, second, &their_facts, journal, lead, wire);
    let mut other = side_of(
        1,
        second,
        first,
        &facts,
        their_journal,
        their_lead,
        their_wire,
    );
    run_team(rt, &mut one, &mut other, beside);
    let (lead, _journal, _wire) = one.finish();
    let (their_lead, _journal, _wire) = other.finish();
    (lead, their_lead)
}
