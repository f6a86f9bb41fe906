//! A test of the two sides of a team, each of which waits for the other in its program's first turn.
ghost use Rattle.std.specs.Prelude.{◌≡◌};
ghost use Rattle.golog_semantics.specs.WellFormed.{WellFormed};
ghost use Rattle.golog_team.specs.Played.{AreNew};
ghost use Rattle.golog_team.specs.Shapes.{AreMatched};

use crate::asserting::same;
use crate::runs::agent_of;
use golog_agent::Runner;
use golog_base::{NoMemory, both};
use golog_journal::{Board, Lead, Led};
use golog_team::{run_agents, team_refusal, unrefused_match};
use golog_tree::Agent;
use std::alloc::Global;
use std::sync::Wait;
use std::sync::atomic::{AtomicU64, Ordering};
use std::thread::Threads;

/// A program that has nothing to do.
const AGENT: &[u8] = b"(agent (device other) (main nil))";

/// How often each looks for the other.
const LOOKS: u32 = 100_000_000;

/// How many have come.
#[derive(Drop)]
struct Meeting {
    came: AtomicU64,
}

impl Meeting {
    fn new() -> Meeting {
        Meeting {
            came: AtomicU64::new(0),
        }
    }

    // Comes, and answers whether the other comes too.
    fn attend(&self) -> bool {
        self.came.fetch_add(1, Ordering::SeqCst);
        for _ in 0..LOOKS {
            if self.came.load(Ordering::SeqCst) == 2 {
                return true;
            }
        }
        false
    }
}

/// A lead that attends a meeting in its first turn, and whether it met the other there.
#[derive(Drop)]
struct Guest<'a, L: Lead> {
    lead: L,
    meeting: &'a Meeting,
    met: Option<bool>,
}

impl<'a, L: Lead> Guest<'a, L> {
    fn new(lead: L, meeting: &'a Meeting) -> Guest<'a, L>
        ensures { result.lead ≡ lead }
    {
        Guest {
            lead,
            meeting,
            met: None,
        }
    }

    fn attend(&mut self)
        ensures { self.new.lead ≡ self.old.lead }
    {
        if self.met.is_none() {
            self.met = Some(self.meeting.attend());
        }
    }
}

impl<L: Lead> Lead for Guest<'_, L> {
    ghost mind = { λ guest. L.mind guest.lead };

    ghost stands = { λ guest. L.stands guest.lead };

    fn turn<B: Board>(&mut self, board: &mut B) -> Led {
        self.attend();
        self.lead.turn(board)
    }

    fn gather<B: Board>(&mut self, board: &mut B) {
        self.lead.gather(board);
    }

    ghost goes_on = { λ guest. L.goes_on guest.lead };
}

/// Whether each side met the other.
#[derive(Clone, Copy, Debug, PartialEq)]
struct Told {
    first: Option<bool>,
    second: Option<bool>,
}

// What is told of two leads of the agent that go on beside each other, as a team of it and itself.
fn told_of<L: Lead + Drop, M: Lead + Send + Drop, R: Threads + Wait + Sync>(
    rt: &R,
    alloc: Global,
    agent: &Agent,
    lead: L,
    their_lead: M,
) -> Result<Told, NoMemory>
    requires formed { WellFormed agent.now }
    requires matched { AreMatched agent.now agent.now }
    requires leads { AreNew agent.now agent.now (L.mind lead) (M.mind their_lead) }
{
    let meeting = Meeting::new();
    let one = Guest::new(lead, &meeting);
    let other = Guest::new(their_lead, &meeting);
    let (first, second) = run_agents(rt, alloc, agent, agent, one, other, true)?;
    Ok(Told {
        first: first.met,
        second: second.met,
    })
}

fn told_by<R: Threads + Wait + Sync>(
    rt: &R,
    alloc: Global,
    agent: &Agent,
) -> Result<Option<Told>, NoMemory>
    requires { WellFormed agent.now }
{
    if team_refusal(alloc, agent, agent)?.is_some() {
        return Ok(None);
    }
    unrefused_match();
    let (one, other) = both(Runner::new(alloc, agent), Runner::new(alloc, agent))?;
    let told = told_of(rt, alloc, agent, one, other)?;
    Ok(Some(told))
}

fn told_beside<R: Threads + Wait + Sync>(rt: &R, alloc: Global) -> Result<Option<Told>, NoMemory> {
    match agent_of(alloc, AGENT) {
        Some(agent) => {
            let told = told_by(rt, alloc, &agent);
            drop(agent);
            told
        }
        None => Ok(None),
    }
}

// Where one side had its steps before the other, or they had them in turn, one would wait in vain.
#[test]
fn sides_meet(rt: HostRuntime) -> Result<(), NoMemory> {
    let told = told_beside(&rt, rt.alloc())?;
    let wanted = Told {
        first: Some(true),
        second: Some(true),
    };
    same(&rt, "sides", told, Some(wanted));
    Ok(())
}
