// `Keep`, the trait of who tells whether runs go through and may keep what was learned of them, and
// `Walk`, which keeps nothing.
use crate::going::goes_through;
use golog_base::NoMemory;
use golog_progress::State;
use golog_tree::{Agent, Prog, Way};
use std::alloc::Global;

/// Who tells whether runs go through, and may keep what it has learned of them.
pub trait Keep {
    ghost use Rattle.std.specs.Prelude.{◌≡◌, IfOk};
    ghost use Rattle.golog_tree.specs.declared.agent.Agent.{Agent};
    ghost use Rattle.golog_semantics.specs.Blocks.{goes_through};
    ghost use Rattle.golog_semantics.specs.WellFormed.{WellFormed};
    ghost use Rattle.golog_ways.specs.Searched.{IsSearched};

    // Each earlier call was with this agent.
    ghost serves: { Self → Agent → Type 0 };

    /// Whether the rest of a run goes through from a state: each of its ways is a certain step of the program
    /// left, and where they lead the program certainly may end. No block stands in the body, and each earlier
    /// call was with the same agent; so it stays where memory is wanting.
    fn still(
        &mut self,
        alloc: Global,
        agent: &Agent,
        body: &Prog,
        rest: &[Way],
        state: &State,
    ) -> Result<bool, NoMemory>
        requires agent { WellFormed agent.now }
        requires searched { IsSearched agent.now body.now state.now }
        requires serves { serves self.old agent.now }
        ensures still { IfOk result (λ b. b ≡ goes_through agent.now body.now rest.now state.now) }
        ensures serves { serves self.new agent.now };
}

/// Steps each run again, and keeps nothing.
#[derive(Clone, Copy, Debug)]
pub struct Walk;

impl Walk {
    /// One that steps each run again.
    pub fn new() -> Walk {
        Walk
    }
}

impl Keep for Walk {
    ghost serves = { λ walk agent. Unit {0} };

    fn still(
        &mut self,
        alloc: Global,
        agent: &Agent,
        body: &Prog,
        rest: &[Way],
        state: &State,
    ) -> Result<bool, NoMemory> {
        goes_through(alloc, agent, body, rest, state)
    }
}
