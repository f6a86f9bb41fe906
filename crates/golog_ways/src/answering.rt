// `Blocks`, the trait of who tells the steps of search blocks, and `Stop`, why these stay unknown.
ghost use Rattle.std.specs.Prelude.{◌≡◌};

use crate::following::Following;
use crate::reaches::Reach;
use golog_base::NoMemory;
use golog_semantics::Move;
use golog_tree::Agent;
use std::alloc::Global;

/// Why a search block's steps stay unknown.
#[derive(Clone, Copy, Debug, PartialEq, Eq)]
pub enum Stop {
    /// No memory was left.
    Memory,
    /// A search wanted more than the block's fuel.
    Fuel,
}

impl From<NoMemory> for Stop {
    ghost use Rattle.golog_ways.specs.declared.answering.Stop.{Stop};
    ghost use Rattle.golog_ways.specs.declared.answering.Stop.TheVariants.{Memory};

    ghost from_gives = { λ _ stop. stop ≡ Memory };

    fn from(_refused: NoMemory) -> Stop {
        Stop::Memory
    }
}

/// Who tells the steps of search blocks, at the values of a state.
pub trait Blocks {
    ghost use Rattle.std.specs.Prelude.{◌≡◌, length, not, ◌||◌, true, IfOk, IfErr};
    ghost use Rattle.golog_tree.specs.Ground.{ground_fluents};
    ghost use Rattle.golog_tree.specs.declared.agent.Agent.{Agent};
    ghost use Rattle.golog_semantics.specs.declared.Mode.{Mode};
    ghost use Rattle.golog_semantics.specs.declared.Mode.TheVariants.{Must, Near};
    ghost use Rattle.golog_semantics.specs.Truth.{Values};
    ghost use Rattle.golog_semantics.specs.Ways.{Blocks as Steps, is_empty};
    ghost use Rattle.golog_fronts.specs.Closed.{IsFit, IsClosed};
    ghost use Rattle.golog_ways.specs.First.{head_of};
    ghost use Rattle.golog_ways.specs.Following.{followed, of_block};
    ghost use Rattle.golog_ways.specs.Lacking.{Wants};
    ghost use Rattle.golog_ways.specs.Reach.{reaches};

    /// What has to be known of the agent and of the values.
    ghost ready: { Self → Agent → Values → Type 0 };

    /// The steps of blocks.
    ghost moves: { Self → Agent → Values → Steps };

    /// Which blocks want more than their fuel in a mode.
    ghost wants: { Self → Agent → Values → Mode → Wants };

    /// The first certain step of a block.
    fn first(
        &self,
        alloc: Global,
        agent: &Agent,
        values: &[u8],
        block: &Following<'_>,
    ) -> Result<Option<Move>, Stop>
        requires fit { IsFit agent.now }
        requires closed { IsClosed agent.now (followed block.now) }
        requires whole { length values.now ≡ length (ground_fluents agent.now) }
        requires ready { ready self.now agent.now values.now }
        ensures first { IfOk result (λ move.
            move ≡ head_of (of_block (moves self.now agent.now values.now Must) block.now)) }
        ensures fuel { IfErr result (λ stop. stop ≡ Stop.Fuel
            → of_block (wants self.now agent.now values.now Must) block.now ≡ true) };

    /// In which modes a block has a step.
    fn reach(
        &self,
        alloc: Global,
        agent: &Agent,
        values: &[u8],
        block: &Following<'_>,
    ) -> Result<Reach, Stop>
        requires fit { IsFit agent.now }
        requires closed { IsClosed agent.now (followed block.now) }
        requires whole { length values.now ≡ length (ground_fluents agent.now) }
        requires ready { ready self.now agent.now values.now }
        ensures reach { IfOk result (λ r. (m : Mode) → reaches m r
            ≡ not (is_empty (of_block (moves self.now agent.now values.now m) block.now))) }
        ensures fuel { IfErr result (λ stop. stop ≡ Stop.Fuel
            → (of_block (wants self.now agent.now values.now Must) block.now
            || of_block (wants self.now agent.now values.now Near) block.now) ≡ true) };
}
