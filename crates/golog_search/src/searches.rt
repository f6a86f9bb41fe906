// `Searches`, which tells golog_ways the steps of search blocks.
use crate::block_steps::block_of;
use crate::reach::FirstStep;
use crate::told::Told;
use golog_progress::State;
use golog_semantics::Move;
use golog_tree::Agent;
use golog_ways::{Blocks, Expand, Following, Reach, Stop};
use std::alloc::Global;

/// Tells the steps of search blocks in a state by what is told of the runs under way and by searching, as far as
/// the fuel of the blocks suffices where the searches are bounded. Who lists the steps of many states for them is said.
#[derive_where(Clone, Copy)]
pub struct Searches<'a, X: Expand> {
    pub state: &'a State,
    pub bounded: bool,
    pub told: &'a [Told],
    pub expand: &'a X,
}

impl<'a, X: Expand> Blocks for Searches<'a, X> {
    ghost use Rattle.golog_semantics.specs.Blocks.{block_moves};
    ghost use Rattle.golog_search.specs.BlockSteps.{wants_more};
    ghost use Rattle.golog_search.specs.Told.{IsReady};

    ghost ready = { λ searches agent values. IsReady agent values searches.state.now searches.told.now };

    ghost moves = { λ searches agent values. block_moves agent values };

    ghost wants = { λ searches agent values m depth fuel body rest. wants_more searches.bounded agent values m
        (record { depth = depth; fuel = fuel; body = body }) rest };

    fn first(
        &self,
        alloc: Global,
        agent: &Agent,
        _values: &[u8],
        following: &Following<'_>,
    ) -> Result<Option<Move>, Stop> {
        let block = block_of(alloc, following.depth, following.fuel, following.body)?;
        match self.first_of_block(alloc, agent, &block, following.rest)? {
            FirstStep::Step(step) => Ok(step),
            FirstStep::Fuel => Err(Stop::Fuel),
        }
    }

    fn reach(
        &self,
        alloc: Global,
        agent: &Agent,
        _values: &[u8],
        following: &Following<'_>,
    ) -> Result<Reach, Stop> {
        let block = block_of(alloc, following.depth, following.fuel, following.body)?;
        let reach = self.reach_of_block(alloc, agent, &block, following.rest);
        drop(block);
        reach
    }
}
