// `NoBlocks`, for which no search block has a step, and the steps of programs by it.
ghost use Rattle.std.specs.Prelude.{◌≡◌, false, IfOk, length};
ghost use Rattle.std.specs.Option.{option_map};
ghost use Rattle.golog_tree.specs.Ground.{ground_fluents};
ghost use Rattle.golog_semantics.specs.Search.{no_blocks};
ghost use Rattle.golog_semantics.specs.Ways.{way_of};
ghost use Rattle.golog_fronts.specs.Closed.{IsFit, IsClosed};
ghost use Rattle.golog_ways.specs.First.{first_way, has_way};

use crate::answering::{Blocks, Stop};
use crate::following::Following;
use crate::moving::first_move;
use crate::reaches::{NOWHERE, Reach};
use crate::reaching::reach_of;
use golog_base::NoMemory;
use golog_semantics::{Mode, Move};
use golog_tree::{Agent, Prog, Way};
use std::alloc::Global;

/// No block has a step.
#[derive(Clone, Copy, Debug)]
pub struct NoBlocks;

impl Blocks for NoBlocks {
    ghost ready = { λ blocks agent values. Unit {0} };

    ghost moves = { λ blocks agent values. no_blocks };

    ghost wants = { λ blocks agent values m depth fuel body rest. false };

    fn first(
        &self,
        _alloc: Global,
        _agent: &Agent,
        _values: &[u8],
        _block: &Following<'_>,
    ) -> Result<Option<Move>, Stop> {
        Ok(None)
    }

    fn reach(
        &self,
        _alloc: Global,
        _agent: &Agent,
        _values: &[u8],
        _block: &Following<'_>,
    ) -> Result<Reach, Stop> {
        Ok(NOWHERE)
    }
}

/// What an answer wanted where no block wants fuel.
fn wanted(stop: Stop) -> NoMemory {
    match stop {
        Stop::Memory | Stop::Fuel => NoMemory,
    }
}

/// The step without the run that it begins.
fn way(found: Option<Move>) -> Option<Way>
    ensures { result ≡ option_map way_of found }
{
    match found {
        None => None,
        Some(Move { label, left, .. }) => Some(Way { label, left }),
    }
}

/// The first of the certain steps of a program, where no block has a step.
pub fn first_without(
    alloc: Global,
    agent: &Agent,
    prog: &Prog,
    values: &[u8],
) -> Result<Option<Way>, NoMemory>
    requires fit { IsFit agent.now }
    requires closed { IsClosed agent.now prog.now }
    requires whole { length values.now ≡ length (ground_fluents agent.now) }
    ensures { IfOk result (λ w. w ≡ first_way agent.now values.now prog.now) }
{
    match first_move(alloc, agent, &NoBlocks, prog, values) {
        Ok(found) => Ok(way(found)),
        Err(stop) => Err(wanted(stop)),
    }
}

/// Whether a program has a step in the mode, where no block has one.
pub fn any_without(
    alloc: Global,
    agent: &Agent,
    mode: Mode,
    prog: &Prog,
    values: &[u8],
) -> Result<bool, NoMemory>
    requires fit { IsFit agent.now }
    requires closed { IsClosed agent.now prog.now }
    requires whole { length values.now ≡ length (ground_fluents agent.now) }
    ensures { IfOk result (λ b. b ≡ has_way agent.now values.now mode prog.now) }
{
    match reach_of(alloc, agent, &NoBlocks, prog, values) {
        Ok(reach) => Ok(reach.holds_in(mode)),
        Err(stop) => Err(wanted(stop)),
    }
}
