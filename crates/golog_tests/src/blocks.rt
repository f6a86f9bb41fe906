// A test of `has_front_block`.
ghost use Rattle.golog_semantics.specs.WellFormed.{WellFormed};

use crate::agents::BELL;
use crate::asserting::same;
use golog_base::{Boxed, NoMemory};
use golog_file::read_agent;
use golog_tree::{Agent, Prog};
use golog_ways::has_front_block;
use std::alloc::Global;

/// An empty search block.
fn block(alloc: Global) -> Result<Prog, NoMemory> {
    Ok(Prog::Search {
        depth: 1,
        fuel: 1,
        body: Boxed::new(alloc, Prog::Nil)?,
    })
}

/// Whether a search block stands at the front of one, and none at that of the agent's program.
fn finds_blocks(alloc: Global, agent: &Agent) -> bool
    requires { WellFormed agent.now }
{
    let made = block(alloc);
    let answer = match &made {
        Ok(block) => has_front_block(agent, block) && !has_front_block(agent, &agent.main),
        Err(_fault) => false,
    };
    drop(made);
    answer
}

/// The same of the agent of `BELL`.
fn bell_finds_blocks(alloc: Global) -> bool {
    let read = read_agent(alloc, BELL);
    let answer = match &read {
        Ok(agent) => finds_blocks(alloc, agent),
        Err(_fault) => false,
    };
    drop(read);
    answer
}

#[test]
fn blocks_at_the_front_are_found(rt: HostRuntime) {
    same(&rt, "blocks", bell_finds_blocks(rt.alloc()), true);
}
