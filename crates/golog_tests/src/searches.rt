// A test of `find`.
ghost use Rattle.std.specs.Prelude.{◌≡◌, IfOk};
ghost use Rattle.golog_semantics.specs.WellFormed.{WellFormed};
ghost use Rattle.golog_tests.specs.Blockless.{IsBlockless};

use crate::agents::{BRANCHES, DOOR, ROADS, STAIRS};
use crate::asserting::same;
use crate::blockless::has_blocks;
use golog_base::NoMemory;
use golog_file::read_agent;
use golog_progress::start;
use golog_search::{Block, Found, find};
use golog_tree::{Agent, Label, Way, copy_prog};
use std::alloc::Global;

/// What is asked of a search: how long its runs may be, how many states may be looked at, and whether its run
/// is to be certain.
#[derive(Clone, Copy)]
pub struct Asked {
    pub depth: u32,
    pub fuel: u32,
    pub certain: bool,
}

/// What a search is to come to: a run of these labels, none, or want of fuel.
#[derive(Clone, Copy)]
enum Wanted<'a> {
    Run(&'a [Label]),
    Absent { cut: bool },
    Fuel,
}

/// Whether the steps have these labels.
fn has_labels(run: &[Way], labels: &[Label]) -> bool {
    let mut rest = labels;
    for way in run {
        let Some((first, later)) = rest.split_first() else {
            return false;
        };
        if way.label != *first {
            return false;
        }
        rest = later;
    }
    rest.is_empty()
}

/// Whether this is what the search was to come to.
fn is_wanted(found: &Found, wanted: Wanted<'_>) -> bool {
    match (found, wanted) {
        (Found::Run(run), Wanted::Run(labels)) => has_labels(run.as_slice(), labels),
        (Found::Absent { cut }, Wanted::Absent { cut: c }) => *cut == c,
        (Found::Fuel, Wanted::Fuel) => true,
        _ => false,
    }
}

/// The agent's program as a search block.
pub fn block_of(alloc: Global, agent: &Agent, asked: Asked) -> Result<Block, NoMemory>
    ensures { IfOk result (λ block. block.body ≡ agent.now.main) }
{
    let body = copy_prog(alloc, &agent.main)?;
    Ok(Block {
        depth: asked.depth,
        fuel: asked.fuel,
        body,
    })
}

/// What the search of that block comes to at the start.
#[tactic(auto, using(crate::proofs::Searched::body_fits, crate::proofs::Searched::body_free))]
pub fn find_at_start(
    alloc: Global,
    agent: &Agent,
    block: &Block,
    certain: bool,
) -> Result<Found, NoMemory>
    requires formed { WellFormed agent.now }
    requires blockless { IsBlockless agent.now }
    requires body { block.now.body ≡ agent.now.main }
{
    match start(alloc, agent) {
        Ok(state) => find(alloc, agent, block, &state, certain),
        Err(NoMemory) => Err(NoMemory),
    }
}

/// Whether it comes to what is wanted.
fn block_comes_to(
    alloc: Global,
    agent: &Agent,
    block: &Block,
    certain: bool,
    wanted: Wanted<'_>,
) -> bool
    requires formed { WellFormed agent.now }
    requires blockless { IsBlockless agent.now }
    requires body { block.now.body ≡ agent.now.main }
{
    let made = find_at_start(alloc, agent, block, certain);
    let answer = match &made {
        Ok(found) => is_wanted(found, wanted),
        Err(_fault) => false,
    };
    drop(made);
    answer
}

/// The same of the agent's program.
fn main_comes_to(alloc: Global, agent: &Agent, asked: Asked, wanted: Wanted<'_>) -> bool
    requires formed { WellFormed agent.now }
    requires blockless { IsBlockless agent.now }
{
    let made = block_of(alloc, agent, asked);
    let answer = match &made {
        Ok(block) => block_comes_to(alloc, agent, block, asked.certain, wanted),
        Err(_fault) => false,
    };
    drop(made);
    answer
}

/// The same of the program of an agent that is read, which has no search blocks.
#[tactic(auto, using(crate::proofs::Unblocked::blockless))]
fn comes_to(alloc: Global, bytes: &[u8], asked: Asked, wanted: Wanted<'_>) -> bool {
    let read = read_agent(alloc, bytes);
    let answer = match &read {
        Ok(agent) => !has_blocks(agent) && main_comes_to(alloc, agent, asked, wanted),
        Err(_fault) => false,
    };
    drop(read);
    answer
}

/// A certain run of at most so many steps, with so much fuel.
fn certain(depth: u32, fuel: u32) -> Asked {
    Asked {
        depth,
        fuel,
        certain: true,
    }
}

#[test]
fn runs_are_found(rt: HostRuntime) {
    let up = [Label::Do(2), Label::Do(2), Label::Do(2), Label::Quiet];
    let first = [Label::Do(2), Label::Do(4)];
    let through = [Label::Do(2), Label::Quiet, Label::Do(3)];
    let near = Asked {
        depth: 4,
        fuel: 1000,
        certain: false,
    };
    let absent = Wanted::Absent { cut: false };
    let cut = Wanted::Absent { cut: true };
    let searches = [
        (
            "as long as the depth",
            STAIRS,
            certain(4, 1000),
            Wanted::Run(&up),
        ),
        ("cut beyond the depth", STAIRS, certain(3, 1000), cut),
        (
            "first of the shortest",
            BRANCHES,
            certain(4, 3),
            Wanted::Run(&first),
        ),
        ("wants fuel", BRANCHES, certain(4, 2), Wanted::Fuel),
        (
            "round what is blocked",
            ROADS,
            certain(4, 1000),
            Wanted::Run(&first),
        ),
        ("not certain", DOOR, certain(4, 1000), absent),
        ("not certain but near", DOOR, near, Wanted::Run(&through)),
    ];
    for (name, file, asked, wanted) in searches {
        same(&rt, name, comes_to(rt.alloc(), file, asked, wanted), true);
    }
}
