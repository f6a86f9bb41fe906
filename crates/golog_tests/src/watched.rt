// A test of `Watch`, and of `Watches` beside `Walk`.
ghost use Rattle.std.specs.Prelude.{◌≡◌};
ghost use Rattle.golog_semantics.specs.InSorts.{AreInSorts};
ghost use Rattle.golog_semantics.specs.WellFormed.{WellFormed};
ghost use Rattle.golog_watch.specs.Watched.{AreWatches};
ghost use Rattle.golog_tests.specs.Blockless.{IsBlockless};

use crate::agents::action_of;
use crate::asserting::same;
use crate::blockless::has_blocks;
use crate::searches::{Asked, block_of, find_at_start};
use golog_base::NoMemory;
use golog_file::read_agent;
use golog_progress::{State, start};
use golog_search::{Block, Found};
use golog_tree::{Agent, Way};
use golog_watch::{Watch, Watches};
use golog_ways::{Keep, Walk};
use std::alloc::Global;

/// Two ways, each of which the world may block.
const CROSSING: &[u8] = b"(agent
    (device world)
    (sort place a b c)
    (fluent blocked (place) bool false)
    (action go (place)) (poss (go x) (not (blocked x)))
    (exo block (place) world) (causes (block x) (blocked x) true)
    (main (choice (act go b) (act go c))))";

/// A lamp that is switched five times, where each time it matters seven times how it was.
const TOGGLED: &[u8] = b"(agent
    (device world)
    (fluent lit () bool false)
    (action switch ()) (exo press () world)
    (causes (switch) (lit) true (and (not (lit)) (not (lit)) (not (lit))))
    (causes (switch) (lit) false (and (lit) (lit) (lit)))
    (causes (press) (lit) true)
    (main (seq (act switch) (act switch) (act switch) (act switch) (act switch) (test (lit)))))";

/// Whether a run of the agent's program goes through, as a keep tells.
fn told_by<K: Keep>(
    alloc: Global,
    agent: &Agent,
    run: &[Way],
    state: &State,
    keep: &mut K,
) -> Result<bool, NoMemory>
    requires formed { WellFormed agent.now }
    requires blockless { IsBlockless agent.now }
    requires sorts { AreInSorts agent.now state.now }
    requires serves { K.serves keep.old agent.now }
    ensures { K.serves keep.new agent.now }
{
    keep.still(alloc, agent, &agent.main, run, state)
}

/// The same, as a watch tells.
fn told_by_watch(alloc: Global, agent: &Agent, run: &[Way], state: &State) -> Result<bool, NoMemory>
    requires formed { WellFormed agent.now }
    requires blockless { IsBlockless agent.now }
    requires sorts { AreInSorts agent.now state.now }
{
    let made = Watch::of(alloc, agent, &agent.main, run);
    let answer = match &made {
        Ok(watch) => watch.still(alloc, agent, state),
        Err(NoMemory) => Err(NoMemory),
    };
    drop(made);
    answer
}

/// What a watch tells, watches that may have one, and stepping the run again.
fn told(
    alloc: Global,
    agent: &Agent,
    run: &[Way],
    state: &State,
    watches: &mut Watches,
) -> Result<[bool; 3], NoMemory>
    requires formed { WellFormed agent.now }
    requires blockless { IsBlockless agent.now }
    requires sorts { AreInSorts agent.now state.now }
    requires watches { AreWatches agent.now watches.old }
    ensures { AreWatches agent.now watches.new }
{
    let kept = told_by(alloc, agent, run, state, watches)?;
    let walked = told_by(alloc, agent, run, state, &mut Walk::new())?;
    let watched = told_by_watch(alloc, agent, run, state)?;
    Ok([watched, kept, walked])
}

/// The state after the ground action of this text, or the state where there is none.
fn state_by(agent: &Agent, text: &[u8], state: &mut State)
    requires formed { WellFormed agent.now }
    requires sorts { AreInSorts agent.now state.old }
    ensures { AreInSorts agent.now state.new }
{
    if let Some(action) = action_of(agent, text) {
        state.after_do(agent, action);
    }
}

/// What is told of the state that the action of this text alone makes of the start.
fn told_after(
    alloc: Global,
    agent: &Agent,
    run: &[Way],
    text: &[u8],
    watches: &mut Watches,
) -> Result<[bool; 3], NoMemory>
    requires formed { WellFormed agent.now }
    requires blockless { IsBlockless agent.now }
    requires watches { AreWatches agent.now watches.old }
    ensures { AreWatches agent.now watches.new }
{
    match start(alloc, agent) {
        Ok(mut state) => {
            state_by(agent, text, &mut state);
            let answer = told(alloc, agent, run, &state, watches);
            drop(state);
            answer
        }
        Err(NoMemory) => Err(NoMemory),
    }
}

/// What is told at the start, where each of two actions leads, and at the start again.
fn told_of_each(
    alloc: Global,
    agent: &Agent,
    run: &[Way],
    actions: [&[u8]; 2],
    watches: &mut Watches,
) -> Result<[[bool; 3]; 4], NoMemory>
    requires formed { WellFormed agent.now }
    requires blockless { IsBlockless agent.now }
    requires watches { AreWatches agent.now watches.old }
{
    let first = told_after(alloc, agent, run, b"", watches)?;
    let second = told_after(alloc, agent, run, actions[0], watches)?;
    let third = told_after(alloc, agent, run, actions[1], watches)?;
    let last = told_after(alloc, agent, run, b"", watches)?;
    Ok([first, second, third, last])
}

/// The same of a run, with watches that have none yet.
fn told_of_run(
    alloc: Global,
    agent: &Agent,
    run: &[Way],
    actions: [&[u8]; 2],
) -> Result<[[bool; 3]; 4], NoMemory>
    requires formed { WellFormed agent.now }
    requires blockless { IsBlockless agent.now }
{
    match Watches::new(alloc) {
        Ok(mut watches) => {
            let answer = told_of_each(alloc, agent, run, actions, &mut watches);
            drop(watches);
            answer
        }
        Err(NoMemory) => Err(NoMemory),
    }
}

/// The same of the first of the shortest certain runs of the block.
fn told_of_block(
    alloc: Global,
    agent: &Agent,
    block: &Block,
    actions: [&[u8]; 2],
) -> Result<[[bool; 3]; 4], NoMemory>
    requires formed { WellFormed agent.now }
    requires blockless { IsBlockless agent.now }
    requires body { block.now.body ≡ agent.now.main }
{
    let found = find_at_start(alloc, agent, block, true);
    let answer = match &found {
        Ok(Found::Run(run)) => told_of_run(alloc, agent, run.as_slice(), actions),
        Ok(_) => Ok([[false; 3]; 4]),
        Err(NoMemory) => Err(NoMemory),
    };
    drop(found);
    answer
}

/// The same of the agent's program.
fn told_of_main(
    alloc: Global,
    agent: &Agent,
    actions: [&[u8]; 2],
) -> Result<[[bool; 3]; 4], NoMemory>
    requires formed { WellFormed agent.now }
    requires blockless { IsBlockless agent.now }
{
    let asked = Asked {
        depth: 8,
        fuel: 1000,
        certain: true,
    };
    let made = block_of(alloc, agent, asked);
    let answer = match &made {
        Ok(block) => told_of_block(alloc, agent, block, actions),
        Err(NoMemory) => Err(NoMemory),
    };
    drop(made);
    answer
}

/// The same of the program of an agent that is read, which has no search blocks.
#[tactic(auto, using(crate::proofs::Unblocked::blockless))]
fn told_of(alloc: Global, bytes: &[u8], actions: [&[u8]; 2]) -> Option<[[bool; 3]; 4]> {
    let read = read_agent(alloc, bytes);
    let answer = match &read {
        Ok(agent) => {
            if has_blocks(agent) {
                None
            } else {
                told_of_main(alloc, agent, actions).ok()
            }
        }
        Err(_fault) => None,
    };
    drop(read);
    answer
}

// A run goes through or not in the states that actions make. Where a condition of it grows too large the run is
// stepped again.
#[test]
fn runs_are_watched(rt: HostRuntime) {
    let crossed = told_of(rt.alloc(), CROSSING, [b"block(b)", b"block(c)"]);
    let wanted = Some([[true; 3], [false; 3], [true; 3], [true; 3]]);
    same(&rt, "crossing", crossed, wanted);
    let toggled = told_of(rt.alloc(), TOGGLED, [b"press", b"switch"]);
    let wanted = Some([[true; 3], [false; 3], [false; 3], [true; 3]]);
    same(&rt, "toggled", toggled, wanted);
}
