// `plan`: the first plan of least height, or why there is none.
ghost use Rattle.std.specs.Prelude.{◌≡◌, ◌≤◌, All, IfOk, false, length};
ghost use Rattle.golog_semantics.specs.declared.Mode.TheVariants.{Must};
ghost use Rattle.golog_semantics.specs.Search.{final};
ghost use Rattle.golog_semantics.specs.Truth.{Values};
ghost use Rattle.golog_semantics.specs.WellFormed.{WellFormed};
ghost use Rattle.golog_tree.specs.declared.prog.Prog.{Prog as AnyProg};
ghost use Rattle.golog_ways.specs.Searched.{IsSearched};
ghost use Rattle.golog_branch.specs.Levels.{IsSpot};
ghost use Rattle.golog_branch.specs.Plans.{if_small, planned};
ghost use Rattle.golog_branch.specs.Searching.{IsSearch};
ghost use Rattle.golog_branch.specs.TreesInWorlds.{IsFoundFor};

use crate::counting::steps_within;
use crate::last::done;
use crate::planner::Planner;
use crate::search::Search;
use crate::tree::{Planned, Tree};
use golog_base::{Boxed, NoMemory};
use golog_journal::AgentFacts;
use golog_progress::State;
use golog_semantics::Mode;
use golog_tree::{Agent, Prog};
use golog_ways::is_final;
use std::alloc::Global;

/// The most steps of a plan.
pub const MOST_STEPS: u32 = 10_000;

/// The plan, where it is not too large.
fn sized(plan: Boxed<Tree>) -> Planned
    ensures { result ≡ if_small plan }
{
    let count = steps_within(plan.get(), MOST_STEPS + 1);
    if count > MOST_STEPS {
        drop(plan);
        return Planned::Large;
    }
    Planned::Found(plan)
}

/// What a search comes to that stands where it begins, for a program that may not end there.
fn search_on(
    planner: &Planner,
    search: &mut Search,
    depth: u32,
    fuel: u32,
) -> Result<Planned, NoMemory>
    requires agent { WellFormed planner.now.agent.now }
    requires facts { planner.now.facts.now ≡ planner.now.agent.now }
    requires spots { All (IsSpot planner.now.agent.now) search.old.last }
    requires width { length search.old.last ≤ fuel }
    requires depth { 1 ≤ depth }
    ensures { IfOk result (λ found. (p : AnyProg) (values : Values) → IsSearch planner.now.agent.now p values 0 search.old
        → final planner.now.agent.now values Must p ≡ false
        → found ≡ planned planner.now.agent.now depth fuel p values) }
{
    let mut room = fuel as usize;
    for step in 0..depth {
        if let Some(plan) = search.plan(planner)? {
            return Ok(sized(plan));
        }
        room -= search.width();
        if !search.goes_on(planner, room, step + 1 < depth)? {
            return Ok(Planned::Fuel);
        }
    }
    Ok(Planned::Absent)
}

/// The first plan of least height for a program in a state: a tree with a branch for each value that a step may
/// sense, each of whose steps is certain, and which ends wherever it leads. It has at most `depth` steps in a row.
///
/// `Fuel` comes exactly where the search would look at more states than the fuel: at the distinct states of each
/// number of steps below the least height of a plan, or below the depth where there is none. Else `Absent` comes
/// exactly where there is no plan, and `Large` where it has more than 10,000 steps. `NoMemory` comes where none is
/// left for the states.
pub fn plan(
    alloc: Global,
    agent: &Agent,
    facts: &AgentFacts,
    prog: &Prog,
    state: &State,
    depth: u32,
    fuel: u32,
) -> Result<Planned, NoMemory>
    requires agent { WellFormed agent.now }
    requires facts { facts.now ≡ agent.now }
    requires searched { IsSearched agent.now prog.now state.now }
    requires depth { 1 ≤ depth }
    requires fuel { 1 ≤ fuel }
    ensures found { IfOk result (λ found. found ≡ planned agent.now depth fuel prog.now state.now) }
    // A plan that is found leads to an end in each world in which all is so that is known.
    ensures so { IfOk result (IsFoundFor agent.now depth prog.now state.now) }
{
    if is_final(alloc, agent, Mode::Must, prog, state)? {
        let tree = Boxed::new(alloc, Tree::Done)?;
        return Ok(Planned::Found(tree));
    }
    let planner = Planner {
        alloc,
        agent,
        facts,
    };
    let mut search = Search::new(&planner, prog, state)?;
    let found = search_on(&planner, &mut search, depth, fuel);
    drop(search);
    found
}
