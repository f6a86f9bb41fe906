// `goes`: whether a plan goes through from a state.
ghost use Rattle.std.specs.Prelude.{◌≡◌, ◌==◌, ◌&&◌, All, IfOk, map};
ghost use Rattle.golog_semantics.specs.WellFormed.{WellFormed};
ghost use Rattle.golog_ways.specs.Searched.{IsSearched};
ghost use Rattle.golog_branch.specs.declared.cases.Case.{Case as AnyCase};
ghost use Rattle.golog_branch.specs.Going.{all_go, branch_going, goes as goes_through, is_step as is_certain_step};
ghost use Rattle.golog_branch.specs.Levels.{case_of};

use crate::cases::Case;
use crate::planner::Planner;
use crate::tree::{Branch, Tree};
use golog_base::NoMemory;
use golog_journal::AgentFacts;
use golog_progress::State;
use golog_semantics::Mode;
use golog_tree::{Agent, Label, Prog, Way, copy_prog};
use golog_ways::{is_certain, is_final};
use std::alloc::Global;

/// Whether the way of this label and this program left is a certain one.
fn is_step(
    planner: &Planner,
    prog: &Prog,
    state: &State,
    label: Label,
    left: &Prog,
) -> Result<bool, NoMemory>
    requires agent { WellFormed planner.now.agent.now }
    requires searched { IsSearched planner.now.agent.now prog.now state.now }
    ensures { IfOk result (λ b. b ≡ is_certain_step planner.now.agent.now label left.now prog.now state.now) }
{
    let left = copy_prog(planner.alloc, left)?;
    let way = Way { label, left };
    let is = is_certain(planner.alloc, planner.agent, prog, &way, state);
    drop(way);
    is
}

/// Whether a plan goes through from a state.
#[cycle(going)]
fn tree_goes(planner: &Planner, tree: &Tree, prog: &Prog, state: &State) -> Result<bool, NoMemory>
    requires agent { WellFormed planner.now.agent.now }
    requires facts { planner.now.facts.now ≡ planner.now.agent.now }
    requires searched { IsSearched planner.now.agent.now prog.now state.now }
    ensures { IfOk result (λ b. b ≡ goes_through planner.now.agent.now tree.now prog.now state.now) }
{
    match tree {
        Tree::Done => is_final(planner.alloc, planner.agent, Mode::Must, prog, state),
        Tree::Step { label, left, next } => {
            if !is_step(planner, prog, state, *label, left)? {
                return Ok(false);
            }
            let cases = planner.cases(state, *label)?;
            let go = branches_go(planner, next.as_slice(), left, cases.as_slice());
            drop(cases);
            go
        }
    }
}

/// Whether there is one branch for each case, in order, and each goes through from there.
#[cycle(going)]
fn branches_go(
    planner: &Planner,
    next: &[Branch],
    left: &Prog,
    cases: &[Case],
) -> Result<bool, NoMemory>
    requires agent { WellFormed planner.now.agent.now }
    requires facts { planner.now.facts.now ≡ planner.now.agent.now }
    requires cases { All (λ (c : AnyCase). IsSearched planner.now.agent.now left.now c.state) cases.now }
    ensures { IfOk result (λ b. b
        ≡ all_go (map (branch_going planner.now.agent.now) next.now) left.now (map case_of cases.now)) }
{
    if next.len() != cases.len() {
        return Ok(false);
    }
    for (index, branch) in next.iter().enumerate() {
        if !branch_goes(planner, branch, left, &cases[index])? {
            return Ok(false);
        }
    }
    Ok(true)
}

/// Whether a branch is of this case, and goes through from there.
#[cycle(going)]
fn branch_goes(
    planner: &Planner,
    branch: &Branch,
    left: &Prog,
    case: &Case,
) -> Result<bool, NoMemory>
    requires agent { WellFormed planner.now.agent.now }
    requires facts { planner.now.facts.now ≡ planner.now.agent.now }
    requires case { IsSearched planner.now.agent.now left.now case.now.state }
    ensures { IfOk result (λ b. b ≡ (branch.now.value == case.now.value
        && goes_through planner.now.agent.now branch.now.tree left.now case.now.state)) }
{
    if branch.value != case.value {
        return Ok(false);
    }
    tree_goes(planner, branch.tree.get(), left, &case.state)
}

/// Whether a plan goes through from a state: each of its steps is a certain one there, it has a branch for each value
/// that may be sensed, in order, and where it is done the program certainly may end.
///
/// `NoMemory` comes only for want of memory.
pub fn goes(
    alloc: Global,
    agent: &Agent,
    facts: &AgentFacts,
    tree: &Tree,
    prog: &Prog,
    state: &State,
) -> Result<bool, NoMemory>
    requires agent { WellFormed agent.now }
    requires facts { facts.now ≡ agent.now }
    requires searched { IsSearched agent.now prog.now state.now }
    ensures { IfOk result (λ b. b ≡ goes_through agent.now tree.now prog.now state.now) }
{
    let planner = Planner {
        alloc,
        agent,
        facts,
    };
    tree_goes(&planner, tree, prog, state)
}
