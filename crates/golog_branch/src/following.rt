// `Kept`: what is left of a program that follows plans, and the plan that it keeps.
ghost use Rattle.std.specs.Prelude.{◌≡◌, ◌≤◌, ◌==◌, true, None, IfOk, find, is_some, option_and_then, option_copied, slice_get};
ghost use Rattle.golog_semantics.specs.WellFormed.{WellFormed};
ghost use Rattle.golog_ways.specs.Searched.{IsSearched};
ghost use Rattle.golog_branch.specs.declared.following.Kept.{Kept as AnyKept};
ghost use Rattle.golog_branch.specs.declared.tree.Branch.{Branch as AnyBranch};
ghost use Rattle.golog_branch.specs.Following.{after_result as after_result_of, after_step as after_step_of, ahead as ahead_of, begins_with_step as does_begin, if_goes_on, plan_behind as plan_of_step, plan_for as plan_of_value, plan_kept, plan_of};
ghost use Rattle.golog_branch.specs.Trees.{sensed_by_label};

use crate::going::goes;
use crate::planning::plan;
use crate::tree::{Branch, Planned, Tree};
use golog_base::{Boxed, NoMemory, both};
use golog_journal::AgentFacts;
use golog_progress::State;
use golog_tree::{Agent, Label, Prog, copy_prog};
use std::alloc::Global;

/// What is left of a program that follows plans, and the plan that it keeps, if it keeps one.
#[derive(Drop)]
pub struct Kept {
    pub left: Prog,
    pub plan: Option<Boxed<Tree>>,
}

/// Whether a plan begins with a step.
fn begins_with_step(tree: &Tree) -> bool
    ensures { result ≡ does_begin tree.now }
{
    match tree {
        Tree::Done => false,
        Tree::Step { .. } => true,
    }
}

/// The plan of the first branch.
fn first_plan_of(next: &[Branch]) -> Result<Option<Boxed<Tree>>, NoMemory>
    ensures { IfOk result (λ plan. plan ≡ plan_of (slice_get next.now 0)) }
{
    match next.first() {
        Some(branch) => Ok(Some(branch.tree.share()?)),
        None => Ok(None),
    }
}

/// The plan of the first branch of this value.
fn plan_with(next: &[Branch], value: u8) -> Result<Option<Boxed<Tree>>, NoMemory>
    ensures { IfOk result (λ plan. plan ≡ plan_of (find (λ (b : AnyBranch). b.value == value) next.now)) }
{
    for branch in next {
        if branch.value == value {
            return Ok(Some(branch.tree.share()?));
        }
    }
    Ok(None)
}

/// The plan for a value that was sensed after its first step, where there is one.
fn plan_for(tree: &Tree, value: u8) -> Result<Option<Boxed<Tree>>, NoMemory>
    ensures { IfOk result (λ plan. plan ≡ plan_of_value value tree.now) }
{
    match tree {
        Tree::Done => Ok(None),
        Tree::Step { next, .. } => plan_with(next.as_slice(), value),
    }
}

/// Whether a step senses a fluent.
fn does_sense(facts: &AgentFacts, label: Label) -> bool
    ensures { result ≡ is_some (sensed_by_label facts.now label) }
{
    match label {
        Label::Quiet => false,
        Label::Do(action) => facts.is_sensing(action),
    }
}

/// The plan behind its first step: the plan itself where that senses, and else that of the one branch.
fn plan_behind(
    facts: &AgentFacts,
    label: Label,
    tree: &Boxed<Tree>,
    next: &[Branch],
) -> Result<Option<Boxed<Tree>>, NoMemory>
    ensures { IfOk result (λ plan. plan ≡ plan_of_step facts.now tree.now label next.now) }
{
    if does_sense(facts, label) {
        return Ok(Some(tree.share()?));
    }
    first_plan_of(next)
}

/// The plan for a value that was sensed, of one that may be kept.
fn plan_after(plan: Option<&Boxed<Tree>>, value: u8) -> Result<Option<Boxed<Tree>>, NoMemory>
    ensures { IfOk result (λ next. next ≡ option_and_then (plan_of_value value) (option_copied plan.entry)) }
{
    match plan {
        Some(tree) => plan_for(tree.get(), value),
        None => Ok(None),
    }
}

/// The plan, where it begins with a step and goes through from here.
fn if_going(
    alloc: Global,
    agent: &Agent,
    facts: &AgentFacts,
    tree: &Boxed<Tree>,
    left: &Prog,
    state: &State,
) -> Result<Option<Boxed<Tree>>, NoMemory>
    requires agent { WellFormed agent.now }
    requires facts { facts.now ≡ agent.now }
    requires searched { IsSearched agent.now left.now state.now }
    ensures { IfOk result (λ plan. plan ≡ if_goes_on agent.now left.now state.now tree.now) }
{
    if !begins_with_step(tree.get()) {
        return Ok(None);
    }
    if !goes(alloc, agent, facts, tree.get(), left, state)? {
        return Ok(None);
    }
    Ok(Some(tree.share()?))
}

impl Kept {
    /// The whole program of an agent, and no plan.
    pub fn new(alloc: Global, agent: &Agent) -> Result<Kept, NoMemory>
        ensures { IfOk result (λ kept. kept ≡ record { left = agent.now.main; plan = None }) }
    {
        let left = copy_prog(alloc, &agent.main)?;
        Ok(Kept { left, plan: None })
    }

    /// The plan that is kept, where it begins with a step and goes through from here.
    pub fn going(
        &self,
        alloc: Global,
        agent: &Agent,
        facts: &AgentFacts,
        state: &State,
    ) -> Result<Option<Boxed<Tree>>, NoMemory>
        requires agent { WellFormed agent.now }
        requires facts { facts.now ≡ agent.now }
        requires searched { IsSearched agent.now self.now.left state.now }
        ensures { IfOk result (λ plan. plan ≡ plan_kept agent.now state.now self.now) }
    {
        match &self.plan {
            Some(tree) => if_going(alloc, agent, facts, tree, &self.left, state),
            None => Ok(None),
        }
    }

    /// What the program goes on with: the plan that is kept, where it goes through from here, and else what a search
    /// for a plan of what is left comes to.
    ///
    /// `NoMemory` comes only for want of memory.
    pub fn ahead(
        &self,
        alloc: Global,
        agent: &Agent,
        facts: &AgentFacts,
        state: &State,
        depth: u32,
        fuel: u32,
    ) -> Result<Planned, NoMemory>
        requires agent { WellFormed agent.now }
        requires facts { facts.now ≡ agent.now }
        requires searched { IsSearched agent.now self.now.left state.now }
        requires depth { 1 ≤ depth }
        requires fuel { 1 ≤ fuel }
        ensures { IfOk result (λ found. found ≡ ahead_of agent.now depth fuel state.now self.now) }
    {
        match self.going(alloc, agent, facts, state)? {
            Some(tree) => Ok(Planned::Found(tree)),
            None => plan(alloc, agent, facts, &self.left, state, depth, fuel),
        }
    }

    /// What is kept after the first step of a plan: what the step leaves, and the plan behind it. After a step that
    /// senses it is the plan itself, until the result tells its branch.
    ///
    /// `NoMemory` comes only for want of memory.
    pub fn after_step(
        alloc: Global,
        facts: &AgentFacts,
        tree: &Boxed<Tree>,
    ) -> Result<Kept, NoMemory>
        requires step { does_begin tree.now ≡ true }
        ensures { IfOk result (λ kept. (before : AnyKept) → kept ≡ after_step_of facts.now before tree.now) }
    {
        match tree.get() {
            Tree::Done => unreachable!(),
            Tree::Step { label, left, next } => {
                let behind = plan_behind(facts, *label, tree, next.as_slice());
                let (left, plan) = both(copy_prog(alloc, left), behind)?;
                Ok(Kept { left, plan })
            }
        }
    }

    /// What is kept after a result: the plan of the branch of this value, where there is one.
    ///
    /// `NoMemory` comes only where an owner more of the plan can't be counted.
    pub fn after_result(self, value: u8) -> Result<Kept, NoMemory>
        ensures { IfOk result (λ kept. kept ≡ after_result_of self value) }
    {
        let Kept { left, plan } = self;
        let behind = plan_after(plan.as_ref(), value);
        drop(plan);
        match behind {
            Ok(plan) => Ok(Kept { left, plan }),
            Err(fault) => {
                drop(left);
                Err(fault)
            }
        }
    }
}
