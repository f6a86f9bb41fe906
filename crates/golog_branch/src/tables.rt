// The plans of a level's states by those of the next; the first level's is the answer.
ghost use Rattle.std.specs.Prelude.{◌≡◌, ◌+◌, All, IfOk, List, length, map};
ghost use Rattle.golog_semantics.specs.Online.{first_some};
ghost use Rattle.golog_semantics.specs.Blocks.{State as AnyState};
ghost use Rattle.golog_branch.specs.Levels.{Adds, AreLevels, IsSpot, branch_in, link_plan, linked_plan as plan_of_linked, plan_in};
ghost use Rattle.golog_branch.specs.Plans.{all_some, first_plan};
ghost use Rattle.golog_semantics.specs.WellFormed.{WellFormed};

use crate::last::{done, step_of};
use crate::planner::Planner;
use crate::spot::{Jump, Link, Linked, Spot};
use crate::tree::{Branch, Tree};
use golog_base::{Boxed, List, NoMemory};
use std::alloc::Global;

/// The plan at a place of a table, where there is one.
fn plan_at(table: &[Option<Boxed<Tree>>], place: usize) -> Result<Option<Boxed<Tree>>, NoMemory>
    ensures { IfOk result (λ plan. plan ≡ plan_in table.now place) }
{
    match table.get(place) {
        Some(Some(tree)) => Ok(Some(tree.share()?)),
        Some(None) | None => Ok(None),
    }
}

/// Adds the branch of a case, by the plans of the next level: false exactly where there is no plan for it.
fn add_branch(
    table: &[Option<Boxed<Tree>>],
    jump: &Jump,
    branches: &mut List<Branch>,
) -> Result<bool, NoMemory>
    ensures { IfOk result (Adds (branch_in table.now jump.now) branches.old branches.new) }
{
    let Some(tree) = plan_at(table, jump.place)? else {
        return Ok(false);
    };
    let value = jump.value;
    branches.push(Branch { value, tree })?;
    Ok(true)
}

/// The branches of a step, by the plans of the next level, where each case has one.
fn linked_branches(
    alloc: Global,
    table: &[Option<Boxed<Tree>>],
    next: &[Jump],
) -> Result<Option<List<Branch>>, NoMemory>
    ensures { IfOk result (λ branches. branches ≡ all_some (map (branch_in table.now) next.now)) }
{
    let mut branches = List::new(alloc);
    for jump in next {
        if !add_branch(table, jump, &mut branches)? {
            return Ok(None);
        }
    }
    Ok(Some(branches))
}

/// The plan that begins with a step, by the plans of the next level.
fn linked_step(
    alloc: Global,
    table: &[Option<Boxed<Tree>>],
    link: &Link,
) -> Result<Option<Boxed<Tree>>, NoMemory>
    ensures { IfOk result (λ plan. plan ≡ link_plan table.now link.now) }
{
    let next = linked_branches(alloc, table, link.next.as_slice())?;
    step_of(alloc, &link.way, next)
}

/// The plan that begins with the first of these steps that has one.
fn first_linked(
    alloc: Global,
    table: &[Option<Boxed<Tree>>],
    links: &[Link],
) -> Result<Option<Boxed<Tree>>, NoMemory>
    ensures { IfOk result (λ plan. plan ≡ first_some (map (link_plan table.now) links.now)) }
{
    for link in links {
        let plan = linked_step(alloc, table, link)?;
        if plan.is_some() {
            return Ok(plan);
        }
    }
    Ok(None)
}

/// The plan of a state, by the plans of the next level.
fn linked_plan(
    alloc: Global,
    table: &[Option<Boxed<Tree>>],
    linked: &Linked,
) -> Result<Option<Boxed<Tree>>, NoMemory>
    ensures { IfOk result (λ plan. plan ≡ plan_of_linked table.now linked.now) }
{
    if linked.ends {
        return done(alloc);
    }
    first_linked(alloc, table, linked.links.as_slice())
}

/// The plans of the states of a level, by those of the next.
fn linked_table(
    alloc: Global,
    table: &[Option<Boxed<Tree>>],
    level: &[Linked],
) -> Result<List<Option<Boxed<Tree>>>, NoMemory>
    ensures { IfOk result (λ plans. plans ≡ map (plan_of_linked table.now) level.now) }
{
    let mut plans = List::new(alloc);
    for linked in level {
        plans.push(linked_plan(alloc, table, linked)?)?;
    }
    Ok(plans)
}

impl<'a> Planner<'a> {
    /// The first plan, of at most one step more than there are levels before the last, of each state of the first
    /// level.
    pub fn table(
        &self,
        levels: &[List<Linked>],
        last: &[Spot],
    ) -> Result<List<Option<Boxed<Tree>>>, NoMemory>
        requires agent { WellFormed self.now.agent.now }
        requires facts { self.now.facts.now ≡ self.now.agent.now }
        requires spots { All (IsSpot self.now.agent.now) last.now }
        ensures { IfOk result (λ table. (states : List AnyState) → AreLevels self.now.agent.now states levels.now last.now
            → table ≡ map (λ (s : AnyState). first_plan self.now.agent.now (length levels.now + 1) s.0 s.1) states) }
    {
        let Some((level, levels)) = levels.split_first() else {
            return self.last_table(last);
        };
        let table = self.table(levels, last)?;
        let plans = linked_table(self.alloc, table.as_slice(), level.as_slice());
        drop(table);
        plans
    }
}
