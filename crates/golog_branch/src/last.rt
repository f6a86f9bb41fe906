// The plans of at most one step, by which the last level of a search is told.
ghost use Rattle.std.specs.Prelude.{◌≡◌, All, IfOk, Some, false, map};
ghost use Rattle.golog_semantics.specs.InSorts.{AreInSorts};
ghost use Rattle.golog_semantics.specs.declared.Mode.TheVariants.{Must};
ghost use Rattle.golog_semantics.specs.Online.{first_some};
ghost use Rattle.golog_semantics.specs.Search.{final};
ghost use Rattle.golog_ways.specs.Searched.{IsSearched};
ghost use Rattle.golog_branch.specs.Levels.{Adds, IsSpot, IsWay, case_of, followed_step as step_followed, step_with};
ghost use Rattle.golog_branch.specs.Plans.{all_some, branch_for, first_plan, step_for};
ghost use Rattle.golog_branch.specs.declared.cases.Case.{Case as AnyCase};
ghost use Rattle.golog_branch.specs.declared.spot.Spot.{Spot as AnySpot};
ghost use Rattle.golog_semantics.specs.WellFormed.{WellFormed};

use crate::cases::Case;
use crate::planner::Planner;
use crate::spot::Spot;
use crate::tree::{Branch, Tree};
use golog_base::{Boxed, List, NoMemory};
use golog_progress::State;
use golog_semantics::Mode;
use golog_tree::{Prog, Way, copy_prog, nest};
use golog_ways::{is_final, ways_of};
use std::alloc::Global;

/// The deepest nest of a program that a step may leave in a plan.
pub const NEST_LIMIT: u32 = 2048;

/// The plan that is done.
pub fn done(alloc: Global) -> Result<Option<Boxed<Tree>>, NoMemory>
    ensures { IfOk result (λ plan. plan ≡ Some Tree.Done) }
{
    Ok(Some(Boxed::new(alloc, Tree::Done)?))
}

/// The plan that begins with a way and goes on with these branches, where there are some.
pub fn step_of(
    alloc: Global,
    way: &Way,
    next: Option<List<Branch>>,
) -> Result<Option<Boxed<Tree>>, NoMemory>
    ensures { IfOk result (λ plan. plan ≡ step_with way.now next) }
{
    let Some(next) = next else {
        return Ok(None);
    };
    let left = copy_prog(alloc, &way.left)?;
    let label = way.label;
    let tree = Boxed::new(alloc, Tree::Step { label, left, next })?;
    Ok(Some(tree))
}

impl<'a> Planner<'a> {
    /// Adds the branch of a case: false exactly where it is not certain that the program may end there.
    fn add_done(&self, left: &Prog, case: &Case, next: &mut List<Branch>) -> Result<bool, NoMemory>
        requires agent { WellFormed self.now.agent.now }
        requires searched { IsSearched self.now.agent.now left.now case.now.state }
        ensures { IfOk result
            (Adds (branch_for (first_plan self.now.agent.now 0) left.now (case_of case.now)) next.old next.new) }
    {
        if !is_final(self.alloc, self.agent, Mode::Must, left, &case.state)? {
            return Ok(false);
        }
        let value = case.value;
        let tree = Boxed::new(self.alloc, Tree::Done)?;
        next.push(Branch { value, tree })?;
        Ok(true)
    }

    /// The branches of these cases, where the program certainly may end in each.
    fn done_branches(&self, left: &Prog, cases: &[Case]) -> Result<Option<List<Branch>>, NoMemory>
        requires agent { WellFormed self.now.agent.now }
        requires cases { All (λ (c : AnyCase). IsSearched self.now.agent.now left.now c.state) cases.now }
        ensures { IfOk result (λ next. next
            ≡ all_some (map (λ c. branch_for (first_plan self.now.agent.now 0) left.now (case_of c)) cases.now)) }
    {
        let mut next = List::new(self.alloc);
        for case in cases {
            if !self.add_done(left, case, &mut next)? {
                return Ok(None);
            }
        }
        Ok(Some(next))
    }

    /// The plan of one step that begins with a way.
    fn last_step(&self, state: &State, way: &Way) -> Result<Option<Boxed<Tree>>, NoMemory>
        requires agent { WellFormed self.now.agent.now }
        requires facts { self.now.facts.now ≡ self.now.agent.now }
        requires sorts { AreInSorts self.now.agent.now state.now }
        requires way { IsWay self.now.agent.now way.now }
        ensures { IfOk result (λ plan. plan
            ≡ step_for self.now.agent.now (first_plan self.now.agent.now 0) state.now way.now) }
    {
        let cases = self.cases(state, way.label)?;
        let next = self.done_branches(&way.left, cases.as_slice());
        drop(cases);
        let next = next?;
        step_of(self.alloc, way, next)
    }

    /// The same, where the way may be followed.
    fn followed_step(&self, state: &State, way: &Way) -> Result<Option<Boxed<Tree>>, NoMemory>
        requires agent { WellFormed self.now.agent.now }
        requires facts { self.now.facts.now ≡ self.now.agent.now }
        requires sorts { AreInSorts self.now.agent.now state.now }
        requires way { IsWay self.now.agent.now way.now }
        ensures { IfOk result (λ plan. plan
            ≡ step_followed self.now.agent.now (first_plan self.now.agent.now 0) state.now way.now) }
    {
        if nest(&way.left) > NEST_LIMIT {
            return Ok(None);
        }
        self.last_step(state, way)
    }

    /// The plan of one step that begins with the first of these ways that has one.
    fn first_last(&self, state: &State, ways: &[Way]) -> Result<Option<Boxed<Tree>>, NoMemory>
        requires agent { WellFormed self.now.agent.now }
        requires facts { self.now.facts.now ≡ self.now.agent.now }
        requires sorts { AreInSorts self.now.agent.now state.now }
        requires ways { All (IsWay self.now.agent.now) ways.now }
        ensures { IfOk result (λ plan. plan
            ≡ first_some (map (step_followed self.now.agent.now (first_plan self.now.agent.now 0) state.now) ways.now)) }
    {
        for way in ways {
            let plan = self.followed_step(state, way)?;
            if plan.is_some() {
                return Ok(plan);
            }
        }
        Ok(None)
    }

    /// The first plan of at most one step of a program that may not end.
    fn last_from(&self, left: &Prog, state: &State) -> Result<Option<Boxed<Tree>>, NoMemory>
        requires agent { WellFormed self.now.agent.now }
        requires facts { self.now.facts.now ≡ self.now.agent.now }
        requires searched { IsSearched self.now.agent.now left.now state.now }
        requires unended { final self.now.agent.now state.now Must left.now ≡ false }
        ensures { IfOk result (λ plan. plan ≡ first_plan self.now.agent.now 1 left.now state.now) }
    {
        let ways = ways_of(self.alloc, self.agent, Mode::Must, left, state)?;
        let plan = self.first_last(state, ways.as_slice());
        drop(ways);
        plan
    }

    /// The first plan of at most one step.
    fn last_plan(&self, spot: &Spot) -> Result<Option<Boxed<Tree>>, NoMemory>
        requires agent { WellFormed self.now.agent.now }
        requires facts { self.now.facts.now ≡ self.now.agent.now }
        requires spot { IsSpot self.now.agent.now spot.now }
        ensures { IfOk result (λ plan. plan ≡ first_plan self.now.agent.now 1 spot.now.left spot.now.state) }
    {
        if spot.ends {
            return done(self.alloc);
        }
        let state = self.known_at(spot)?;
        let plan = self.last_from(&spot.left, &state);
        drop(state);
        plan
    }

    /// The first plan of at most one step of each of these states.
    pub fn last_table(&self, spots: &[Spot]) -> Result<List<Option<Boxed<Tree>>>, NoMemory>
        requires agent { WellFormed self.now.agent.now }
        requires facts { self.now.facts.now ≡ self.now.agent.now }
        requires spots { All (IsSpot self.now.agent.now) spots.now }
        ensures { IfOk result (λ table. table
            ≡ map (λ (s : AnySpot). first_plan self.now.agent.now 1 s.left s.state) spots.now) }
    {
        let mut table = List::new(self.alloc);
        for spot in spots {
            table.push(self.last_plan(spot)?)?;
        }
        Ok(table)
    }
}
