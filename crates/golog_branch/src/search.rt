// `Search`: the levels that a search for a plan has seen, and one level more.
ghost use Rattle.std.specs.Prelude.{◌≡◌, ◌≤◌, ◌+◌, ℕ, true, false, All, IfOk, OnOk, length};
ghost use Rattle.golog_semantics.specs.Truth.{Values};
ghost use Rattle.golog_tree.specs.declared.prog.Prog.{Prog as AnyProg};
ghost use Rattle.golog_ways.specs.Searched.{IsSearched};
ghost use Rattle.golog_branch.specs.Levels.{IsSpot};
ghost use Rattle.golog_semantics.specs.WellFormed.{WellFormed};
ghost use Rattle.golog_branch.specs.Plans.{first_plan};
ghost use Rattle.golog_branch.specs.Searching.{IsSearch, LooksFurther};

use crate::places::Reached;
use crate::planner::Planner;
use crate::spot::{Linked, Spot};
use crate::tree::Tree;
use golog_base::{Boxed, List, NoMemory};
use golog_progress::State;
use golog_tree::Prog;
use std::mem;

/// What a search for a plan has seen: what is kept of the states of each number of steps from none on, and the
/// states of the last number by themselves.
#[derive(Drop)]
pub struct Search {
    pub levels: List<List<Linked>>,
    pub last: List<Spot>,
}

impl Search {
    /// A search that stands where it begins.
    pub fn new(planner: &Planner, prog: &Prog, state: &State) -> Result<Search, NoMemory>
        requires agent { WellFormed planner.now.agent.now }
        requires facts { planner.now.facts.now ≡ planner.now.agent.now }
        requires searched { IsSearched planner.now.agent.now prog.now state.now }
        ensures { IfOk result (IsSearch planner.now.agent.now prog.now state.now 0) }
    {
        let start = planner.spot(prog, 0, state)?;
        let levels = List::new(planner.alloc);
        let mut last = List::new(planner.alloc);
        last.push(start)?;
        Ok(Search { levels, last })
    }

    /// How many states the last level has.
    pub fn width(&self) -> usize
        ensures { result ≡ length self.now.last }
    {
        self.last.len()
    }

    /// The first plan of at most one step more than there are levels before the last.
    pub fn plan(&self, planner: &Planner) -> Result<Option<Boxed<Tree>>, NoMemory>
        requires agent { WellFormed planner.now.agent.now }
        requires facts { planner.now.facts.now ≡ planner.now.agent.now }
        requires spots { All (IsSpot planner.now.agent.now) self.now.last }
        ensures { IfOk result (λ plan. (p : AnyProg) (values : Values) (n : ℕ)
            → IsSearch planner.now.agent.now p values n self.now
            → plan ≡ first_plan planner.now.agent.now (n + 1) p values) }
    {
        let mut table = planner.table(self.levels.as_slice(), self.last.as_slice())?;
        let plan = table.pop();
        drop(table);
        match plan {
            Some(plan) => Ok(plan),
            None => Ok(None),
        }
    }

    /// Looks one step further: false exactly where that level has more states than there is room for. After that,
    /// and after an `Err`, the search is of no more use.
    pub fn deepen(&mut self, planner: &Planner, room: usize) -> Result<bool, NoMemory>
        requires agent { WellFormed planner.now.agent.now }
        requires facts { planner.now.facts.now ≡ planner.now.agent.now }
        requires spots { All (IsSpot planner.now.agent.now) self.old.last }
        ensures spots { OnOk result (All (IsSpot planner.now.agent.now) self.new.last) }
        ensures few { IfOk result (λ is_further. is_further ≡ true → length self.new.last ≤ room) }
        ensures further { IfOk result (λ is_further. (p : AnyProg) (values : Values) (n : ℕ)
            → IsSearch planner.now.agent.now p values n self.old
            → LooksFurther planner.now.agent.now p values n room self.new is_further) }
    {
        let mut next = Reached::new(planner.alloc)?;
        let level = planner.linked_level(&mut next, self.last.as_slice(), room)?;
        let spots = next.into_spots();
        let Some(level) = level else {
            drop(spots);
            return Ok(false);
        };
        drop(mem::replace(&mut self.last, spots));
        self.levels.push(level)?;
        Ok(true)
    }

    /// The same where more is wanted, and else nothing.
    pub fn goes_on(
        &mut self,
        planner: &Planner,
        room: usize,
        is_wanted: bool,
    ) -> Result<bool, NoMemory>
        requires agent { WellFormed planner.now.agent.now }
        requires facts { planner.now.facts.now ≡ planner.now.agent.now }
        requires spots { All (IsSpot planner.now.agent.now) self.old.last }
        ensures spots { OnOk result (All (IsSpot planner.now.agent.now) self.new.last) }
        ensures few { IfOk result (λ is_further. is_wanted ≡ true → is_further ≡ true → length self.new.last ≤ room) }
        ensures further { IfOk result (λ is_further. is_wanted ≡ true → (p : AnyProg) (values : Values) (n : ℕ)
            → IsSearch planner.now.agent.now p values n self.old
            → LooksFurther planner.now.agent.now p values n room self.new is_further) }
        ensures still { IfOk result (λ is_further. is_wanted ≡ false → is_further ≡ true) }
    {
        if is_wanted {
            return self.deepen(planner, room);
        }
        Ok(true)
    }
}
