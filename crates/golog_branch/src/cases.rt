// What a step of a plan may go on with: one case for each result that may come.
ghost use Rattle.std.specs.Prelude.{◌≡◌, ◌<◌, [], ◌∷◌, IfOk, IfSome, IsTrue, length, map};
ghost use Rattle.golog_semantics.specs.InSorts.{AreInSorts};
ghost use Rattle.golog_semantics.specs.Reports.{fits_label};
ghost use Rattle.golog_semantics.specs.Truth.{constants};
ghost use Rattle.golog_semantics.specs.Values.{fluent_sort as sort_of, ground_fluents};
ghost use Rattle.golog_branch.specs.Levels.{case_of};
ghost use Rattle.golog_branch.specs.Trees.{cases as cases_of, cases_by, with_sensed};
ghost use Rattle.golog_semantics.specs.WellFormed.{WellFormed};

use crate::planner::Planner;
use golog_base::{List, NoMemory};
use golog_known::UNKNOWN;
use golog_progress::State;
use golog_text::fluent_sort;
use golog_tree::{Label, sort_size};
use golog_ways::state_after;
use std::alloc::Global;

/// What stands in place of a value where nothing is sensed.
pub const UNSENSED: u8 = 255;

/// A value that may be sensed, 255 where nothing is, and what is known then.
#[derive(Drop)]
pub struct Case {
    pub value: u8,
    pub state: State,
}

/// One case alone.
fn one_case(alloc: Global, value: u8, state: State) -> Result<List<Case>, NoMemory>
    ensures { IfOk result (λ cases. map case_of cases ≡ (value, state) ∷ []) }
{
    let mut cases = List::new(alloc);
    cases.push(Case { value, state })?;
    Ok(cases)
}

impl<'a> Planner<'a> {
    /// A case for each constant of the fluent.
    fn sensed_cases(&self, there: &State, fluent: u32) -> Result<List<Case>, NoMemory>
        requires agent { WellFormed self.now.agent.now }
        requires facts { self.now.facts.now ≡ self.now.agent.now }
        requires whole { length there.now ≡ length (ground_fluents self.now.agent.now) }
        requires number { fluent < length there.now }
        ensures { IfOk result (λ cases. map case_of cases
            ≡ map (with_sensed there.now fluent) (constants self.now.agent.now (sort_of self.now.agent.now fluent))) }
    {
        let count = sort_size(self.agent, fluent_sort(self.agent, fluent));
        let mut cases = List::new(self.alloc);
        for value in 0..count as u8 {
            let mut state = there.copy(self.alloc)?;
            state.after_sense(fluent, value);
            cases.push(Case { value, state })?;
        }
        Ok(cases)
    }

    /// What a step may go on with at the values after it, where it senses this fluent.
    fn cases_there(&self, there: State, sensed: Option<u32>) -> Result<List<Case>, NoMemory>
        requires agent { WellFormed self.now.agent.now }
        requires facts { self.now.facts.now ≡ self.now.agent.now }
        requires whole { length there ≡ length (ground_fluents self.now.agent.now) }
        requires number { IfSome sensed (λ fluent. fluent < length there) }
        ensures { IfOk result (λ cases. map case_of cases ≡ cases_by self.now.agent.now there sensed) }
    {
        let Some(fluent) = sensed else {
            return one_case(self.alloc, UNSENSED, there);
        };
        let value = there.values()[fluent as usize];
        if value < UNKNOWN {
            return one_case(self.alloc, value, there);
        }
        let cases = self.sensed_cases(&there, fluent);
        drop(there);
        cases
    }

    /// What a step that is taken in a state may go on with.
    pub fn cases(&self, state: &State, label: Label) -> Result<List<Case>, NoMemory>
        requires agent { WellFormed self.now.agent.now }
        requires facts { self.now.facts.now ≡ self.now.agent.now }
        requires sorts { AreInSorts self.now.agent.now state.now }
        requires label { IsTrue (fits_label self.now.agent.now label) }
        ensures { IfOk result (λ cases. map case_of cases ≡ cases_of self.now.agent.now state.now label) }
    {
        let there = state_after(self.alloc, self.agent, state, label)?;
        self.cases_there(there, self.sensed(label))
    }
}
