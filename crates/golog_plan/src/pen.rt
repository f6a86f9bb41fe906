//! `PlanPen`, what a scribe of plans is made of: memory is taken here, before the sink is lent.
ghost use Rattle.std.specs.Prelude.{◌≡◌, ◌≤◌, [], IfOk, IsTrue, not};
ghost use Rattle.golog_semantics.specs.BlockFree.{has_block as does_have_block};
ghost use Rattle.golog_semantics.specs.WellFormed.{WellFormed};
ghost use Rattle.golog_plan.specs.Keeping.{planned_to};

use crate::plan_core::PlanCore;
use golog_base::{NoMemory, both};
use golog_text::Line;
use golog_tree::Agent;
use std::alloc::Global;

/// A program that follows plans, under way, and the room for a line.
#[derive(Drop)]
pub struct PlanPen<'a> {
    pub(crate) core: PlanCore<'a>,
    pub(crate) line: Line,
}

impl<'a> PlanPen<'a> {
    /// A pen of this agent that has seen nothing. Its plans go as many steps as the depth, and a search for one looks at
    /// as many states as the fuel.
    pub fn new(
        alloc: Global,
        agent: &'a Agent,
        depth: u32,
        fuel: u32,
    ) -> Result<PlanPen<'a>, NoMemory>
        requires agent { WellFormed agent.now }
        requires blockless { IsTrue (not (does_have_block agent.now agent.now.main)) }
        requires depth { 1 ≤ depth }
        requires fuel { 1 ≤ fuel }
        ensures { IfOk result (λ pen. pen.core ≡ planned_to agent.now depth fuel []) }
    {
        let (line, core) = both(Line::new(alloc), PlanCore::new(alloc, agent, depth, fuel))?;
        Ok(PlanPen { core, line })
    }

    /// Lets it go, where nothing is to be run.
    pub fn let_go(self) {
        drop(self)
    }
}
