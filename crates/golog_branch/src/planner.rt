// `Planner`: an agent that is planned for, and what is kept of its actions.
ghost use Rattle.std.specs.Prelude.{◌≡◌};
ghost use Rattle.golog_branch.specs.Trees.{sensed_by_label};

use golog_journal::AgentFacts;
use golog_tree::{Agent, Label};
use std::alloc::Global;

/// An agent that is planned for, and what is kept of its actions.
#[derive(Clone, Copy)]
pub(crate) struct Planner<'a> {
    pub alloc: Global,
    pub agent: &'a Agent,
    pub facts: &'a AgentFacts,
}

impl<'a> Planner<'a> {
    /// The ground fluent that a step senses, if it senses one.
    pub fn sensed(&self, label: Label) -> Option<u32>
        requires { self.now.facts.now ≡ self.now.agent.now }
        ensures { result ≡ sensed_by_label self.now.agent.now label }
    {
        match label {
            Label::Quiet => None,
            Label::Do(action) => self.facts.sensed(action),
        }
    }
}
