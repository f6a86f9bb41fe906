//! `Pen`, what a scribe is made of: memory is taken here, before the sink is lent.
ghost use Rattle.std.specs.Prelude.{◌≡◌, [], IfOk};
ghost use Rattle.golog_semantics.specs.WellFormed.{WellFormed};

use crate::under_way::Core;
use golog_base::{NoMemory, both};
use golog_text::Line;
use golog_tree::Agent;
use std::alloc::Global;

/// A program under way, and the room for a line. A scribe is made of it and takes no memory then.
#[derive(Drop)]
pub struct Pen<'a> {
    pub(crate) core: Core<'a>,
    pub(crate) line: Line,
}

impl<'a> Pen<'a> {
    /// A pen of this agent that has seen nothing.
    pub fn new(alloc: Global, agent: &'a Agent) -> Result<Pen<'a>, NoMemory>
        requires { WellFormed agent.now }
        ensures { IfOk result (λ pen. pen.core ≡ record { agent = agent.now; list = [] }) }
    {
        let (line, core) = both(Line::new(alloc), Core::new(alloc, agent))?;
        Ok(Pen { core, line })
    }

    /// Lets it go, where nothing is to be run.
    pub fn let_go(self) {
        drop(self)
    }
}
