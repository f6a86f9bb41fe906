// `Effects`, what the steps of actions write, kept by the numbers of the actions.
ghost use Rattle.std.specs.Prelude.{All, IfSome, IsTrue, OnOk};
ghost use Rattle.golog_tree.specs.declared.agent.Agent.{Agent as AnyAgent};
ghost use Rattle.golog_semantics.specs.Reports.{fits_label};
ghost use Rattle.golog_semantics.specs.WellFormed.{WellFormed};
ghost use Rattle.golog_flat.specs.Effects.{IsEffectOf};
ghost use Rattle.golog_find.specs.Visits.{AreEffects};

use golog_base::NoMemory;
use golog_flat::Effect;
use golog_tree::{Agent, Label};
use golog_ways::NumberedFront;
use std::alloc::Global;
use std::collections::HashMap;

/// What the steps of actions write, of those that a search asked for and that write the same whatever the values before
/// are.
#[derive(Drop)]
pub struct Effects {
    kept: HashMap<u32, Effect>,
}

impl Effects {
    /// Nothing is kept. Takes no memory.
    pub fn new(alloc: Global) -> Effects
        ensures { (agent : AnyAgent) → AreEffects agent result }
    {
        Effects {
            kept: HashMap::new(alloc),
        }
    }

    /// What the step writes, where that is kept. Takes no memory.
    pub fn of(&self, label: Label) -> Option<&Effect>
        ensures { (agent : AnyAgent) → AreEffects agent self.now → IfSome result (λ e. IsEffectOf agent label e.now) }
    {
        match label {
            Label::Quiet => None,
            Label::Do(action) => self.kept.get(&action),
        }
    }

    /// Keeps what the action writes, where that is the same whatever the values before are.
    fn keep_action(&mut self, alloc: Global, agent: &Agent, action: u32) -> Result<(), NoMemory>
        requires agent { WellFormed agent.now }
        requires label { IsTrue (fits_label agent.now (Label.Do action)) }
        requires kept { AreEffects agent.now self.old }
        ensures { OnOk result (AreEffects agent.now self.new) }
    {
        if self.kept.contains_key(&action) {
            return Ok(());
        }
        match Effect::of(alloc, agent, Label::Do(action))? {
            Some(effect) => {
                drop(self.kept.insert(action, effect)?);
                Ok(())
            }
            None => Ok(()),
        }
    }

    /// The same of a step's action, where it has one.
    fn keep(&mut self, alloc: Global, agent: &Agent, label: Label) -> Result<(), NoMemory>
        requires agent { WellFormed agent.now }
        requires label { IsTrue (fits_label agent.now label) }
        requires kept { AreEffects agent.now self.old }
        ensures { OnOk result (AreEffects agent.now self.new) }
    {
        match label {
            Label::Quiet => Ok(()),
            Label::Do(action) => self.keep_action(alloc, agent, action),
        }
    }

    /// The same of all of these steps.
    pub fn keep_all(
        &mut self,
        alloc: Global,
        agent: &Agent,
        fronts: &[NumberedFront],
    ) -> Result<(), NoMemory>
        requires agent { WellFormed agent.now }
        requires labels { All (λ f. IsTrue (fits_label agent.now f.label)) fronts.now }
        requires kept { AreEffects agent.now self.old }
        ensures { OnOk result (AreEffects agent.now self.new) }
    {
        for front in fronts {
            self.keep(alloc, agent, front.label)?;
        }
        Ok(())
    }
}
