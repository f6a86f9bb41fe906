// `State`, what is known of each ground fluent, and what entries make of it: one byte each, and a
// second buffer reserved at its making.
ghost use Rattle.std.specs.Prelude.{◌≡◌, ◌<◌, [], IfOk, IsTrue, fold, length, slice_set};
ghost use Rattle.golog_tree.specs.declared.agent.Agent.{Agent as AnyAgent};
ghost use Rattle.golog_tree.specs.Ground.{ground_actions};
ghost use Rattle.golog_semantics.specs.Values.{after_do as values_after_do};
ghost use Rattle.golog_semantics.specs.Progress.{values_after, after_entry as values_after_entry};
ghost use Rattle.golog_semantics.specs.Reports.{is_value};
ghost use Rattle.golog_semantics.specs.InSorts.{AreInSorts};
ghost use Rattle.golog_semantics.specs.WellFormed.{WellFormed};
ghost use Rattle.golog_progress.specs.Entries.{EntryFits, EntriesFit};

use crate::causes::advance;
use golog_base::{List, NoMemory};
use golog_semantics::Entry;
use golog_tree::Agent;
use std::alloc::Global;
use std::marker::Model;
use std::mem;

/// What is known of each ground fluent, by their numbers: a constant by its position in its sort, or 255
/// where no value is known. Contracts see it as the list of these values.
#[derive(Debug, Drop)]
pub struct State {
    values: Vec<u8>,
    next: Vec<u8>,
}

impl Model for State {
    ghost use Rattle.std.specs.Prelude.{ℕ, List, ◌≡◌, length};

    ghost Value = { List ℕ };

    ghost view = { λ state. state.values.items };

    ghost invariant = { λ state. length state.next.items ≡ length state.values.items };
}

/// The state before any entry, which has the start values of the agent.
pub fn start(alloc: Global, agent: &Agent) -> Result<State, NoMemory>
    requires { WellFormed agent.now }
    ensures values { IfOk result (λ state. state ≡ values_after agent.now []) }
    ensures sorts { IfOk result (λ state. AreInSorts agent.now state) }
{
    State::of(alloc, agent, agent.starts.as_slice())
}

impl State {
    // The state of these values.
    fn of_values(alloc: Global, values: &[u8]) -> Result<State, NoMemory>
        ensures { IfOk result (λ state. state ≡ values.now) }
    {
        let next = List::copy_of(alloc, values)?.into_vec();
        let values = List::copy_of(alloc, values)?.into_vec();
        Ok(State { values, next })
    }

    /// The state of these values of an agent's ground fluents, one for each.
    pub fn of(alloc: Global, agent: &Agent, values: &[u8]) -> Result<State, NoMemory>
        requires { AreInSorts agent.now values.now }
        ensures values { IfOk result (λ state. state ≡ values.now) }
        ensures sorts { IfOk result (λ state. AreInSorts agent.now state) }
    {
        // What the agent is matters to the contract alone.
        let _ = agent;
        State::of_values(alloc, values)
    }

    /// Another state of the same values.
    pub fn copy(&self, alloc: Global) -> Result<State, NoMemory>
        ensures { IfOk result (λ copy. copy ≡ self.now) }
    {
        State::of_values(alloc, self.values.as_slice())
    }

    /// Makes the state that of these values, as many as it has. Takes no memory.
    pub fn set(&mut self, values: &[u8])
        requires { length values.now ≡ length self.old }
        ensures { self.new ≡ values.now }
    {
        self.values.as_mut_slice().copy_from_slice(values);
    }

    /// The values, one byte for each ground fluent.
    pub fn values(&self) -> &[u8]
        ensures { result.now ≡ self.now }
    {
        self.values.as_slice()
    }

    /// A ground action is done, or has happened: each ground fluent has the value that the causes of the
    /// action give it, all taken from the values before. Takes no memory.
    pub fn after_do(&mut self, agent: &Agent, action: u32)
        requires agent { WellFormed agent.now }
        requires sorts { AreInSorts agent.now self.old }
        requires action { action < length (ground_actions agent.now) }
        ensures values { self.new ≡ values_after_do agent.now self.old action }
        ensures sorts { AreInSorts agent.now self.new }
    {
        advance(
            agent,
            action,
            self.values.as_slice(),
            self.next.as_mut_slice(),
        );
        mem::swap(&mut self.values, &mut self.next);
    }

    /// A ground fluent was sensed to have the value, a constant of its sort. Takes no memory.
    pub fn after_sense(&mut self, fluent: u32, value: u8)
        requires { fluent < length self.old }
        ensures values { self.new ≡ slice_set self.old fluent value }
        ensures sorts { (agent : AnyAgent) → AreInSorts agent self.old → IsTrue (is_value agent fluent value)
            → AreInSorts agent self.new }
    {
        self.values[fluent as usize] = value;
    }

    /// The state after one more entry.
    fn after_entry(&mut self, agent: &Agent, entry: Entry)
        requires agent { WellFormed agent.now }
        requires sorts { AreInSorts agent.now self.old }
        requires entry { EntryFits agent.now entry }
        ensures values { self.new ≡ values_after_entry agent.now self.old entry }
        ensures sorts { AreInSorts agent.now self.new }
    {
        match entry {
            Entry::Do { action } | Entry::Exo { action, .. } => self.after_do(agent, action),
            Entry::Sense { fluent, value, .. } => self.after_sense(fluent, value),
            Entry::Test | Entry::Rest { .. } | Entry::Close { .. } | Entry::End { .. } => {}
        }
    }

    /// The state after these entries too, in their order. Takes no memory.
    pub fn roll(&mut self, agent: &Agent, entries: &[Entry])
        requires agent { WellFormed agent.now }
        requires sorts { AreInSorts agent.now self.old }
        requires entries { EntriesFit agent.now entries.now }
        ensures values { self.new ≡ fold (values_after_entry agent.now) self.old entries.now }
        ensures sorts { AreInSorts agent.now self.new }
    {
        for entry in entries {
            self.after_entry(agent, *entry);
        }
    }
}
