// What is said of the ground fluents whose value an entry changed: their values before and after it, and by which effect,
// or that they were sensed.
ghost use Rattle.std.specs.Prelude.{◌≡◌, ◌<◌, ◌++◌, OnOk};
ghost use Rattle.golog_tree.specs.Ground.{IsCountable, fluent_args, ground_count};
ghost use Rattle.golog_semantics.specs.InSorts.{AreInSorts, IsOf};
ghost use Rattle.golog_semantics.specs.Text.{start_text};
ghost use Rattle.golog_semantics.specs.Values.{fluent_sort as sort_of};
ghost use Rattle.golog_semantics.specs.WellFormed.{WellFormed};
ghost use Rattle.golog_text.specs.Named.{IsNamed};
ghost use Rattle.golog_trace.specs.Changes.{by_word, change_line, change_lines, changed_line, effect_text, how_text};

use crate::effects::{Effect, effect_on};
use golog_base::{Bytes, NoMemory, add_decimal};
use golog_ground::{constant_text, fluent_text};
use golog_known::UNKNOWN;
use golog_semantics::Entry;
use golog_text::fluent_sort;
use golog_tree::{Agent, Truth};
use std::alloc::Global;

/// An entry of an agent's journal, and the values before it.
#[derive(Clone, Copy)]
pub struct Happening<'a> {
    pub alloc: Global,
    pub agent: &'a Agent,
    pub entry: Entry,
    pub before: &'a [u8],
}

/// Adds a value of a ground fluent, or that it is unknown.
fn add_value(text: &mut Bytes, agent: &Agent, fluent: u32, value: u8) -> Result<(), NoMemory>
    requires countable { IsCountable agent.now }
    requires number { fluent < ground_count agent.now (fluent_args agent.now) }
    requires value { IsOf agent.now (sort_of agent.now fluent) value }
    ensures { OnOk result (text.new ≡ text.old ++ start_text agent.now fluent value) }
{
    if value == UNKNOWN {
        return text.extend(b"unknown");
    }
    text.extend(constant_text(agent, fluent_sort(agent, fluent), value).as_bytes())
}

/// How sure it is that an effect applied.
fn by_word(truth: Truth) -> &'static [u8]
    ensures { result.now ≡ by_word truth }
{
    match truth {
        Truth::Yes => b", by effect ",
        Truth::No | Truth::Unknown => b", perhaps by effect ",
    }
}

/// Adds the effect, if there is one, by its place among those of the agent's file.
fn add_effect(text: &mut Bytes, effect: Option<Effect>) -> Result<(), NoMemory>
    ensures { OnOk result (text.new ≡ text.old ++ effect_text effect) }
{
    match effect {
        Some(effect) => {
            text.extend(by_word(effect.truth))?;
            add_decimal(text, effect.number.saturating_sub(1))
        }
        None => Ok(()),
    }
}

impl<'a> Happening<'a> {
    /// Adds by which effect the action gave a ground fluent its value.
    fn add_effect_of(&self, text: &mut Bytes, action: u32, fluent: u32) -> Result<(), NoMemory>
        requires formed { WellFormed self.now.agent.now }
        requires sorts { AreInSorts self.now.agent.now self.now.before.now }
        requires named { IsNamed self.now.agent.now (Entry.Do action) }
        requires number { fluent < ground_count self.now.agent.now (fluent_args self.now.agent.now) }
        ensures { OnOk result (text.new ≡ text.old
            ++ how_text self.now.agent.now self.now.before.now (Entry.Do action) fluent) }
    {
        let effect = effect_on(self.alloc, self.agent, self.before, action, fluent)?;
        add_effect(text, effect)
    }

    /// Adds how the entry changed a ground fluent.
    fn add_how(&self, text: &mut Bytes, fluent: u32) -> Result<(), NoMemory>
        requires formed { WellFormed self.now.agent.now }
        requires sorts { AreInSorts self.now.agent.now self.now.before.now }
        requires named { IsNamed self.now.agent.now self.now.entry }
        requires number { fluent < ground_count self.now.agent.now (fluent_args self.now.agent.now) }
        ensures { OnOk result (text.new ≡ text.old
            ++ how_text self.now.agent.now self.now.before.now self.now.entry fluent) }
    {
        match self.entry {
            Entry::Do { action } | Entry::Exo { action, .. } => {
                self.add_effect_of(text, action, fluent)
            }
            Entry::Sense { .. } => text.extend(b", sensed"),
            Entry::Test | Entry::Rest { .. } | Entry::Close { .. } | Entry::End { .. } => Ok(()),
        }
    }

    /// Adds the line of a ground fluent that had one value, and has another one after the entry.
    fn add_changed(&self, text: &mut Bytes, fluent: u32, old: u8, value: u8) -> Result<(), NoMemory>
        requires formed { WellFormed self.now.agent.now }
        requires sorts { AreInSorts self.now.agent.now self.now.before.now }
        requires named { IsNamed self.now.agent.now self.now.entry }
        requires number { fluent < ground_count self.now.agent.now (fluent_args self.now.agent.now) }
        requires old { IsOf self.now.agent.now (sort_of self.now.agent.now fluent) old }
        requires value { IsOf self.now.agent.now (sort_of self.now.agent.now fluent) value }
        ensures { OnOk result (text.new ≡ text.old
            ++ changed_line self.now.agent.now self.now.before.now self.now.entry fluent old value) }
    {
        text.extend(b"  ")?;
        text.extend(fluent_text(self.agent, fluent).as_bytes())?;
        text.extend(b": ")?;
        add_value(text, self.agent, fluent, old)?;
        text.extend(b" -> ")?;
        add_value(text, self.agent, fluent, value)?;
        self.add_how(text, fluent)?;
        text.extend(b"\n")
    }

    /// Adds the line of a ground fluent that has this value after the entry, where it had another one before.
    fn add_change(&self, text: &mut Bytes, fluent: u32, value: u8) -> Result<(), NoMemory>
        requires formed { WellFormed self.now.agent.now }
        requires sorts { AreInSorts self.now.agent.now self.now.before.now }
        requires named { IsNamed self.now.agent.now self.now.entry }
        requires number { fluent < ground_count self.now.agent.now (fluent_args self.now.agent.now) }
        requires value { IsOf self.now.agent.now (sort_of self.now.agent.now fluent) value }
        ensures { OnOk result (text.new ≡ text.old
            ++ change_line self.now.agent.now self.now.before.now self.now.entry (fluent, value)) }
    {
        let old = self.before[fluent as usize];
        if old == value {
            return Ok(());
        }
        self.add_changed(text, fluent, old, value)
    }

    /// Adds the lines of the ground fluents that the entry changed, given the values after it.
    pub fn add_changes(&self, text: &mut Bytes, after: &[u8]) -> Result<(), NoMemory>
        requires formed { WellFormed self.now.agent.now }
        requires sorts { AreInSorts self.now.agent.now self.now.before.now }
        requires named { IsNamed self.now.agent.now self.now.entry }
        requires after { AreInSorts self.now.agent.now after.now }
        ensures { OnOk result (text.new ≡ text.old
            ++ change_lines self.now.agent.now self.now.before.now self.now.entry after.now) }
    {
        for (fluent, value) in after.iter().enumerate() {
            self.add_change(text, fluent as u32, *value)?;
        }
        Ok(())
    }
}
