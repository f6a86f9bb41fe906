// The head of a text: its first line, a line for each ground fluent with the value that the journal
// starts from, and its last one.
ghost use Rattle.std.specs.Prelude.{◌≡◌, ◌<◌, [], ◌++◌, length, IfOk, OnOk};
ghost use Rattle.golog_tree.specs.Ground.{IsCountable, fluent_args, ground_count};
ghost use Rattle.golog_semantics.specs.InSorts.{AreInSorts, IsOf};
ghost use Rattle.golog_semantics.specs.Text.{head_text, start_line, start_text, with_line_feed};
ghost use Rattle.golog_semantics.specs.Values.{fluent_sort as spec_fluent_sort};
ghost use Rattle.golog_semantics.specs.WellFormed.{WellFormed};
ghost use Rattle.golog_text.specs.Heads.{start_lines};

use crate::names::fluent_sort;
use golog_base::{Bytes, NoMemory};
use golog_ground::{constant_text, fluent_text};
use golog_known::UNKNOWN;
use golog_tree::Agent;
use std::alloc::Global;

// Adds a value that a journal starts from, or that it is unknown.
fn add_start_value(text: &mut Bytes, agent: &Agent, fluent: u32, value: u8) -> Result<(), NoMemory>
    requires countable { IsCountable agent.now }
    requires number { fluent < ground_count agent.now (fluent_args agent.now) }
    requires value { IsOf agent.now (spec_fluent_sort agent.now fluent) value }
    ensures { OnOk result (text.new ≡ text.old ++ start_text agent.now fluent value) }
{
    if value == UNKNOWN {
        return text.extend(b"unknown");
    }
    text.extend(constant_text(agent, fluent_sort(agent, fluent), value).as_bytes())
}

// Adds the line of a ground fluent and the value that a journal starts from, and its line feed.
fn add_start(text: &mut Bytes, agent: &Agent, fluent: u32, value: u8) -> Result<(), NoMemory>
    requires countable { IsCountable agent.now }
    requires number { fluent < ground_count agent.now (fluent_args agent.now) }
    requires value { IsOf agent.now (spec_fluent_sort agent.now fluent) value }
    ensures { OnOk result
        (text.new ≡ text.old ++ with_line_feed agent.now (start_line agent.now (fluent, value))) }
{
    text.extend(b"start ")?;
    text.extend(fluent_text(agent, fluent).as_bytes())?;
    text.extend(b" ")?;
    add_start_value(text, agent, fluent, value)?;
    text.extend(b"\n")
}

// Adds the lines of these values, one for each ground fluent.
fn add_starts(text: &mut Bytes, agent: &Agent, values: &[u8]) -> Result<(), NoMemory>
    requires formed { WellFormed agent.now }
    requires sorts { AreInSorts agent.now values.now }
    ensures { OnOk result (text.new ≡ text.old ++ start_lines agent.now values.now) }
{
    for (fluent, value) in values.iter().enumerate() {
        add_start(text, agent, fluent as u32, *value)?;
    }
    Ok(())
}

// Adds a head with these values.
pub(crate) fn add_head(text: &mut Bytes, agent: &Agent, values: &[u8]) -> Result<(), NoMemory>
    requires formed { WellFormed agent.now }
    requires sorts { AreInSorts agent.now values.now }
    ensures { OnOk result (text.new ≡ text.old ++ head_text agent.now values.now) }
{
    text.extend(b"golog 2\n")?;
    add_starts(text, agent, values)?;
    text.extend(b"begin\n")
}

/// The head of a journal that starts from these values, one for each ground fluent: the line `golog 2`, a line for
/// each ground fluent in the order of their numbers, as `start at(a,3) true` or `start light unknown`, and the line
/// `begin`. The lines of the entries stand behind it.
///
/// `NoMemory` comes only for want of memory.
pub fn head_text(alloc: Global, agent: &Agent, values: &[u8]) -> Result<Bytes, NoMemory>
    requires formed { WellFormed agent.now }
    requires sorts { AreInSorts agent.now values.now }
    ensures { IfOk result (λ text. text ≡ head_text agent.now values.now) }
{
    let mut text = Bytes::new(alloc);
    match add_head(&mut text, agent, values) {
        Ok(()) => Ok(text),
        Err(fault) => {
            drop(text);
            Err(fault)
        }
    }
}
