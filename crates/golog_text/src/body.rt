// What a line says, by the kind of the entry: a command with its device, a device with a word, a
// result with the value known before.
ghost use Rattle.std.specs.Prelude.{◌≡◌, ◌<◌, ◌≤◌, ◌+◌, ◌++◌, length, IfSome, IsTrue, OnOk, codes, decimal, option_copied, slice_index};
ghost use Rattle.golog_tree.specs.Ground.{IsCountable, action_args, ground_count};
ghost use Rattle.golog_semantics.specs.Journal.{device_of as spec_device_of};
ghost use Rattle.golog_semantics.specs.Reports.{is_value};
ghost use Rattle.golog_semantics.specs.InSorts.{AreInSorts, IsOf};
ghost use Rattle.golog_semantics.specs.Text.{action_text, against_text, at_device, body_text, device_text, value_text};
ghost use Rattle.golog_semantics.specs.Values.{fluent_sort};
ghost use Rattle.golog_semantics.specs.WellFormed.{WellFormed};
ghost use Rattle.golog_text.specs.Filled.{Takes, against_most, body_most, command_most, poster_most, result_most, run_most};
ghost use Rattle.golog_text.specs.Named.{AreLabels, IsNamed};

use crate::line::Line;
use crate::names::{add_action, add_device, add_number, add_value, device_of};
use crate::runs::add_run;
use crate::words::{answer_name, reason_name};
use golog_base::{List, NoMemory};
use golog_known::UNKNOWN;
use golog_semantics::Entry;
use golog_tree::{Agent, Label};

// Adds a command: its action, and the device that carries it out, where one does.
fn add_command(text: &mut Line, agent: &Agent, action: u32) -> Result<(), NoMemory>
    requires formed { WellFormed agent.now }
    requires number { action < ground_count agent.now (action_args agent.now) }
    ensures added { OnOk result (text.new
        ≡ text.old ++ (codes "do " ++ action_text agent.now action
        ++ at_device agent.now (spec_device_of agent.now action))) }
    ensures room { Takes command_most result text.old text.new }
{
    text.extend(b"do ")?;
    add_action(text, agent, action)?;
    match device_of(agent, action) {
        Some(device) => {
            text.extend(b" @")?;
            add_device(text, agent, device)
        }
        None => Ok(()),
    }
}

// Adds a word, and a device that posts it.
fn add_poster(text: &mut Line, agent: &Agent, word: &[u8], poster: u8) -> Result<(), NoMemory>
    requires device { poster < length agent.now.devices }
    requires word { length word.now ≤ 6 }
    ensures added { OnOk result (text.new
        ≡ text.old ++ (word.now ++ device_text agent.now poster ++ codes " ")) }
    ensures room { Takes poster_most result text.old text.new }
{
    text.extend(word)?;
    add_device(text, agent, u32::from(poster))?;
    text.extend(b" ")
}

// Adds the value that was known before, where it is another constant.
fn add_against(
    text: &mut Line,
    agent: &Agent,
    fluent: u32,
    old: u8,
    value: u8,
) -> Result<(), NoMemory>
    requires countable { IsCountable agent.now }
    requires value { IsTrue (is_value agent.now fluent value) }
    requires old { IsOf agent.now (fluent_sort agent.now fluent) old }
    ensures added { OnOk result (text.new ≡ text.old ++ against_text agent.now fluent old value) }
    ensures room { Takes against_most result text.old text.new }
{
    if old == UNKNOWN || old == value {
        return Ok(());
    }
    text.extend(b" against ")?;
    add_value(text, agent, fluent, old)
}

// Adds the result of a command: its place, the value, and the value that was known before.
fn add_result(
    text: &mut Line,
    agent: &Agent,
    values: &[u8],
    command: u32,
    fluent: u32,
    value: u8,
) -> Result<(), NoMemory>
    requires countable { IsCountable agent.now }
    requires sorts { AreInSorts agent.now values.now }
    requires value { IsTrue (is_value agent.now fluent value) }
    ensures added { OnOk result (text.new
        ≡ text.old ++ (decimal command ++ codes " " ++ value_text agent.now fluent value
        ++ against_text agent.now fluent (slice_index values.now fluent) value)) }
    ensures room { Takes result_most result text.old text.new }
{
    add_number(text, command as usize)?;
    text.extend(b" ")?;
    add_value(text, agent, fluent, value)?;
    add_against(text, agent, fluent, values[fluent as usize], value)
}

// Adds what the line of an entry says, with these values before it and the run that it begins, if it begins
// one.
pub(crate) fn add_body(
    text: &mut Line,
    agent: &Agent,
    values: &[u8],
    run: Option<&List<Label>>,
    entry: Entry,
) -> Result<(), NoMemory>
    requires formed { WellFormed agent.now }
    requires sorts { AreInSorts agent.now values.now }
    requires labels { IfSome (option_copied run) (AreLabels agent.now) }
    requires entry { IsNamed agent.now entry }
    ensures added { OnOk result
        (text.new ≡ text.old ++ body_text agent.now values.now (option_copied run.entry) entry) }
    ensures room { Takes (body_most + run_most (option_copied run.entry)) result text.old text.new }
{
    match entry {
        Entry::Do { action } => {
            add_command(text, agent, action)?;
            add_run(text, agent, run)
        }
        Entry::Test => {
            text.extend(b"test")?;
            add_run(text, agent, run)
        }
        Entry::Exo { poster, action } => {
            add_poster(text, agent, b"exo ", poster)?;
            add_action(text, agent, action)
        }
        Entry::Sense {
            poster,
            place: command,
            fluent,
            value,
        } => {
            add_poster(text, agent, b"sense ", poster)?;
            add_result(text, agent, values, command, fluent, value)
        }
        Entry::Rest { poster, taken } => {
            add_poster(text, agent, b"rest ", poster)?;
            add_number(text, taken as usize)
        }
        Entry::Close {
            poster,
            reason,
            taken,
        } => {
            add_poster(text, agent, b"close ", poster)?;
            text.extend(reason_name(reason))?;
            text.extend(b" ")?;
            add_number(text, taken as usize)
        }
        Entry::End { answer } => {
            text.extend(b"end ")?;
            text.extend(answer_name(answer))
        }
    }
}
