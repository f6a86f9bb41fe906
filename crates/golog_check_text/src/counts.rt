// `check_text`, the line that counts what an agent has, and `add_count`, which adds a number with
// what is counted.
ghost use Rattle.std.specs.Prelude.{◌≡◌, ◌++◌, IfOk, OnOk, decimal};
ghost use Rattle.golog_semantics.specs.WellFormed.{WellFormed};
ghost use Rattle.golog_check_text.specs.Counts.{check_text as spec_check_text, counts_line};

use golog_base::{Bytes, NoMemory, add_decimal};
use golog_tree::{Agent, action_count};
use std::alloc::Global;

/// Adds what is counted, and how many there are.
pub fn add_count(text: &mut Bytes, counted: &[u8], count: usize) -> Result<(), NoMemory>
    ensures { OnOk result (text.new ≡ text.old ++ counted.now ++ decimal count) }
{
    text.extend(counted)?;
    add_decimal(text, count)
}

/// The line of these numbers.
fn line_of(
    alloc: Global,
    fluents: usize,
    actions: usize,
    procedures: usize,
    devices: usize,
) -> Result<Bytes, NoMemory>
    ensures { IfOk result (λ text. text ≡ counts_line fluents actions procedures devices) }
{
    let mut text = Bytes::new(alloc);
    add_count(&mut text, b"ok fluents ", fluents)?;
    add_count(&mut text, b" actions ", actions)?;
    add_count(&mut text, b" procedures ", procedures)?;
    add_count(&mut text, b" devices ", devices)?;
    text.extend(b"\n")?;
    Ok(text)
}

/// The line of an agent: how many ground fluents, ground actions, procedures and devices it has, those that are
/// built in among them, as `ok fluents 7 actions 13 procedures 0 devices 2`.
pub fn check_text(alloc: Global, agent: &Agent) -> Result<Bytes, NoMemory>
    requires { WellFormed agent.now }
    ensures { IfOk result (λ text. text ≡ spec_check_text agent.now) }
{
    line_of(
        alloc,
        // An agent has one start value for each of its ground fluents.
        agent.starts.len(),
        action_count(agent) as usize,
        agent.procs.len(),
        agent.devices.len(),
    )
}
