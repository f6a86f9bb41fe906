//! Tests of `begin_all` over devices that begin, refuse or lack memory.
ghost use Rattle.std.specs.Prelude.{◌≡◌, ◌≤◌, IfOk, Some, length, true};
ghost use Rattle.golog_semantics.specs.WellFormed.{WellFormed};
ghost use Rattle.golog_device.specs.Scripts.{script_spelled};
ghost use Rattle.golog_device.specs.Slots.{standings, FreshBelow};
ghost use Rattle.golog_thread_tests.specs.EmptyScripts.{AreEmpty, empty_script};

use crate::asserting::same;
use crate::runs::agent_of;
use golog_base::{Bytes, List, NoMemory, Word};
use golog_device::{Begun, Device, TableDevice, begin_all};
use golog_journal::Journal;
use golog_script::{Script, script_text};
use golog_tree::Agent;
use std::alloc::Global;

const AGENT: &[u8] = b"(agent (device one) (device other) (main nil))";

/// Whether all have begun, how many entries stand then, and whether each device is open.
type Told = (bool, u32, [bool; 2]);

/// A device that begins so.
fn device_of(alloc: Global, begun: Begun) -> Result<TableDevice, NoMemory>
    ensures { IfOk result (λ device. ⟦<TableDevice as Device>⟧.fresh device ≡ true) }
{
    TableDevice::new(alloc, begun, List::new(alloc), List::new(alloc))
}

/// The text of an empty script.
fn text_of(alloc: Global, name: Word) -> Result<Bytes, NoMemory>
    ensures { IfOk result (λ text. script_spelled text ≡ Some empty_script) }
{
    let script = Script {
        name,
        answers: List::new(alloc),
        idle: List::new(alloc),
    };
    let text = script_text(alloc, &script);
    drop(script);
    text
}

/// One for each device.
fn texts_of(alloc: Global, agent: &Agent) -> Result<List<Bytes>, NoMemory>
    ensures one_each { IfOk result (λ texts. length texts ≡ length agent.now.devices) }
    ensures empty { IfOk result AreEmpty }
{
    let mut texts = List::new(alloc);
    for name in agent.devices.as_slice() {
        let text = text_of(alloc, *name)?;
        texts.push(text)?;
    }
    Ok(texts)
}

/// What is told of a journal, where all devices have begun or memory was wanting.
fn told_of_journal(journal: &Journal, begun: bool) -> Told
    requires { 2 ≤ length journal.now.agent.devices }
{
    (
        begun,
        journal.len(),
        [journal.is_open(0), journal.is_open(1)],
    )
}

/// What is told once devices begin with these texts.
fn told_with<D: Device>(
    alloc: Global,
    agent: &Agent,
    devices: &mut [D],
    texts: &List<Bytes>,
) -> Result<Told, NoMemory>
    requires formed { WellFormed agent.now }
    requires two { length agent.now.devices ≡ 2 }
    requires one_each { length texts.now ≡ length agent.now.devices }
    requires empty { AreEmpty texts.now }
    requires fresh { FreshBelow 2 (standings D.fresh D.meaning devices.old) }
{
    let mut journal = Journal::new(alloc, agent)?;
    let begun = begin_all(alloc, devices, agent, texts, &mut journal);
    let told = told_of_journal(&journal, begun.is_ok());
    drop(journal);
    Ok(told)
}

/// The same with the texts of empty scripts.
fn told_by<D: Device>(alloc: Global, agent: &Agent, devices: &mut [D]) -> Result<Told, NoMemory>
    requires formed { WellFormed agent.now }
    requires two { length agent.now.devices ≡ 2 }
    requires fresh { FreshBelow 2 (standings D.fresh D.meaning devices.old) }
{
    let texts = texts_of(alloc, agent)?;
    let told = told_with(alloc, agent, devices, &texts);
    drop(texts);
    told
}

/// The same of two devices that begin so, and of one that no slot is for.
fn told_of_begun(alloc: Global, agent: &Agent, begun: [Begun; 2]) -> Result<Told, NoMemory>
    requires formed { WellFormed agent.now }
    requires two { length agent.now.devices ≡ 2 }
{
    let one = device_of(alloc, begun[0])?;
    let other = device_of(alloc, begun[1])?;
    let spare = device_of(alloc, Begun::Memory)?;
    let mut devices = [one, other, spare];
    told_by(alloc, agent, &mut devices)
}

/// The same of the agent of `AGENT`, if it has two devices.
fn told_of(alloc: Global, begun: [Begun; 2]) -> Option<Told> {
    match agent_of(alloc, AGENT) {
        Some(agent) => {
            let told = if agent.devices.len() == 2 {
                told_of_begun(alloc, &agent, begun).ok()
            } else {
                None
            };
            drop(agent);
            told
        }
        None => None,
    }
}

// Where memory is wanting, those before have begun.
#[test]
fn devices_begin_in_order(rt: HostRuntime) {
    let tolds = [
        ([Begun::Ready, Begun::Ready], (true, 0, [true, true])),
        ([Begun::Ready, Begun::Refused], (true, 1, [true, false])),
        ([Begun::Refused, Begun::Refused], (true, 2, [false, false])),
        ([Begun::Refused, Begun::Memory], (false, 1, [false, true])),
        ([Begun::Memory, Begun::Refused], (false, 0, [true, true])),
    ];
    for (begun, told) in tolds {
        same(&rt, begun, told_of(rt.alloc(), begun), Some(told));
    }
}
