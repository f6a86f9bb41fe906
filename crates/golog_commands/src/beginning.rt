// A run's beginning, `begun_with`: the texts of the scripts, a new journal, the devices that begin.
ghost use Rattle.std.specs.Prelude.{◌≡◌, ◌≤◌, All, IfOk, OnErr, IsSome, Some, length, find};
ghost use Rattle.std.specs.Option.{option_copied};
ghost use Rattle.golog_semantics.specs.WellFormed.{WellFormed};
ghost use Rattle.golog_semantics.specs.Same.{same_values};
ghost use Rattle.golog_semantics.specs.Journal.{device_limit};
ghost use Rattle.golog_device.specs.Scripts.{script_spelled};
ghost use Rattle.golog_device.specs.Slots.{standings, FreshBelow};
ghost use Rattle.golog_script.specs.declared.scripts.Script.{Script};
ghost use Rattle.golog_script.specs.ScriptTexts.{HasTexts};
ghost use Rattle.golog_commands.specs.Inputs.{empty_script, script_under, scripts_for};
ghost use Rattle.golog_commands.specs.Runs.{AreTextsOf, AreUnserved, HasBegun, HasBegunWith};

use golog_base::{Bytes, List, NoMemory, Word};
use golog_device::{Device, begin_all};
use golog_journal::Journal;
use golog_script::{Script, script_text};
use golog_tree::Agent;
use std::alloc::Global;

/// The journal of a run whose devices have begun, each with its script among these, or else with the empty one. Where
/// memory is wanting, some have begun.
pub fn begun_with<D: Device>(
    alloc: Global,
    agent: &Agent,
    listed: &[Script],
    devices: &mut [D],
) -> Result<Journal, NoMemory>
    requires formed { WellFormed agent.now }
    requires texts { All HasTexts listed.now }
    requires boxes { device_limit ≤ length devices.old }
    requires fresh { FreshBelow device_limit (standings D.fresh D.meaning devices.old) }
    ensures begun { IfOk result (HasBegunWith agent.now (scripts_for agent.now listed.now)
        (standings D.fresh D.meaning devices.old) (standings D.fresh D.meaning devices.new)) }
    ensures memory { OnErr result (AreUnserved
        (standings D.fresh D.meaning devices.old) (standings D.fresh D.meaning devices.new)) }
{
    let texts = texts_for(alloc, agent, listed)?;
    let journal = begun(alloc, agent, &texts, devices);
    drop(texts);
    journal
}

// The texts of the scripts of the agent's devices.
fn texts_for(alloc: Global, agent: &Agent, listed: &[Script]) -> Result<List<Bytes>, NoMemory>
    requires { All HasTexts listed.now }
    ensures { IfOk result (λ texts. AreTextsOf texts (scripts_for agent.now listed.now)) }
{
    let mut texts = List::new(alloc);
    for name in agent.devices.as_slice() {
        let text = text_under(alloc, listed, *name)?;
        texts.push(text)?;
    }
    Ok(texts)
}

// The text of the script under this name, of the empty one where there is none.
fn text_under(alloc: Global, listed: &[Script], name: Word) -> Result<Bytes, NoMemory>
    requires { All HasTexts listed.now }
    ensures { IfOk result (λ text. script_spelled text ≡ Some (script_under listed.now name)) }
{
    match found_under(listed, name) {
        Some(script) => script_text(alloc, script),
        None => empty_text(alloc, name),
    }
}

// The script under this name.
fn found_under(listed: &[Script], name: Word) -> Option<&Script>
    ensures { option_copied result ≡ find (λ (s : Script). same_values name s.name) listed.now }
{
    listed
        .iter()
        .find(|script| name.as_bytes() == script.name.as_bytes())
}

// The text of the empty script.
fn empty_text(alloc: Global, name: Word) -> Result<Bytes, NoMemory>
    ensures { IfOk result (λ text. script_spelled text ≡ Some empty_script) }
{
    let script = Script {
        name,
        answers: List::new(alloc),
        idle: List::new(alloc),
    };
    let text = script_text(alloc, &script);
    drop(script);
    text
}

// The journal of a run whose devices have begun.
fn begun<D: Device>(
    alloc: Global,
    agent: &Agent,
    texts: &List<Bytes>,
    devices: &mut [D],
) -> Result<Journal, NoMemory>
    requires formed { WellFormed agent.now }
    requires boxes { device_limit ≤ length devices.old }
    requires fresh { FreshBelow device_limit (standings D.fresh D.meaning devices.old) }
    requires one_each { length texts.now ≡ length agent.now.devices }
    requires spelled { All (λ text. IsSome (script_spelled text)) texts.now }
    ensures begun { IfOk result (HasBegun agent.now texts.now
        (standings D.fresh D.meaning devices.old) (standings D.fresh D.meaning devices.new)) }
    ensures memory { OnErr result (AreUnserved
        (standings D.fresh D.meaning devices.old) (standings D.fresh D.meaning devices.new)) }
{
    let mut journal = Journal::new(alloc, agent)?;
    match begin_all(alloc, devices, agent, texts, &mut journal) {
        Ok(()) => Ok(journal),
        Err(fault) => {
            drop(journal);
            Err(fault)
        }
    }
}
