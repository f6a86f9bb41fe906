// `Script`, and `scripts_of`: the elements of a devices file, one after another.
ghost use Rattle.std.specs.Prelude.{◌≡◌, ◌<◌, ◌≤◌, [], All, IsUtf8, length, find, OnOk, IfOk};
ghost use Rattle.std.specs.List.{list_any};
ghost use Rattle.std.specs.Option.{option_copied};
ghost use Rattle.serde_json.specs.View.{view, items_view};
ghost use Rattle.golog_semantics.specs.Same.{same_values};
ghost use Rattle.golog_script.specs.Reading.{Answers, IsFirstRow, found, each};
ghost use Rattle.golog_script.specs.DevicesFile.{listed, strings_at, new_name, element_of, scripts_in, scripts_of};
ghost use Rattle.golog_script.specs.ScriptTexts.{HasTexts};
ghost use Rattle.golog_script.specs.declared.scripts.Script.{Script};
ghost use Rattle.golog_script.specs.Codes.{SHAPE};

use crate::fault::{
    NO_DEVICE, NOT_JSON, SAME_NAME, ScriptFault, TOO_MANY, bad_shape, refuse_where,
};
use crate::strings::{string_at, strings_in};
use golog_base::{Bytes, List, NoMemory, Word};
use serde_json::Value;
use std::alloc::Global;

/// The most devices of an agent.
pub const DEVICES: u32 = 16;

/// What a device follows: its answers to sensing commands, and what it does idle.
#[derive(Debug, Drop)]
pub struct Script {
    pub name: Word,
    pub answers: List<Bytes>,
    pub idle: List<Bytes>,
}

/// The scripts that the bytes of a devices file spell, in its order, or its first refusal, for devices with
/// these names. The file is a JSON array of objects, each with the `name` of a device and, where present,
/// arrays of strings `answers` and `idle`. Other keys are passed over.
///
/// The codes: 40 at 0, where the bytes are no JSON; 41 at 0, where the value is no array; at the position of
/// an element 41, where it has not that shape, 43, where its name is no device, and 44, where an earlier
/// element has its name; 42 at 16, where there are more than 16 elements. The least position is answered, and
/// there the least code.
#[tactic(auto, unfolding(crate::specs::DevicesFile::scripts_of, crate::specs::DevicesFile::value_in))]
pub fn scripts_of(
    alloc: Global,
    bytes: &[u8],
    names: &List<Word>,
) -> Result<List<Script>, ScriptFault>
    ensures spelled { Answers result (scripts_of names.now bytes.now) }
    ensures first { IsFirstRow result (scripts_of names.now bytes.now).rows }
    ensures texts { IfOk result (All HasTexts) }
{
    match Value::from_slice(alloc, bytes) {
        Ok(value) => scripts_in(alloc, &value, names.as_slice()),
        Err(error) if error.is_memory() => Err(ScriptFault::Memory),
        Err(_) => Err(ScriptFault::Refused {
            code: NOT_JSON,
            at: 0,
        }),
    }
}

#[tactic(auto, unfolding(crate::specs::DevicesFile::scripts_in))]
fn scripts_in(alloc: Global, value: &Value, names: &[Word]) -> Result<List<Script>, ScriptFault>
    ensures spelled { Answers result (scripts_in names.now (view value.now)) }
    ensures texts { IfOk result (All HasTexts) }
{
    match value.as_array() {
        Some(elements) => scripts_of_elements(alloc, elements.as_slice(), names),
        None => Err(bad_shape(0)),
    }
}

#[tactic(auto, using(crate::proofs::Elements::laws))]
fn scripts_of_elements(
    alloc: Global,
    elements: &[Value],
    names: &[Word],
) -> Result<List<Script>, ScriptFault>
    ensures spelled { Answers result (each (element_of names.now) [] (listed (items_view elements.now))) }
    ensures texts { IfOk result (All HasTexts) }
{
    let mut scripts = List::new(alloc);
    for element in elements {
        let script = element_of(alloc, element, names, scripts.as_slice())?;
        scripts.push(script)?;
    }
    Ok(scripts)
}

// The script of an element behind these scripts.
#[tactic(auto, unfolding(crate::specs::DevicesFile::element_of))]
fn element_of(
    alloc: Global,
    element: &Value,
    names: &[Word],
    before: &[Script],
) -> Result<Script, ScriptFault>
    requires { length before.now ≤ DEVICES }
    ensures spelled { Answers result (element_of names.now before.now (view element.now)) }
    ensures few { OnOk result (length before.now < DEVICES) }
    ensures texts { IfOk result HasTexts }
{
    let at = before.len() as u32;
    let Some(name) = string_at(element, "name") else {
        return Err(bad_shape(at));
    };
    let answers = strings_at(alloc, element, "answers", at)?;
    let idle = strings_at(alloc, element, "idle", at)?;
    let name = new_name(name.as_bytes(), names, before)?;
    Ok(Script {
        name,
        answers,
        idle,
    })
}

// The strings of the array under a key, none where the key is absent.
fn strings_at(
    alloc: Global,
    element: &Value,
    key: &str,
    at: u32,
) -> Result<List<Bytes>, ScriptFault>
    ensures spelled { Answers result (found SHAPE at (strings_at key.now (view element.now))) }
    ensures texts { IfOk result (All IsUtf8) }
{
    match element.get(key) {
        Some(member) => match strings_in(alloc, member) {
            Ok(Some(strings)) => Ok(strings),
            Ok(None) => Err(bad_shape(at)),
            Err(NoMemory) => Err(ScriptFault::Memory),
        },
        None => Ok(List::new(alloc)),
    }
}

// The device of this name, which no script before has.
#[tactic(auto, unfolding(crate::specs::DevicesFile::new_name))]
fn new_name(name: &[u8], names: &[Word], before: &[Script]) -> Result<Word, ScriptFault>
    requires { length before.now ≤ DEVICES }
    ensures spelled { Answers result (new_name names.now before.now name.now) }
    ensures few { OnOk result (length before.now < DEVICES) }
{
    let at = before.len() as u32;
    refuse_where(at >= DEVICES, TOO_MANY, DEVICES)?;
    let Some(word) = device_named(name, names) else {
        return Err(ScriptFault::Refused {
            code: NO_DEVICE,
            at,
        });
    };
    refuse_where(is_name_before(name, before), SAME_NAME, at)?;
    Ok(*word)
}

// The device of this name.
fn device_named<'n>(name: &[u8], names: &'n [Word]) -> Option<&'n Word>
    ensures { option_copied result ≡ find (same_values name.now) names.now }
{
    names.iter().find(|word| name == word.as_bytes())
}

// A script before has this name.
fn is_name_before(name: &[u8], before: &[Script]) -> bool
    ensures { result ≡ list_any (λ (s : Script). same_values name.now s.name) before.now }
{
    before.iter().any(|script| name == script.name.as_bytes())
}
