// `script_text`: the text of a script.
ghost use Rattle.std.specs.Prelude.{◌≡◌, ◌++◌, ◌∷◌, [], All, IsUtf8, IfOk, OnOk, Some, map};
ghost use Rattle.serde_json.specs.Data.{string};
ghost use Rattle.serde_json.specs.View.{view};
ghost use Rattle.serde_json.specs.Written.{compact_text};
ghost use Rattle.golog_device.specs.Scripts.{script_spelled};
ghost use Rattle.golog_script.specs.ScriptTexts.{HasTexts, script_of_named, array_of, object_of};

use crate::Script;
use golog_base::{Bytes, NoMemory};
use serde_json::{Map, Value, put};
use std::alloc::Global;
use std::str;

/// The text of a script, whose answers and idle items are UTF-8: its compact JSON object with the keys
/// `answers` and `idle`, in this order, which reads as the script.
pub fn script_text(alloc: Global, script: &Script) -> Result<Bytes, NoMemory>
    requires { HasTexts script.now }
    ensures compact { IfOk result (λ text. text ≡ compact_text (object_of (script_of_named script.now))) }
    ensures reads_back { IfOk result (λ text. script_spelled text ≡ Some (script_of_named script.now)) }
{
    let value = object_of(alloc, script)?;
    let text = value.to_vec(alloc)?;
    Ok(Bytes::from_vec(text))
}

fn object_of(alloc: Global, script: &Script) -> Result<Value, NoMemory>
    requires { HasTexts script.now }
    ensures { IfOk result (λ value. view value ≡ object_of (script_of_named script.now)) }
{
    let answers = array_of(alloc, script.answers.as_slice())?;
    let idle = array_of(alloc, script.idle.as_slice())?;
    let mut members = Map::new(alloc);
    put(&mut members, alloc, "answers", answers)?;
    put(&mut members, alloc, "idle", idle)?;
    Ok(Value::Object(members))
}

fn array_of(alloc: Global, texts: &[Bytes]) -> Result<Value, NoMemory>
    requires { All IsUtf8 texts.now }
    ensures { IfOk result (λ value. view value ≡ array_of texts.now) }
{
    let mut strings = Vec::new(alloc);
    for text in texts {
        push_string(alloc, &mut strings, text)?;
    }
    Ok(Value::Array(strings))
}

// Adds the text as a string.
fn push_string(alloc: Global, strings: &mut Vec<Value>, text: &Bytes) -> Result<(), NoMemory>
    requires { IsUtf8 text.now }
    ensures { OnOk result (map view strings.new.items ≡ map view strings.old.items ++ string text.now ∷ []) }
{
    let text = str::from_utf8(text.as_slice()).unwrap();
    let string = Value::try_from_str(alloc, text)?;
    strings.push(string)?;
    Ok(())
}
