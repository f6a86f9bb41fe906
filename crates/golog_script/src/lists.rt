// The two lists that the text of one script spells, for `begin`.
ghost use Rattle.std.specs.Prelude.{◌≡◌, IfOk, option_map, option_and_then};
ghost use Rattle.serde_json.specs.Find.{get};
ghost use Rattle.serde_json.specs.View.{view};
ghost use Rattle.golog_device.specs.Scripts.{strings_in, script_of, script_spelled};
ghost use Rattle.golog_script.specs.ScriptTexts.{script_of_lists};

use crate::strings::strings_in;
use golog_base::{Bytes, List, NoMemory};
use serde_json::Value;
use std::alloc::Global;

/// The two lists of a script.
#[derive(Debug, Drop)]
pub struct ScriptLists {
    pub answers: List<Bytes>,
    pub idle: List<Bytes>,
}

/// The script that the text spells: `None` exactly where it is no JSON object with arrays of strings
/// `answers` and `idle`.
pub fn lists_of(alloc: Global, text: &[u8]) -> Result<Option<ScriptLists>, NoMemory>
    ensures { IfOk result (λ lists. option_map script_of_lists lists ≡ script_spelled text.now) }
{
    match Value::from_slice(alloc, text) {
        Ok(value) => lists_in(alloc, &value),
        Err(error) if error.is_memory() => Err(NoMemory),
        Err(_) => Ok(None),
    }
}

fn lists_in(alloc: Global, value: &Value) -> Result<Option<ScriptLists>, NoMemory>
    ensures { IfOk result (λ lists. option_map script_of_lists lists ≡ script_of (view value.now)) }
{
    let Some(answers) = strings_under(alloc, value, "answers")? else {
        return Ok(None);
    };
    let Some(idle) = strings_under(alloc, value, "idle")? else {
        return Ok(None);
    };
    Ok(Some(ScriptLists { answers, idle }))
}

// The strings of the array under a key.
fn strings_under(alloc: Global, object: &Value, key: &str) -> Result<Option<List<Bytes>>, NoMemory>
    ensures { IfOk result (λ strings. strings ≡ option_and_then strings_in (get key.now (view object.now))) }
{
    match object.get(key) {
        Some(member) => strings_in(alloc, member),
        None => Ok(None),
    }
}
