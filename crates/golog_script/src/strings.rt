// Strings and arrays of strings in a JSON value.
ghost use Rattle.std.specs.Prelude.{◌≡◌, ◌++◌, ◌∷◌, [], All, IsUtf8, IfSome, OnOk, IfOk, option_map, option_and_then};
ghost use Rattle.serde_json.specs.Find.{get};
ghost use Rattle.serde_json.specs.View.{view, items_view};
ghost use Rattle.golog_device.specs.Scripts.{strings_in, strings_of as strings_of_items};
ghost use Rattle.golog_script.specs.DevicesFile.{string_at};

use golog_base::{Bytes, List, NoMemory};
use serde_json::Value;
use std::alloc::Global;

/// The string under a key.
pub fn string_at<'v>(object: &'v Value, key: &str) -> Option<&'v str>
    ensures { option_map (λ s. s.now) result ≡ string_at key.now (view object.now) }
{
    match object.get(key) {
        Some(member) => member.as_str(),
        None => None,
    }
}

/// The strings of an array of strings: `None` exactly where the value is none.
pub fn strings_in(alloc: Global, value: &Value) -> Result<Option<List<Bytes>>, NoMemory>
    ensures found { IfOk result (λ strings. strings ≡ strings_in (view value.now)) }
    ensures texts { IfOk result (λ strings. IfSome strings (All IsUtf8)) }
{
    match value.as_array() {
        Some(items) => strings_of(alloc, items.as_slice()),
        None => Ok(None),
    }
}

fn strings_of(alloc: Global, items: &[Value]) -> Result<Option<List<Bytes>>, NoMemory>
    ensures found { IfOk result (λ strings. strings ≡ strings_of_items (items_view items.now)) }
    ensures texts { IfOk result (λ strings. IfSome strings (All IsUtf8)) }
{
    let mut strings = List::new(alloc);
    for item in items {
        let Some(text) = item.as_str() else {
            return Ok(None);
        };
        push_copy(alloc, &mut strings, text.as_bytes())?;
    }
    Ok(Some(strings))
}

// Adds a copy of the text.
fn push_copy(alloc: Global, strings: &mut List<Bytes>, text: &[u8]) -> Result<(), NoMemory>
    ensures { OnOk result (strings.new ≡ strings.old ++ text.now ∷ []) }
{
    let copy = Bytes::copy_of(alloc, text)?;
    strings.push(copy)
}
