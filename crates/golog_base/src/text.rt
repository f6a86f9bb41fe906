// `Text`: a `String`, which contracts see as the list of its bytes.
ghost use Rattle.std.specs.Prelude.{◌≡◌, ℕ, List, IfOk, string_bytes};

use crate::NoMemory;
use std::alloc::Global;
use std::marker::Model;

/// A text of its own. Contracts see it as the list of its bytes.
#[derive(Debug, Drop)]
pub struct Text {
    string: String,
}

impl Model for Text {
    ghost Value = { List ℕ };

    ghost view = { λ text. string_bytes text.string };
}

impl Text {
    /// A copy of the text.
    pub fn of(alloc: Global, text: &str) -> Result<Text, NoMemory>
        ensures { IfOk result (λ made. made ≡ text.now) }
    {
        match String::from_str(alloc, text) {
            Ok(string) => Ok(Text { string }),
            Err(_) => Err(NoMemory),
        }
    }

    /// The text, lent.
    pub fn as_str(&self) -> &str
        ensures { result.now ≡ self.now }
    {
        self.string.as_str()
    }
}
