// `ActionText`: room for 128 bytes held in itself. A name of 31 bytes, three arguments of 31 each
// behind a bracket or a comma, and a closing bracket are 128.
ghost use Rattle.std.specs.Prelude.{◌≡◌, ◌+◌, ◌≤◌, [], ◌++◌, length};

use std::marker::Model;

/// The most bytes of an `ActionText`.
const LONGEST: usize = 128;

/// The text of a ground action, a ground fluent or a constant: at most 128 bytes, held in itself. Contracts see it as
/// the list of its bytes.
#[derive(Debug, Drop)]
pub struct ActionText {
    // The text, and what doesn't count behind it.
    bytes: [u8; LONGEST],
    count: usize,
}

impl Model for ActionText {
    ghost use Rattle.std.specs.Prelude.{ℕ, List, take, ◌≤◌};

    ghost Value = { List ℕ };

    ghost view = { λ text. take text.count text.bytes };

    ghost invariant = { λ text. text.count ≤ 128 };
}

impl ActionText {
    // The empty text.
    pub(crate) fn new() -> ActionText
        ensures { result ≡ [] }
    {
        ActionText {
            bytes: [0; LONGEST],
            count: 0,
        }
    }

    // Writes these bytes behind the others.
    pub(crate) fn push_all(&mut self, more: &[u8])
        requires { length self.old + length more.now ≤ 128 }
        ensures { self.new ≡ self.old ++ more.now }
    {
        let end = self.count + more.len();
        self.bytes[self.count..end].copy_from_slice(more);
        self.count = end;
    }

    /// The bytes of the text.
    pub fn as_bytes(&self) -> &[u8]
        ensures same { result.now ≡ self.now }
        ensures short { length self.now ≤ 128 }
    {
        &self.bytes[..self.count]
    }
}
