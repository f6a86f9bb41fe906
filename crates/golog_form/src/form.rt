// `Form`, an atom or a list of forms, with its places in the text, and its parts.
ghost use Rattle.std.specs.Prelude.{◌≡◌, Some, None, MatchOption};
ghost use Rattle.golog_form.specs.Shape.{place_of, atom_of, items_of};

use golog_base::{Bytes, List};

/// An atom or a list of forms, with the place of its first byte and the place after its last, in bytes
/// from 0.
#[derive(Debug, Drop)]
pub enum Form {
    /// A longest run of letters, digits, `_`, `+`, `-`, `=` and `<`.
    Atom {
        text: Bytes,
        at: u32,
        end: u32,
    },
    /// What stands between a `(` and its `)`, maybe nothing.
    Group {
        items: List<Form>,
        at: u32,
        end: u32,
    },
}

impl Form {
    /// The place of the first byte.
    pub fn at(&self) -> u32
        ensures { result ≡ place_of self.now }
    {
        match self {
            Form::Atom { at, .. } | Form::Group { at, .. } => *at,
        }
    }

    /// The text of an atom; `None` for a list.
    pub fn atom(&self) -> Option<&[u8]>
        ensures { MatchOption result (atom_of self.now ≡ None) (λ text. atom_of self.now ≡ Some text.now) }
    {
        match self {
            Form::Atom { text, .. } => Some(text.as_slice()),
            Form::Group { .. } => None,
        }
    }

    /// The items of a list; `None` for an atom.
    pub fn items(&self) -> Option<&[Form]>
        ensures { MatchOption result (items_of self.now ≡ None)
            (λ items. items_of self.now ≡ Some items.now) }
    {
        match self {
            Form::Atom { .. } => None,
            Form::Group { items, .. } => Some(items.as_slice()),
        }
    }
}
