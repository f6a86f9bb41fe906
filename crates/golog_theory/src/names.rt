// The reserved words, and which actions may stand in a place.
ghost use Rattle.std.specs.Prelude.{◌≡◌};
ghost use Rattle.std.specs.List.{list_any};
ghost use Rattle.golog_semantics.specs.BuiltIn.{is_keyword};
ghost use Rattle.golog_theory.specs.Names.{same, built_in_names, is_reserved};

use golog_base::Word;

/// Whether the name is a word of the grammar.
fn is_keyword(name: &[u8]) -> bool
    ensures { result ≡ is_keyword name.now }
{
    name == b"unknown".as_slice()
        || name == b"nil".as_slice()
        || name == b"not".as_slice()
        || name == b"and".as_slice()
        || name == b"or".as_slice()
        || name == b"some".as_slice()
        || name == b"all".as_slice()
}

/// Whether something that is built in has the name.
fn is_built_in(name: &[u8]) -> bool
    ensures { result ≡ list_any (same name.now) built_in_names }
{
    name == b"bool".as_slice()
        || name == b"true".as_slice()
        || name == b"false".as_slice()
        || name == b"interrupts_running".as_slice()
        || name == b"start_interrupts".as_slice()
        || name == b"stop_interrupts".as_slice()
}

/// Whether no item declares the name, since it is a word of the grammar or built in.
#[tactic(auto, unfolding(crate::specs::Names::is_reserved))]
pub fn is_reserved(name: &[u8]) -> bool
    ensures { result ≡ is_reserved name.now }
{
    is_keyword(name) || is_built_in(name)
}

/// Whether the word is among the words.
pub fn is_among(word: &[u8], words: &[Word]) -> bool
    ensures { result ≡ list_any (same word.now) words.now }
{
    words.iter().any(|other| word == other.as_bytes())
}

/// The actions that may stand in a place.
#[derive(Clone, Copy)]
pub enum Actions {
    /// Those of the program: not built in, and posted by no device.
    OfProgram,
    All,
}
