// The parts of a line between marks, in words of their forms.
ghost use Rattle.std.specs.Prelude.{◌≡◌, ◌≤◌, ◌==◌, ◌∷◌, true, false, length, position};
ghost use Rattle.std.specs.List.{list_all};
ghost use Rattle.std.specs.Option.{option_map_or};
ghost use Rattle.golog_semantics.specs.Ways.{is_empty};
ghost use Rattle.golog_reports.specs.Forms.{cut, parts, parts_behind, length_behind, is_constant, is_closed, is_action, is_label, is_step, is_run};
ghost use Rattle.golog_reports.specs.Views.{lent};

use golog_base::{is_name, is_number};

// The bytes before the first of these marks, and those behind it, where there is one.
pub(crate) fn cut(bytes: &[u8], mark: u8) -> (&[u8], Option<&[u8]>)
    ensures front { result.0.now ≡ (cut mark bytes.now).0 }
    ensures behind { lent result.1 ≡ (cut mark bytes.now).1 }
    ensures parts { parts mark bytes.now ≡ result.0.now ∷ parts_behind mark (lent result.1) }
    ensures less { length_behind (lent result.1) ≤ length bytes.now }
{
    match place_of(bytes, mark) {
        Some(place) => (&bytes[..place], Some(&bytes[place + 1..])),
        None => (bytes, None),
    }
}

// The place of the first of these marks.
fn place_of(bytes: &[u8], mark: u8) -> Option<usize>
    ensures { result ≡ position (λ byte. byte == mark) bytes.now }
{
    bytes.iter().position(|byte| *byte == mark)
}

pub(crate) fn is_constant(word: &[u8]) -> bool
    ensures { result ≡ is_constant word.now }
{
    is_name(word) || is_number(word)
}

// Whether the parts between the commas are constants.
fn are_constants(text: &[u8]) -> bool
    ensures { result ≡ list_all is_constant (parts 44 text.now) }
{
    let (mut part, mut behind) = cut(text, b',');
    while let Some(rest) = behind {
        if !is_constant(part) {
            return false;
        }
        let (next, others) = cut(rest, b',');
        part = next;
        behind = others;
    }
    is_constant(part)
}

// Whether something is behind a mark, and it is empty.
fn is_nothing(behind: Option<&[u8]>) -> bool
    ensures { result ≡ option_map_or is_empty (lent behind.entry) false }
{
    match behind {
        Some(rest) => rest.is_empty(),
        None => false,
    }
}

// Whether the text is constants with commas between them, and a closing bracket.
#[tactic(auto, unfolding(crate::specs::Forms::is_closed))]
fn is_closed(text: &[u8]) -> bool
    ensures { result ≡ is_closed text.now }
{
    let (constants, behind) = cut(text, b')');
    is_nothing(behind) && are_constants(constants)
}

// Whether the text, if there is one, is constants with commas between them, and a closing bracket.
fn is_closed_or_none(text: Option<&[u8]>) -> bool
    ensures { result ≡ option_map_or is_closed (lent text.entry) true }
{
    match text {
        Some(text) => is_closed(text),
        None => true,
    }
}

// Whether the word is a name, or a name and constants in brackets.
#[tactic(auto, unfolding(crate::specs::Forms::is_action))]
pub(crate) fn is_action(word: &[u8]) -> bool
    ensures { result ≡ is_action word.now }
{
    let (name, args) = cut(word, b'(');
    is_name(name) && is_closed_or_none(args)
}

// Whether the word is `-` or an action.
fn is_label(word: &[u8]) -> bool
    ensures { result ≡ is_label word.now }
{
    word == b"-".as_slice() || is_action(word)
}

// Whether the text is a space and a label.
fn is_step(text: &[u8]) -> bool
    ensures { result ≡ is_step text.now }
{
    match text.split_first() {
        Some((space, label)) => *space == b' ' && is_label(label),
        None => false,
    }
}

// Whether the text is steps with semicolons between them.
#[tactic(auto, unfolding(crate::specs::Forms::is_run))]
pub(crate) fn is_run(text: &[u8]) -> bool
    ensures { result ≡ is_run text.now }
{
    let (mut part, mut behind) = cut(text, b';');
    while let Some(rest) = behind {
        if !is_step(part) {
            return false;
        }
        let (next, others) = cut(rest, b';');
        part = next;
        behind = others;
    }
    is_step(part)
}
