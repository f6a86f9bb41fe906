// `print_form`: the text of a form, with one space between items. It reads back to the form, places
// aside.
ghost use Rattle.std.specs.Prelude.{◌≡◌, ◌++◌, IfOk, OnOk, IsTrue};
ghost use Rattle.golog_form.specs.Printing.{text_of, spaced_texts, atoms_fit, ReadsBack};

use crate::form::Form;
use golog_base::{Bytes, NoMemory};
use std::alloc::Global;

#[cycle(add_form)]
fn add_form(text: &mut Bytes, form: &Form) -> Result<(), NoMemory>
    ensures { OnOk result (text.new ≡ text.old ++ text_of form.now) }
{
    match form {
        Form::Atom { text: atom, .. } => text.extend(atom.as_slice()),
        Form::Group { items, .. } => {
            text.push(b'(')?;
            add_items(text, items.as_slice())?;
            text.push(b')')
        }
    }
}

// Adds the items with one space between them.
#[cycle(add_form)]
fn add_items(text: &mut Bytes, items: &[Form]) -> Result<(), NoMemory>
    ensures { OnOk result (text.new ≡ text.old ++ spaced_texts items.now) }
{
    let [first, others @ ..] = items else {
        return Ok(());
    };
    add_form(text, first)?;
    for other in others {
        text.push(b' ')?;
        add_form(text, other)?;
    }
    Ok(())
}

/// The text of a form, with one space between items and no comments. It reads back to the form but for its
/// places, limits of size and nesting aside. Each atom's text has only bytes of atoms, at least one.
#[tactic(auto, using(crate::proofs::ReadBack::reads_back))]
pub fn print_form(alloc: Global, form: &Form) -> Result<Bytes, NoMemory>
    requires { IsTrue (atoms_fit form.now) }
    ensures text { IfOk result (λ text. text ≡ text_of form.now) }
    ensures back { IfOk result (λ text. ReadsBack text form.now) }
{
    let mut text = Bytes::new(alloc);
    add_form(&mut text, form)?;
    Ok(text)
}
