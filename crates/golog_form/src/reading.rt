// `read_form`: the limit of 1,048,576 bytes is tested first, and then the form is read that the
// bytes spell, or its first refusal.
ghost use Rattle.std.specs.Prelude.{◌≤◌, length, IfOk, IsTrue, Ok};
ghost use Rattle.golog_base.specs.Files.{file_limit};
ghost use Rattle.golog_form.specs.Printing.{atoms_fit};
ghost use Rattle.golog_form.specs.Places.{IsInOrder};
ghost use Rattle.golog_form.specs.Spelling.{Spells};
ghost use Rattle.golog_form.specs.Faults.{IsAnswer};
ghost use Rattle.golog_form.specs.Gives.{Gives};
ghost use Rattle.golog_form.specs.declared.form.Form.{Form};

use crate::fault::FormFault;
use crate::form::Form;
use crate::parser::parse;
use std::alloc::Global;

// How many bytes a text may have.
const LIMIT: usize = 1_048_576;

/// The form that the bytes spell, all of them, with separators and comments around it. They are refused
/// exactly where a code of [`FormFault::Refused`] fits: 5 first, and else the one with the least place, and
/// at one place the least code.
#[tactic(auto, using(crate::proofs::Laws::laws))]
pub fn read_form(alloc: Global, bytes: &[u8]) -> Result<Form, FormFault>
    // What is read is spelled so.
    ensures found { IfOk result (Spells bytes.now) }
    // Its parts stand in order, each within the list that holds it.
    ensures placed { IfOk result IsInOrder }
    // What is read can be printed.
    ensures printable { IfOk result (λ form. IsTrue (atoms_fit form)) }
    // What is spelled so is read, unless memory runs out.
    ensures only { (form : Form)
        → length bytes.now ≤ file_limit → Spells bytes.now form → Gives result (Ok form) }
    // Each code comes exactly where it is the first that fits, and a form exactly where none fits.
    ensures codes { IsAnswer bytes.now result }
{
    if bytes.len() > LIMIT {
        return Err(FormFault::Refused {
            why: 5,
            at: LIMIT as u32,
        });
    }
    parse(alloc, bytes)
}
