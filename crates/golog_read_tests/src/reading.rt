// Theories, programs and conditions that texts spell, for the tests.
use golog_form::{Form, read_form};
use golog_prog::program_of;
use golog_theory::{TheoryFault, condition_of, theory_of};
use golog_tree::{DraftCond, DraftProgram, DraftTheory};
use std::alloc::Global;

/// The theory that a text spells.
pub fn theory_in(alloc: Global, text: &[u8]) -> Result<DraftTheory, TheoryFault> {
    match read_form(alloc, text) {
        Ok(form) => {
            let read = theory_of(alloc, &form);
            drop(form);
            read
        }
        Err(_fault) => Err(TheoryFault::Memory),
    }
}

/// The program that a form spells over the theory that it spells.
fn program_over(alloc: Global, form: &Form) -> Result<DraftProgram, TheoryFault> {
    match theory_of(alloc, form) {
        Ok(theory) => {
            let read = program_of(alloc, &theory, form);
            drop(theory);
            read
        }
        Err(fault) => Err(fault),
    }
}

/// The program that a text spells.
pub fn program_in(alloc: Global, text: &[u8]) -> Result<DraftProgram, TheoryFault> {
    match read_form(alloc, text) {
        Ok(form) => {
            let read = program_over(alloc, &form);
            drop(form);
            read
        }
        Err(_fault) => Err(TheoryFault::Memory),
    }
}

/// The condition that a text spells over a theory.
pub fn condition_in(
    alloc: Global,
    theory: &DraftTheory,
    text: &[u8],
) -> Result<DraftCond, TheoryFault> {
    match read_form(alloc, text) {
        Ok(form) => {
            let read = condition_of(alloc, theory, &form);
            drop(form);
            read
        }
        Err(_fault) => Err(TheoryFault::Memory),
    }
}
