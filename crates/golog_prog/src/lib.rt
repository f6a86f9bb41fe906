//! The procedures and the program that an agent's form spells over its theory, or the first refusal.
//!
//! `program_of` reads the `proc` and `main` items of an agent's form over its theory into a
//! `DraftProgram`. The parts of `seq`, `choice`, `conc` and `prio` stay one list, which `check`
//! nests to the right; the interrupt forms are written out; words in term places stay words.
//!
//! Each item is read over the theory as far as it is declared before it (`Indexed::before`), whose
//! lists are the first parts of the theory's, so that all numbers are the theory's.
#![tactic(auto)]

mod built_in;
mod callees;
mod items;
mod keyword;
mod procedures;
mod programs;
mod written;

pub use items::{NO_MAIN, program_of};
