//! The text of a program, and of a condition, as a file of their agent could say them.
//!
//! Only golog_trace and tests call `print_prog` and `print_cond`, so they stand apart from the reader, and no other
//! program waits for them.
//!
//! `specs/ReadBack` says what a printed program reads back to, by the definitions of golog_prog and
//! by golog_check's `prog_in`: so golog_print stands on the definitions and laws of both, and on no
//! code of them.
#![tactic(auto)]

mod cond_text;
mod laws;
mod named;
mod prog_text;

pub use cond_text::print_cond;
pub use laws::ranges_fit;
pub use prog_text::print_prog;
