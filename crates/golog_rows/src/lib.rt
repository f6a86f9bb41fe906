//! The rows of a reader's tables: which of those that fit comes first, and which is the least.
//!
//! What the readers and the check have in common. A part of a file is read from left to right; a
//! table says what is tested on the way, one row a test, each with a code and a place
//! (`specs/Reading`). Rows stand by their places and at one place by their codes, and the least
//! refusal is that of the first row in this order that fits (`specs/Order`). What a reader answers
//! by its table is said once, whatever its faults are: each reader says only which code and place
//! its faults have (`specs/Answers`).
//!
//! `least` keeps the lesser of refusals that are gathered one after another, for the check. For
//! contracts and proofs golog_form, golog_theory, golog_prog, golog_check, golog_script,
//! golog_reports and the crates that speak of their refusals cite the definitions and laws here.
#![tactic(auto)]

mod least;

pub use least::{Refusal, least_of, lesser};
