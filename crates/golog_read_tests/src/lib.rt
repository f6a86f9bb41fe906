//! Tests of the readers: theories, conditions and programs, and what they refuse; and of the files, the sinks and the
//! names below them.
//!
//! What they refuse stands in the cases of golog_cases.
#![tactic(auto)]

#[cfg(test)]
mod asserting;
#[cfg(test)]
mod files;
#[cfg(test)]
mod forms;
#[cfg(test)]
mod parts;
#[cfg(test)]
mod programs;
#[cfg(test)]
mod reading;
#[cfg(test)]
mod refusals;
#[cfg(test)]
mod sinks;
#[cfg(test)]
mod words;
