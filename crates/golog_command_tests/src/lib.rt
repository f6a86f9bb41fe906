//! Tests of the calls that commands stand on, over agents that are read from files.
//!
//! What the commands say stands in the cases of golog_cases.
#![tactic(auto)]

#[cfg(test)]
mod asserting;
#[cfg(test)]
mod demos;
#[cfg(test)]
mod scripts;
#[cfg(test)]
mod words;
