//! Tests of a journal, and of runs with devices of the tests: beside each other and beside a program, and leads that
//! write.
#![tactic(auto)]

#[cfg(test)]
mod asserting;
#[cfg(test)]
mod begins;
#[cfg(test)]
mod journals;
#[cfg(test)]
mod meeting;
#[cfg(test)]
mod posts;
#[cfg(test)]
mod runs;
#[cfg(test)]
mod sides;
#[cfg(test)]
mod turns;
#[cfg(test)]
mod written;
