//! Tests of searches for plans that branch on what is sensed, over agents that are read from files.
#![tactic(auto)]

#[cfg(test)]
mod agents;
#[cfg(test)]
mod asserting;
#[cfg(test)]
mod plans;
