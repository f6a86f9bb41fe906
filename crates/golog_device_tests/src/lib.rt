//! Tests of devices and of turns at a lock.
#![tactic(auto)]

#[cfg(test)]
mod asserting;
#[cfg(test)]
mod devices;
#[cfg(test)]
mod turns;
