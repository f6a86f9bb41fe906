//! Tests of the top call: its words, files in memory, what is written and the exit status.
//!
//! Here stands what a case of golog_cases can't say.
#![tactic(auto)]

#[cfg(test)]
mod actors;
#[cfg(test)]
mod asserting;
#[cfg(test)]
mod bad_devices;
#[cfg(test)]
mod calls;
#[cfg(test)]
mod commands;
#[cfg(test)]
mod faults;
#[cfg(test)]
mod own_devices;
#[cfg(test)]
mod replays;
#[cfg(test)]
mod sleepers;
#[cfg(test)]
mod slots;
#[cfg(test)]
mod tables;
#[cfg(test)]
mod threads;
#[cfg(test)]
mod written;
