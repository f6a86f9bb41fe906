//! Tests of calls of the crates below, over agents that are read from files.
#![tactic(auto)]

#[cfg(test)]
mod agents;
#[cfg(test)]
mod asserting;
#[cfg(test)]
mod blockless;
#[cfg(test)]
mod blocks;
#[cfg(test)]
mod conditions;
#[cfg(test)]
mod decisions;
#[cfg(test)]
mod ends;
#[cfg(test)]
mod fronts;
#[cfg(test)]
mod journals;
#[cfg(test)]
mod limits;
#[cfg(test)]
mod lines;
#[cfg(test)]
mod modes;
#[cfg(test)]
mod numbered;
#[cfg(test)]
mod numbers;
#[cfg(test)]
mod prints;
#[cfg(test)]
mod puts;
#[cfg(test)]
mod regressions;
#[cfg(test)]
mod searches;
#[cfg(test)]
mod steps;
#[cfg(test)]
mod texts;
#[cfg(test)]
mod trees;
#[cfg(test)]
mod truths;
#[cfg(test)]
mod values;
#[cfg(test)]
mod watched;
#[cfg(test)]
mod worlds;
