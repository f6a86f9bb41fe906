//! What is counted for each device: how many commands it has, how many of their results are still to
//! come, the number at its last Rest, whether it is open.
ghost use Rattle.std.specs.Prelude.{◌≡◌, ◌<◌, ◌≤◌, ◌+◌, length, not, if◌then◌else◌, ◌&&◌, Some, None, IfOk, All, true, false, ◌==◌};
ghost use Rattle.std.specs.Option.{option_map_or};
ghost use Rattle.golog_semantics.specs.Journal.{is_close as closes, limit};

use golog_base::NoMemory;
use golog_semantics::Entry;
use std::alloc::Global;

/// What is counted for a device.
#[derive(Clone, Copy)]
pub(crate) struct Standing {
    /// How many commands it has.
    pub(crate) commands: u32,
    /// Of how many of them the results are still to come.
    pub(crate) outstanding: u32,
    /// How many commands it had taken at its last entry, where that is a Rest.
    pub(crate) rested: Option<u32>,
    pub(crate) is_open: bool,
}

impl Standing {
    ghost use Rattle.golog_journal.specs.Tallies.{rested_after, outstanding_after};

    /// Nothing is counted yet.
    pub(crate) fn new() -> Standing
        ensures commands { result.commands ≡ 0 }
        ensures outstanding { result.outstanding ≡ 0 }
        ensures rested { result.rested ≡ None }
        ensures is_open { result.is_open ≡ true }
    {
        Standing {
            commands: 0,
            outstanding: 0,
            rested: None,
            is_open: true,
        }
    }

    /// One more command, which asks for a result or doesn't.
    pub(crate) fn add_command(&mut self, asks: bool)
        requires commands { self.old.commands < limit }
        requires outstanding { self.old.outstanding ≤ self.old.commands }
        ensures commands { self.new.commands ≡ self.old.commands + 1 }
        ensures outstanding { self.new.outstanding ≡ self.old.outstanding + (if asks then 1 else 0) }
        ensures rested { self.new.rested ≡ self.old.rested }
        ensures is_open { self.new.is_open ≡ self.old.is_open }
    {
        self.commands += 1;
        self.outstanding += u32::from(asks);
    }

    /// Whether its last entry is a Rest with so many commands taken.
    pub(crate) fn is_resting(&self, taken: u32) -> bool
        ensures { result ≡ option_map_or (λ rested. rested == taken) self.now.rested false }
    {
        match self.rested {
            Some(rested) => rested == taken,
            None => false,
        }
    }

    // How many results are still to come, after one more entry of the device.
    fn outstanding_with(&self, entry: Entry) -> u32
        ensures { result ≡ outstanding_after self.now.outstanding entry }
    {
        match entry {
            Entry::Sense { .. } => self.outstanding.saturating_sub(1),
            Entry::Do { .. }
            | Entry::Test
            | Entry::Exo { .. }
            | Entry::Rest { .. }
            | Entry::Close { .. }
            | Entry::End { .. } => self.outstanding,
        }
    }

    /// One more entry of the device.
    pub(crate) fn note(&mut self, entry: Entry)
        ensures commands { self.new.commands ≡ self.old.commands }
        ensures outstanding { self.new.outstanding ≡ outstanding_after self.old.outstanding entry }
        ensures rested { self.new.rested ≡ rested_after (Some entry) }
        ensures is_open { self.new.is_open ≡ (self.old.is_open && not (closes entry)) }
    {
        self.rested = match entry {
            Entry::Rest { taken, .. } => Some(taken),
            _ => None,
        };
        self.is_open &= !matches!(entry, Entry::Close { .. });
        self.outstanding = self.outstanding_with(entry);
    }
}

/// What is counted for each of so many devices at the start.
pub(crate) fn standings_of(alloc: Global, count: usize) -> Result<Vec<Standing>, NoMemory>
    ensures count { IfOk result (λ standings. length standings.items ≡ count) }
    ensures commands { IfOk result (λ standings. All (λ standing. standing.commands ≡ 0) standings.items) }
    ensures outstanding { IfOk result (λ standings. All (λ standing. standing.outstanding ≡ 0) standings.items) }
    ensures rested { IfOk result (λ standings. All (λ standing. standing.rested ≡ None) standings.items) }
    ensures is_open { IfOk result (λ standings. All (λ standing. standing.is_open ≡ true) standings.items) }
{
    let mut standings = Vec::new(alloc);
    for _ in 0..count {
        standings.push(Standing::new())?;
    }
    Ok(standings)
}
