//! The entries of a journal in room that was reserved for them, and which of their results stand.
ghost use Rattle.std.specs.Prelude.{◌≡◌, ◌≤◌, ◌<◌, ◌||◌, ℕ, [], ◌∷◌, ◌++◌, length, drop, true, false, IfOk, slice_index_or};
ghost use Rattle.std.specs.List.{list_any};
ghost use Rattle.golog_semantics.specs.Journal.{is_result_of, longest};

use crate::LONGEST;
use golog_base::{List, NoMemory};
use golog_semantics::Entry;
use std::alloc::Global;
use std::marker::Model;

/// The entries. Contracts see it as their list.
#[derive(Drop)]
pub(crate) struct Ledger {
    entries: Vec<Entry>,
    /// Whether the result of the entry at each place stands.
    answered: Vec<bool>,
}

impl Model for Ledger {
    ghost use Rattle.std.specs.Prelude.{List, ◌≤◌, vec_capacity};
    ghost use Rattle.golog_semantics.specs.declared.journal.Entry.{Entry};
    ghost use Rattle.golog_semantics.specs.Journal.{longest};
    ghost use Rattle.golog_journal.specs.Ledgers.{AreAnswered};

    ghost Value = { List Entry };

    ghost view = { λ ledger. ledger.entries.items };

    ghost invariant = { λ ledger.
        (longest ≤ vec_capacity ledger.entries)
        × (longest ≤ vec_capacity ledger.answered)
        × AreAnswered ledger.entries.items ledger.answered.items };
}

/// Marks the command whose result the entry is.
fn mark(answered: &mut [bool], entry: Entry)
    requires { (place : ℕ) → is_result_of place entry ≡ true → place < length answered.old }
    ensures { (place : ℕ) → slice_index_or answered.new place false ≡ (slice_index_or answered.old place false || is_result_of place entry) }
{
    if let Entry::Sense { place, .. } = entry {
        answered[place as usize] = true;
    }
}

impl Ledger {
    /// No entry, and room for 1,048,593.
    pub(crate) fn new(alloc: Global) -> Result<Ledger, NoMemory>
        ensures { IfOk result (λ ledger. ledger ≡ []) }
    {
        let entries = Vec::with_capacity(alloc, LONGEST as usize)?;
        let answered = Vec::with_capacity(alloc, LONGEST as usize)?;
        Ok(Ledger { entries, answered })
    }

    /// The entries from a place on.
    pub(crate) fn since(&self, place: u32) -> &[Entry]
        requires { place ≤ length self.now }
        ensures { result.now ≡ drop place self.now }
    {
        &self.entries[place as usize..]
    }

    /// Whether the result of the entry at a place stands.
    pub(crate) fn is_answered(&self, place: u32) -> bool
        requires { place < length self.now }
        ensures { result ≡ list_any (is_result_of place) self.now }
    {
        self.answered[place as usize]
    }

    /// The entries, handed out.
    pub(crate) fn into_entries(self) -> List<Entry>
        ensures { result ≡ self }
    {
        List::from_vec(self.entries)
    }

    /// Adds an entry. A result is of an earlier entry.
    pub(crate) fn push(&mut self, entry: Entry)
        requires room { length self.old < longest }
        requires earlier { (place : ℕ) → is_result_of place entry ≡ true → place < length self.old }
        ensures { self.new ≡ self.old ++ entry ∷ [] }
    {
        mark(&mut self.answered, entry);
        self.answered.push_reserved(false);
        self.entries.push_reserved(entry);
    }
}
