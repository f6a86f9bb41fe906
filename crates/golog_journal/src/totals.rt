//! How many entries there are, how many of them are counted, and whether the end stands.
ghost use Rattle.std.specs.Prelude.{◌≡◌, ◌≤◌, ◌<◌, [], ◌∷◌, ◌++◌, length};
ghost use Rattle.golog_semantics.specs.Journal.{is_counted as counts, is_end as ends, count as count_of, has_end as has_ended, longest};

use crate::trail::Trail;
use golog_semantics::Entry;
use std::marker::Model;

/// The numbers of the entries, and whether one of them is the end. Contracts see it as their list.
#[derive(Drop)]
pub(crate) struct Totals {
    trail: Trail,
    all: u32,
    /// How many entries are counted.
    counted: u32,
    ended: bool,
}

impl Model for Totals {
    ghost use Rattle.std.specs.Prelude.{List, ◌≡◌, ◌≤◌, length};
    ghost use Rattle.golog_semantics.specs.declared.journal.Entry.{Entry};
    ghost use Rattle.golog_semantics.specs.Journal.{count, has_end, longest};

    ghost Value = { List Entry };

    ghost view = { λ totals. totals.trail };

    ghost invariant = { λ totals.
        (totals.all ≡ length totals.trail)
        × (totals.counted ≡ count totals.trail)
        × (totals.ended ≡ has_end totals.trail)
        × (length totals.trail ≤ longest) };
}

/// Whether the entry counts: all do but those that close a device or end the program.
pub fn is_counted(entry: Entry) -> bool
    ensures { result ≡ counts entry }
{
    match entry {
        Entry::Close { .. } | Entry::End { .. } => false,
        Entry::Do { .. }
        | Entry::Test
        | Entry::Exo { .. }
        | Entry::Sense { .. }
        | Entry::Rest { .. } => true,
    }
}

/// Whether the entry ends the program.
fn is_end(entry: Entry) -> bool
    ensures { result ≡ ends entry }
{
    match entry {
        Entry::End { .. } => true,
        Entry::Do { .. }
        | Entry::Test
        | Entry::Exo { .. }
        | Entry::Sense { .. }
        | Entry::Rest { .. }
        | Entry::Close { .. } => false,
    }
}

impl Totals {
    /// No entry.
    pub(crate) fn new() -> Totals
        ensures { result ≡ [] }
    {
        Totals {
            trail: Trail::new(),
            all: 0,
            counted: 0,
            ended: false,
        }
    }

    /// The number of entries.
    pub(crate) fn len(&self) -> u32
        ensures number { result ≡ length self.now }
        ensures most { length self.now ≤ longest }
    {
        self.all
    }

    /// How many entries are counted.
    pub(crate) fn count(&self) -> u32
        ensures { result ≡ count_of self.now }
    {
        self.counted
    }

    /// Whether the program has ended.
    pub(crate) fn has_end(&self) -> bool
        ensures { result ≡ has_ended self.now }
    {
        self.ended
    }

    /// One more entry.
    pub(crate) fn add(&mut self, entry: Entry)
        requires { length self.old < longest }
        ensures { self.new ≡ self.old ++ entry ∷ [] }
    {
        self.trail.add(entry);
        self.all += 1;
        self.counted += u32::from(is_counted(entry));
        self.ended |= is_end(entry);
    }
}
