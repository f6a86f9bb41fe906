//! The entries so far for clauses alone, so that what is counted is told by the list of what is
//! kept: a chain of snapshots, which takes no memory.
ghost use Rattle.std.specs.Prelude.{◌≡◌, [], ◌∷◌, ◌++◌};

use golog_semantics::Entry;
use std::marker::Model;
use std::mem;
use std::snapshot::Snapshot;

/// A list: its last entry, and what clauses remember of those before it.
#[derive(Drop)]
enum Links {
    Empty,
    After(Snapshot<Links>, Entry),
}

/// The entries so far, for clauses alone: it takes no memory. Contracts see it as their list.
#[derive(Drop)]
pub(crate) struct Trail {
    links: Snapshot<Links>,
}

impl Model for Trail {
    ghost use Rattle.std.specs.Prelude.{List};
    ghost use Rattle.golog_semantics.specs.declared.journal.Entry.{Entry};
    ghost use Rattle.golog_journal.specs.Trails.{entries_of};

    ghost Value = { List Entry };

    ghost view = { λ trail. entries_of trail.links.value };
}

impl Trail {
    /// No entry.
    pub(crate) fn new() -> Trail
        ensures { result ≡ [] }
    {
        Trail {
            links: Snapshot::of(&Links::Empty),
        }
    }

    /// One more entry.
    pub(crate) fn add(&mut self, entry: Entry)
        ensures { self.new ≡ self.old ++ entry ∷ [] }
    {
        let before = mem::replace(&mut self.links, Snapshot::of(&Links::Empty));
        self.links = Snapshot::of(&Links::After(before, entry));
    }
}
