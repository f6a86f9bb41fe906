//! `Kept`, a record that keeps the entries and the runs that they begin.
ghost use Rattle.std.specs.Prelude.{◌≡◌, ◌≤◌, [], ◌∷◌, ◌++◌, length, None, IfOk};
ghost use Rattle.golog_semantics.specs.Journal.{longest};

use crate::runs::Runs;
use crate::{Record, UnderWay};
use golog_base::{List, NoMemory, both};
use golog_journal::{LONGEST, Report};
use golog_semantics::Entry;
use golog_tree::Label;
use std::alloc::Global;
use std::marker::Model;

/// One entry more than the longest journal has: what comes behind a journal fits, however long it is.
const ROOM: usize = LONGEST as usize + 1;

/// Entries, in room that was reserved for them. Contracts see them as their list.
#[derive(Drop)]
struct Entries {
    entries: Vec<Entry>,
}

impl Model for Entries {
    ghost use Rattle.std.specs.Prelude.{List, ◌<◌, vec_capacity};
    ghost use Rattle.golog_semantics.specs.declared.journal.Entry.{Entry};
    ghost use Rattle.golog_semantics.specs.Journal.{longest};

    ghost Value = { List Entry };

    ghost view = { λ entries. entries.entries.items };

    ghost invariant = { λ entries. longest < vec_capacity entries.entries };
}

impl Entries {
    // No entry, and room for the longest journal and one more.
    fn new(alloc: Global) -> Result<Entries, NoMemory>
        ensures { IfOk result (λ entries. entries ≡ []) }
    {
        let entries = Vec::with_capacity(alloc, ROOM)?;
        Ok(Entries { entries })
    }

    // Keeps one more entry, where there is room, as there is in each journal.
    fn keep(&mut self, entry: Entry)
        ensures { length self.old ≤ longest → self.new ≡ self.old ++ entry ∷ [] }
    {
        if self.entries.len() < ROOM {
            self.entries.push_reserved(entry);
        }
    }

    // The entries, handed out.
    fn into_list(self) -> List<Entry>
        ensures { result ≡ self }
    {
        List::from_vec(self.entries)
    }
}

/// What a runner keeps: the entries, and the runs that its steps began.
#[derive(Drop)]
pub struct Kept {
    entries: Entries,
    runs: Runs,
}

impl Kept {
    /// Nothing, with room for the longest journal and its runs.
    pub fn new(alloc: Global) -> Result<Kept, NoMemory>
        ensures entries { IfOk result (λ kept. kept.entries ≡ []) }
        ensures runs { IfOk result (λ kept. kept.runs ≡ []) }
    {
        let (entries, runs) = both(Entries::new(alloc), Runs::new(alloc))?;
        Ok(Kept { entries, runs })
    }

    /// What was kept, as a report.
    pub fn into_report(self) -> Report
        ensures { result ≡ record { entries = self.entries; runs = self.runs; start = None } }
    {
        Report {
            entries: self.entries.into_list(),
            runs: self.runs.into_list(),
            start: None,
        }
    }
}

impl Record for Kept {
    ghost use Rattle.std.specs.Prelude.{None};
    ghost use Rattle.golog_lead.specs.Recording.{IsKept};

    ghost outlet = { λ _. None };

    ghost stands = { λ agent list kept. IsKept agent list kept.entries kept.runs };

    fn keep<C: UnderWay>(&mut self, core: &C, entry: Entry, run: Option<List<Label>>) {
        self.entries.keep(entry);
        self.runs.keep(core.len(), run);
    }
}
