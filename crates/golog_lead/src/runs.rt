//! `Runs`, the runs that the steps of a journal begin, in room that was reserved for them.
ghost use Rattle.std.specs.Prelude.{◌≡◌, ◌<◌, [], ◌∷◌, ◌++◌, length, IfOk, IsSome};
ghost use Rattle.golog_semantics.specs.Journal.{limit};
ghost use Rattle.golog_semantics.specs.InlineText.{placed_run};

use golog_base::{List, NoMemory};
use golog_journal::LIMIT;
use golog_semantics::PlacedRun;
use golog_tree::Label;
use std::alloc::Global;
use std::marker::Model;

/// The runs. Contracts see them as their list.
#[derive(Drop)]
pub(crate) struct Runs {
    runs: Vec<PlacedRun>,
}

impl Model for Runs {
    ghost use Rattle.std.specs.Prelude.{List, ◌≤◌, vec_capacity};
    ghost use Rattle.golog_semantics.specs.declared.journal.PlacedRun.{PlacedRun};
    ghost use Rattle.golog_semantics.specs.Journal.{limit};

    ghost Value = { List PlacedRun };

    ghost view = { λ runs. runs.runs.items };

    ghost invariant = { λ runs. limit ≤ vec_capacity runs.runs };
}

impl Runs {
    /// No run, and room for one at each entry that counts.
    pub(crate) fn new(alloc: Global) -> Result<Runs, NoMemory>
        ensures { IfOk result (λ runs. runs ≡ []) }
    {
        let runs = Vec::with_capacity(alloc, LIMIT as usize)?;
        Ok(Runs { runs })
    }

    /// Keeps the run that begins at this place, if one does, where there is room, as there is in each journal.
    pub(crate) fn keep(&mut self, place: u32, run: Option<List<Label>>)
        ensures { (IsSome run → length self.old < limit) → self.new ≡ self.old ++ placed_run place run }
    {
        if let Some(labels) = run {
            self.push(PlacedRun { place, labels });
        }
    }

    // Keeps a run, where there is room.
    fn push(&mut self, run: PlacedRun)
        ensures { length self.old < limit → self.new ≡ self.old ++ run ∷ [] }
    {
        if self.runs.len() < LIMIT as usize {
            self.runs.push_reserved(run);
        }
    }

    /// The runs, handed out.
    pub(crate) fn into_list(self) -> List<PlacedRun>
        ensures { result ≡ self }
    {
        List::from_vec(self.runs)
    }
}
