//! `PlanRecord`, the trait of what records the entries of a program that follows plans one by one, with the plans that
//! they begin.
ghost use Rattle.std.specs.Prelude.{◌≡◌, Option, [], ◌∷◌, ◌++◌, option_copied};
ghost use Rattle.golog_journal.specs.Boards.{IsBoardList};
ghost use Rattle.golog_journal.specs.Leading.{Outlet};
ghost use Rattle.golog_plan.specs.Keeping.{PlanCourse, with_list};
ghost use Rattle.golog_plan.specs.Next.{tail_at};

use crate::plan_core::PlanCore;
use golog_base::Bytes;
use golog_semantics::Entry;

/// Records the entries of a program that follows plans, one by one, with the plans that they begin.
pub trait PlanRecord {
    // What it writes to, if to anything.
    ghost outlet: { Self → Option Outlet };

    // What it has recorded are these entries of the agent, and the plans that they begin.
    ghost stands: { PlanCourse → Self → Type 0 };

    /// Records the entry that comes next, with the end of its line, where it begins a plan. Takes no memory.
    fn keep(&mut self, core: &PlanCore<'_>, entry: Entry, tail: Option<&Bytes>)
        requires lawful { IsBoardList core.now.agent (core.now.list ++ entry ∷ []) }
        requires tail { option_copied tail ≡ tail_at core.now entry }
        ensures outlet { outlet self.new ≡ outlet self.old }
        ensures stands { stands core.now self.old
            → stands (with_list core.now (core.now.list ++ entry ∷ [])) self.new };
}
