//! `Record`, the trait of what records the entries of a program under way one by one, with the runs
//! that they begin.
ghost use Rattle.std.specs.Prelude.{◌≡◌, ◌<◌, Option, [], ◌∷◌, ◌++◌, IsTrue};
ghost use Rattle.golog_semantics.specs.Journal.{Journal, count, limit};
ghost use Rattle.golog_tree.specs.declared.agent.Agent.{Agent};
ghost use Rattle.golog_journal.specs.Boards.{IsBoardList};
ghost use Rattle.golog_journal.specs.Leading.{Outlet};
ghost use Rattle.golog_lead.specs.Keeping.{begun_by};
ghost use Rattle.golog_lead.specs.Run.{is_step_entry};

use crate::UnderWay;
use golog_base::List;
use golog_semantics::Entry;
use golog_tree::Label;

/// Records the entries of a program under way, one by one, with the runs that they begin.
pub trait Record {
    // What it writes to, if to anything.
    ghost outlet: { Self → Option Outlet };

    // What it has recorded are these entries of the agent, and the runs that they begin.
    ghost stands: { Agent → Journal → Self → Type 0 };

    /// Records the entry that comes next, and the run that begins with it, if one does. Takes no memory.
    fn keep<C: UnderWay>(&mut self, core: &C, entry: Entry, run: Option<List<Label>>)
        requires lawful { IsBoardList (C.course core.now).agent ((C.course core.now).list ++ entry ∷ []) }
        requires room { IsTrue (is_step_entry entry) → count (C.course core.now).list < limit }
        requires run { run ≡ begun_by (C.course core.now).agent (C.course core.now).list entry }
        ensures outlet { outlet self.new ≡ outlet self.old }
        ensures stands { stands (C.course core.now).agent (C.course core.now).list self.old
            → stands (C.course core.now).agent ((C.course core.now).list ++ entry ∷ []) self.new };
}
