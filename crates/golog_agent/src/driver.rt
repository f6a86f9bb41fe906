//! `Driver`, a core and what records its entries, driven over any board.
ghost use Rattle.std.specs.Prelude.{◌≡◌, ◌<◌, ◌≤◌, IfSome, IsTrue, true, false, [], ◌∷◌, ◌++◌, length, unwrap_or};
ghost use Rattle.std.specs.List.{list_any};
ghost use Rattle.golog_semantics.specs.Journal.{has_end, count, limit, is_counted, longest};
ghost use Rattle.golog_semantics.specs.InlineText.{report_of};
ghost use Rattle.golog_semantics.specs.Online.{IsOnlineSoFar};
ghost use Rattle.golog_semantics.specs.Progress.{left_after};
ghost use Rattle.golog_journal.specs.Boards.{IsBoardList};
ghost use Rattle.golog_journal.specs.Commits.{IsOfProgram};
ghost use Rattle.golog_journal.specs.Growing.{program};
ghost use Rattle.golog_journal.specs.Leading.{IsBehind, is_of_program};
ghost use Rattle.golog_lead.specs.Keeping.{begun_by, KeepsRules};
ghost use Rattle.golog_agent.specs.Planned.{IsNextStep};
ghost use Rattle.golog_lead.specs.Recording.{Records};
ghost use Rattle.golog_lead.specs.Run.{is_step_entry};
ghost use Rattle.golog_agent.specs.UnderWay.{left_of, step_run};
ghost use Rattle.golog_lead.specs.Seeing.{CommitGives, Follows, IsCurrent, IsOver};
ghost use Rattle.golog_agent.specs.Turns.{AttemptIs, MayAnswer, TurnIs};

use crate::plan::Plan;
use crate::under_way::Core;
use golog_base::List;
use golog_journal::{Board, Commit};
use golog_lead::{Record, Stepped, UnderWay, entry_of};
use golog_semantics::{Answer, Entry, Move};
use golog_tree::{Label, Prog};
use golog_ways::{Expand, Plain};

/// A program under way, and what records its entries: it copies what devices post, and commits what is decided at
/// the whole list that it has seen.
#[derive(Drop)]
pub struct Driver<'a, R: Record, X: Expand = Plain> {
    pub(crate) core: Core<'a>,
    pub(crate) record: R,
    /// Who lists the steps of many programs while the program searches.
    pub(crate) expand: X,
}

/// The program that a step leaves and the run that it begins, where there is a step.
fn parts_of(step: Option<Move>) -> (Option<Prog>, Option<List<Label>>)
    ensures left { result.0 ≡ left_of step }
    ensures run { result.1 ≡ step_run step }
{
    match step {
        Some(step) => (Some(step.left), step.run),
        None => (None, None),
    }
}

impl<'a, R: Record, X: Expand> Driver<'a, R, X> {
    // Takes one more entry, which keeps the rules, and the step whose entry it is, if it is one.
    fn take(&mut self, entry: Entry, step: Option<Move>)
        requires lawful { IsBoardList self.old.core.agent (self.old.core.list ++ entry ∷ []) }
        requires room { IsTrue (is_step_entry entry) → count self.old.core.list < limit }
        requires online { KeepsRules self.old.core.agent self.old.core.list entry }
        requires left { left_after self.old.core.agent (self.old.core.list ++ entry ∷ [])
            ≡ unwrap_or (left_of step) (left_after self.old.core.agent self.old.core.list) }
        requires run { step_run step ≡ begun_by self.old.core.agent self.old.core.list entry }
        requires next { IfSome step (IsNextStep self.old.core.agent self.old.core.list) }
        ensures core { self.new.core ≡ record { agent = self.old.core.agent; list = self.old.core.list ++ entry ∷ [] } }
        ensures recorded { Records R.outlet R.stands self.old.core self.old.record self.new.core self.new.record }
    {
        let (left, run) = parts_of(step);
        self.record.keep(&self.core, entry, run);
        self.core.take(entry, left);
    }

    // Takes what devices have posted.
    fn take_all(&mut self, entries: &[Entry])
        requires lawful { IsBoardList self.old.core.agent (self.old.core.list ++ entries.now) }
        requires of_devices { list_any is_of_program entries.now ≡ false }
        ensures core { self.new.core ≡ record { agent = self.old.core.agent; list = self.old.core.list ++ entries.now } }
        ensures recorded { Records R.outlet R.stands self.old.core self.old.record self.new.core self.new.record }
    {
        for entry in entries {
            self.take(*entry, None);
        }
    }

    // Copies all that it lacks.
    pub(crate) fn catch_up<B: Board>(&mut self, board: &mut B)
        requires over { IsOver self.old.core (B.sight board.old) }
        ensures same { self.new.core.agent ≡ self.old.core.agent }
        ensures current { IsCurrent self.new.core (B.sight board.new) }
        ensures follows { Follows (B.sight board.old) (B.sight board.new) [] }
        ensures recorded { Records R.outlet R.stands self.old.core self.old.record self.new.core self.new.record }
    {
        let mut more = board.has_more(self.core.len());
        while more {
            let batch = board.copy_since(self.core.len());
            self.take_all(&batch.entries[..batch.count as usize]);
            more = board.has_more(self.core.len());
        }
    }

    // Commits what was decided for all that it has seen, and takes it into its copy. Nothing where entries
    // came before it: then the step, if it is one, is kept.
    fn commit<B: Board>(&mut self, board: &mut B, entry: Entry, step: Option<Move>) -> bool
        requires current { IsCurrent self.old.core (B.sight board.old) }
        requires goes_on { has_end self.old.core.list ≡ false }
        requires of_program { IsOfProgram self.old.core.agent self.old.core.list 0 entry entry }
        requires room { IsTrue (is_counted entry) → count self.old.core.list < limit }
        requires online { KeepsRules self.old.core.agent self.old.core.list entry }
        requires left { left_after self.old.core.agent (self.old.core.list ++ entry ∷ [])
            ≡ unwrap_or (left_of step) (left_after self.old.core.agent self.old.core.list) }
        requires run { step_run step ≡ begun_by self.old.core.agent self.old.core.list entry }
        requires next { IfSome step (IsNextStep self.old.core.agent self.old.core.list) }
        ensures same { self.new.core.agent ≡ self.old.core.agent }
        ensures commits { CommitGives entry (B.sight board.old) (B.sight board.new) result }
        ensures behind { IsOver self.new.core (B.sight board.new) }
        ensures whole { result ≡ true → self.new.core.list ≡ (B.sight board.new).seen }
        ensures recorded { Records R.outlet R.stands self.old.core self.old.record self.new.core self.new.record }
    {
        let at = self.core.len();
        match board.commit(at, entry) {
            Commit::Taken => {
                self.take(entry, step);
                true
            }
            Commit::Moved { .. } => {
                self.core.keep_step(step);
                false
            }
        }
    }

    // Ends the program.
    fn commit_end<B: Board>(&mut self, board: &mut B, answer: Answer) -> Option<Stepped>
        requires current { IsCurrent self.old.core (B.sight board.old) }
        requires goes_on { has_end self.old.core.list ≡ false }
        requires answered { MayAnswer self.old.core.agent self.old.core.list answer }
        ensures same { self.new.core.agent ≡ self.old.core.agent }
        ensures attempt { AttemptIs (B.sight board.old) (B.sight board.new) result }
        ensures end { IfSome result (λ stepped. stepped ≡ Stepped.Ended answer) }
        ensures behind { IsOver self.new.core (B.sight board.new) }
        ensures whole { IfSome result (λ _. self.new.core.list ≡ (B.sight board.new).seen) }
        ensures recorded { Records R.outlet R.stands self.old.core self.old.record self.new.core self.new.record }
    {
        if self.commit(board, Entry::End { answer }, None) {
            Some(Stepped::Ended(answer))
        } else {
            None
        }
    }

    // Takes the next step of the program.
    fn commit_step<B: Board>(&mut self, board: &mut B, step: Move) -> Option<Stepped>
        requires current { IsCurrent self.old.core (B.sight board.old) }
        requires goes_on { has_end self.old.core.list ≡ false }
        requires next { IsNextStep self.old.core.agent self.old.core.list step }
        ensures same { self.new.core.agent ≡ self.old.core.agent }
        ensures attempt { AttemptIs (B.sight board.old) (B.sight board.new) result }
        ensures step { IfSome result (λ stepped. stepped ≡ Stepped.Step) }
        ensures behind { IsOver self.new.core (B.sight board.new) }
        ensures whole { IfSome result (λ _. self.new.core.list ≡ (B.sight board.new).seen) }
        ensures recorded { Records R.outlet R.stands self.old.core self.old.record self.new.core self.new.record }
    {
        self.core.keeps_rules();
        if self.commit(board, entry_of(step.label), Some(step)) {
            Some(Stepped::Step)
        } else {
            None
        }
    }

    // Decides at all that it has seen, and commits that.
    fn go_on<B: Board>(&mut self, board: &mut B) -> Option<Stepped>
        requires current { IsCurrent self.old.core (B.sight board.old) }
        requires goes_on { has_end self.old.core.list ≡ false }
        ensures same { self.new.core.agent ≡ self.old.core.agent }
        ensures attempt { AttemptIs (B.sight board.old) (B.sight board.new) result }
        ensures behind { IsOver self.new.core (B.sight board.new) }
        ensures whole { IfSome result (λ _. self.new.core.list ≡ (B.sight board.new).seen) }
        ensures recorded { Records R.outlet R.stands self.old.core self.old.record self.new.core self.new.record }
    {
        match self.core.plan(&self.expand) {
            Plan::Wait => Some(Stepped::Waiting),
            Plan::End(answer) => self.commit_end(board, answer),
            Plan::Step(step) => self.commit_step(board, step),
        }
    }

    // Copies what is new, and goes on. `None` where entries came before it could commit.
    fn attempt<B: Board>(&mut self, board: &mut B) -> Option<Stepped>
        requires over { IsOver self.old.core (B.sight board.old) }
        ensures same { self.new.core.agent ≡ self.old.core.agent }
        ensures attempt { AttemptIs (B.sight board.old) (B.sight board.new) result }
        ensures behind { IsOver self.new.core (B.sight board.new) }
        ensures whole { IfSome result (λ _. self.new.core.list ≡ (B.sight board.new).seen) }
        ensures recorded { Records R.outlet R.stands self.old.core self.old.record self.new.core self.new.record }
    {
        self.catch_up(board);
        match self.core.answer() {
            Some(answer) => Some(Stepped::Ended(answer)),
            None => self.go_on(board),
        }
    }

    /// What `Runner::turn` does. The entries that it copied or committed are recorded then.
    pub(crate) fn turn<B: Board>(&mut self, board: &mut B) -> Stepped
        requires agent { self.old.core.agent ≡ (B.sight board.old).agent }
        requires held { (B.sight board.old).holds program ≡ true }
        requires behind { IsBehind self.old.core.list (B.sight board.old).seen }
        ensures same { self.new.core.agent ≡ self.old.core.agent }
        ensures whole { self.new.core.list ≡ (B.sight board.new).seen }
        ensures turn { TurnIs (B.sight board.old) (B.sight board.new) result }
        ensures online { IsOnlineSoFar self.new.core.agent (report_of self.new.core.agent self.new.core.list) }
        ensures recorded { Records R.outlet R.stands self.old.core self.old.record self.new.core self.new.record }
    {
        loop {
            if let Some(stepped) = self.attempt(board) {
                self.core.keeps_rules();
                return stepped;
            }
        }
    }
}
