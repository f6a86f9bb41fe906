//! `PlanDriver`, a program that follows plans and what records its entries, driven over any board.
ghost use Rattle.std.specs.Prelude.{◌≡◌, ◌<◌, IfSome, IsTrue, None, true, false, [], ◌∷◌, ◌++◌};
ghost use Rattle.std.specs.List.{list_any};
ghost use Rattle.golog_semantics.specs.Journal.{count, has_end, is_counted, limit};
ghost use Rattle.golog_journal.specs.Boards.{IsBoardList};
ghost use Rattle.golog_journal.specs.Commits.{IsOfProgram};
ghost use Rattle.golog_journal.specs.Growing.{program};
ghost use Rattle.golog_journal.specs.Leading.{IsBehind, is_of_program};
ghost use Rattle.golog_lead.specs.Seeing.{CommitGives, Follows, IsCurrent, IsOver};
ghost use Rattle.golog_branch.specs.PlanJournals.{IsPlannedSoFar, KeepsPlanned};
ghost use Rattle.golog_plan.specs.Keeping.{KeptFor, course_of, with_list};
ghost use Rattle.golog_plan.specs.Next.{IsNextOf, tail_at};
ghost use Rattle.golog_plan.specs.Recording.{Records};
ghost use Rattle.golog_plan.specs.Turns.{AttemptIs, MayAnswer, TurnIs};

use crate::next::{Begun, Next};
use crate::plan_core::PlanCore;
use crate::record::PlanRecord;
use golog_base::Bytes;
use golog_branch::Kept;
use golog_journal::{Board, Commit};
use golog_lead::{Stepped, UnderWay, entry_of};
use golog_semantics::{Answer, Entry};

/// A program that follows plans, and what records its entries: it copies what devices post, and commits what is decided
/// at the whole list that it has seen.
#[derive(Drop)]
pub struct PlanDriver<'a, R: PlanRecord> {
    pub(crate) core: PlanCore<'a>,
    pub(crate) record: R,
}

impl<'a, R: PlanRecord> PlanDriver<'a, R> {
    // Takes one more entry, which keeps the rules, and what is kept then and the end of its line where it is a step's.
    fn take(&mut self, entry: Entry, given: Option<Kept>, tail: Option<Bytes>)
        requires lawful { IsBoardList self.old.core.agent (self.old.core.list ++ entry ∷ []) }
        requires planned { KeepsPlanned self.old.core.agent self.old.core.depth self.old.core.fuel self.old.core.list
            entry }
        requires kept { KeptFor self.old.core entry given }
        requires tail { tail ≡ tail_at self.old.core entry }
        ensures core { self.new.core ≡ with_list self.old.core (self.old.core.list ++ entry ∷ []) }
        ensures recorded { Records R.outlet R.stands self.old.core self.old.record self.new.core self.new.record }
    {
        self.record.keep(&self.core, entry, tail.as_ref());
        drop(tail);
        self.core.take(entry, given);
    }

    // Takes what devices have posted.
    fn take_all(&mut self, entries: &[Entry])
        requires lawful { IsBoardList self.old.core.agent (self.old.core.list ++ entries.now) }
        requires of_devices { list_any is_of_program entries.now ≡ false }
        ensures core { self.new.core ≡ with_list self.old.core (self.old.core.list ++ entries.now) }
        ensures recorded { Records R.outlet R.stands self.old.core self.old.record self.new.core self.new.record }
    {
        for entry in entries {
            self.take(*entry, None, None);
        }
    }

    // Copies all that it lacks.
    pub(crate) fn catch_up<B: Board>(&mut self, board: &mut B)
        requires over { IsOver (course_of self.old.core) (B.sight board.old) }
        ensures same { self.new.core ≡ with_list self.old.core self.new.core.list }
        ensures current { IsCurrent (course_of self.new.core) (B.sight board.new) }
        ensures follows { Follows (B.sight board.old) (B.sight board.new) [] }
        ensures recorded { Records R.outlet R.stands self.old.core self.old.record self.new.core self.new.record }
    {
        let mut more = board.has_more(self.core.len());
        while more {
            let batch = board.copy_since(self.core.len());
            self.take_all(&batch.entries[..batch.count as usize]);
            more = board.has_more(self.core.len());
        }
    }

    // Commits what was decided for all that it has seen, and takes it into its copy. Nothing where entries came before
    // it.
    fn commit<B: Board>(
        &mut self,
        board: &mut B,
        entry: Entry,
        given: Option<Kept>,
        tail: Option<Bytes>,
    ) -> bool
        requires current { IsCurrent (course_of self.old.core) (B.sight board.old) }
        requires goes_on { has_end self.old.core.list ≡ false }
        requires of_program { IsOfProgram self.old.core.agent self.old.core.list 0 entry entry }
        requires room { IsTrue (is_counted entry) → count self.old.core.list < limit }
        requires planned { KeepsPlanned self.old.core.agent self.old.core.depth self.old.core.fuel self.old.core.list
            entry }
        requires kept { KeptFor self.old.core entry given }
        requires tail { tail ≡ tail_at self.old.core entry }
        ensures same { self.new.core ≡ with_list self.old.core self.new.core.list }
        ensures commits { CommitGives entry (B.sight board.old) (B.sight board.new) result }
        ensures behind { IsOver (course_of self.new.core) (B.sight board.new) }
        ensures whole { result ≡ true → self.new.core.list ≡ (B.sight board.new).seen }
        ensures recorded { Records R.outlet R.stands self.old.core self.old.record self.new.core self.new.record }
    {
        match board.commit(self.core.len(), entry) {
            Commit::Taken => {
                self.take(entry, given, tail);
                true
            }
            Commit::Moved { .. } => {
                drop(given);
                drop(tail);
                false
            }
        }
    }

    // Ends the program.
    fn commit_end<B: Board>(&mut self, board: &mut B, answer: Answer) -> Option<Stepped>
        requires current { IsCurrent (course_of self.old.core) (B.sight board.old) }
        requires goes_on { has_end self.old.core.list ≡ false }
        requires answered { MayAnswer self.old.core.depth self.old.core.fuel self.old.core.agent self.old.core.list
            answer }
        ensures same { self.new.core ≡ with_list self.old.core self.new.core.list }
        ensures attempt { AttemptIs self.old.core.depth self.old.core.fuel (B.sight board.old) (B.sight board.new)
            result }
        ensures behind { IsOver (course_of self.new.core) (B.sight board.new) }
        ensures whole { IfSome result (λ _. self.new.core.list ≡ (B.sight board.new).seen) }
        ensures recorded { Records R.outlet R.stands self.old.core self.old.record self.new.core self.new.record }
    {
        if self.commit(board, Entry::End { answer }, None, None) {
            Some(Stepped::Ended(answer))
        } else {
            None
        }
    }

    // Takes the next step of the program.
    fn commit_step<B: Board>(&mut self, board: &mut B, begun: Begun) -> Option<Stepped>
        requires current { IsCurrent (course_of self.old.core) (B.sight board.old) }
        requires goes_on { has_end self.old.core.list ≡ false }
        requires next { IsNextOf self.old.core begun }
        ensures same { self.new.core ≡ with_list self.old.core self.new.core.list }
        ensures attempt { AttemptIs self.old.core.depth self.old.core.fuel (B.sight board.old) (B.sight board.new)
            result }
        ensures behind { IsOver (course_of self.new.core) (B.sight board.new) }
        ensures whole { IfSome result (λ _. self.new.core.list ≡ (B.sight board.new).seen) }
        ensures recorded { Records R.outlet R.stands self.old.core self.old.record self.new.core self.new.record }
    {
        let Begun { label, kept, tail } = begun;
        if self.commit(board, entry_of(label), Some(kept), tail) {
            Some(Stepped::Step)
        } else {
            None
        }
    }

    // Decides at all that it has seen, and commits that.
    fn go_on<B: Board>(&mut self, board: &mut B) -> Option<Stepped>
        requires current { IsCurrent (course_of self.old.core) (B.sight board.old) }
        requires goes_on { has_end self.old.core.list ≡ false }
        ensures same { self.new.core ≡ with_list self.old.core self.new.core.list }
        ensures attempt { AttemptIs self.old.core.depth self.old.core.fuel (B.sight board.old) (B.sight board.new)
            result }
        ensures behind { IsOver (course_of self.new.core) (B.sight board.new) }
        ensures whole { IfSome result (λ _. self.new.core.list ≡ (B.sight board.new).seen) }
        ensures recorded { Records R.outlet R.stands self.old.core self.old.record self.new.core self.new.record }
    {
        match self.core.next() {
            Next::Wait => Some(Stepped::Waiting),
            Next::End(answer) => self.commit_end(board, answer),
            Next::Step(begun) => self.commit_step(board, begun),
        }
    }

    // Copies what is new, and goes on. `None` where entries came before it could commit.
    fn attempt<B: Board>(&mut self, board: &mut B) -> Option<Stepped>
        requires over { IsOver (course_of self.old.core) (B.sight board.old) }
        ensures same { self.new.core ≡ with_list self.old.core self.new.core.list }
        ensures attempt { AttemptIs self.old.core.depth self.old.core.fuel (B.sight board.old) (B.sight board.new)
            result }
        ensures behind { IsOver (course_of self.new.core) (B.sight board.new) }
        ensures whole { IfSome result (λ _. self.new.core.list ≡ (B.sight board.new).seen) }
        ensures recorded { Records R.outlet R.stands self.old.core self.old.record self.new.core self.new.record }
    {
        self.catch_up(board);
        match self.core.answer() {
            Some(answer) => Some(Stepped::Ended(answer)),
            None => self.go_on(board),
        }
    }

    /// What `PlanScribe::turn` does. The entries that it copied or committed are recorded then.
    pub(crate) fn turn<B: Board>(&mut self, board: &mut B) -> Stepped
        requires agent { self.old.core.agent ≡ (B.sight board.old).agent }
        requires held { (B.sight board.old).holds program ≡ true }
        requires behind { IsBehind self.old.core.list (B.sight board.old).seen }
        ensures same { self.new.core ≡ with_list self.old.core self.new.core.list }
        ensures whole { self.new.core.list ≡ (B.sight board.new).seen }
        ensures turn { TurnIs self.old.core.depth self.old.core.fuel (B.sight board.old) (B.sight board.new) result }
        ensures planned { IsPlannedSoFar self.new.core.agent self.new.core.depth self.new.core.fuel self.new.core.list }
        ensures recorded { Records R.outlet R.stands self.old.core self.old.record self.new.core self.new.record }
    {
        loop {
            if let Some(stepped) = self.attempt(board) {
                self.core.keeps_rules();
                return stepped;
            }
        }
    }
}
