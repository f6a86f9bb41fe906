//! `Lead`, the trait of what drives a program over a board, and may write its copy out.
ghost use Rattle.std.specs.Prelude.{◌≡◌, ◌↔◌, ◌≤◌, IsTrue, true, false, length};
ghost use Rattle.golog_semantics.specs.Journal.{Journal, has_end, is_quiet, longest};
ghost use Rattle.golog_journal.specs.Boards.{IsBoardList};
ghost use Rattle.golog_journal.specs.Growing.{program};
ghost use Rattle.golog_journal.specs.Leading.{Mind, IsBehind, SameMind, Leads, Watches, TakesTurn};

use crate::Board;

/// What came of a turn of a lead.
#[derive(Clone, Copy, Debug, PartialEq, Eq)]
pub enum Led {
    /// The program goes on.
    More,
    /// It has ended.
    Ended,
}

/// What drives a program: it copies what devices post, and commits what it decides. Its copy is a prefix of what
/// the board has seen, and misses only entries of devices. A lead that writes its copy out says what it has written.
pub trait Lead {
    // The agent that it was made with, the bounds of what it looks for, its copy, the lists at which it waits for a
    // device, and what it writes to.
    ghost mind: { Self → Mind };

    // What it has written is its copy, over what stood there before.
    ghost stands: { Self → Type 0 };

    /// Commits what the program does next, or nothing. Answers whether the program has ended. Where no one else
    /// adds entries, it adds one at most; where the program has not ended either, it adds one unless the lead waits,
    /// and then none but the end.
    fn turn<B: Board>(&mut self, board: &mut B) -> Led
        requires agent { (mind self.old).agent ≡ (B.sight board.old).agent }
        requires held { (B.sight board.old).holds program ≡ true }
        requires behind { IsBehind (mind self.old).list (B.sight board.old).seen }
        ensures same { SameMind (mind self.old) (mind self.new) }
        ensures stands { stands self.old → stands self.new }
        ensures behind { IsBehind (mind self.new).list (B.sight board.new).seen }
        ensures leads { Leads (B.sight board.old) (B.sight board.new) }
        ensures ended { (result ≡ Led.Ended) ↔ IsTrue (has_end (B.sight board.new).seen) }
        ensures turn { TakesTurn (mind self.old) (B.sight board.old) (B.sight board.new) }
        ensures lawful { IsBoardList (mind self.new).agent (B.sight board.new).seen }
        ensures short { length (B.sight board.new).seen ≤ longest };

    /// Copies all that it lacks, and adds nothing.
    fn gather<B: Board>(&mut self, board: &mut B)
        requires agent { (mind self.old).agent ≡ (B.sight board.old).agent }
        requires held { (B.sight board.old).holds program ≡ true }
        requires behind { IsBehind (mind self.old).list (B.sight board.old).seen }
        ensures same { SameMind (mind self.old) (mind self.new) }
        ensures stands { stands self.old → stands self.new }
        ensures whole { (mind self.new).list ≡ (B.sight board.new).seen }
        ensures watches { Watches (B.sight board.old) (B.sight board.new) }
        ensures lawful { IsBoardList (mind self.new).agent (B.sight board.new).seen }
        ensures short { length (B.sight board.new).seen ≤ longest };

    // It waits at no list at which each device is closed or at rest.
    ghost goes_on: { (lead : Self) (journal : Journal) → IsTrue (is_quiet (mind lead).agent journal)
        → (mind lead).waits journal ≡ false };
}
