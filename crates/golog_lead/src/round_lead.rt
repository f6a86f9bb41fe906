//! `RoundLead`, the trait of a lead whose turn is known where no one else adds entries: what its
//! copy keeps, what a turn alone makes of a list, and with which answers it may end early.
ghost use Rattle.std.specs.Prelude.{◌≡◌, ◌<◌, ◌≤◌, ◌⊎◌, true, length};
ghost use Rattle.golog_tree.specs.declared.agent.Agent.{Agent};
ghost use Rattle.golog_semantics.specs.declared.journal.Answer.{Answer};
ghost use Rattle.golog_semantics.specs.Journal.{Journal, has_end, is_open as is_open_in, longest};
ghost use Rattle.golog_semantics.specs.WellFormed.{WellFormed};
ghost use Rattle.golog_journal.specs.Boards.{IsBoardList};
ghost use Rattle.golog_journal.specs.Growing.{program};
ghost use Rattle.golog_journal.specs.Leading.{Bounds, IsBehind, Leads, SameMind, TakesTurn};
ghost use Rattle.golog_lead.specs.Rounds.{Adds};
ghost use Rattle.golog_lead.specs.Short.{EndsShort};

use golog_journal::{Board, Lead};

/// A lead of which it is known what its turn makes of a list to which no one else adds, and that can be asked about
/// the entries that it has copied.
pub trait RoundLead: Lead {
    // What is so of its copy.
    ghost keeps: { Bounds → Agent → Journal → Type 0 };

    // What a turn makes of a list to which no one else adds.
    ghost alone: { Bounds → Agent → Journal → Journal };

    // The answers of an end that comes early.
    ghost short: { Answer → Type 0 };

    /// One turn, as of `Lead::turn`, which leaves nothing that was seen uncopied. Where no one else adds entries, it
    /// makes of the list what a turn alone does, or the program ends early.
    fn step<B: Board>(&mut self, board: &mut B)
        requires agent { (Self.mind self.old).agent ≡ (B.sight board.old).agent }
        requires held { (B.sight board.old).holds program ≡ true }
        requires behind { IsBehind (Self.mind self.old).list (B.sight board.old).seen }
        ensures same { SameMind (Self.mind self.old) (Self.mind self.new) }
        ensures stands { Self.stands self.old → Self.stands self.new }
        ensures whole { (Self.mind self.new).list ≡ (B.sight board.new).seen }
        ensures leads { Leads (B.sight board.old) (B.sight board.new) }
        ensures turn { TakesTurn (Self.mind self.old) (B.sight board.old) (B.sight board.new) }
        ensures alone { (B.sight board.old).alone ≡ true
            → ((B.sight board.new).seen
            ≡ alone (Self.mind self.old).bounds (Self.mind self.old).agent (B.sight board.old).seen)
            ⊎ EndsShort short (B.sight board.old).seen (B.sight board.new).seen };

    /// Whether the program has ended.
    fn has_ended(&self) -> bool
        ensures { result ≡ has_end (Self.mind self.now).list };

    /// Whether the device is open after the entries so far.
    fn is_open(&self, device: u8) -> bool
        requires { device < length (Self.mind self.now).agent.devices }
        ensures { result ≡ is_open_in device (Self.mind self.now).list };

    /// Does nothing: what is so of the entries so far.
    fn keeps_rules(&self)
        ensures formed { WellFormed (Self.mind self.now).agent }
        ensures lawful { IsBoardList (Self.mind self.now).agent (Self.mind self.now).list }
        ensures keeps { keeps (Self.mind self.now).bounds (Self.mind self.now).agent (Self.mind self.now).list }
        ensures short { length (Self.mind self.now).list ≤ longest };

    // A turn alone takes no entry away.
    ghost adds: { (bounds : Bounds) (agent : Agent) (journal : Journal) → Adds journal (alone bounds agent journal) };

    // Behind the end it adds none.
    ghost stays: { (bounds : Bounds) (agent : Agent) (journal : Journal) → has_end journal ≡ true
        → alone bounds agent journal ≡ journal };
}
