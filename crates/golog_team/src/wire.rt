//! What a side has of a link.
ghost use Rattle.std.specs.Prelude.{◌≡◌, ◌≢◌, ◌⊎◌, ◌≤◌, length};
ghost use Rattle.golog_team.specs.Links.{MayPut, MayPutAnywhere};
ghost use Rattle.golog_team.specs.Wires.{View, Heard, LooksAt, Puts, PutsAt, HasMet};

use crate::note::{Note, SideNote};

/// A link as one of its sides has it: it reads all notes, and puts its own. A look or a put adds one note at most,
/// changes no earlier one, and takes no memory. Before a call the other side may have put notes.
pub trait Wire {
    // Which side it is, and the notes that it has seen.
    ghost view: { Self → View };

    /// The note at a place, or none where there are only so many.
    fn look(&mut self, at: u32) -> Option<SideNote>
        requires { at ≤ length (view self.old).seen }
        ensures { Heard (λ notes added. LooksAt notes at result added) (view self.old) (view self.new) };

    /// Puts a note behind all others.
    fn put(&mut self, note: Note)
        requires { MayPutAnywhere (view self.old).seen (view self.old).side note }
        ensures { Heard (λ notes added. Puts (view self.old).side note added) (view self.old) (view self.new) };

    /// Puts a note where there are exactly so many, and answers whether it did.
    fn put_at(&mut self, at: u32, note: Note) -> bool
        requires within { at ≤ length (view self.old).seen }
        requires allowed { length (view self.old).seen ≡ at → MayPut (view self.old).seen (view self.old).side note }
        ensures { Heard (λ notes added. PutsAt (view self.old).side notes at note result added) (view self.old) (view self.new) };

    /// Both have then seen the same: all that one of them had. It adds no note.
    fn meet(&mut self, other: &mut Self)
        requires { (view self.old).side ≢ (view other.old).side }
        ensures same { (view other.new).seen ≡ (view self.new).seen }
        ensures all { ((view self.new).seen ≡ (view self.old).seen) ⊎ ((view self.new).seen ≡ (view other.old).seen) }
        ensures own { HasMet (view self.old) (view self.new) }
        ensures other { HasMet (view other.old) (view other.new) };

    /// How often the other side has put a note.
    fn heard(&self) -> u64;

    /// Sleeps while the other side puts no note after so many. It may also end for no reason.
    fn sleep(&self, heard: u64);
}
