//! How a side reads and says.
ghost use Rattle.std.specs.Prelude.{◌≡◌, ◌≤◌, ℕ, length, take, IsTrue, IsFalse};
ghost use Rattle.golog_semantics.specs.Journal.{Journal as Entries};
ghost use Rattle.golog_team.specs.Links.{room, MayPut};
ghost use Rattle.golog_team.specs.Sides.{at_read, IsToldOf, ReadsOn, HasSaid};

use crate::ROOM;
use crate::note::{Note, SideNote};
use crate::told::{Told, is_news};
use crate::wire::Wire;

/// Reads on, up to and with the next Send or Ended of the other side, or to the end.
pub(crate) fn read_on<W: Wire>(wire: &mut W, side: u8, told: &mut Told) -> Option<Note>
    requires side { (side ≤ 1) × ((W.view wire.old).side ≡ side) }
    requires within { (told.old.read ≤ length (W.view wire.old).seen) × (length (W.view wire.old).seen ≤ room) }
    requires told { IsToldOf side (take told.old.read (W.view wire.old).seen) told.old }
    ensures side { (W.view wire.new).side ≡ side }
    ensures within { (told.new.read ≤ length (W.view wire.new).seen) × (length (W.view wire.new).seen ≤ room) }
    ensures told { IsToldOf side (take told.new.read (W.view wire.new).seen) told.new }
    ensures reads { (journal : Entries) (taken : ℕ) → ReadsOn side
        (at_read (W.view wire.old) told.old.read journal taken) (at_read (W.view wire.new) told.new.read journal taken) result }
{
    for at in told.read..ROOM {
        match wire.look(at) {
            Some(note) => {
                *told = told.with(note, side);
                if is_news(note, side) {
                    return Some(note.note);
                }
            }
            None => return None,
        }
    }
    None
}

/// Puts a note of the side where it has read all, and answers whether it did.
pub(crate) fn say<W: Wire>(wire: &mut W, side: u8, told: &mut Told, note: Note) -> bool
    requires side { (side ≤ 1) × ((W.view wire.old).side ≡ side) }
    requires whole { told.old.read ≡ length (W.view wire.old).seen }
    requires told { IsToldOf side (W.view wire.old).seen told.old }
    requires allowed { MayPut (W.view wire.old).seen side note }
    ensures side { (W.view wire.new).side ≡ side }
    ensures within { (told.new.read ≤ length (W.view wire.new).seen) × (length (W.view wire.new).seen ≤ room) }
    ensures told { IsToldOf side (take told.new.read (W.view wire.new).seen) told.new }
    ensures said { HasSaid side note (W.view wire.old).seen (W.view wire.new).seen result }
    ensures read { IsTrue result → told.new.read ≡ length (W.view wire.new).seen }
    ensures unread { IsFalse result → told.new.read ≡ told.old.read }
{
    if wire.put_at(told.read, note) {
        *told = told.with(SideNote { side, note }, side);
        true
    } else {
        false
    }
}
