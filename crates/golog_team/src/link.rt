//! What lies in the lock that two sides share.
ghost use Rattle.std.specs.Prelude.{◌≡◌, ◌≤◌, [], ◌∷◌, ◌++◌, IfOk, MatchOption, length, slice_get};
ghost use Rattle.golog_team.specs.Notes.{put_by};
ghost use Rattle.golog_team.specs.Links.{IsLinkList, room};

use crate::note::{Note, SideNote};
use golog_base::NoMemory;
use golog_journal::LIMIT;
use golog_turn::Object;
use std::alloc::Global;
use std::marker::Model;

/// The most notes: of each side as many commands as a journal counts entries, one end, and a Waiting for each of
/// these notes of both sides and one more.
pub const ROOM: u32 = 2 * (3 * LIMIT + 4);

/// What a side asks of the link in its turn.
#[derive(Clone, Copy)]
pub enum LinkOp {
    /// Adds a note of the side.
    Put { side: u8, note: Note },
    /// Adds it where there are exactly so many notes.
    PutAt { side: u8, at: u32, note: Note },
    /// Asks for the note at a place.
    Look { at: u32 },
}

/// What the link replies.
#[derive(Clone, Copy, Debug, PartialEq, Eq)]
pub enum LinkReply {
    /// The note stands at this place.
    At(u32),
    /// Nothing was added: there are so many notes, which are more.
    Longer(u32),
    /// The note at the place, and how many there are.
    Seen { side: u8, note: Note, length: u32 },
    /// The place is behind the last of so many notes.
    Nothing { length: u32 },
}

/// The notes of two sides, in one order. It is made with room for all that both may put. Contracts see it as their list.
#[derive(Drop)]
pub struct Link {
    notes: Vec<SideNote>,
}

impl Model for Link {
    ghost use Rattle.std.specs.Prelude.{List, ◌≤◌, vec_capacity};
    ghost use Rattle.golog_team.specs.declared.note.SideNote.{SideNote};
    ghost use Rattle.golog_team.specs.Links.{IsLinkList, room};

    ghost Value = { List SideNote };

    ghost view = { λ link. link.notes.items };

    ghost invariant = { λ link. (room ≤ vec_capacity link.notes) × IsLinkList link.notes.items };
}

impl Link {
    /// A link without a note, and with room for all that come. No later call takes memory.
    pub fn new(alloc: Global) -> Result<Link, NoMemory>
        ensures { IfOk result (λ link. link ≡ []) }
    {
        let notes = Vec::with_capacity(alloc, ROOM as usize)?;
        Ok(Link { notes })
    }

    // How many notes there are.
    fn len(&self) -> u32
        ensures number { result ≡ length self.now }
        ensures most { length self.now ≤ room }
        ensures lawful { IsLinkList self.now }
    {
        self.notes.len() as u32
    }

    // Adds a note, behind which the list is still one of a link.
    fn put(&mut self, side: u8, note: Note) -> LinkReply
        requires { IsLinkList (self.old ++ put_by side note ∷ []) }
        ensures list { self.new ≡ self.old ++ put_by side note ∷ [] }
        ensures at { result ≡ LinkReply.At (length self.old) }
        ensures most { length self.new ≤ room }
    {
        let place = self.len();
        self.notes.push_reserved(SideNote { side, note });
        LinkReply::At(place)
    }

    // The note at a place, if there is one.
    fn look(&self, at: u32) -> LinkReply
        requires { at ≤ length self.now }
        ensures { MatchOption (slice_get self.now at)
            ((at ≡ length self.now) × (result ≡ LinkReply.Nothing at))
            (λ n. result ≡ LinkReply.Seen n.side n.note (length self.now)) }
    {
        let length = self.len();
        match self.notes.get(at as usize) {
            Some(n) => LinkReply::Seen {
                side: n.side,
                note: n.note,
                length,
            },
            None => LinkReply::Nothing { length },
        }
    }
}

impl Object for Link {
    ghost use Rattle.golog_team.specs.Links.{Allows, Answers};

    type Op = LinkOp;

    type Reply = LinkReply;

    type Entry = SideNote;

    ghost list = { λ link. link };

    ghost party = { λ n. n.side };

    ghost allows = { Allows };

    ghost answers = { Answers };

    fn apply(&mut self, op: LinkOp) -> LinkReply {
        let length = self.len();
        match op {
            LinkOp::Put { side, note } => self.put(side, note),
            LinkOp::PutAt { side, at, note } => {
                if length == at {
                    self.put(side, note)
                } else {
                    LinkReply::Longer(length)
                }
            }
            LinkOp::Look { at } => self.look(at),
        }
    }

    fn length(&self) -> u64 {
        u64::from(self.len())
    }
}
