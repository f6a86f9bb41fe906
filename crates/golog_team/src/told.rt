//! What a side keeps of the notes that it has read.
ghost use Rattle.std.specs.Prelude.{◌≡◌, ◌≤◌, ◌<◌, ◌∷◌, [], ◌++◌, length, not, ◌==◌};
ghost use Rattle.golog_team.specs.Notes.{Notes, is_news as is_news_for, is_waiting as is_waiting_note};
ghost use Rattle.golog_team.specs.Links.{room};
ghost use Rattle.golog_team.specs.Sides.{IsToldOf};

use crate::note::{Note, SideNote};

/// How many notes were read, and what the last of them say: whether this side waits, whether the other does, and whether
/// this one has ended.
#[derive(Clone, Copy)]
pub(crate) struct Told {
    pub(crate) read: u32,
    pub(crate) own_waits: bool,
    pub(crate) other_waits: bool,
    pub(crate) over: bool,
}

// A Send or the Ended of the other side.
pub(crate) fn is_news(note: SideNote, side: u8) -> bool
    requires { side ≤ 1 }
    ensures { result ≡ is_news_for side note }
{
    note.side == 1 - side && !is_waiting(note.note)
}

fn is_waiting(note: Note) -> bool
    ensures { result ≡ is_waiting_note note }
{
    match note {
        Note::Waiting { .. } => true,
        Note::Send { .. } | Note::Ended => false,
    }
}

impl Told {
    /// Of no note.
    pub(crate) fn new(side: u8) -> Told
        ensures { IsToldOf side [] result }
    {
        let _side = side;
        Told {
            read: 0,
            own_waits: false,
            other_waits: false,
            over: false,
        }
    }

    /// One more note was read.
    pub(crate) fn with(self, note: SideNote, side: u8) -> Told
        requires side { side ≤ 1 }
        requires few { self.read < room }
        ensures { (notes : Notes) → IsToldOf side notes self → IsToldOf side (notes ++ note ∷ []) result }
    {
        let own = note.side == side;
        let read = self.read + 1;
        match note.note {
            Note::Waiting { .. } => Told {
                read,
                own_waits: self.own_waits || own,
                other_waits: self.other_waits || note.side == 1 - side,
                over: self.over,
            },
            Note::Send { .. } => Told {
                read,
                own_waits: false,
                other_waits: false,
                over: self.over,
            },
            Note::Ended => Told {
                read,
                own_waits: false,
                other_waits: false,
                over: self.over || own,
            },
        }
    }
}
