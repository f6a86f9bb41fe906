// The texts served, in room that is reserved: their bytes one behind another, and for each its
// length and whether an answer was asked for.
ghost use Rattle.std.specs.Prelude.{◌≡◌, ◌≤◌, ◌+◌, vec_len, vec_capacity};
ghost use Rattle.golog_device.specs.Kept.{marked};

use golog_base::{NoMemory, put_reserved};
use std::alloc::Global;

/// The most bytes of the served texts that a device keeps, one more for each text.
pub const SERVED_ROOM: usize = 1_048_576;

/// How long a served text is, and whether an answer was asked for.
#[derive(Clone, Copy, Debug)]
pub struct Mark {
    len: u8,
    asked: bool,
}

/// The texts served, until they are above their room together, and whether they are cut there.
#[derive(Drop)]
pub struct ServedTexts {
    bytes: Vec<u8>,
    marks: Vec<Mark>,
    room: usize,
    cut: bool,
    ghost bytes_reserved: { room ≤ vec_capacity bytes },
    ghost marks_reserved: { room ≤ vec_capacity marks },
    ghost measured: { marked marks.items ≡ vec_len bytes },
    ghost within: { vec_len bytes + vec_len marks ≤ room },
    ghost addressable: { room ≤ 1048576 },
}

#[tactic(auto, using(crate::proofs::Kept::text_laws))]
impl ServedTexts {
    ghost use Rattle.std.specs.Prelude.{◌≡◌, ◌≤◌, ◌++◌, ◌∷◌, ◌||◌, [], nat_lt, length, false, IfOk, if◌then◌else◌};
    ghost use Rattle.golog_device.specs.Kept.{bytes_of};
    ghost use Rattle.golog_device.specs.Logs.{given_by, is_cut, bytes_room};
    ghost use Rattle.golog_semantics.specs.Dealt.{Service};

    /// Nothing served yet, with room for so many bytes, one more for each text. Takes memory.
    pub fn with_room(alloc: Global, room: usize) -> Result<ServedTexts, NoMemory>
        requires { room ≤ SERVED_ROOM }
        ensures none { IfOk result (λ log. given_by log ≡ []) }
        ensures whole { IfOk result (λ log. is_cut log ≡ false) }
        ensures room { IfOk result (λ log. bytes_room log ≡ room) }
    {
        let bytes = Vec::with_capacity(alloc, room)?;
        let marks = Vec::with_capacity(alloc, room)?;
        Ok(ServedTexts {
            bytes,
            marks,
            room,
            cut: false,
        })
    }

    /// Adds a text, unless they are cut or it has no room. Takes no memory.
    pub fn push(&mut self, text: &[u8], asked: bool)
        requires { length text.now ≤ 128 }
        ensures cut { let service : Service = record { text = text.now; asked = asked } in
            is_cut self.new
            ≡ (is_cut self.old || nat_lt (bytes_room self.old) (bytes_of (given_by self.old ++ service ∷ []))) }
        ensures given { let service : Service = record { text = text.now; asked = asked } in
            given_by self.new
            ≡ (if is_cut self.new then given_by self.old else given_by self.old ++ service ∷ []) }
        ensures room { bytes_room self.new ≡ bytes_room self.old }
    {
        let used = self.bytes.len() + self.marks.len();
        if self.cut || self.room - used < text.len() + 1 {
            self.cut = true;
            return;
        }
        put_reserved(&mut self.bytes, text);
        self.marks.push_reserved(Mark {
            len: text.len() as u8,
            asked,
        });
    }

    /// Forgets what was served.
    pub fn clear(&mut self)
        ensures none { given_by self.new ≡ [] }
        ensures whole { is_cut self.new ≡ false }
        ensures room { bytes_room self.new ≡ bytes_room self.old }
    {
        self.bytes.clear();
        self.marks.clear();
        self.cut = false;
    }
}
