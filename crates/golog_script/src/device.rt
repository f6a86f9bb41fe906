// `ScriptDevice`, which follows its script. It keeps the texts in lists with the last in front, so
// that the next is taken by `pop`.
ghost use Rattle.std.specs.Prelude.{◌≡◌, ◌<◌, ◌+◌, false, vec_len};
ghost use Rattle.golog_device.specs.Devices.{idle_of, tells};
ghost use Rattle.golog_device.specs.Kept.{item_of};
ghost use Rattle.golog_device.specs.Logs.{SERVED_ROOM, is_over, kept_by, room_of, bytes_room};

use crate::lists::{ScriptLists, lists_of};
use golog_base::{Bytes, NoMemory};
use golog_device::{
    Begun, Device, Idle, SERVED_ROOM, Served, ServedTexts, Told, ToldItems, Twin, reversed_twins,
};
use std::alloc::Global;

/// A device that follows its script: it answers sensing commands by the script's answers, and idle it does
/// what the script's idle items say, in their order. It tells what is left of its script, what it told, and
/// what it was given, as far as this has room in 1,048,576 bytes, with one byte more for each text.
#[derive(Drop)]
pub struct ScriptDevice {
    fresh: bool,
    // What is left of the script, the last in front.
    answers: Vec<Twin<Bytes>>,
    idle: Vec<Twin<Bytes>>,
    told: ToldItems,
    served: ServedTexts,
    ghost begun: { fresh ≡ false → bytes_room served ≡ SERVED_ROOM },
    ghost room: { is_over told ≡ false
        → vec_len answers + vec_len idle + kept_by told < room_of told },
}

impl ScriptDevice {
    ghost use Rattle.std.specs.Prelude.{◌≡◌, true, false, [], Some, IfOk, IfSome, option_map};
    ghost use Rattle.golog_device.specs.Devices.{next_answer, rest_of, told_after};
    ghost use Rattle.golog_device.specs.Logs.{told_by};
    ghost use Rattle.golog_device.specs.Scripts.{script_spelled};
    ghost use Rattle.golog_script.specs.Meanings.{left_of, meaning_of, following};

    /// A fresh device. It was given and told nothing, and has no script.
    pub fn new(alloc: Global) -> Result<ScriptDevice, NoMemory>
        ensures fresh { IfOk result (λ device. ⟦<ScriptDevice as Device>⟧.fresh device ≡ true) }
        ensures bare { IfOk result (λ device. ⟦<ScriptDevice as Device>⟧.meaning device
            ≡ following (record { answers = []; idle = [] })) }
    {
        let told = ToldItems::with_room(alloc, 1)?;
        let served = ServedTexts::with_room(alloc, 0)?;
        Ok(ScriptDevice {
            fresh: true,
            answers: Vec::new(alloc),
            idle: Vec::new(alloc),
            told,
            served,
        })
    }

    // A device that has begun with the script that the text spells: `None` exactly where it spells none.
    fn begun(alloc: Global, text: &[u8]) -> Result<Option<ScriptDevice>, NoMemory>
        ensures meaning { IfOk result (λ device. option_map meaning_of device
            ≡ option_map following (script_spelled text.now)) }
        ensures begun { IfOk result (λ device. IfSome device (λ d. d.fresh ≡ false)) }
    {
        match lists_of(alloc, text)? {
            Some(script) => Ok(Some(ScriptDevice::with_script(alloc, script)?)),
            None => Ok(None),
        }
    }

    // A device that has begun with this script.
    fn with_script(alloc: Global, script: ScriptLists) -> Result<ScriptDevice, NoMemory>
        ensures meaning { IfOk result (λ device. meaning_of device
            ≡ following (record { answers = script.answers; idle = script.idle })) }
        ensures begun { IfOk result (λ device. device.fresh ≡ false) }
    {
        let ScriptLists { answers, idle } = script;
        let answers = reversed_twins(alloc, answers)?;
        let idle = reversed_twins(alloc, idle)?;
        let told = ToldItems::with_room(alloc, answers.len() + idle.len() + 1)?;
        let served = ServedTexts::with_room(alloc, SERVED_ROOM)?;
        Ok(ScriptDevice {
            fresh: false,
            answers,
            idle,
            told,
            served,
        })
    }

    // The next answer.
    fn answer(&mut self) -> Served
        ensures answer { result ≡ next_answer (left_of self.old).answers }
        ensures left { left_of self.new
            ≡ record { answers = rest_of (left_of self.old).answers; idle = (left_of self.old).idle } }
        ensures told { Some (told_by self.new.told)
            ≡ told_after (Some (told_by self.old.told)) result }
        ensures served { self.new.served ≡ self.old.served }
        ensures fresh { self.new.fresh ≡ self.old.fresh }
    {
        match self.answers.pop() {
            Some(text) => {
                let (handed, kept) = text.split();
                self.told.push(Told::Value(kept));
                Served::Value(handed)
            }
            None => Served::Nothing,
        }
    }
}

impl Device for ScriptDevice {
    ghost use Rattle.std.specs.Prelude.{◌≡◌, ◌≤◌, Bool, true, false, length};
    ghost use Rattle.golog_semantics.specs.Dealt.{Service};
    ghost use Rattle.golog_device.specs.Devices.{Begins, still_fresh, Serves, Idles};
    ghost use Rattle.golog_device.specs.Logs.{IsCutAtRoom};
    ghost use Rattle.golog_device.specs.Scripts.{script_spelled};
    ghost use Rattle.golog_script.specs.Meanings.{is_fresh, meaning_of, TakesScript};

    ghost fresh = { is_fresh };

    ghost meaning = { meaning_of };

    /// Takes the text of a script, and reserves the room for all that is told later. Refuses exactly what is
    /// no JSON object with arrays of strings `answers` and `idle`.
    fn begin(&mut self, alloc: Global, name: &[u8], script: &[u8]) -> Begun
        requires { is_fresh self.old ≡ true }
        ensures fresh { is_fresh self.new ≡ still_fresh result }
        ensures begins { Begins result (meaning_of self.old) (meaning_of self.new) name.now script.now }
        ensures takes { TakesScript result (script_spelled script.now) }
    {
        match ScriptDevice::begun(alloc, script) {
            Ok(Some(begun)) => {
                *self = begun;
                Begun::Ready
            }
            Ok(None) => Begun::Refused,
            Err(NoMemory) => Begun::Memory,
        }
    }

    /// Answers a sensing command by the next answer, while there is one.
    fn serve(&mut self, action: &[u8], asked: bool) -> Served
        requires { length action.now ≤ 128 }
        ensures fresh { is_fresh self.new ≡ is_fresh self.old }
        ensures serves { Serves result (meaning_of self.old) (meaning_of self.new)
            (record { text = action.now; asked = asked }) }
        ensures cut { is_fresh self.old ≡ false
            → IsCutAtRoom (meaning_of self.old) (meaning_of self.new)
            (record { text = action.now; asked = asked }) }
    {
        self.served.push(action, asked);
        if asked {
            self.answer()
        } else {
            Served::Nothing
        }
    }

    /// Does what the next idle item says, and closes where none is left.
    fn idle(&mut self) -> Idle {
        match self.idle.pop() {
            Some(text) => {
                let (idle, told) = idle_of(text);
                self.told.push(told);
                idle
            }
            None => {
                self.told.push(Told::Close);
                Idle::Close
            }
        }
    }
}

// What an idle item says, and the same to keep.
fn idle_of(text: Twin<Bytes>) -> (Idle, Told)
    ensures idle { result.0 ≡ idle_of text }
    ensures told { item_of result.1 ≡ tells (idle_of text) }
{
    let (handed, kept) = text.split();
    if handed.as_slice() == b"rest".as_slice() {
        (Idle::Rest, Told::Rest)
    } else if handed.as_slice() == b"close".as_slice() {
        (Idle::Close, Told::Close)
    } else {
        (Idle::Post(handed), Told::Post(kept))
    }
}
