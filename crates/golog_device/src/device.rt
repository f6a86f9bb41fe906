//! `Device`, the trait of devices, with its optional meanings and two truths, and its answers
//! `Begun`, `Served` and `Idle`; boxed devices are devices.
ghost use Rattle.std.specs.Prelude.{◌≡◌, ◌≤◌, Bool, true, length};
ghost use Rattle.golog_semantics.specs.Dealt.{Meaning, Service};
ghost use Rattle.golog_device.specs.Devices.{Begins, still_fresh, Serves, Idles};

use golog_base::Bytes;
use std::alloc::Global;

/// What came of a script.
#[derive(Clone, Copy, Debug, PartialEq, Eq)]
pub enum Begun {
    /// The device has begun with it.
    Ready,
    /// The device does not take it, and is as it was.
    Refused,
    /// Memory is wanting, and the device is as it was.
    Memory,
}

/// What came of an action: a value or nothing.
#[derive(Debug, Drop)]
pub enum Served {
    /// No value.
    Nothing,
    /// The text of a value.
    Value(Bytes),
}

/// What a device does without a command.
#[derive(Debug, Drop)]
pub enum Idle {
    /// It posts the action with this text.
    Post(Bytes),
    /// It rests until its next command.
    Rest,
    /// It closes.
    Close,
}

/// A device: it carries actions out, may answer them with values, and may post actions of its own. What it
/// means is told as far as it tells it; no call changes which parts it tells. Each device tells two truths:
/// whether it has begun, and whether what it was given is cut.
pub trait Device: Drop {
    // It has not begun.
    ghost fresh: { Self → Bool };

    // Its name, and what it was given, told and has left of its script.
    ghost meaning: { Self → Meaning };

    /// Begins a fresh device under its name with its script. A device that tells what is left of its script
    /// refuses no script's text. Takes memory.
    fn begin(&mut self, alloc: Global, name: &[u8], script: &[u8]) -> Begun
        requires { fresh self.old ≡ true }
        ensures fresh { fresh self.new ≡ still_fresh result }
        ensures begins { Begins result (meaning self.old) (meaning self.new) name.now script.now };

    /// Carries an action out, given by its text of 128 bytes at most, and answers a value where one is asked
    /// for. Takes no memory.
    fn serve(&mut self, action: &[u8], asked: bool) -> Served
        requires { length action.now ≤ 128 }
        ensures fresh { fresh self.new ≡ fresh self.old }
        ensures serves { Serves result (meaning self.old) (meaning self.new)
            (record { text = action.now; asked = asked }) };

    /// What the device does without a command. Takes no memory.
    fn idle(&mut self) -> Idle
        ensures fresh { fresh self.new ≡ fresh self.old }
        ensures idles { Idles result (meaning self.old) (meaning self.new) };
}

// A box is the device in it.
impl Device for Box<dyn Device + Send> {
    ghost fresh = { λ device. (Device-box device).fresh device.value };

    ghost meaning = { λ device. (Device-box device).meaning device.value };

    fn begin(&mut self, alloc: Global, name: &[u8], script: &[u8]) -> Begun {
        self.as_mut().begin(alloc, name, script)
    }

    fn serve(&mut self, action: &[u8], asked: bool) -> Served {
        self.as_mut().serve(action, asked)
    }

    fn idle(&mut self) -> Idle {
        self.as_mut().idle()
    }
}
