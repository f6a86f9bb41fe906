//! A device that another thread feeds: it shows what it is to do, and waits at the end of a channel for what it answers,
//! posts or rests by.
ghost use Rattle.std.specs.Prelude.{◌≡◌, true, IfOk};

use crate::slots::Maker;
use crossbeam_channel::Receiver;
use golog_base::{Bytes, NoMemory};
use golog_device::{Begun, Device, Idle, Served};
use std::alloc::Global;
use std::str::from_utf8;
use std::sync::Wait;

/// A device that is fed. Each line that comes over the channel is one answer, or one thing that it does without a
/// command: `rest`, `close`, or the text of an action that it posts. Once the other end is gone it answers nothing, and
/// closes.
#[derive(Drop)]
pub struct Fed<'a, R: Wait> {
    fresh: bool,
    rt: &'a R,
    terminal: &'a HostRuntime,
    lines: &'a Receiver<Bytes>,
    name: Bytes,
}

impl<R: Wait> Fed<'_, R> {
    /// Shows a text on standard error, behind the name.
    fn show(&self, text: &[u8]) {
        if let (Ok(name), Ok(text)) = (from_utf8(self.name.as_slice()), from_utf8(text)) {
            // Where nothing can be shown it is played all the same.
            let _shown = eprintln!(self.terminal; "{name}: {text}");
        }
    }

    /// Waits for the next line; none comes where the other end of the channel is gone.
    fn line(&self) -> Option<Bytes> {
        match self.lines.recv(self.rt) {
            Ok(line) => Some(line),
            Err(_) => None,
        }
    }
}

/// What a line says that came where there is no command.
fn idle_of(line: Bytes) -> Idle {
    if line.as_slice() == b"rest".as_slice() {
        Idle::Rest
    } else if line.as_slice() == b"close".as_slice() {
        Idle::Close
    } else {
        Idle::Post(line)
    }
}

impl<R: Wait> Device for Fed<'_, R> {
    ghost use Rattle.std.specs.Prelude.{false, None};

    ghost fresh = { λ fed. fed.fresh };

    // Nothing is told of what it was given and told, so that the journal alone is promised.
    ghost meaning = { λ fed. record { name = None; cut = false; given = None; told = None; left = None } };

    fn begin(&mut self, alloc: Global, name: &[u8], _script: &[u8]) -> Begun {
        match Bytes::copy_of(alloc, name) {
            Ok(name) => {
                self.name = name;
                self.fresh = false;
                Begun::Ready
            }
            Err(_) => Begun::Memory,
        }
    }

    fn serve(&mut self, action: &[u8], asked: bool) -> Served {
        self.show(action);
        if !asked {
            return Served::Nothing;
        }
        match self.line() {
            Some(answer) => Served::Value(answer),
            None => Served::Nothing,
        }
    }

    fn idle(&mut self) -> Idle {
        self.show(b"?");
        match self.line() {
            Some(line) => idle_of(line),
            None => Idle::Close,
        }
    }
}

/// Makes devices that are fed over one channel: a line is for the device that waits.
#[derive(Drop)]
pub struct Hands<'a, R: Wait> {
    pub rt: &'a R,
    pub terminal: &'a HostRuntime,
    pub lines: &'a Receiver<Bytes>,
}

impl<'a, R: Wait> Maker<Fed<'a, R>> for Hands<'a, R> {
    fn device(&self, alloc: Global) -> Result<Fed<'a, R>, NoMemory> {
        Ok(Fed {
            fresh: true,
            rt: self.rt,
            terminal: self.terminal,
            lines: self.lines,
            name: Bytes::new(alloc),
        })
    }
}
