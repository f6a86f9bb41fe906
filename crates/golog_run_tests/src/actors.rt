//! Devices that act a part beside another one, over threads.
ghost use Rattle.std.specs.Prelude.{◌≡◌};
ghost use Rattle.golog_device.specs.Tables.{is_fresh};

use crate::slots::Maker;
use crate::tables::Table;
use golog_base::NoMemory;
use golog_device::{Begun, Device, Idle, Served, TableDevice};
use std::alloc::Global;
use std::sync::atomic::{AtomicU64, Ordering};
use std::thread;
use std::time::{Clock, Duration};

/// How many milliseconds a device waits for the other one at most.
const LONGEST: u32 = 20_000;

/// What a device does.
#[derive(Clone, Copy)]
pub struct Part<'a> {
    /// What it answers its commands, one a line, whether it is asked or not; nothing where the line is `silent`. It
    /// rests until it has given them all.
    pub answers: &'a str,
    /// What it does then without a command, one a line: `rest`, `close`, or the text that it posts. With none left it
    /// closes.
    pub words: &'a str,
    /// How many of its words the other device must have come to before this one goes on to its next. Where it waits
    /// in vain it closes.
    pub awaited: u64,
    /// How many milliseconds it sleeps in each call.
    pub pause: u64,
}

impl<'a> Part<'a> {
    /// The part of a device that awaits nothing and doesn't sleep.
    pub fn of(answers: &'a str, words: &'a str) -> Part<'a> {
        Part {
            answers,
            words,
            awaited: 0,
            pause: 0,
        }
    }
}

/// A device that has such a part.
#[derive(Drop)]
pub struct Actor<'a, 'c, C: Clock + Drop> {
    table: TableDevice,
    /// How many answers it has yet to give.
    answers: usize,
    awaited: u64,
    pause: u64,
    come: &'a AtomicU64,
    other: &'a AtomicU64,
    clock: &'c C,
}

impl<C: Clock + Drop> Actor<'_, '_, C> {
    fn sleep(&self) {
        if self.pause > 0 {
            thread::sleep(self.clock, Duration::from_millis(self.pause));
        }
    }

    // Waits for some time until the other device has come as far as this one awaits, and answers whether it has.
    fn await_other(&self) -> bool {
        for _ in 0..LONGEST {
            if self.other.load(Ordering::SeqCst) >= self.awaited {
                return true;
            }
            thread::sleep(self.clock, Duration::from_millis(1));
        }
        false
    }

    // What it does next, once the other device has come as far as this one awaits.
    fn next_word(&mut self) -> Idle
        ensures { is_fresh self.new.table ≡ is_fresh self.old.table }
    {
        self.come.fetch_add(1, Ordering::SeqCst);
        if self.await_other() {
            self.table.idle()
        } else {
            Idle::Close
        }
    }
}

impl<C: Clock + Drop> Device for Actor<'_, '_, C> {
    ghost use Rattle.std.specs.Prelude.{false, None};

    ghost fresh = { λ actor. is_fresh actor.table };

    ghost meaning = { λ actor. record { name = None; cut = false; given = None; told = None; left = None } };

    fn begin(&mut self, alloc: Global, name: &[u8], script: &[u8]) -> Begun {
        self.table.begin(alloc, name, script)
    }

    fn serve(&mut self, action: &[u8], asked: bool) -> Served {
        self.sleep();
        self.answers = self.answers.saturating_sub(1);
        self.table.serve(action, asked)
    }

    fn idle(&mut self) -> Idle {
        let word = if self.answers == 0 {
            self.next_word()
        } else {
            Idle::Rest
        };
        self.sleep();
        word
    }
}

/// The first device has the one part and each other one the other. Each tells by the one count how far it has come,
/// and hears by the other of the other part.
#[derive(Drop)]
pub struct Actors<'a, 'c, C: Clock + Drop> {
    pub clock: &'c C,
    pub first: Part<'a>,
    pub others: Part<'a>,
    pub one: &'a AtomicU64,
    pub two: &'a AtomicU64,
}

impl<'a, 'c, C: Clock + Drop> Maker<Actor<'a, 'c, C>> for Actors<'a, 'c, C> {
    fn device_at(&self, alloc: Global, slot: usize) -> Result<Actor<'a, 'c, C>, NoMemory> {
        let (part, come, other) = if slot == 0 {
            (self.first, self.one, self.two)
        } else {
            (self.others, self.two, self.one)
        };
        let table = Table::of(part.answers, part.words).device(alloc)?;
        Ok(Actor {
            table,
            answers: part.answers.lines().count(),
            awaited: part.awaited,
            pause: part.pause,
            come,
            other,
            clock: self.clock,
        })
    }
}
