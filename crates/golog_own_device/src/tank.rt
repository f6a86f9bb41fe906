//! A device: a tank of nine litres that is filled by the litre and says how full it is.
ghost use Rattle.std.specs.Prelude.{◌≡◌, true, IfOk};

use crate::slots::Maker;
use golog_base::{Bytes, List, NoMemory};
use golog_device::{Begun, Device, Idle, Served};
use std::alloc::Global;

/// How many readings a tank can give: the text of each is made before the run.
const READINGS: usize = 100;

/// The most litres it holds.
const FULL: u8 = 9;

/// A tank. It carries out `fill`, which is a litre more, and answers `read` with how many litres it holds.
#[derive(Drop)]
pub struct Tank {
    fresh: bool,
    litres: u8,
    texts: List<Bytes>,
}

impl Tank {
    /// A tank with one litre in it.
    fn new(alloc: Global) -> Result<Tank, NoMemory>
        ensures { IfOk result (λ tank. tank.fresh ≡ true) }
    {
        let mut texts = List::new(alloc);
        for _ in 0..READINGS {
            let text = List::copy_of(alloc, b"0")?;
            texts.push(text)?;
        }
        Ok(Tank {
            fresh: true,
            litres: 1,
            texts,
        })
    }

    /// How many litres it holds, as a digit; nothing where all its texts have been given away.
    fn reading(&mut self) -> Served
        ensures { self.new.fresh ≡ self.old.fresh }
    {
        match self.texts.pop() {
            Some(mut text) => {
                text.clear();
                match text.push(b'0' + self.litres % 10) {
                    Ok(()) => Served::Value(text),
                    Err(_) => Served::Nothing,
                }
            }
            None => Served::Nothing,
        }
    }
}

impl Device for Tank {
    ghost use Rattle.std.specs.Prelude.{false, None};

    ghost fresh = { λ tank. tank.fresh };

    // Nothing is told of what it was given and told, so that the journal alone is promised.
    ghost meaning = { λ tank. record { name = None; cut = false; given = None; told = None; left = None } };

    fn begin(&mut self, _alloc: Global, _name: &[u8], _script: &[u8]) -> Begun {
        self.fresh = false;
        Begun::Ready
    }

    fn serve(&mut self, action: &[u8], asked: bool) -> Served {
        if asked {
            return self.reading();
        }
        if action == b"fill".as_slice() && self.litres < FULL {
            self.litres += 1;
        }
        Served::Nothing
    }

    fn idle(&mut self) -> Idle {
        Idle::Rest
    }
}

/// Makes tanks.
#[derive(Drop)]
pub struct Tanks;

impl Maker<Tank> for Tanks {
    fn device(&self, alloc: Global) -> Result<Tank, NoMemory> {
        Tank::new(alloc)
    }
}
