// What a device told, up to and with its first Close, in room that is reserved.
ghost use Rattle.std.specs.Prelude.{◌≡◌, ◌≤◌, ◌<◌, ◌+◌, [], Some, IfOk, false};
ghost use Rattle.golog_device.specs.Devices.{is_told_close, told_then, told_after, tells};
ghost use Rattle.golog_device.specs.Kept.{item_of, is_closed};

use crate::{Idle, Served};
use golog_base::{Bytes, NoMemory};
use std::alloc::Global;

/// An item that a device told.
#[derive(Debug, Drop)]
pub enum Told {
    /// It posted the action with this text.
    Post(Bytes),
    /// It answered with the text of a value.
    Value(Bytes),
    /// It rested.
    Rest,
    /// It closed.
    Close,
}

impl Told {
    /// What a device told that did this without a command.
    pub fn of_idle(idle: Idle) -> Told
        ensures { item_of result ≡ tells idle }
    {
        match idle {
            Idle::Post(text) => Told::Post(text),
            Idle::Rest => Told::Rest,
            Idle::Close => Told::Close,
        }
    }

    fn is_close(&self) -> bool
        ensures { result ≡ is_told_close (item_of self.now) }
    {
        match self {
            Told::Close => true,
            Told::Post(_) | Told::Value(_) | Told::Rest => false,
        }
    }
}

/// What a device told, up to and with its first Close.
#[derive(Drop)]
pub struct ToldItems {
    told: Vec<Told>,
    closed: bool,
    ghost closes: { closed ≡ is_closed told.items },
}

#[tactic(auto, using(crate::proofs::Kept::item_laws))]
impl ToldItems {
    ghost use Rattle.golog_device.specs.Logs.{told_by, is_over, kept_by, room_of};

    /// Nothing told yet, with room for so many items. Takes memory.
    pub fn with_room(alloc: Global, room: usize) -> Result<ToldItems, NoMemory>
        ensures none { IfOk result (λ log. told_by log ≡ []) }
        ensures empty { IfOk result (λ log. kept_by log ≡ 0) }
        ensures room { IfOk result (λ log. room ≤ room_of log) }
    {
        match Vec::with_capacity(alloc, room) {
            Ok(told) => Ok(ToldItems {
                told,
                closed: false,
            }),
            Err(_) => Err(NoMemory),
        }
    }

    /// Adds an item, unless a Close was told. Takes no memory.
    pub fn push(&mut self, item: Told)
        requires { is_over self.old ≡ false → kept_by self.old < room_of self.old }
        ensures told { Some (told_by self.new) ≡ told_then (Some (told_by self.old)) (item_of item) }
        ensures one { kept_by self.new ≤ kept_by self.old + 1 }
        ensures room { room_of self.new ≡ room_of self.old }
        ensures still { is_over self.new ≡ false → is_over self.old ≡ false }
    {
        if self.closed {
            return;
        }
        self.closed = item.is_close();
        self.told.push_reserved(item);
    }

    /// Adds the value that was answered, if one was and no Close was told. Takes no memory.
    pub fn push_served(&mut self, served: Served)
        requires { is_over self.old ≡ false → kept_by self.old < room_of self.old }
        ensures told { Some (told_by self.new) ≡ told_after (Some (told_by self.old)) served }
        ensures one { kept_by self.new ≤ kept_by self.old + 1 }
        ensures room { room_of self.new ≡ room_of self.old }
        ensures still { is_over self.new ≡ false → is_over self.old ≡ false }
    {
        match served {
            Served::Value(text) => self.push(Told::Value(text)),
            Served::Nothing => {}
        }
    }

    /// Forgets what was told.
    pub fn clear(&mut self)
        ensures none { told_by self.new ≡ [] }
        ensures empty { kept_by self.new ≡ 0 }
        ensures room { room_of self.new ≡ room_of self.old }
    {
        self.told.clear();
        self.closed = false;
    }
}
