//! A log of numbers, each put by a party.
ghost use Rattle.std.specs.Prelude.{◌≡◌, ℕ, ◌≤◌, [], ◌∷◌, ◌++◌, IfOk, MatchOption, MatchBool, nat_lt, length, slice_get, vec_capacity};
ghost use Rattle.golog_device_tests.specs.declared.turns.number_log.LogReply.TheVariants.{Added, Full, Number, Nothing};

use golog_base::NoMemory;
use golog_turn::Object;
use std::alloc::Global;

// The most numbers that it keeps.
const ROOM: usize = 4096;

/// A number, and the party that put it.
#[derive(Clone, Copy)]
pub struct Item {
    pub party: u32,
    pub number: u32,
}

/// The items put so far, in order, at most 4,096.
#[derive(Drop)]
pub struct NumberLog {
    items: Vec<Item>,
    ghost roomy: { 4096 ≤ vec_capacity items },
}

/// What a party asks of the log in its turn.
#[derive(Clone, Copy)]
pub enum LogOp {
    /// Adds the item where there is room.
    Put(Item),
    /// Asks for the number at this place.
    Read(u32),
}

/// What the log replies.
#[derive(Clone, Copy, Debug, PartialEq)]
pub enum LogReply {
    /// The item was added.
    Added,
    /// It was not: the room is full.
    Full,
    /// The number at the place.
    Number(u32),
    /// The place is behind the end.
    Nothing,
}

impl NumberLog {
    /// A log with no item, and with room for all that it keeps. `NoMemory` where there is none for that.
    pub fn new(alloc: Global) -> Result<NumberLog, NoMemory>
        ensures { IfOk result (λ made. made.items.items ≡ []) }
    {
        Ok(NumberLog {
            items: Vec::with_capacity(alloc, ROOM)?,
        })
    }

    fn put(&mut self, item: Item) -> LogReply
        ensures { MatchBool (nat_lt (length self.old.items.items) 4096)
            ((self.new.items.items ≡ self.old.items.items ++ item ∷ []) × (result ≡ Added))
            ((self.new.items.items ≡ self.old.items.items) × (result ≡ Full)) }
    {
        if self.items.len() >= ROOM {
            return LogReply::Full;
        }
        self.items.push_reserved(item);
        LogReply::Added
    }

    fn number_at(&self, place: u32) -> LogReply
        ensures { MatchOption (slice_get self.now.items.items place)
            (result ≡ Nothing) (λ item. result ≡ Number item.number) }
    {
        match self.items.get(place as usize) {
            Some(item) => LogReply::Number(item.number),
            None => LogReply::Nothing,
        }
    }
}

impl Object for NumberLog {
    ghost use Rattle.golog_device_tests.specs.declared.turns.number_log.LogOp.TheVariants.{Put, Read};
    ghost use Rattle.golog_device_tests.specs.declared.turns.number_log.Item.{Item};

    type Op = LogOp;

    type Reply = LogReply;

    type Entry = Item;

    ghost list = { λ log. log.items.items };

    ghost party = { λ item. item.party };

    ghost allows = { λ _ _. Unit {0} };

    ghost answers = { λ list op reply added.
        ((item : Item) → op ≡ Put item →
        MatchBool (nat_lt (length list) 4096)
        ((added ≡ item ∷ []) × (reply ≡ Added))
        ((added ≡ []) × (reply ≡ Full)))
        × ((place : ℕ) → op ≡ Read place →
        (added ≡ [])
        × MatchOption (slice_get list place) (reply ≡ Nothing) (λ item. reply ≡ Number item.number)) };

    fn apply(&mut self, op: LogOp) -> LogReply {
        match op {
            LogOp::Put(item) => self.put(item),
            LogOp::Read(place) => self.number_at(place),
        }
    }

    fn length(&self) -> u64 {
        self.items.len() as u64
    }
}
