//! A counter of turns, which remembers whose each was.
ghost use Rattle.std.specs.Prelude.{◌≡◌, ◌≤◌, [], IfOk, length, vec_capacity};

use golog_base::NoMemory;
use golog_turn::Object;
use std::alloc::Global;

// The most entries that it counts.
const ROOM: usize = 4096;

/// Whose each turn was, in order, for at most 4,096 turns.
#[derive(Drop)]
pub struct Counter {
    parties: Vec<u32>,
    ghost roomy: { 4096 ≤ vec_capacity parties },
    ghost bounded: { length parties.items ≤ 4096 },
}

/// Adds one entry of this party.
#[derive(Clone, Copy)]
pub struct Add(pub u32);

impl Counter {
    /// A counter of no turn yet, with room for all that it counts. `NoMemory` where there is none for that.
    pub fn new(alloc: Global) -> Result<Counter, NoMemory>
        ensures { IfOk result (λ made. made.parties.items ≡ []) }
    {
        Ok(Counter {
            parties: Vec::with_capacity(alloc, ROOM)?,
        })
    }
}

/// The reply is the new count, or 0 where the room is full.
impl Object for Counter {
    ghost use Rattle.golog_device_tests.specs.Counter.{Counts};

    type Op = Add;

    type Reply = u64;

    type Entry = u32;

    ghost list = { λ counter. counter.parties.items };

    ghost party = { λ party. party };

    ghost allows = { λ _ _. Unit {0} };

    ghost answers = { λ list op reply added. Counts list op.0 reply added };

    fn apply(&mut self, op: Add) -> u64 {
        if self.parties.len() >= ROOM {
            return 0;
        }
        self.parties.push_reserved(op.0);
        self.parties.len() as u64
    }

    fn length(&self) -> u64 {
        self.parties.len() as u64
    }
}
