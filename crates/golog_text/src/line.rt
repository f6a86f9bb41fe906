// `Line`, 16,384 bytes of room, filled with the line of an entry by its place, the values before it
// and the run that it begins.
ghost use Rattle.std.specs.Prelude.{◌≡◌, ◌<◌, ◌≤◌, ◌+◌, [], ◌++◌, length, IfOk, IfSome, OnOk, OnErr, option_copied};
ghost use Rattle.golog_semantics.specs.InSorts.{AreInSorts};
ghost use Rattle.golog_semantics.specs.WellFormed.{WellFormed};
ghost use Rattle.golog_text.specs.Filled.{IsLineOf, full_line, reserved, run_most};
ghost use Rattle.golog_text.specs.Named.{AreLabels, IsNamed};

use crate::body::add_body;
use crate::names::add_number;
use golog_base::{List, NoMemory};
use golog_progress::State;
use golog_semantics::Entry;
use golog_tree::{Agent, Label};
use std::alloc::Global;
use std::marker::Model;

/// How many bytes are reserved.
const RESERVED: usize = 16_384;

/// Room for a line of a report, in which the line of one entry is written after that of another. Contracts see
/// it as the list of the bytes that stand there.
#[derive(Debug, Drop)]
pub struct Line {
    bytes: Vec<u8>,
}

impl Model for Line {
    ghost use Rattle.std.specs.Prelude.{ℕ, List, ◌≤◌, vec_capacity};
    ghost use Rattle.golog_text.specs.Filled.{reserved};

    ghost Value = { List ℕ };

    ghost view = { λ line. line.bytes.items };

    ghost invariant = { λ line. reserved ≤ vec_capacity line.bytes };
}

impl Line {
    /// Room for a line, of 16,384 bytes, in which none stands.
    pub fn new(alloc: Global) -> Result<Line, NoMemory>
        ensures { IfOk result (λ line. line ≡ []) }
    {
        let bytes = Vec::with_capacity(alloc, RESERVED)?;
        Ok(Line { bytes })
    }

    // Takes all bytes away, and keeps their room.
    fn clear(&mut self)
        ensures { self.new ≡ [] }
    {
        self.bytes.clear();
    }

    // Adds bytes, and takes memory only where the room is too little for them.
    pub(crate) fn extend(&mut self, more: &[u8]) -> Result<(), NoMemory>
        ensures added { OnOk result (self.new ≡ self.old ++ more.now) }
        ensures full { OnErr result (reserved < length self.old + length more.now) }
    {
        self.bytes.extend_from_slice(more).map_err(|_| NoMemory)
    }

    fn as_slice(&self) -> &[u8]
        ensures { result.now ≡ self.now }
    {
        self.bytes.as_slice()
    }

    // Writes the line of an entry, and its line feed, in place of what stood there.
    fn write(
        &mut self,
        agent: &Agent,
        place: u32,
        entry: Entry,
        before: &State,
        run: Option<&List<Label>>,
    ) -> Result<(), NoMemory>
        requires formed { WellFormed agent.now }
        requires sorts { AreInSorts agent.now before.now }
        requires entry { IsNamed agent.now entry }
        requires labels { IfSome (option_copied run) (AreLabels agent.now) }
        ensures line { OnOk result
            (self.new ≡ full_line agent.now place before.now (option_copied run.entry) entry) }
        ensures full { OnErr result (reserved < 400 + run_most (option_copied run.entry)) }
    {
        self.clear();
        add_number(self, place as usize)?;
        self.extend(b" ")?;
        add_body(self, agent, before.values(), run, entry)?;
        self.extend(b"\n")
    }

    /// The line of an entry at this place, with these values before it and the run that it begins, if it begins
    /// one, with its line feed. It stands in the room, in place of the line before.
    ///
    /// Takes no memory.
    pub fn fill(
        &mut self,
        agent: &Agent,
        place: u32,
        entry: Entry,
        before: &State,
        run: Option<&List<Label>>,
    ) -> &[u8]
        requires formed { WellFormed agent.now }
        requires sorts { AreInSorts agent.now before.now }
        requires entry { IsNamed agent.now entry }
        requires labels { IfSome (option_copied run) (AreLabels agent.now) }
        requires few { IfSome (option_copied run) (λ labels. length labels ≤ 64) }
        ensures full { result.now ≡ full_line agent.now place before.now (option_copied run.entry) entry }
        ensures line { IsLineOf agent.now place before.now (option_copied run.entry) entry result.now }
    {
        match self.write(agent, place, entry, before, run) {
            Ok(()) => self.as_slice(),
            Err(NoMemory) => unreachable!(),
        }
    }

    /// The line that `fill` gives, also of a run of more labels, which may want memory.
    ///
    /// `NoMemory` comes only for want of memory.
    pub fn try_fill(
        &mut self,
        agent: &Agent,
        place: u32,
        entry: Entry,
        before: &State,
        run: Option<&List<Label>>,
    ) -> Result<&[u8], NoMemory>
        requires formed { WellFormed agent.now }
        requires sorts { AreInSorts agent.now before.now }
        requires entry { IsNamed agent.now entry }
        requires labels { IfSome (option_copied run) (AreLabels agent.now) }
        ensures full { IfOk result
            (λ line. line.now ≡ full_line agent.now place before.now (option_copied run.entry) entry) }
        ensures line { IfOk result
            (λ line. IsLineOf agent.now place before.now (option_copied run.entry) entry line.now) }
    {
        self.write(agent, place, entry, before, run)?;
        Ok(self.as_slice())
    }
}
