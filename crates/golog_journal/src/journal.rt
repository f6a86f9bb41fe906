//! `Journal`, a board of one owner: a `Counts` with the entries beside it, and how far these were
//! gone through for the commands of each device.
ghost use Rattle.std.specs.Prelude.{◌≡◌, ◌<◌, ◌≤◌, ◌+◌, [], length, min, take, drop, ◌-◌, Some, None, IfOk, IfSome, MatchOption, if◌then◌else◌, option_map, slice_get};
ghost use Rattle.std.specs.Option.{option_map_or};
ghost use Rattle.golog_semantics.specs.Journal.{commands, is_open as is_open_in, is_full as is_full_in, is_quiet as is_quiet_in, longest};
ghost use Rattle.golog_semantics.specs.Posts.{awaited_command, is_bad as is_bad_in, later_reason as later_reason_in, closing as closing_in, entry_of as entry_in};
ghost use Rattle.golog_semantics.specs.declared.journal.Entry.TheVariants.{Close};
ghost use Rattle.golog_journal.specs.Agents.{ServesDevices};
ghost use Rattle.golog_journal.specs.Boards.{IsBoardList, IsBoardWith, journal_with};
ghost use Rattle.golog_journal.specs.Posting.{posted_at as posted_at_in};
ghost use Rattle.golog_journal.specs.Commands.{next_of as next_in, next_by};
ghost use Rattle.golog_journal.specs.Reaching.{IsReached, command_of};

use crate::counts::Counts;
use crate::ledger::Ledger;
use crate::reached::{Placed, Reached, all_at_start, reached_from};
use crate::{BATCH, Batch, Board, Commit, Next, Posted};
use golog_base::{List, NoMemory};
use golog_semantics::{Entry, Item, Reason};
use golog_tree::Agent;
use std::alloc::Global;
use std::marker::Model;

/// A journal of an agent that no one else adds to. Contracts see it as the agent and the entries.
#[derive(Drop)]
pub struct Journal {
    counts: Counts,
    ledger: Ledger,
    reached: Vec<Reached>,
}

impl Model for Journal {
    ghost use Rattle.golog_journal.specs.Boards.{AgentJournal};
    ghost use Rattle.std.specs.Prelude.{◌≡◌};
    ghost use Rattle.golog_journal.specs.Reaching.{AreReached};
    ghost use Rattle.std.specs.Coded.{codes};
    ghost use Rattle.golog_tree.specs.contracts.cond.Cond as cond;
    ghost use Rattle.golog_tree.specs.contracts.cond.Term as term;
    ghost use Rattle.golog_tree.specs.contracts.prog.Prog as prog;
    ghost use Rattle.golog_tree.specs.contracts.prog.Way as way;

    ghost Value = { AgentJournal };

    ghost coded = { Prim.hlevel (codes, cond.the_row.coded, term.the_row.coded, prog.the_row.coded, way.the_row.coded) };

    ghost view = { λ journal. journal.counts };

    ghost invariant = { λ journal.
        (journal.ledger ≡ journal.counts.entries)
        × AreReached journal.counts.agent journal.counts.entries journal.reached.items };
}

impl Journal {
    /// A journal of this agent, without an entry and with room for 1,048,593. No later call takes memory.
    pub fn new(alloc: Global, agent: &Agent) -> Result<Journal, NoMemory>
        requires { ServesDevices agent.now }
        ensures { IfOk result (λ journal. journal ≡ record { agent = agent.now; entries = [] }) }
    {
        let counts = Counts::new(alloc, agent)?;
        let ledger = Ledger::new(alloc)?;
        let reached = all_at_start(alloc, agent.devices.len())?;
        Ok(Journal {
            counts,
            ledger,
            reached,
        })
    }

    /// Whether the device is open.
    pub fn is_open(&self, device: u8) -> bool
        requires { device < length self.now.agent.devices }
        ensures { result ≡ is_open_in device self.now.entries }
    {
        self.counts.is_open(device)
    }

    /// The number of entries.
    pub fn len(&self) -> u32
        ensures number { result ≡ length self.now.entries }
        ensures most { length self.now.entries ≤ longest }
    {
        self.counts.len()
    }

    /// Whether it takes no further counted entry.
    pub fn is_full(&self) -> bool
        ensures { result ≡ is_full_in self.now.entries }
    {
        self.counts.is_full()
    }

    /// Whether each device is closed or at rest. Takes time for each device, and none for the entries.
    pub fn is_quiet(&self) -> bool
        ensures { result ≡ is_quiet_in self.now.agent self.now.entries }
    {
        self.counts.is_quiet()
    }

    /// Adds an entry, of the program or of a device, as to a copy of another board's entries.
    pub fn add(&mut self, entry: Entry)
        requires { IsBoardWith self.old entry }
        ensures { self.new ≡ journal_with self.old entry }
    {
        self.push(entry);
    }

    /// The entries, handed out. Takes no memory.
    pub fn into_entries(self) -> List<Entry>
        ensures { result ≡ self.entries }
    {
        self.ledger.into_entries()
    }

    // Adds an entry.
    fn push(&mut self, entry: Entry)
        requires { IsBoardWith self.old entry }
        ensures more { self.new ≡ journal_with self.old entry }
        ensures short { length self.new.entries ≤ longest }
    {
        self.counts.add(entry);
        self.counts.keeps_rules();
        self.ledger.push(entry);
    }

    // How far the entries are gone through up to the device's command of this number, from 0, or to the end.
    fn reached_at(&self, poster: u8, number: u32) -> Reached
        requires { poster < length self.now.agent.devices }
        ensures reached { IsReached self.now.agent self.now.entries poster result }
        ensures most { result.commands ≤ number + 1 }
        ensures far { result.commands ≤ number → result.place ≡ length self.now.entries }
    {
        self.counts.keeps_rules();
        let from = self.reached[poster as usize].before(number);
        reached_from(
            self.counts.facts(),
            self.ledger.since(0),
            poster,
            from,
            number,
        )
    }

    // Keeps how far the entries are gone through, so that what stands before is not looked at again.
    fn reach(&mut self, poster: u8, number: u32)
        requires { poster < length self.old.agent.devices }
        ensures { self.new ≡ self.old }
    {
        let reached = self.reached_at(poster, number);
        self.reached[poster as usize] = reached;
    }

    // A command of the device, by its number from 0.
    fn command_at(&self, poster: u8, number: u32) -> Option<Placed>
        requires { poster < length self.now.agent.devices }
        ensures command { option_map command_of result ≡ slice_get (commands self.now.agent poster self.now.entries) number }
        ensures place { IfSome result (λ command. command.place < length self.now.entries) }
    {
        let reached = self.reached_at(poster, number);
        if number < reached.commands {
            reached.last
        } else {
            None
        }
    }

    // The last command taken, where its result is still to come.
    fn awaited(&self, poster: u8, taken: u32) -> Option<Placed>
        requires { poster < length self.now.agent.devices }
        ensures { option_map command_of result ≡ awaited_command self.now.agent self.now.entries poster taken }
    {
        if taken == 0 {
            return None;
        }
        match self.command_at(poster, taken - 1) {
            Some(command)
                if self.counts.facts().is_sensing(command.action)
                    && !self.ledger.is_answered(command.place) => { Some(command) }
            _ => None,
        }
    }

    // What a device is to do that has taken so many commands.
    fn next_of(&self, poster: u8, taken: u32) -> Next
        requires { poster < length self.now.agent.devices }
        ensures { result ≡ next_in self.now.agent self.now.entries poster taken }
    {
        match self.command_at(poster, taken) {
            Some(next) => Next::Command {
                place: next.place,
                action: next.action,
                asked: self.counts.facts().is_sensing(next.action),
            },
            None => self.next_without(poster, taken),
        }
    }

    // What a device is to do that has no command.
    fn next_without(&self, poster: u8, taken: u32) -> Next
        requires { poster < length self.now.agent.devices }
        ensures { result ≡ next_by self.now.agent self.now.entries poster taken None }
    {
        let ended = self.counts.has_end();
        let resting = self.counts.is_resting(poster, taken);
        idle_next(ended, resting)
    }

    // What is so of the entries of each journal.
    fn keeps_rules(&self)
        ensures serves { ServesDevices self.now.agent }
        ensures lawful { IsBoardList self.now.agent self.now.entries }
        ensures short { length self.now.entries ≤ longest }
    {
        self.counts.keeps_rules();
    }

    // The number of entries, where there are more than that.
    fn longer_than(&self, at: u32) -> Option<u32>
        requires { at ≤ length self.now.entries }
        ensures { MatchOption result (length self.now.entries ≡ at)
            (λ longer. (at < length self.now.entries) × (longer ≡ length self.now.entries)) }
    {
        let length = self.counts.len();
        if length == at { None } else { Some(length) }
    }

    // The entries from a place on.
    fn batch(&self, since: u32) -> Batch
        requires { since ≤ length self.now.entries }
        ensures count { result.count ≡ min 64 (length self.now.entries - since) }
        ensures entries { take result.count result.entries ≡ take result.count (drop since self.now.entries) }
        ensures length { result.length ≡ length self.now.entries }
    {
        let new = self.ledger.since(since);
        let count = new.len().min(BATCH);
        let mut entries = [Entry::Test; BATCH];
        entries[..count].copy_from_slice(&new[..count]);
        Batch {
            count: count as u32,
            entries,
            length: self.counts.len(),
        }
    }

    fn is_bad(&self, poster: u8, item: Item, taken: u32) -> bool
        requires { poster < length self.now.agent.devices }
        ensures { result ≡ is_bad_in self.now.agent self.now.entries poster taken item }
    {
        self.keeps_rules();
        let awaited = self.awaited(poster, taken);
        match item {
            Item::Unreadable | Item::Silent => true,
            Item::Exo(action) => !self.counts.facts().may_post(poster, action) || awaited.is_some(),
            Item::Value(value) => match awaited {
                Some(command) => !self.counts.facts().is_value_for(command.action, value),
                None => true,
            },
            Item::Rest | Item::Close | Item::Stop | Item::Refused => awaited.is_some(),
        }
    }

    fn later_reason(&self, poster: u8, item: Item, taken: u32) -> Option<Reason>
        requires { poster < length self.now.agent.devices }
        ensures { result ≡ later_reason_in self.now.agent self.now.entries poster taken item }
    {
        if self.counts.has_end() {
            Some(Reason::Late)
        } else if self.is_full() {
            Some(Reason::Full)
        } else if self.is_bad(poster, item, taken) {
            Some(Reason::Bad)
        } else {
            None
        }
    }

    // Why the device is closed in place of the item, if it is.
    fn closing(&self, poster: u8, item: Item, taken: u32) -> Option<Reason>
        requires { poster < length self.now.agent.devices }
        ensures { result ≡ closing_in self.now.agent self.now.entries poster taken item }
    {
        match item {
            Item::Stop => Some(Reason::Stopped),
            Item::Refused => Some(Reason::Refused),
            Item::Close => Some(Reason::Ended),
            Item::Exo(_) | Item::Value(_) | Item::Rest | Item::Unreadable | Item::Silent => {
                self.later_reason(poster, item, taken)
            }
        }
    }

    // The entry for an item, or the Close in its place.
    fn posted_entry(&self, poster: u8, item: Item, taken: u32, closing: Option<Reason>) -> Entry
        requires { poster < length self.now.agent.devices }
        ensures { result ≡ option_map_or (λ reason. Close poster reason taken) closing (entry_in self.now.agent self.now.entries poster taken item) }
    {
        match closing {
            Some(reason) => Entry::Close {
                poster,
                reason,
                taken,
            },
            None => self.entry_of(poster, item, taken),
        }
    }

    // The entry for an item that is not refused.
    fn entry_of(&self, poster: u8, item: Item, taken: u32) -> Entry
        requires { poster < length self.now.agent.devices }
        ensures { result ≡ entry_in self.now.agent self.now.entries poster taken item }
    {
        match item {
            Item::Exo(action) => Entry::Exo { poster, action },
            Item::Value(value) => match self.awaited(poster, taken) {
                Some(command) => Entry::Sense {
                    poster,
                    place: command.place,
                    fluent: self.counts.facts().sensed(command.action).unwrap_or(0),
                    value,
                },
                None => Entry::Rest { poster, taken },
            },
            Item::Rest
            | Item::Close
            | Item::Unreadable
            | Item::Silent
            | Item::Stop
            | Item::Refused => Entry::Rest { poster, taken },
        }
    }
}

// What a device is to do that has no command.
fn idle_next(ended: bool, resting: bool) -> Next
    ensures { result ≡ (if ended then Next.Ended else Next.Nothing resting) }
{
    if ended {
        Next::Ended
    } else {
        Next::Nothing { resting }
    }
}

// What is answered where the device is closed for this reason, if it is.
fn posted_at(place: u32, closing: Option<Reason>) -> Posted
    ensures { result ≡ posted_at_in place closing }
{
    match closing {
        Some(reason) => Posted::Closed { place, reason },
        None => Posted::At(place),
    }
}

impl Board for Journal {
    ghost use Rattle.std.specs.Prelude.{true, refl};
    ghost use Rattle.golog_journal.specs.Growing.{Sight};

    ghost sight = { λ journal. record { agent = journal.agent; seen = journal.entries; alone = true; holds = λ _. true } };

    ghost holds_all = { λ journal alone party within. refl };

    fn post(&mut self, poster: u8, item: Item, taken: u32) -> Posted {
        self.keeps_rules();
        let place = self.counts.len();
        let closing = self.closing(poster, item, taken);
        let entry = self.posted_entry(poster, item, taken, closing);
        self.push(entry);
        posted_at(place, closing)
    }

    fn next_command(&mut self, poster: u8, taken: u32) -> Next {
        self.reach(poster, taken);
        self.keeps_rules();
        self.next_of(poster, taken)
    }

    fn has_more(&mut self, since: u32) -> bool {
        self.keeps_rules();
        since < self.len()
    }

    fn copy_since(&mut self, since: u32) -> Batch {
        self.keeps_rules();
        self.batch(since)
    }

    fn commit(&mut self, at: u32, entry: Entry) -> Commit {
        self.keeps_rules();
        match self.longer_than(at) {
            Some(longer) => Commit::Moved { longer },
            None => {
                self.push(entry);
                Commit::Taken
            }
        }
    }
}
