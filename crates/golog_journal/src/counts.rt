//! `Counts`, what is counted of a journal's entries without the entries.
ghost use Rattle.std.specs.Prelude.{◌≡◌, ◌<◌, ◌≤◌, [], length, Some, None, IfOk};
ghost use Rattle.golog_semantics.specs.declared.journal.Entry.TheVariants.{Do};
ghost use Rattle.golog_semantics.specs.Journal.{poster_of as posted_by, device_of, has_end as has_ended, is_open as is_open_in, is_full as is_full_in, is_quiet as is_quiet_in, lacks_results as lack_results_in, may_be_answered as may_be_answered_in, longest};
ghost use Rattle.golog_journal.specs.Agents.{ServesDevices};
ghost use Rattle.golog_journal.specs.Boards.{IsBoardList, IsBoardWith, journal_with};
ghost use Rattle.golog_journal.specs.Commands.{is_resting as is_resting_in};
ghost use Rattle.golog_journal.specs.Quiet.{held_of as held_of_device};
ghost use Rattle.golog_journal.specs.Tallies.{IsStep};

use crate::LIMIT;
use crate::facts::AgentFacts;
use crate::quiet::{all_quiet, some_lack_results, some_may_be_answered};
use crate::standing::{Standing, standings_of};
use crate::totals::Totals;
use golog_base::NoMemory;
use golog_semantics::Entry;
use golog_tree::Agent;
use std::alloc::Global;
use std::marker::Model;

/// What is counted of a journal's entries, which are not kept. Contracts see it as the agent and the entries.
#[derive(Drop)]
pub struct Counts {
    facts: AgentFacts,
    totals: Totals,
    standings: Vec<Standing>,
}

impl Model for Counts {
    ghost use Rattle.golog_journal.specs.Boards.{AgentJournal};
    ghost use Rattle.golog_journal.specs.Tallies.{IsCounted};
    ghost use Rattle.std.specs.Coded.{codes};
    ghost use Rattle.golog_tree.specs.contracts.cond.Cond as cond;
    ghost use Rattle.golog_tree.specs.contracts.cond.Term as term;
    ghost use Rattle.golog_tree.specs.contracts.prog.Prog as prog;
    ghost use Rattle.golog_tree.specs.contracts.prog.Way as way;

    ghost Value = { AgentJournal };

    ghost coded = { Prim.hlevel (codes, cond.the_row.coded, term.the_row.coded, prog.the_row.coded, way.the_row.coded) };

    ghost view = { λ counts. record { agent = counts.facts; entries = counts.totals } };

    ghost invariant = { λ counts. IsCounted counts.facts counts.totals counts.standings.items };
}

/// The device that an entry is of, if it is of one.
pub fn poster_of(entry: Entry) -> Option<u8>
    ensures { result ≡ posted_by entry }
{
    match entry {
        Entry::Exo { poster, .. }
        | Entry::Sense { poster, .. }
        | Entry::Rest { poster, .. }
        | Entry::Close { poster, .. } => Some(poster),
        Entry::Do { .. } | Entry::Test | Entry::End { .. } => None,
    }
}

impl Counts {
    /// The counts of a journal of this agent that has no entry. No later call takes memory.
    pub fn new(alloc: Global, agent: &Agent) -> Result<Counts, NoMemory>
        requires { ServesDevices agent.now }
        ensures { IfOk result (λ counts. counts ≡ record { agent = agent.now; entries = [] }) }
    {
        let facts = AgentFacts::of(alloc, agent)?;
        let totals = Totals::new();
        let standings = standings_of(alloc, agent.devices.len())?;
        Ok(Counts {
            facts,
            totals,
            standings,
        })
    }

    /// Whether the device is open.
    pub fn is_open(&self, device: u8) -> bool
        requires { device < length self.now.agent.devices }
        ensures { result ≡ is_open_in device self.now.entries }
    {
        self.standings[device as usize].is_open
    }

    /// The number of entries.
    pub fn len(&self) -> u32
        ensures number { result ≡ length self.now.entries }
        ensures most { length self.now.entries ≤ longest }
    {
        self.totals.len()
    }

    /// Whether it takes no further counted entry.
    pub fn is_full(&self) -> bool
        ensures { result ≡ is_full_in self.now.entries }
    {
        self.totals.count() >= LIMIT
    }

    /// Whether each device is closed or at rest. Takes time for each device, and none for the entries.
    pub fn is_quiet(&self) -> bool
        ensures { result ≡ is_quiet_in self.now.agent self.now.entries }
    {
        all_quiet(&self.standings)
    }

    /// Whether a result is still to come. Takes time for each device, and none for the entries.
    pub fn lacks_results(&self) -> bool
        ensures { result ≡ lack_results_in self.now.agent self.now.entries }
    {
        some_lack_results(&self.standings)
    }

    /// Whether a result is still to come of a device that is open. Takes time for each device, and none for the
    /// entries.
    pub fn may_be_answered(&self) -> bool
        ensures { result ≡ may_be_answered_in self.now.agent self.now.entries }
    {
        some_may_be_answered(&self.standings)
    }

    /// The device for whose result the program waits behind the action, if it waits for one.
    pub fn held_of(&self, action: u32) -> Option<u8>
        ensures { result ≡ held_of_device self.now.agent action }
    {
        if self.facts.is_held(action) {
            self.facts.device_of(action)
        } else {
            None
        }
    }

    /// Whether the program has ended.
    pub fn has_end(&self) -> bool
        ensures { result ≡ has_ended self.now.entries }
    {
        self.totals.has_end()
    }

    /// Counts one more entry, of the program or of a device.
    pub fn add(&mut self, entry: Entry)
        requires { IsBoardWith self.old entry }
        ensures { self.new ≡ journal_with self.old entry }
    {
        match poster_of(entry) {
            Some(device) => self.add_posted(device, entry),
            None => self.add_committed(entry),
        }
    }

    /// The facts of the agent's actions.
    pub fn facts(&self) -> &AgentFacts
        ensures { result.now ≡ self.now.agent }
    {
        &self.facts
    }

    /// Whether the last entry of the device is a Rest with so many commands taken.
    pub(crate) fn is_resting(&self, device: u8, taken: u32) -> bool
        requires { device < length self.now.agent.devices }
        ensures { result ≡ is_resting_in self.now.agent self.now.entries device taken }
    {
        let standing = &self.standings[device as usize];
        standing.is_resting(taken)
    }

    /// What is so of the entries of each journal.
    pub(crate) fn keeps_rules(&self)
        ensures serves { ServesDevices self.now.agent }
        ensures lawful { IsBoardList self.now.agent self.now.entries }
        ensures short { length self.now.entries ≤ longest }
    {
        let _totals = &self.totals;
    }

    // Counts an entry of the program that is no command.
    fn add_step(&mut self, entry: Entry)
        requires step { IsStep self.old.agent entry }
        requires lawful { IsBoardWith self.old entry }
        ensures { self.new ≡ journal_with self.old entry }
    {
        self.totals.add(entry);
    }

    // Counts an action.
    fn add_do(&mut self, action: u32)
        requires { IsBoardWith self.old (Do action) }
        ensures { self.new ≡ journal_with self.old (Do action) }
    {
        match self.facts.device_of(action) {
            Some(device) => self.add_command(device, action),
            None => self.add_step(Entry::Do { action }),
        }
    }

    // Counts an action that is a command of the device.
    fn add_command(&mut self, device: u8, action: u32)
        requires device { device_of self.old.agent action ≡ Some device }
        requires lawful { IsBoardWith self.old (Do action) }
        ensures { self.new ≡ journal_with self.old (Do action) }
    {
        let asks = self.facts.is_sensing(action);
        self.standings[device as usize].add_command(asks);
        self.totals.add(Entry::Do { action });
    }

    // Counts an entry of the program.
    fn add_committed(&mut self, entry: Entry)
        requires program { posted_by entry ≡ None }
        requires lawful { IsBoardWith self.old entry }
        ensures { self.new ≡ journal_with self.old entry }
    {
        match entry {
            Entry::Do { action } => self.add_do(action),
            _ => self.add_step(entry),
        }
    }

    // Counts an entry of a device.
    fn add_posted(&mut self, poster: u8, entry: Entry)
        requires poster { posted_by entry ≡ Some poster }
        requires lawful { IsBoardWith self.old entry }
        ensures { self.new ≡ journal_with self.old entry }
    {
        self.standings[poster as usize].note(entry);
        self.totals.add(entry);
    }
}
