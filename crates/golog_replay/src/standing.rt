//! What is kept of the entries so far, so that no rule goes through them again: each device, the
//! one command whose result the program waits for, the answer of the end.
ghost use Rattle.std.specs.Prelude.{◌≡◌, ◌==◌, ◌<◌, ◌≤◌, ◌+◌, ℕ, [], ◌∷◌, ◌++◌, length, true, false, IfOk, IsTrue, MatchOption, Contains, Some, option_and_then, take, replicate};
ghost use Rattle.std.specs.List.{list_any};
ghost use Rattle.std.specs.Option.{option_map_or};
ghost use Rattle.golog_semantics.specs.declared.journal.Entry.TheVariants.{Do, End};
ghost use Rattle.golog_semantics.specs.Journal.{Journal, commands, has_end, is_full as is_full_in, is_open as is_open_in, is_outstanding, is_quiet as is_quiet_in, is_settled as is_settled_in, entries_by, lacks_results as lacks_results_in, may_be_answered as may_be_answered_in, poster_of as posted_by};
ghost use Rattle.golog_semantics.specs.Ways.{is_empty};
ghost use Rattle.golog_semantics.specs.Answer.{is_unanswered as is_unanswered_in};
ghost use Rattle.golog_semantics.specs.Online.{is_declared, is_whole as is_whole_in, keeps_after as keeps_after_in, keeps_close as keeps_close_in, keeps_place as keeps_place_in, keeps_poster as keeps_poster_in, keeps_taken as keeps_taken_in, may_close as may_close_in, may_have_taken as may_have_taken_in};
ghost use Rattle.golog_semantics.specs.Reports.{entry_limit, fits_entry};
ghost use Rattle.golog_semantics.specs.WellFormed.{WellFormed};
ghost use Rattle.golog_journal.specs.Agents.{ServesDevices};
ghost use Rattle.golog_replay.specs.Standings.{AreEarlier, AreTracked, AwaitsFrom, EndsBy, HoldsBy, IsStanding, IsTracked, awaited_by, command_of, commands_from, first_awaited, unless_at, untouched};

use crate::tracked::{
    Awaited, Tracked, all_quiet, number_of, put, some_lacks, some_may_tell, some_open, tracked_at,
    untouched,
};
use golog_base::NoMemory;
use golog_journal::{AgentFacts, LIMIT, is_counted, poster_of};
use golog_semantics::{Answer, Entry, Reason};
use golog_tree::Agent;
use std::alloc::Global;

/// The command whose result the program waits for.
#[derive(Clone, Copy)]
pub(crate) struct Held {
    pub(crate) device: u8,
    pub(crate) place: u32,
}

/// What is kept of the entries so far.
#[derive(Drop)]
pub(crate) struct Standing {
    pub(crate) facts: AgentFacts,
    pub(crate) devices: Vec<Tracked>,
    /// The one command whose result the program waits for, if it waits for one.
    pub(crate) held: Option<Held>,
    /// How many entries are counted.
    pub(crate) counted: u32,
    pub(crate) ended: Option<Answer>,
}

/// So many devices at the start.
fn all_untouched(alloc: Global, count: usize) -> Result<Vec<Tracked>, NoMemory>
    ensures { IfOk result (λ tracked. tracked.items ≡ replicate count untouched) }
{
    let mut devices = Vec::new(alloc);
    for _ in 0..count {
        devices.push(untouched())?;
    }
    Ok(devices)
}

impl Standing {
    /// What is kept of no entry.
    pub(crate) fn new(alloc: Global, agent: &Agent) -> Result<Standing, NoMemory>
        requires { WellFormed agent.now }
        ensures { IfOk result (IsStanding agent.now []) }
    {
        let facts = AgentFacts::of(alloc, agent)?;
        let devices = all_untouched(alloc, agent.devices.len())?;
        Ok(Standing {
            facts,
            devices,
            held: None,
            counted: 0,
            ended: None,
        })
    }

    /// What is kept of a device.
    fn tracked(&self, agent: &Agent, before: &[Entry], device: u8) -> Tracked
        requires standing { IsStanding agent.now before.now self.now }
        requires device { device < length agent.now.devices }
        ensures { IsTracked agent.now before.now device result }
    {
        tracked_at(&self.devices, device)
    }

    /// Whether the device is open.
    fn is_open(&self, agent: &Agent, before: &[Entry], device: u8) -> bool
        requires standing { IsStanding agent.now before.now self.now }
        requires device { device < length agent.now.devices }
        ensures { result ≡ is_open_in device before.now }
    {
        self.tracked(agent, before, device).is_open
    }

    /// Whether the device has posted nothing.
    fn is_silent(&self, agent: &Agent, before: &[Entry], device: u8) -> bool
        requires standing { IsStanding agent.now before.now self.now }
        requires device { device < length agent.now.devices }
        ensures { result ≡ is_empty (entries_by device before.now) }
    {
        self.tracked(agent, before, device).is_silent
    }

    /// Whether the device was sent no command.
    fn is_unsent(&self, agent: &Agent, before: &[Entry], device: u8) -> bool
        requires standing { IsStanding agent.now before.now self.now }
        requires device { device < length agent.now.devices }
        ensures { result ≡ is_empty (commands agent.now device before.now) }
    {
        self.tracked(agent, before, device).commands == 0
    }

    /// Whether the device was sent just so many commands.
    fn was_sent(&self, agent: &Agent, before: &[Entry], device: u8, count: u32) -> bool
        requires standing { IsStanding agent.now before.now self.now }
        requires device { device < length agent.now.devices }
        ensures { result ≡ (count == length (commands agent.now device before.now)) }
    {
        count == self.tracked(agent, before, device).commands
    }

    /// Whether no further counted entry is taken.
    pub(crate) fn is_full(&self, agent: &Agent, before: &[Entry]) -> bool
        requires { IsStanding agent.now before.now self.now }
        ensures { result ≡ is_full_in before.now }
    {
        self.counted >= LIMIT
    }

    /// Whether the program has ended.
    fn has_end(&self, agent: &Agent, before: &[Entry]) -> bool
        requires { IsStanding agent.now before.now self.now }
        ensures { result ≡ has_end before.now }
    {
        self.ended.is_some()
    }

    /// Whether the program waits for no result.
    pub(crate) fn is_settled(&self, agent: &Agent, before: &[Entry]) -> bool
        requires { IsStanding agent.now before.now self.now }
        ensures { result ≡ is_settled_in agent.now before.now }
    {
        self.held.is_none()
    }

    /// Whether the program waits for the result of a device that is closed.
    pub(crate) fn is_unanswered(&self, agent: &Agent, before: &[Entry]) -> bool
        requires { IsStanding agent.now before.now self.now }
        ensures { result ≡ is_unanswered_in agent.now before.now }
    {
        match self.held {
            Some(held) => !self.is_open(agent, before, held.device),
            None => false,
        }
    }

    /// Whether a result is to come.
    pub(crate) fn lacks_results(&self, agent: &Agent, before: &[Entry]) -> bool
        requires { IsStanding agent.now before.now self.now }
        ensures { result ≡ lacks_results_in agent.now before.now }
    {
        some_lacks(&self.devices)
    }

    /// Whether a result is to come of a device that is open.
    pub(crate) fn may_be_answered(&self, agent: &Agent, before: &[Entry]) -> bool
        requires { IsStanding agent.now before.now self.now }
        ensures { result ≡ may_be_answered_in agent.now before.now }
    {
        some_may_tell(&self.devices)
    }

    /// Whether each device is closed or at rest.
    pub(crate) fn is_quiet(&self, agent: &Agent, before: &[Entry]) -> bool
        requires { IsStanding agent.now before.now self.now }
        ensures { result ≡ is_quiet_in agent.now before.now }
    {
        all_quiet(&self.devices)
    }

    /// The answer of the end, where the program has ended and each device is closed.
    pub(crate) fn whole(&self, agent: &Agent, before: &[Entry]) -> Option<Answer>
        requires { IsStanding agent.now before.now self.now }
        ensures { MatchOption result (is_whole_in agent.now before.now ≡ false)
            (λ answer. (is_whole_in agent.now before.now ≡ true) × Contains before.now (End answer)) }
    {
        if some_open(&self.devices) {
            return None;
        }
        self.ended
    }

    /// After the end only devices are closed.
    pub(crate) fn keeps_after(&self, agent: &Agent, before: &[Entry], entry: Entry) -> bool
        requires { IsStanding agent.now before.now self.now }
        ensures { result ≡ keeps_after_in agent.now before.now entry }
    {
        !self.has_end(agent, before) || matches!(entry, Entry::Close { .. })
    }

    /// An exogenous action is declared for its device.
    fn is_declared(&self, agent: &Agent, before: &[Entry], entry: Entry) -> bool
        requires standing { IsStanding agent.now before.now self.now }
        requires fits { IsTrue (fits_entry agent.now before.now entry) }
        ensures { result ≡ is_declared agent.now before.now entry }
    {
        match entry {
            Entry::Exo { poster, action } => self.facts.may_post(poster, action),
            Entry::Do { .. }
            | Entry::Test
            | Entry::Sense { .. }
            | Entry::Rest { .. }
            | Entry::Close { .. }
            | Entry::End { .. } => true,
        }
    }

    /// The device that an entry is of, if it is of one, is open.
    fn is_of_open(&self, agent: &Agent, before: &[Entry], entry: Entry) -> bool
        requires standing { IsStanding agent.now before.now self.now }
        requires fits { IsTrue (fits_entry agent.now before.now entry) }
        ensures { result ≡ option_map_or (λ d. is_open_in d before.now) (posted_by entry) true }
    {
        match poster_of(entry) {
            Some(poster) => self.is_open(agent, before, poster),
            None => true,
        }
    }

    /// A device posts what is declared for it, while it is open.
    pub(crate) fn keeps_poster(&self, agent: &Agent, before: &[Entry], entry: Entry) -> bool
        requires standing { IsStanding agent.now before.now self.now }
        requires fits { IsTrue (fits_entry agent.now before.now entry) }
        ensures { result ≡ keeps_poster_in agent.now before.now entry }
    {
        self.is_declared(agent, before, entry) && self.is_of_open(agent, before, entry)
    }

    /// A result is that of the first command of its device whose result is to come.
    pub(crate) fn keeps_place(&self, agent: &Agent, before: &[Entry], entry: Entry) -> bool
        requires standing { IsStanding agent.now before.now self.now }
        requires fits { IsTrue (fits_entry agent.now before.now entry) }
        ensures { result ≡ keeps_place_in agent.now before.now entry }
    {
        match entry {
            Entry::Sense {
                poster,
                place,
                fluent,
                ..
            } => self.tracked(agent, before, poster).tells(place, fluent),
            Entry::Do { .. }
            | Entry::Test
            | Entry::Exo { .. }
            | Entry::Rest { .. }
            | Entry::Close { .. }
            | Entry::End { .. } => true,
        }
    }

    /// Whether the device was sent so many commands, and no entry of it tells of more.
    fn may_have_taken(&self, agent: &Agent, before: &[Entry], device: u8, taken: u32) -> bool
        requires standing { IsStanding agent.now before.now self.now }
        requires device { device < length agent.now.devices }
        ensures { result ≡ may_have_taken_in agent.now before.now device taken }
    {
        let tracked = self.tracked(agent, before, device);
        taken <= tracked.commands && tracked.told <= taken
    }

    /// Whether a result is to come of one of the first so many commands of the device.
    fn awaits_among(&self, agent: &Agent, before: &[Entry], device: u8, taken: u32) -> bool
        requires standing { IsStanding agent.now before.now self.now }
        requires device { device < length agent.now.devices }
        ensures { result ≡ list_any (is_outstanding agent.now before.now) (take taken (commands agent.now device before.now)) }
    {
        self.tracked(agent, before, device).awaits_among(taken)
    }

    /// What is said to be taken may have been, and at a Rest the results of that have come.
    pub(crate) fn keeps_taken(&self, agent: &Agent, before: &[Entry], entry: Entry) -> bool
        requires standing { IsStanding agent.now before.now self.now }
        requires fits { IsTrue (fits_entry agent.now before.now entry) }
        ensures { result ≡ keeps_taken_in agent.now before.now entry }
    {
        match entry {
            Entry::Rest { poster, taken } => {
                self.may_have_taken(agent, before, poster, taken)
                    && !self.awaits_among(agent, before, poster, taken)
            }
            Entry::Close { poster, taken, .. } => self.may_have_taken(agent, before, poster, taken),
            _ => true,
        }
    }

    /// A device is closed for a reason that may be.
    pub(crate) fn keeps_close(&self, agent: &Agent, before: &[Entry], entry: Entry) -> bool
        requires standing { IsStanding agent.now before.now self.now }
        requires fits { IsTrue (fits_entry agent.now before.now entry) }
        ensures { result ≡ keeps_close_in agent.now before.now entry }
    {
        match entry {
            Entry::Close {
                poster,
                reason,
                taken,
            } => self.may_close(agent, before, poster, reason, taken),
            _ => true,
        }
    }

    /// Whether the device may be closed for the reason.
    fn may_close(
        &self,
        agent: &Agent,
        before: &[Entry],
        device: u8,
        reason: Reason,
        taken: u32,
    ) -> bool
        requires standing { IsStanding agent.now before.now self.now }
        requires device { device < length agent.now.devices }
        ensures { result ≡ may_close_in agent.now before.now device taken reason }
    {
        match reason {
            Reason::Ended => true,
            Reason::Bad => !self.has_end(agent, before),
            Reason::Full => self.is_full(agent, before) && !self.has_end(agent, before),
            Reason::Late => self.has_end(agent, before),
            Reason::Stopped => {
                self.has_end(agent, before) && self.was_sent(agent, before, device, taken)
            }
            Reason::Refused => {
                taken == 0
                    && self.is_silent(agent, before, device)
                    && self.is_unsent(agent, before, device)
            }
        }
    }

    /// The command whose result the program waits for after an action.
    fn held_by(&self, agent: &Agent, before: &[Entry], action: u32) -> Option<Held>
        requires standing { IsStanding agent.now before.now self.now }
        requires settled { IsTrue (is_settled_in agent.now before.now) }
        requires short { length before.now < entry_limit }
        ensures { HoldsBy agent.now (before.now ++ Do action ∷ []) result }
    {
        let device = self.facts.device_of(action)?;
        if !self.facts.is_held(action) {
            return None;
        }
        Some(Held {
            device,
            place: before.len() as u32,
        })
    }

    /// The command whose result the program waits for after one more entry.
    fn held_after(&self, agent: &Agent, before: &[Entry], entry: Entry) -> Option<Held>
        requires standing { IsStanding agent.now before.now self.now }
        requires settled { (action : ℕ) → entry ≡ Do action → IsTrue (is_settled_in agent.now before.now) }
        requires short { length before.now < entry_limit }
        ensures { HoldsBy agent.now (before.now ++ entry ∷ []) result }
    {
        match entry {
            Entry::Do { action } => self.held_by(agent, before, action),
            Entry::Sense { place, .. } => unless_at(self.held, place),
            _ => self.held,
        }
    }

    /// One more entry, which keeps the rules.
    pub(crate) fn note(&mut self, agent: &Agent, before: &[Entry], entry: Entry)
        requires standing { IsStanding agent.now before.now self.old }
        requires fits { IsTrue (fits_entry agent.now before.now entry) }
        requires place { IsTrue (keeps_place_in agent.now before.now entry) }
        requires settled { (action : ℕ) → entry ≡ Do action → IsTrue (is_settled_in agent.now before.now) }
        requires short { length before.now < entry_limit }
        ensures { IsStanding agent.now (before.now ++ entry ∷ []) self.new }
    {
        let held = self.held_after(agent, before, entry);
        track(&mut self.devices, &self.facts, before, entry);
        self.held = held;
        self.counted += u32::from(is_counted(entry));
        self.ended = ended_after(self.ended, entry);
    }
}

/// The answer of the end after one more entry.
fn ended_after(ended: Option<Answer>, entry: Entry) -> Option<Answer>
    ensures { (journal : Journal) → EndsBy journal ended → EndsBy (journal ++ entry ∷ []) result }
{
    match entry {
        Entry::End { answer } => Some(answer),
        _ => ended,
    }
}

/// The command whose result the program waits for, unless it stands at this place.
fn unless_at(held: Option<Held>, place: u32) -> Option<Held>
    ensures { result ≡ unless_at held place }
{
    match held {
        Some(held) => {
            if held.place == place {
                return None;
            }
            Some(held)
        }
        None => None,
    }
}

/// The action of the entry, if it is a command of the device.
fn command_of(facts: &AgentFacts, device: u8, entry: Entry) -> Option<u32>
    ensures { result ≡ command_of facts.now device entry }
{
    let Entry::Do { action } = entry else {
        return None;
    };
    match facts.device_of(action) {
        Some(carrier) => {
            if carrier == device {
                return Some(action);
            }
            None
        }
        None => None,
    }
}

/// An action at a place, as a command whose result is to come, if it has one: its device was sent so many up to it.
fn awaited_by(facts: &AgentFacts, place: u32, action: u32, number: u32) -> Option<Awaited>
    ensures { result ≡ awaited_by facts.now place action number }
{
    let fluent = facts.sensed(action)?;
    Some(Awaited {
        place,
        fluent,
        number,
    })
}

/// The action of a command at a place, if there is one, as a command whose result is to come, if it has one.
fn awaited_if(facts: &AgentFacts, place: u32, command: Option<u32>, number: u32) -> Option<Awaited>
    ensures { result ≡ option_and_then (λ action. awaited_by facts.now place action number) command }
{
    let action = command?;
    awaited_by(facts, place, action, number)
}

/// The first sensing command of a device among these entries, which stand behind a place up to which it was sent so
/// many.
fn first_among(
    facts: &AgentFacts,
    rest: &[Entry],
    device: u8,
    place: u32,
    sent: u32,
) -> Option<Awaited>
    requires room { place + 1 + length rest.now ≤ entry_limit }
    requires few { sent + length (commands_from facts.now device (place + 1) rest.now) ≤ entry_limit }
    ensures { result ≡ first_awaited facts.now sent (commands_from facts.now device (place + 1) rest.now) }
{
    let mut number = sent;
    let mut at = place;
    for entry in rest {
        at += 1;
        let command = command_of(facts, device, *entry);
        let found = awaited_if(facts, at, command, number + 1);
        if found.is_some() {
            return found;
        }
        number += u32::from(command.is_some());
    }
    None
}

/// The first command of a device whose result is to come after one more entry of it, where this was the first.
fn first_after(
    facts: &AgentFacts,
    before: &[Entry],
    first: Option<Awaited>,
    device: u8,
    entry: Entry,
) -> Option<Awaited>
    requires awaits { AwaitsFrom facts.now before.now device first }
    requires place { IsTrue (keeps_place_in facts.now before.now entry) }
    requires poster { posted_by entry ≡ Some device }
    requires short { length before.now < entry_limit }
    ensures { AwaitsFrom facts.now (before.now ++ entry ∷ []) device result }
{
    match entry {
        Entry::Sense { place, .. } => {
            let rest = &before[place as usize + 1..];
            first_among(facts, rest, device, place, number_of(first))
        }
        _ => first,
    }
}

/// What is kept of the devices after an action.
fn track_action(devices: &mut [Tracked], facts: &AgentFacts, before: &[Entry], action: u32)
    requires tracked { AreTracked facts.now before.now devices.old }
    requires serves { ServesDevices facts.now }
    requires results { AreEarlier before.now }
    requires short { length before.now < entry_limit }
    ensures { AreTracked facts.now (before.now ++ Do action ∷ []) devices.new }
{
    let Some(device) = facts.device_of(action) else {
        return;
    };
    let tracked = tracked_at(devices, device);
    let new = awaited_by(facts, before.len() as u32, action, tracked.number());
    let first = tracked.first.or(new);
    put(devices, device, tracked.sent(first));
}

/// What is kept of the devices after an entry of one of them.
fn track_posted(
    devices: &mut [Tracked],
    facts: &AgentFacts,
    before: &[Entry],
    poster: u8,
    entry: Entry,
)
    requires tracked { AreTracked facts.now before.now devices.old }
    requires place { IsTrue (keeps_place_in facts.now before.now entry) }
    requires poster { posted_by entry ≡ Some poster }
    requires device { poster < length facts.now.devices }
    requires results { AreEarlier before.now }
    requires short { length before.now < entry_limit }
    ensures { AreTracked facts.now (before.now ++ entry ∷ []) devices.new }
{
    let tracked = tracked_at(devices, poster);
    let first = first_after(facts, before, tracked.first, poster, entry);
    put(devices, poster, tracked.after(entry, first));
}

/// What is kept of the devices after one more entry, which keeps the rules.
fn track(devices: &mut [Tracked], facts: &AgentFacts, before: &[Entry], entry: Entry)
    requires tracked { AreTracked facts.now before.now devices.old }
    requires serves { ServesDevices facts.now }
    requires place { IsTrue (keeps_place_in facts.now before.now entry) }
    requires fits { IsTrue (fits_entry facts.now before.now entry) }
    requires results { AreEarlier before.now }
    requires short { length before.now < entry_limit }
    ensures { AreTracked facts.now (before.now ++ entry ∷ []) devices.new }
{
    if let Entry::Do { action } = entry {
        track_action(devices, facts, before, action);
        return;
    }
    let Some(poster) = poster_of(entry) else {
        return;
    };
    track_posted(devices, facts, before, poster, entry);
}
