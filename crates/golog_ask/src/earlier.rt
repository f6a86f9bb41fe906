// A condition taken back over entries, the last first, while it has at most 10,000 nodes and an
// entry before may change what it reads.
ghost use Rattle.std.specs.Prelude.{◌≡◌, ◌≤◌, [], ◌∷◌, IfOk, drop, false, length};
ghost use Rattle.golog_semantics.specs.WellFormed.{WellFormed};
ghost use Rattle.golog_progress.specs.Entries.{EntryFits, EntriesFit};
ghost use Rattle.golog_regress.specs.Regression.{IsRegressed};
ghost use Rattle.golog_ask.specs.Events.{event_of as spec_event_of, events_of};

use golog_base::NoMemory;
use golog_regress::{Event, nodes, regress, touches};
use golog_semantics::Entry;
use golog_tree::{Agent, Cond, copy_cond};
use std::alloc::Global;

/// A condition that is taken back has at most so many nodes.
const MOST_NODES: u64 = 10_000;

/// A condition that was taken back over the last of some entries, and how many stand before these.
#[derive(Drop)]
pub struct Earlier {
    pub cond: Cond,
    pub left: usize,
}

/// What the entry tells of, if it is an event.
fn event_of(entry: Entry) -> Option<Event>
    ensures { result ≡ spec_event_of entry }
{
    match entry {
        Entry::Do { action } | Entry::Exo { action, .. } => Some(Event::Did(action)),
        Entry::Sense { fluent, value, .. } => Some(Event::Sensed { fluent, value }),
        Entry::Test | Entry::Rest { .. } | Entry::Close { .. } | Entry::End { .. } => None,
    }
}

/// Whether the entry may change a fluent that the condition reads.
fn may_change(agent: &Agent, cond: &Cond, entry: Entry) -> bool
    requires agent { WellFormed agent.now }
    requires entry { EntryFits agent.now entry }
    ensures { result ≡ false → IsRegressed agent.now (events_of (entry ∷ [])) cond.now cond.now }
{
    match event_of(entry) {
        Some(event) => touches(agent, cond, event),
        None => false,
    }
}

/// How many entries stand up to the last that may change a fluent that the condition reads.
fn up_to_change(agent: &Agent, cond: &Cond, entries: &[Entry]) -> usize
    requires agent { WellFormed agent.now }
    requires entries { EntriesFit agent.now entries.now }
    ensures inside { result ≤ length entries.now }
    ensures stays { IsRegressed agent.now (events_of (drop result entries.now)) cond.now cond.now }
{
    for index in (0..entries.len()).rev() {
        if may_change(agent, cond, entries[index]) {
            return index + 1;
        }
    }
    0
}

/// The condition taken back over one entry.
fn before(alloc: Global, agent: &Agent, cond: &Cond, entry: Entry) -> Result<Cond, NoMemory>
    requires agent { WellFormed agent.now }
    requires entry { EntryFits agent.now entry }
    ensures { IfOk result (λ answer. IsRegressed agent.now (events_of (entry ∷ [])) cond.now answer) }
{
    match event_of(entry) {
        Some(event) => regress(alloc, agent, cond, event),
        None => copy_cond(alloc, cond),
    }
}

/// The condition taken back over one entry, in place of it.
fn stepped(alloc: Global, agent: &Agent, cond: Cond, entry: Entry) -> Result<Cond, NoMemory>
    requires agent { WellFormed agent.now }
    requires entry { EntryFits agent.now entry }
    ensures { IfOk result (λ answer. IsRegressed agent.now (events_of (entry ∷ [])) cond answer) }
{
    let answer = before(alloc, agent, &cond, entry);
    drop(cond);
    answer
}

/// The condition taken back over the entries, from the last of them on, while it is not too large. It is
/// taken back as it stands over entries that change nothing that it reads.
pub fn taken_back(
    alloc: Global,
    agent: &Agent,
    cond: &Cond,
    entries: &[Entry],
) -> Result<Earlier, NoMemory>
    requires agent { WellFormed agent.now }
    requires entries { EntriesFit agent.now entries.now }
    ensures inside { IfOk result (λ earlier. earlier.left ≤ length entries.now) }
    ensures back { IfOk result (λ earlier. IsRegressed agent.now (events_of (drop earlier.left entries.now)) cond.now
        earlier.cond) }
{
    let mut left = up_to_change(agent, cond, entries);
    let mut earlier = copy_cond(alloc, cond)?;
    while left > 0 && nodes(&earlier) <= MOST_NODES {
        earlier = stepped(alloc, agent, earlier, entries[left - 1])?;
        left = up_to_change(agent, &earlier, &entries[..left - 1]);
    }
    Ok(Earlier {
        cond: earlier,
        left,
    })
}
