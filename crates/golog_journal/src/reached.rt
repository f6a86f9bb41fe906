//! How far the entries were gone through for the commands of each device, how many stood there and
//! the last of them; and further, up to the command of a number.
ghost use Rattle.std.specs.Prelude.{◌≡◌, ◌≤◌, ◌<◌, ◌+◌, length, if◌then◌else◌, is_some, nat_le, option_map, IfOk, All};
ghost use Rattle.std.specs.Option.{option_or};
ghost use Rattle.golog_semantics.specs.Journal.{command_at, longest};
ghost use Rattle.golog_journal.specs.Reaching.{IsReached, at_start, command_of};

use crate::facts::AgentFacts;
use golog_base::NoMemory;
use golog_semantics::Entry;
use std::alloc::Global;

/// A command of a device.
#[derive(Clone, Copy)]
pub(crate) struct Placed {
    pub(crate) place: u32,
    pub(crate) action: u32,
}

/// How far the entries were gone through for the commands of a device.
#[derive(Clone, Copy)]
pub(crate) struct Reached {
    /// The place of the first entry that was not looked at.
    pub(crate) place: u32,
    /// How many commands of the device stand before it.
    pub(crate) commands: u32,
    /// The last of them.
    pub(crate) last: Option<Placed>,
}

/// No entry was looked at.
fn at_start() -> Reached
    ensures { result ≡ at_start }
{
    Reached {
        place: 0,
        commands: 0,
        last: None,
    }
}

/// The command of the device that an entry is, if it is one.
fn command_in(facts: &AgentFacts, device: u8, place: u32, entry: Entry) -> Option<Placed>
    ensures { option_map command_of result ≡ command_at facts.now device (place, entry) }
{
    let Entry::Do { action } = entry else {
        return None;
    };
    let carrier = facts.device_of(action)?;
    if carrier == device {
        Some(Placed { place, action })
    } else {
        None
    }
}

impl Reached {
    /// One entry further, which is this command of the device, if it is one.
    fn past(self, command: Option<Placed>) -> Reached
        requires place { self.place < longest }
        requires commands { self.commands ≤ self.place }
        ensures place { result.place ≡ self.place + 1 }
        ensures commands { result.commands ≡ self.commands + (if is_some command then 1 else 0) }
        ensures last { result.last ≡ option_or command self.last }
    {
        Reached {
            place: self.place + 1,
            commands: self.commands + u32::from(command.is_some()),
            last: command.or(self.last),
        }
    }

    /// From where the command of this number, from 0, is to be looked for.
    pub(crate) fn before(self, number: u32) -> Reached
        ensures same { result ≡ (if nat_le self.commands (number + 1) then self else at_start) }
    {
        if self.commands.saturating_sub(1) <= number {
            self
        } else {
            at_start()
        }
    }
}

/// The entries gone through further, up to the device's command of this number, or to the end.
pub(crate) fn reached_from(
    facts: &AgentFacts,
    entries: &[Entry],
    device: u8,
    from: Reached,
    number: u32,
) -> Reached
    requires from { IsReached facts.now entries.now device from }
    requires most { from.commands ≤ number + 1 }
    requires short { length entries.now ≤ longest }
    ensures reached { IsReached facts.now entries.now device result }
    ensures most { result.commands ≤ number + 1 }
    ensures far { result.commands ≤ number → result.place ≡ length entries.now }
{
    let mut reached = from;
    for index in from.place as usize..entries.len() {
        if number < reached.commands {
            return reached;
        }
        let command = command_in(facts, device, reached.place, entries[index]);
        reached = reached.past(command);
    }
    reached
}

/// For each of so many devices no entry was looked at.
pub(crate) fn all_at_start(alloc: Global, count: usize) -> Result<Vec<Reached>, NoMemory>
    ensures count { IfOk result (λ devices. length devices.items ≡ count) }
    ensures start { IfOk result (λ devices. All (λ reached. reached ≡ at_start) devices.items) }
{
    let mut devices = Vec::new(alloc);
    for _ in 0..count {
        devices.push(at_start())?;
    }
    Ok(devices)
}
