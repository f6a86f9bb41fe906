//! The command whose result a program waits for, after one more entry.
ghost use Rattle.std.specs.Prelude.{◌≡◌, length, option_map};
ghost use Rattle.golog_journal.specs.Quiet.{held_of};
ghost use Rattle.golog_agent.specs.Keeping.{held_at, held_by, unless_told};

use golog_journal::Counts;
use golog_semantics::Entry;

/// A command whose result the program waits for.
#[derive(Clone, Copy)]
pub(crate) struct Held {
    /// Whose command it is.
    pub(crate) device: u8,
    /// Where it stands.
    pub(crate) place: u32,
}

// The command that an action is, where the program goes on only after its result.
fn held_command(counts: &Counts, action: u32) -> Option<Held>
    ensures { result ≡ option_map (held_at (length counts.now.entries)) (held_of counts.now.agent action) }
{
    match counts.held_of(action) {
        Some(device) => {
            let place = counts.len();
            Some(Held { device, place })
        }
        None => None,
    }
}

// What is waited for once the result of the command at a place has come.
fn held_without(held: Option<Held>, place: u32) -> Option<Held>
    ensures { result ≡ unless_told place held }
{
    match held {
        Some(command) => {
            if command.place == place {
                None
            } else {
                Some(command)
            }
        }
        None => None,
    }
}

/// What is waited for after one more entry.
pub(crate) fn held_after(counts: &Counts, held: Option<Held>, entry: Entry) -> Option<Held>
    ensures { result ≡ held_by counts.now.agent (length counts.now.entries) held entry }
{
    match entry {
        Entry::Do { action } => held_command(counts, action),
        Entry::Sense { place, .. } => held_without(held, place),
        Entry::Test
        | Entry::Exo { .. }
        | Entry::Rest { .. }
        | Entry::Close { .. }
        | Entry::End { .. } => held,
    }
}
