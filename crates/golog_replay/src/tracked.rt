// What is kept of a device: how many commands it was sent and its entries tell of, whether it is
// open, and the first of its commands whose result is to come.
ghost use Rattle.std.specs.Prelude.{◌≡◌, ◌<◌, ◌+◌, ◌&&◌, not, false, is_some, max, length, slice_index_or, slice_set};
ghost use Rattle.std.specs.List.{list_all, list_any};
ghost use Rattle.std.specs.Option.{option_map_or};
ghost use Rattle.golog_semantics.specs.Journal.{is_close};
ghost use Rattle.golog_semantics.specs.Reports.{entry_limit};
ghost use Rattle.golog_journal.specs.Tallies.{rested_after};
ghost use Rattle.golog_replay.specs.Standings.{awaits_among, is_quiet_by, may_tell, tells, told_by, untouched};

use golog_semantics::Entry;

/// A command whose result is to come.
#[derive(Clone, Copy)]
pub(crate) struct Awaited {
    pub(crate) place: u32,
    /// The ground fluent that it senses.
    pub(crate) fluent: u32,
    /// How many commands its device was sent up to it.
    pub(crate) number: u32,
}

/// What is kept of a device.
#[derive(Clone, Copy)]
pub(crate) struct Tracked {
    pub(crate) is_open: bool,
    /// Whether it has posted nothing.
    pub(crate) is_silent: bool,
    /// How many commands it was sent.
    pub(crate) commands: u32,
    /// How many of them its entries tell of, at most.
    pub(crate) told: u32,
    /// How many it had taken at its last entry, where that is a Rest.
    pub(crate) rested: Option<u32>,
    /// The first of its commands whose result is to come, if one is.
    pub(crate) first: Option<Awaited>,
}

/// A device at the start.
pub(crate) fn untouched() -> Tracked
    ensures { result ≡ untouched }
{
    Tracked {
        is_open: true,
        is_silent: true,
        commands: 0,
        told: 0,
        rested: None,
        first: None,
    }
}

/// How many commands a device was sent up to this one, if there is one.
pub(crate) fn number_of(first: Option<Awaited>) -> u32
    ensures { result ≡ option_map_or (λ a. a.number) first 0 }
{
    match first {
        Some(awaited) => awaited.number,
        None => 0,
    }
}

/// How many commands an entry of a device tells of, of whose commands this is the first whose result is to come.
fn told_by(entry: Entry, first: Option<Awaited>) -> u32
    ensures { result ≡ told_by entry first }
{
    match entry {
        Entry::Sense { .. } => number_of(first),
        Entry::Rest { taken, .. } => taken,
        Entry::Do { .. }
        | Entry::Test
        | Entry::Exo { .. }
        | Entry::Close { .. }
        | Entry::End { .. } => 0,
    }
}

/// How many commands a device had taken, where its last entry is a Rest.
fn rested_after(entry: Entry) -> Option<u32>
    ensures { result ≡ rested_after (Some entry) }
{
    match entry {
        Entry::Rest { taken, .. } => Some(taken),
        Entry::Do { .. }
        | Entry::Test
        | Entry::Exo { .. }
        | Entry::Sense { .. }
        | Entry::Close { .. }
        | Entry::End { .. } => None,
    }
}

/// Whether the entry closes its device.
fn is_close(entry: Entry) -> bool
    ensures { result ≡ is_close entry }
{
    matches!(entry, Entry::Close { .. })
}

impl Tracked {
    /// What is kept of it after one more entry of its own; then this is the first whose result is to come.
    pub(crate) fn after(self, entry: Entry, first: Option<Awaited>) -> Tracked
        ensures opened { result.is_open ≡ (self.is_open && not (is_close entry)) }
        ensures silent { result.is_silent ≡ false }
        ensures commands { result.commands ≡ self.commands }
        ensures told { result.told ≡ max self.told (told_by entry self.first) }
        ensures rested { result.rested ≡ rested_after (Some entry) }
        ensures first { result.first ≡ first }
    {
        Tracked {
            is_open: self.is_open && !is_close(entry),
            is_silent: false,
            commands: self.commands,
            told: self.told.max(told_by(entry, self.first)),
            rested: rested_after(entry),
            first,
        }
    }

    /// How many commands it was sent with one more.
    pub(crate) fn number(self) -> u32
        requires { self.commands < entry_limit }
        ensures { result ≡ self.commands + 1 }
    {
        self.commands + 1
    }

    /// What is kept of it after one more command; then this is the first whose result is to come.
    pub(crate) fn sent(self, first: Option<Awaited>) -> Tracked
        requires { self.commands < entry_limit }
        ensures opened { result.is_open ≡ self.is_open }
        ensures silent { result.is_silent ≡ self.is_silent }
        ensures commands { result.commands ≡ self.commands + 1 }
        ensures told { result.told ≡ self.told }
        ensures rested { result.rested ≡ self.rested }
        ensures first { result.first ≡ first }
    {
        Tracked {
            is_open: self.is_open,
            is_silent: self.is_silent,
            commands: self.commands + 1,
            told: self.told,
            rested: self.rested,
            first,
        }
    }

    /// Whether this would be the result of the first whose result is to come.
    pub(crate) fn tells(self, place: u32, fluent: u32) -> bool
        ensures { result ≡ tells self.first place fluent }
    {
        match self.first {
            Some(awaited) => awaited.place == place && awaited.fluent == fluent,
            None => false,
        }
    }

    /// Whether a result is to come of one of its first so many commands.
    pub(crate) fn awaits_among(self, taken: u32) -> bool
        ensures { result ≡ awaits_among self.first taken }
    {
        match self.first {
            Some(awaited) => awaited.number <= taken,
            None => false,
        }
    }
}

/// Whether it is closed or at rest.
fn is_quiet(device: &Tracked) -> bool
    ensures { result ≡ is_quiet_by device.now }
{
    let rests = match device.rested {
        Some(rested) => rested == device.commands,
        None => false,
    };
    !device.is_open || rests
}

/// Whether each is closed or at rest.
pub(crate) fn all_quiet(devices: &[Tracked]) -> bool
    ensures { result ≡ list_all is_quiet_by devices.now }
{
    devices.iter().all(|device| is_quiet(device))
}

/// Whether the device is open.
fn is_open(device: &Tracked) -> bool
    ensures { result ≡ device.now.is_open }
{
    device.is_open
}

/// Whether one is open.
pub(crate) fn some_open(devices: &[Tracked]) -> bool
    ensures { result ≡ list_any (λ t. t.is_open) devices.now }
{
    devices.iter().any(|device| is_open(device))
}

/// Whether a result of the device is to come.
fn lacks(device: &Tracked) -> bool
    ensures { result ≡ is_some device.now.first }
{
    device.first.is_some()
}

/// Whether a result of one is to come.
pub(crate) fn some_lacks(devices: &[Tracked]) -> bool
    ensures { result ≡ list_any (λ t. is_some t.first) devices.now }
{
    devices.iter().any(|device| lacks(device))
}

/// Whether the device is open and a result of it is to come.
fn may_tell(device: &Tracked) -> bool
    ensures { result ≡ may_tell device.now }
{
    device.is_open && device.first.is_some()
}

/// Whether one is open of which a result is to come.
pub(crate) fn some_may_tell(devices: &[Tracked]) -> bool
    ensures { result ≡ list_any may_tell devices.now }
{
    devices.iter().any(|device| may_tell(device))
}

/// What is kept of a device.
pub(crate) fn tracked_at(devices: &[Tracked], device: u8) -> Tracked
    requires { device < length devices.now }
    ensures { (d : Tracked) → result ≡ slice_index_or devices.now device d }
{
    devices[device as usize]
}

/// Puts what is kept of a device in place of what was.
pub(crate) fn put(devices: &mut [Tracked], device: u8, tracked: Tracked)
    requires { device < length devices.old }
    ensures { devices.new ≡ slice_set devices.old device tracked }
{
    devices[device as usize] = tracked;
}
