//! `Hall`, what threads share beside the lock: which devices were open at first, and the bells by
//! which those that wait are woken.
use golog_journal::{Commit, DEVICES, Entry};
use golog_tree::Agent;
use std::array;
use std::sync::Wait;
use std::sync::atomic::{AtomicU64, Ordering};

/// Which devices were open when the run began, and bells, for whose ring one sleeps who has nothing to do: one of each
/// device, rung by its commands and by the end, and one of the lead, rung by each post. Who waits has read the count of
/// rings before it asked the journal, and who rings has changed the journal before, so no ring is slept through.
#[derive(Drop)]
pub struct Hall {
    pub(crate) opens: [bool; DEVICES],
    commits: AtomicU64,
    lead: Bell,
    devices: [Bell; DEVICES],
}

/// A count of rings.
#[derive(Drop)]
struct Bell {
    rings: AtomicU64,
}

impl Bell {
    fn new() -> Bell {
        Bell {
            rings: AtomicU64::new(0),
        }
    }

    fn ring(&self) {
        self.rings.fetch_add(1, Ordering::SeqCst);
        self.rings.wake_all();
    }

    fn count(&self) -> u64 {
        self.rings.load(Ordering::SeqCst)
    }

    // Sleeps while no ring came after so many. It may also end for no reason.
    fn sleep<R: Wait>(&self, rt: &R, heard: u64) {
        self.rings.park(rt, (heard % (1 << 32)) as u32);
    }
}

impl Hall {
    ghost use Rattle.std.specs.Prelude.{◌≡◌};

    pub(crate) fn new(opens: [bool; DEVICES]) -> Hall
        ensures { result.opens ≡ opens }
    {
        Hall {
            opens,
            commits: AtomicU64::new(0),
            lead: Bell::new(),
            devices: array::from_fn(|_| Bell::new()),
        }
    }

    // The lead has committed the entry, unless the journal had moved: its device has a command, or at the end all are
    // to be stopped.
    pub(crate) fn tell_devices(&self, agent: &Agent, commit: Commit, entry: Entry) {
        if let Commit::Moved { .. } = commit {
            return;
        }
        self.commits.fetch_add(1, Ordering::SeqCst);
        match entry {
            Entry::Do { action } => self.ring_device(carrier_of(agent, action)),
            Entry::End { .. } => self.ring_all(),
            _ => {}
        }
    }

    fn ring_device(&self, device: Option<u32>) {
        if let Some(device) = device
            && let Some(bell) = self.devices.get(device as usize)
        {
            bell.ring();
        }
    }

    fn ring_all(&self) {
        for bell in &self.devices {
            bell.ring();
        }
    }

    // A device has posted.
    pub(crate) fn tell_lead(&self) {
        self.lead.ring();
    }

    // How many entries the lead has committed.
    pub(crate) fn commits(&self) -> u64 {
        self.commits.load(Ordering::SeqCst)
    }

    // How often the lead was told of a post.
    pub(crate) fn heard_by_lead(&self) -> u64 {
        self.lead.count()
    }

    pub(crate) fn await_post<R: Wait>(&self, rt: &R, heard: u64) {
        self.lead.sleep(rt, heard);
    }

    // How often a device was told of a command or of the end.
    pub(crate) fn heard_by(&self, device: u8) -> u64 {
        match self.devices.get(device as usize) {
            Some(bell) => bell.count(),
            None => 0,
        }
    }

    pub(crate) fn await_command<R: Wait>(&self, rt: &R, device: u8, heard: u64) {
        if let Some(bell) = self.devices.get(device as usize) {
            bell.sleep(rt, heard);
        }
    }
}

// The device that carries a ground action out, if one does: that of the last item whose first number is no greater.
fn carrier_of(agent: &Agent, action: u32) -> Option<u32> {
    let firsts = agent.firsts.actions.as_slice();
    let mut device = None;
    for (item, first) in agent.actions.as_slice().iter().zip(firsts) {
        if *first <= action {
            device = item.device;
        }
    }
    device
}
