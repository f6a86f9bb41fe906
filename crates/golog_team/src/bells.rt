//! The bells of a team, by which a side that has nothing to do is woken.
use std::sync::Wait;
use std::sync::atomic::{AtomicU64, Ordering};

/// A bell of each side, rung by each note of the other. Who sleeps has read the count of rings before it looked at the
/// notes, and who rings has put its note before, so no ring is slept through.
#[derive(Drop)]
pub struct Bells {
    first: Bell,
    second: Bell,
}

/// A count of rings.
#[derive(Drop)]
struct Bell {
    rings: AtomicU64,
}

impl Bell {
    fn new() -> Bell {
        Bell {
            rings: AtomicU64::new(0),
        }
    }

    fn ring(&self) {
        self.rings.fetch_add(1, Ordering::SeqCst);
        self.rings.wake_all();
    }

    fn count(&self) -> u64 {
        self.rings.load(Ordering::SeqCst)
    }

    // Sleeps while no ring came after so many. It may also end for no reason.
    fn sleep<R: Wait>(&self, rt: &R, heard: u64) {
        self.rings.park(rt, (heard % (1 << 32)) as u32);
    }
}

impl Bells {
    /// Bells that nobody has rung.
    pub fn new() -> Bells {
        Bells {
            first: Bell::new(),
            second: Bell::new(),
        }
    }

    // A side has put a note.
    pub(crate) fn tell_other(&self, side: u8) {
        if side == 0 {
            self.second.ring();
        } else {
            self.first.ring();
        }
    }

    // How often a side was told of a note.
    pub(crate) fn heard_by(&self, side: u8) -> u64 {
        if side == 0 {
            self.first.count()
        } else {
            self.second.count()
        }
    }

    pub(crate) fn await_note<R: Wait>(&self, rt: &R, side: u8, heard: u64) {
        if side == 0 {
            self.first.sleep(rt, heard);
        } else {
            self.second.sleep(rt, heard);
        }
    }
}
