// `OutSink`, standard output: it tells nothing of content, and is trusted beyond its count of
// faults.
ghost use Rattle.std.specs.Prelude.{◌≡◌, ◌≤◌, None};
ghost use Rattle.golog_base.specs.Faults.{Rose};

use crate::{Failed, Sink};

/// The standard output of a runtime. It tells nothing of what was taken, and counts as a fault each call that
/// the system fails, or that takes nothing of a piece that isn't empty.
#[derive(Drop)]
pub struct OutSink<R: Print + Drop> {
    rt: R,
    faults: u64,
}

impl<R: Print + Drop> OutSink<R> {
    /// The standard output of this runtime. Takes no memory.
    pub fn new(rt: R) -> Self
        ensures taken { ⟦<OutSink<R> as Sink>⟧.taken result ≡ None }
        ensures faults { ⟦<OutSink<R> as Sink>⟧.faults result ≡ 0 }
    {
        OutSink { rt, faults: 0 }
    }

    // A call that fails.
    fn fail(&mut self) -> Failed
        ensures rose { Rose self.old.faults self.new.faults }
        ensures grows { self.old.faults ≤ self.new.faults }
    {
        self.faults = self.faults.saturating_add(1);
        Failed
    }
}

impl<R: Print + Drop> Sink for OutSink<R> {
    ghost taken = { λ _. None };

    ghost faults = { λ sink. sink.faults };

    fn write(&mut self, bytes: &[u8]) -> Result<usize, Failed> {
        match self.rt.write_some(bytes) {
            Ok(count) if count > 0 || bytes.is_empty() => Ok(count),
            _ => Err(self.fail()),
        }
    }
}
