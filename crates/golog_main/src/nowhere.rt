// A sink that takes all and tells nothing, for a run whose head couldn't be written.
use golog_base::{Failed, Sink};

// Takes all that is written, and tells nothing of it.
#[derive(Drop)]
pub(crate) struct Nowhere;

impl Sink for Nowhere {
    ghost use Rattle.std.specs.Prelude.{None};

    ghost taken = { λ sink. None };

    ghost faults = { λ sink. 0 };

    fn write(&mut self, bytes: &[u8]) -> Result<usize, Failed> {
        Ok(bytes.len())
    }
}
