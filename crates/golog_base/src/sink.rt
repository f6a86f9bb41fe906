// `Sink`, what takes the bytes that are written. It tells proofs what it took where it can, and
// always a count of faults that never falls.
ghost use Rattle.std.specs.Prelude.{◌≡◌, ℕ, ◌<◌, ◌≤◌, List, Option, length, take, OnOk, OnErr, IfOk};
ghost use Rattle.golog_base.specs.Faults.{Rose};
ghost use Rattle.golog_base.specs.Known.{and_then_bytes, AddsPrefix};

use crate::Failed;

/// What takes bytes. It counts the faults of the outside, a count that never falls.
pub trait Sink {
    // The bytes taken, where they are told.
    ghost taken: { Self → Option (List ℕ) };

    // How often the outside has failed. The greatest u64 stands for itself and all above.
    ghost faults: { Self → ℕ };

    /// Takes some of these bytes from their front, at least one where there is one, and answers how many.
    /// `Failed` comes exactly where the count of faults rose, and adds nothing.
    fn write(&mut self, bytes: &[u8]) -> Result<usize, Failed>
        ensures within { IfOk result (λ n. n ≤ length bytes.now) }
        ensures some { IfOk result (λ n. 0 < length bytes.now → 0 < n) }
        ensures added { IfOk result (λ n. taken self.new
            ≡ and_then_bytes (taken self.old) (take n bytes.now)) }
        ensures nothing { OnErr result (taken self.new ≡ taken self.old) }
        ensures no_fault { OnOk result (faults self.new ≡ faults self.old) }
        ensures failed { OnErr result (Rose (faults self.old) (faults self.new)) }
        ensures faults { faults self.old ≤ faults self.new };
}

/// Writes all of these bytes. `Failed` comes exactly where the count of faults rose, and some of the bytes, from
/// their front, were added then. Takes no memory.
pub fn write_all<K: Sink>(out: &mut K, bytes: &[u8]) -> Result<(), Failed>
    ensures added { OnOk result (K.taken out.new ≡ and_then_bytes (K.taken out.old) bytes.now) }
    ensures prefix { OnErr result (AddsPrefix (K.taken out.old) (K.taken out.new) bytes.now) }
    ensures no_fault { OnOk result (K.faults out.new ≡ K.faults out.old) }
    ensures failed { OnErr result (Rose (K.faults out.old) (K.faults out.new)) }
    ensures faults { K.faults out.old ≤ K.faults out.new }
{
    let mut at = 0;
    while at < bytes.len() {
        at += out.write(&bytes[at..])?;
    }
    Ok(())
}
