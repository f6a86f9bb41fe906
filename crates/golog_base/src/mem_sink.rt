// `MemSink`, a sink in memory: it tells all, and fails at the calls whose numbers it was given.
ghost use Rattle.std.specs.Prelude.{◌≡◌, ◌≤◌, length, vec_capacity, vec_len};

use crate::failures::Failures;
use crate::{Failed, List, NoMemory, Sink, put_reserved};
use std::alloc::Global;

/// A sink in memory, some of whose calls fail. It tells all that it took.
#[derive(Debug, Drop)]
pub struct MemSink {
    taken: Vec<u8>,
    room: usize,
    failures: Failures,
    faults: u64,
    ghost reserved: { room ≤ vec_capacity taken },
    ghost within: { vec_len taken ≤ room },
}

impl MemSink {
    ghost use Rattle.std.specs.Prelude.{[], IfOk};
    ghost use Rattle.golog_base.specs.Failures.{uncalled};
    ghost use Rattle.golog_base.specs.MemSink.{taken_of, room_of, faults_of, failures_of};
    ghost use Rattle.golog_base.specs.Faults.{Rose};

    /// A sink with room for `room` bytes, which is reserved here. The calls of the numbers in `fails` fail,
    /// counted from 0.
    pub fn new(alloc: Global, room: u32, fails: List<u32>) -> Result<MemSink, NoMemory>
        ensures taken { IfOk result (λ sink. taken_of sink ≡ []) }
        ensures room { IfOk result (λ sink. room_of sink ≡ room) }
        ensures faults { IfOk result (λ sink. faults_of sink ≡ 0) }
        ensures failures { IfOk result (λ sink. failures_of sink ≡ uncalled fails) }
    {
        match Vec::with_capacity(alloc, room as usize) {
            Ok(taken) => Ok(MemSink {
                taken,
                room: room as usize,
                failures: Failures::new(fails),
                faults: 0,
            }),
            Err(_) => Err(NoMemory),
        }
    }

    /// The bytes taken.
    pub fn bytes(&self) -> &[u8]
        ensures { result.now ≡ taken_of self.now }
    {
        self.taken.as_slice()
    }

    // A call that fails.
    fn fail(&mut self) -> Failed
        ensures taken { taken_of self.new ≡ taken_of self.old }
        ensures room { room_of self.new ≡ room_of self.old }
        ensures failures { failures_of self.new ≡ failures_of self.old }
        ensures rose { Rose self.old.faults self.new.faults }
        ensures grows { self.old.faults ≤ self.new.faults }
    {
        self.faults = self.faults.saturating_add(1);
        Failed
    }
}

impl Sink for MemSink {
    ghost use Rattle.std.specs.Prelude.{◌<◌, ◌⊎◌, ◌↔◌, take, min, Some, OnOk, OnErr, IfOk, IsErr, IsTrue};
    ghost use Rattle.golog_base.specs.Failures.{after_call, fails_next};
    ghost use Rattle.golog_base.specs.Known.{and_then_bytes};
    ghost use Rattle.golog_base.specs.MemSink.{taken_of, room_of, room_left, faults_of, failures_of};
    ghost use Rattle.golog_base.specs.Faults.{Rose};

    ghost taken = { λ sink. Some (taken_of sink) };

    ghost faults = { faults_of };

    fn write(&mut self, bytes: &[u8]) -> Result<usize, Failed>
        ensures within { IfOk result (λ n. n ≤ length bytes.now) }
        ensures some { IfOk result (λ n. 0 < length bytes.now → 0 < n) }
        ensures added { IfOk result (λ n. Some (taken_of self.new)
            ≡ and_then_bytes (Some (taken_of self.old)) (take n bytes.now)) }
        ensures nothing { OnErr result (Some (taken_of self.new) ≡ Some (taken_of self.old)) }
        ensures no_fault { OnOk result (faults_of self.new ≡ faults_of self.old) }
        ensures failed { OnErr result (Rose (faults_of self.old) (faults_of self.new)) }
        ensures faults { faults_of self.old ≤ faults_of self.new }

        // It fails exactly where this call is to fail or no byte fits, and else it takes all that fits.
        ensures fails { IsErr result ↔ (IsTrue (fails_next (failures_of self.old))
            ⊎ (0 < length bytes.now) × (room_left self.old ≡ 0)) }
        ensures fits { IfOk result (λ n. n ≡ min (length bytes.now) (room_left self.old)) }
        ensures counted { failures_of self.new ≡ after_call (failures_of self.old) }
        ensures room { room_of self.new ≡ room_of self.old }
    {
        if self.failures.fails_now() {
            return Err(self.fail());
        }
        let count = bytes.len().min(self.room - self.taken.len());
        if count == 0 && !bytes.is_empty() {
            return Err(self.fail());
        }
        put_reserved(&mut self.taken, &bytes[..count]);
        Ok(count)
    }
}
