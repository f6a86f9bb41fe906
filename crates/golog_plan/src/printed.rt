//! `PlanPrinted`, a record that writes the line of each entry to a sink, once and in order, and keeps none.
ghost use Rattle.std.specs.Prelude.{◌≡◌, ◌≤◌, ◌<◌, OnErr, OnOk, length, option_copied};
ghost use Rattle.golog_base.specs.Faults.{Rose};
ghost use Rattle.golog_base.specs.Known.{AddsPrefix, and_then_bytes};
ghost use Rattle.golog_plan.specs.PlanTexts.{with_end, with_tail};

use crate::plan_core::PlanCore;
use crate::record::PlanRecord;
use golog_base::{Bytes, Failed, Sink, write_all};
use golog_lead::UnderWay;
use golog_semantics::Entry;
use golog_text::Line;
use std::snapshot::Snapshot;

/// Writes the line of each entry, with the plan that begins there. After a write that failed it writes nothing more.
#[derive(Drop)]
pub struct PlanPrinted<'a, K: Sink> {
    /// Room for a line.
    pub line: Line,
    /// The sink.
    pub out: &'a mut K,
    /// The sink when it was given.
    pub base: Snapshot<K>,
    /// Whether a write has failed.
    pub faulted: bool,
}

/// Writes a line, with its end in place of its line feed, where it has one: that is a piece of its own.
fn write_line<K: Sink>(out: &mut K, line: &[u8], tail: Option<&Bytes>) -> Result<(), Failed>
    requires { 0 < length line.now }
    ensures added { OnOk result (K.taken out.new
        ≡ and_then_bytes (K.taken out.old) (with_tail line.now (option_copied tail.entry))) }
    ensures prefix { OnErr result (AddsPrefix (K.taken out.old) (K.taken out.new)
        (with_tail line.now (option_copied tail.entry))) }
    ensures no_fault { OnOk result (K.faults out.new ≡ K.faults out.old) }
    ensures failed { OnErr result (Rose (K.faults out.old) (K.faults out.new)) }
    ensures faults { K.faults out.old ≤ K.faults out.new }
{
    match tail {
        None => write_all(out, line),
        Some(tail) => write_pieces(out, line, tail.as_slice()),
    }
}

/// Writes a line without its line feed, and then its end.
fn write_pieces<K: Sink>(out: &mut K, line: &[u8], tail: &[u8]) -> Result<(), Failed>
    requires { 0 < length line.now }
    ensures added { OnOk result (K.taken out.new ≡ and_then_bytes (K.taken out.old) (with_end line.now tail.now)) }
    ensures prefix { OnErr result (AddsPrefix (K.taken out.old) (K.taken out.new) (with_end line.now tail.now)) }
    ensures no_fault { OnOk result (K.faults out.new ≡ K.faults out.old) }
    ensures failed { OnErr result (Rose (K.faults out.old) (K.faults out.new)) }
    ensures faults { K.faults out.old ≤ K.faults out.new }
{
    write_all(out, &line[..line.len() - 1])?;
    write_all(out, tail)
}

impl<'a, K: Sink> PlanPrinted<'a, K> {
    /// The sink, given back.
    pub fn into_sink(self) -> &'a mut K
        ensures same_reference { result.ghost_name ≡ self.entry.out.ghost_name }
        ensures value { result.now ≡ self.entry.out.now }
    {
        drop(self.line);
        self.out
    }
}

impl<'a, K: Sink> PlanRecord for PlanPrinted<'a, K> {
    ghost use Rattle.std.specs.Prelude.{Some};
    ghost use Rattle.golog_plan.specs.PlanTexts.{HasPlanned};

    ghost outlet = { λ printed. Some (record {
      name = printed.out.ghost_name;
      base = K.taken printed.base.value;
      faults = K.faults printed.base.value;
    }) };

    ghost stands = { λ course printed. HasPlanned course.agent course.depth course.fuel course.list
        (K.taken printed.base.value) (K.taken printed.out.now)
        (K.faults printed.base.value) (K.faults printed.out.now) printed.faulted };

    fn keep(&mut self, core: &PlanCore<'_>, entry: Entry, tail: Option<&Bytes>) {
        if !self.faulted {
            let line = self
                .line
                .fill(core.agent(), core.len(), entry, core.state(), None);
            self.faulted = write_line(self.out, line, tail).is_err();
        }
    }
}
