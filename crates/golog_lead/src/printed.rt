//! `Printed`, a record that writes the line of each entry to a sink, once and in order, and keeps
//! none.
ghost use Rattle.std.specs.Prelude.{◌≡◌};

use crate::{Record, UnderWay};
use golog_base::{List, Sink, write_all};
use golog_semantics::Entry;
use golog_text::Line;
use golog_tree::Label;
use std::snapshot::Snapshot;

/// Writes the line of each entry. After a write that failed it writes nothing more.
#[derive(Drop)]
pub struct Printed<'a, K: Sink> {
    /// Room for a line.
    pub line: Line,
    /// The sink.
    pub out: &'a mut K,
    /// The sink when it was given.
    pub base: Snapshot<K>,
    /// Whether a write has failed.
    pub faulted: bool,
}

impl<'a, K: Sink> Printed<'a, K> {
    /// The sink, given back.
    pub fn into_sink(self) -> &'a mut K
        ensures same_reference { result.ghost_name ≡ self.entry.out.ghost_name }
        ensures value { result.now ≡ self.entry.out.now }
    {
        drop(self.line);
        self.out
    }
}

impl<'a, K: Sink> Record for Printed<'a, K> {
    ghost use Rattle.std.specs.Prelude.{Some};
    ghost use Rattle.golog_lead.specs.Written.{HasWritten};

    ghost outlet = { λ printed. Some (record {
      name = printed.out.ghost_name;
      base = K.taken printed.base.value;
      faults = K.faults printed.base.value;
    }) };

    ghost stands = { λ agent list printed. HasWritten agent list
        (K.taken printed.base.value) (K.taken printed.out.now)
        (K.faults printed.base.value) (K.faults printed.out.now) printed.faulted };

    fn keep<C: UnderWay>(&mut self, core: &C, entry: Entry, run: Option<List<Label>>) {
        if !self.faulted {
            let line = self.line.fill(core.agent(), core.len(), entry, core.state(), run.as_ref());
            self.faulted = write_all(self.out, line).is_err();
        }
    }
}
