//! `Scribe`, a lead whose record writes the line of each entry as the entry is seen, and keeps
//! none.
ghost use Rattle.std.specs.Prelude.{◌≡◌, true, []};
ghost use Rattle.golog_semantics.specs.InlineText.{report_of};
ghost use Rattle.golog_semantics.specs.Online.{IsOnlineSoFar};
ghost use Rattle.golog_journal.specs.Growing.{program};
ghost use Rattle.golog_journal.specs.Leading.{IsBehind};
ghost use Rattle.golog_lead.specs.Keeping.{EndsBy};
ghost use Rattle.golog_agent.specs.Turns.{TurnIs};
ghost use Rattle.golog_lead.specs.Written.{HasWritten};

use crate::Pen;
use crate::driver::Driver;
use golog_base::Sink;
use golog_journal::{Board, Lead, Led};
use golog_lead::{Printed, RoundLead, Stepped, led_by};
use golog_semantics::Answer;
use golog_ways::{Expand, Plain};
use std::snapshot::Snapshot;

/// Drives the program of an agent as a `Runner` does, and writes the line of each entry when it has copied it: in
/// the turn in which it sees the entry, and its own in the turn that commits it. It keeps none of them. After a write
/// that failed it writes nothing more and goes on to the end.
///
/// What its sink holds is known of the reference that `into_sink` gives back.
#[derive(Drop)]
pub struct Scribe<'a, K: Sink, X: Expand = Plain> {
    driver: Driver<'a, Printed<'a, K>, X>,
}

impl<'a, K: Sink> Scribe<'a, K> {
    /// A scribe that writes to this sink. What is there already stays before what it writes. Takes no memory.
    pub fn new(pen: Pen<'a>, out: &'a mut K) -> Scribe<'a, K>
        ensures core { result.driver.core ≡ pen.entry.core }
        ensures same_reference { result.driver.record.out.ghost_name ≡ out.entry.ghost_name }
        ensures value { result.driver.record.out.now ≡ out.old }
        ensures base { result.driver.record.base.value ≡ out.old }
        ensures stands { pen.entry.core.list ≡ [] → HasWritten result.driver.core.agent result.driver.core.list
            (K.taken result.driver.record.base.value) (K.taken result.driver.record.out.now)
            (K.faults result.driver.record.base.value) (K.faults result.driver.record.out.now)
            result.driver.record.faulted }
    {
        Scribe::with(pen, out, Plain)
    }
}

impl<'a, K: Sink, X: Expand> Scribe<'a, K, X> {
    /// A scribe that writes to this sink, and whose searches ask this for the steps of many programs. What is there
    /// already stays before what it writes. Takes no memory.
    pub fn with(pen: Pen<'a>, out: &'a mut K, expand: X) -> Scribe<'a, K, X>
        ensures core { result.driver.core ≡ pen.entry.core }
        ensures same_reference { result.driver.record.out.ghost_name ≡ out.entry.ghost_name }
        ensures value { result.driver.record.out.now ≡ out.old }
        ensures base { result.driver.record.base.value ≡ out.old }
        ensures stands { pen.entry.core.list ≡ [] → HasWritten result.driver.core.agent result.driver.core.list
            (K.taken result.driver.record.base.value) (K.taken result.driver.record.out.now)
            (K.faults result.driver.record.base.value) (K.faults result.driver.record.out.now)
            result.driver.record.faulted }
    {
        let base = Snapshot::of(out);
        let Pen { core, line } = pen;
        let record = Printed {
            line,
            out,
            base,
            faulted: false,
        };
        Scribe {
            driver: Driver {
                core,
                record,
                expand,
            },
        }
    }

    /// What `Runner::turn` does. The lines of the entries that it copied or committed are written then.
    pub fn turn<B: Board>(&mut self, board: &mut B) -> Stepped
        requires agent { self.old.driver.core.agent ≡ (B.sight board.old).agent }
        requires held { (B.sight board.old).holds program ≡ true }
        requires behind { IsBehind self.old.driver.core.list (B.sight board.old).seen }
        ensures same { self.new.driver.core.agent ≡ self.old.driver.core.agent }
        ensures same_reference { self.new.driver.record.out.ghost_name ≡ self.old.driver.record.out.ghost_name }
        ensures same_base { K.taken self.new.driver.record.base.value ≡ K.taken self.old.driver.record.base.value }
        ensures same_faults { K.faults self.new.driver.record.base.value ≡ K.faults self.old.driver.record.base.value }
        ensures stands { HasWritten self.old.driver.core.agent self.old.driver.core.list
            (K.taken self.old.driver.record.base.value) (K.taken self.old.driver.record.out.now)
            (K.faults self.old.driver.record.base.value) (K.faults self.old.driver.record.out.now)
            self.old.driver.record.faulted
            → HasWritten self.new.driver.core.agent self.new.driver.core.list
            (K.taken self.new.driver.record.base.value) (K.taken self.new.driver.record.out.now)
            (K.faults self.new.driver.record.base.value) (K.faults self.new.driver.record.out.now)
            self.new.driver.record.faulted }
        ensures whole { self.new.driver.core.list ≡ (B.sight board.new).seen }
        ensures turn { TurnIs (B.sight board.old) (B.sight board.new) result }
        ensures online { IsOnlineSoFar self.new.driver.core.agent
            (report_of self.new.driver.core.agent self.new.driver.core.list) }
    {
        self.driver.turn(board)
    }

    /// Whether a write has failed. Takes no memory.
    pub fn faulted(&self) -> bool
        ensures { result ≡ self.now.driver.record.faulted }
    {
        self.driver.record.faulted
    }

    /// How the program ended, if it has. Takes no memory.
    pub fn answer(&self) -> Option<Answer>
        ensures { EndsBy self.now.driver.core.list result }
    {
        self.driver.core.answer()
    }

    /// The sink, given back.
    pub fn into_sink(self) -> &'a mut K
        ensures same_reference { result.ghost_name ≡ self.entry.driver.record.out.ghost_name }
        ensures value { result.now ≡ self.entry.driver.record.out.now }
    {
        let Driver {
            core,
            record,
            expand,
        } = self.driver;
        drop(core);
        drop(expand);
        record.into_sink()
    }
}

impl<'a, K: Sink, X: Expand> Lead for Scribe<'a, K, X> {
    ghost use Rattle.std.specs.Prelude.{Some};
    ghost use Rattle.golog_lead.specs.Waiting.{waits};
    ghost use Rattle.golog_agent.specs.Laws.{quiet_goes_on};
    ghost use Rattle.golog_lead.specs.Written.{HasWritten};

    ghost mind = { λ scribe. record {
      agent = scribe.driver.core.agent;
      bounds = (0, 0);
      list = scribe.driver.core.list;
      waits = waits scribe.driver.core.agent;
      outlet = Some (record {
        name = scribe.driver.record.out.ghost_name;
        base = K.taken scribe.driver.record.base.value;
        faults = K.faults scribe.driver.record.base.value;
      });
    } };

    ghost stands = { λ scribe. HasWritten scribe.driver.core.agent scribe.driver.core.list
        (K.taken scribe.driver.record.base.value) (K.taken scribe.driver.record.out.now)
        (K.faults scribe.driver.record.base.value) (K.faults scribe.driver.record.out.now)
        scribe.driver.record.faulted };

    fn turn<B: Board>(&mut self, board: &mut B) -> Led {
        let stepped = Scribe::turn(self, board);
        self.driver.core.keeps_rules();
        led_by(stepped)
    }

    fn gather<B: Board>(&mut self, board: &mut B) {
        self.driver.catch_up(board);
        self.driver.core.keeps_rules();
    }

    ghost goes_on = { λ scribe journal quiet. quiet_goes_on scribe.driver.core.agent journal quiet };
}

impl<'a, K: Sink, X: Expand> RoundLead for Scribe<'a, K, X> {
    ghost use Rattle.golog_semantics.specs.Inline.{lead};
    ghost use Rattle.golog_semantics.specs.InlineText.{report_of};
    ghost use Rattle.golog_semantics.specs.Online.{IsOnlineSoFar};
    ghost use Rattle.golog_lead.specs.Short.{IsShort};
    ghost use Rattle.golog_agent.specs.Laws.{lead_adds, lead_stays};

    ghost keeps = { λ bounds agent journal. IsOnlineSoFar agent (report_of agent journal) };

    ghost alone = { λ bounds. lead };

    ghost short = { IsShort };

    fn step<B: Board>(&mut self, board: &mut B) {
        Scribe::turn(self, board);
    }

    fn has_ended(&self) -> bool {
        self.driver.core.has_ended()
    }

    fn is_open(&self, device: u8) -> bool {
        self.driver.core.is_open(device)
    }

    fn keeps_rules(&self) {
        self.driver.core.keeps_rules();
    }

    ghost adds = { λ bounds. lead_adds };

    ghost stays = { λ bounds. lead_stays };
}
