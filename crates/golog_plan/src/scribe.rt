//! `PlanScribe`, a lead that follows plans and writes the line of each entry as the entry is seen.
ghost use Rattle.std.specs.Prelude.{◌≡◌, true, []};
ghost use Rattle.golog_journal.specs.Growing.{program};
ghost use Rattle.golog_journal.specs.Leading.{IsBehind};
ghost use Rattle.golog_lead.specs.Keeping.{EndsBy};
ghost use Rattle.golog_branch.specs.PlanJournals.{IsPlannedSoFar};
ghost use Rattle.golog_plan.specs.Keeping.{with_list};
ghost use Rattle.golog_plan.specs.PlanTexts.{HasPlanned};
ghost use Rattle.golog_plan.specs.Turns.{TurnIs};

use crate::driver::PlanDriver;
use crate::pen::PlanPen;
use crate::printed::PlanPrinted;
use golog_base::Sink;
use golog_journal::{Board, Lead, Led};
use golog_lead::{RoundLead, Stepped, led_by};
use golog_semantics::Answer;
use std::snapshot::Snapshot;

/// Drives a program that follows plans, and writes the line of each entry when it has copied it, with the plan that
/// begins there: in the turn in which it sees the entry, and its own in the turn that commits it. It keeps none of them.
/// After a write that failed it writes nothing more and goes on to the end.
///
/// What its sink holds is known of the reference that `into_sink` gives back.
#[derive(Drop)]
pub struct PlanScribe<'a, K: Sink> {
    driver: PlanDriver<'a, PlanPrinted<'a, K>>,
}

impl<'a, K: Sink> PlanScribe<'a, K> {
    /// A scribe that writes to this sink. What is there already stays before what it writes. Takes no memory.
    pub fn new(pen: PlanPen<'a>, out: &'a mut K) -> PlanScribe<'a, K>
        ensures core { result.driver.core ≡ pen.entry.core }
        ensures same_reference { result.driver.record.out.ghost_name ≡ out.entry.ghost_name }
        ensures value { result.driver.record.out.now ≡ out.old }
        ensures base { result.driver.record.base.value ≡ out.old }
        ensures stands { pen.entry.core.list ≡ [] → HasPlanned result.driver.core.agent
            result.driver.core.depth result.driver.core.fuel result.driver.core.list
            (K.taken result.driver.record.base.value) (K.taken result.driver.record.out.now)
            (K.faults result.driver.record.base.value) (K.faults result.driver.record.out.now)
            result.driver.record.faulted }
    {
        let base = Snapshot::of(out);
        let PlanPen { core, line } = pen;
        let record = PlanPrinted {
            line,
            out,
            base,
            faulted: false,
        };
        PlanScribe {
            driver: PlanDriver { core, record },
        }
    }

    /// Copies what is new, decides at the whole list, and commits what it decided, at that length: where others added
    /// entries meanwhile, it copies and decides again. `Step` exactly where it committed an action or a test; `Waiting`
    /// exactly where it committed nothing and no end stands, and then the program waits for a device at all that was
    /// seen; `Ended` exactly where the end stands, with its answer. The end is the answer after all entries before it,
    /// or `Memory` for want of memory. Its copy is then all that was seen, and keeps the rules of plans so far. The
    /// lines of the entries that it copied or committed are written then.
    pub fn turn<B: Board>(&mut self, board: &mut B) -> Stepped
        requires agent { self.old.driver.core.agent ≡ (B.sight board.old).agent }
        requires held { (B.sight board.old).holds program ≡ true }
        requires behind { IsBehind self.old.driver.core.list (B.sight board.old).seen }
        ensures same { self.new.driver.core ≡ with_list self.old.driver.core self.new.driver.core.list }
        ensures same_reference { self.new.driver.record.out.ghost_name ≡ self.old.driver.record.out.ghost_name }
        ensures same_base { K.taken self.new.driver.record.base.value ≡ K.taken self.old.driver.record.base.value }
        ensures same_faults { K.faults self.new.driver.record.base.value ≡ K.faults self.old.driver.record.base.value }
        ensures stands { HasPlanned self.old.driver.core.agent
            self.old.driver.core.depth self.old.driver.core.fuel self.old.driver.core.list
            (K.taken self.old.driver.record.base.value) (K.taken self.old.driver.record.out.now)
            (K.faults self.old.driver.record.base.value) (K.faults self.old.driver.record.out.now)
            self.old.driver.record.faulted
            → HasPlanned self.new.driver.core.agent
            self.new.driver.core.depth self.new.driver.core.fuel self.new.driver.core.list
            (K.taken self.new.driver.record.base.value) (K.taken self.new.driver.record.out.now)
            (K.faults self.new.driver.record.base.value) (K.faults self.new.driver.record.out.now)
            self.new.driver.record.faulted }
        ensures whole { self.new.driver.core.list ≡ (B.sight board.new).seen }
        ensures turn { TurnIs self.old.driver.core.depth self.old.driver.core.fuel
            (B.sight board.old) (B.sight board.new) result }
        ensures planned { IsPlannedSoFar self.new.driver.core.agent
            self.new.driver.core.depth self.new.driver.core.fuel self.new.driver.core.list }
    {
        self.driver.turn(board)
    }

    /// Whether a write has failed. Takes no memory.
    pub fn faulted(&self) -> bool
        ensures { result ≡ self.now.driver.record.faulted }
    {
        self.driver.record.faulted
    }

    /// How the program ended, if it has. Takes no memory.
    pub fn answer(&self) -> Option<Answer>
        ensures { EndsBy self.now.driver.core.list result }
    {
        self.driver.core.answer()
    }

    /// The sink, given back.
    pub fn into_sink(self) -> &'a mut K
        ensures same_reference { result.ghost_name ≡ self.entry.driver.record.out.ghost_name }
        ensures value { result.now ≡ self.entry.driver.record.out.now }
    {
        let PlanDriver { core, record } = self.driver;
        drop(core);
        record.into_sink()
    }
}

impl<'a, K: Sink> Lead for PlanScribe<'a, K> {
    ghost use Rattle.std.specs.Prelude.{Some};
    ghost use Rattle.golog_branch.specs.PlanJournals.{plan_waits};
    ghost use Rattle.golog_plan.specs.PlanLeads.{plan_goes_on};
    ghost use Rattle.golog_plan.specs.PlanTexts.{HasPlanned};

    ghost mind = { λ scribe. record {
      agent = scribe.driver.core.agent;
      bounds = (scribe.driver.core.depth, scribe.driver.core.fuel);
      list = scribe.driver.core.list;
      waits = plan_waits scribe.driver.core.agent scribe.driver.core.depth scribe.driver.core.fuel;
      outlet = Some (record {
        name = scribe.driver.record.out.ghost_name;
        base = K.taken scribe.driver.record.base.value;
        faults = K.faults scribe.driver.record.base.value;
      });
    } };

    ghost stands = { λ scribe. HasPlanned scribe.driver.core.agent
        scribe.driver.core.depth scribe.driver.core.fuel scribe.driver.core.list
        (K.taken scribe.driver.record.base.value) (K.taken scribe.driver.record.out.now)
        (K.faults scribe.driver.record.base.value) (K.faults scribe.driver.record.out.now)
        scribe.driver.record.faulted };

    fn turn<B: Board>(&mut self, board: &mut B) -> Led {
        let stepped = PlanScribe::turn(self, board);
        self.driver.core.keeps_rules();
        led_by(stepped)
    }

    fn gather<B: Board>(&mut self, board: &mut B) {
        self.driver.catch_up(board);
        self.driver.core.keeps_rules();
    }

    ghost goes_on = { λ scribe journal quiet.
        plan_goes_on scribe.driver.core.agent scribe.driver.core.depth scribe.driver.core.fuel journal quiet };
}

impl<'a, K: Sink> RoundLead for PlanScribe<'a, K> {
    ghost use Rattle.golog_branch.specs.PlanJournals.{IsPlannedSoFar};
    ghost use Rattle.golog_plan.specs.PlanLeads.{IsStarved, plan_adds, plan_lead, plan_stays};

    ghost keeps = { λ bounds agent journal. IsPlannedSoFar agent bounds.0 bounds.1 journal };

    ghost alone = { λ bounds agent. plan_lead agent bounds.0 bounds.1 };

    ghost short = { IsStarved };

    fn step<B: Board>(&mut self, board: &mut B) {
        PlanScribe::turn(self, board);
    }

    fn has_ended(&self) -> bool {
        self.driver.core.has_ended()
    }

    fn is_open(&self, device: u8) -> bool {
        self.driver.core.is_open(device)
    }

    fn keeps_rules(&self) {
        self.driver.core.keeps_rules();
    }

    ghost adds = { λ bounds agent. plan_adds agent bounds.0 bounds.1 };

    ghost stays = { λ bounds agent. plan_stays agent bounds.0 bounds.1 };
}
