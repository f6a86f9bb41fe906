//! `Runner`, a lead whose record keeps the entries and the runs of a program, for a report.
ghost use Rattle.std.specs.Prelude.{◌≡◌, ◌<◌, ◌≤◌, IfOk, true, [], length};
ghost use Rattle.golog_semantics.specs.Journal.{has_end, is_open, longest};
ghost use Rattle.golog_semantics.specs.InlineText.{report_of};
ghost use Rattle.golog_semantics.specs.Online.{IsOnlineSoFar};
ghost use Rattle.golog_semantics.specs.WellFormed.{WellFormed};
ghost use Rattle.golog_journal.specs.Growing.{program};
ghost use Rattle.golog_journal.specs.Leading.{IsBehind};
ghost use Rattle.golog_agent.specs.Keeping.{IsUnderWay};
ghost use Rattle.golog_agent.specs.Turns.{TurnIs};

use crate::driver::Driver;
use crate::under_way::Core;
use golog_base::{NoMemory, both};
use golog_journal::{Board, Lead, Led, Report};
use golog_lead::{Kept, RoundLead, Stepped, led_by};
use golog_tree::Agent;
use golog_ways::Plain;
use std::alloc::Global;
use std::marker::Model;

/// Drives the program of an agent: it copies what devices post, and commits what it decides at the whole list
/// that it has seen. Contracts see it as the agent and the entries so far.
#[derive(Drop)]
pub struct Runner<'a> {
    driver: Driver<'a, Kept>,
}

impl<'a> Model for Runner<'a> {
    ghost use Rattle.golog_lead.specs.Courses.{Course};
    ghost use Rattle.golog_lead.specs.Recording.{IsKept};
    ghost use Rattle.std.specs.Coded.{codes};
    ghost use Rattle.golog_tree.specs.contracts.cond.Cond as cond;
    ghost use Rattle.golog_tree.specs.contracts.cond.Term as term;
    ghost use Rattle.golog_tree.specs.contracts.prog.Prog as prog;
    ghost use Rattle.golog_tree.specs.contracts.prog.Way as way;

    ghost Value = { Course };

    ghost coded = { Prim.hlevel (codes, cond.the_row.coded, term.the_row.coded, prog.the_row.coded, way.the_row.coded) };

    ghost view = { λ runner. runner.driver.core };

    ghost invariant = { λ runner. IsKept runner.driver.core.agent runner.driver.core.list
        runner.driver.record.entries runner.driver.record.runs };
}

impl<'a> Runner<'a> {
    /// A runner of this agent that has seen nothing, with room for the longest journal and its runs.
    pub fn new(alloc: Global, agent: &'a Agent) -> Result<Runner<'a>, NoMemory>
        requires { WellFormed agent.now }
        ensures { IfOk result (λ runner. runner ≡ record { agent = agent.now; list = [] }) }
    {
        let (record, core) = both(Kept::new(alloc), Core::new(alloc, agent))?;
        Ok(Runner {
            driver: Driver {
                core,
                record,
                expand: Plain,
            },
        })
    }

    /// The report of the run so far, with the runs that its steps began: an online execution so far. Takes no
    /// memory.
    pub fn report(self) -> Report
        ensures entries { result ≡ report_of self.entry.agent self.entry.list }
        ensures online { IsOnlineSoFar self.entry.agent result }
    {
        self.keeps_rules();
        let Driver { core, record, .. } = self.driver;
        drop(core);
        record.into_report()
    }

    /// Lets it go, where nothing is to be run.
    pub fn let_go(self) {
        drop(self)
    }

    // What is so of the entries.
    pub(crate) fn keeps_rules(&self)
        ensures under_way { IsUnderWay self.now.agent self.now.list }
        ensures short { length self.now.list ≤ longest }
    {
        self.driver.core.keeps_rules();
    }

    /// Copies what is new, decides at the whole list, and commits what it decided, at that length: where
    /// others added entries meanwhile, it copies and decides again. `Step` exactly where it committed an
    /// action or a test; `Waiting` exactly where it committed nothing and no end stands, and then the
    /// program waits for a device at all that was seen; `Ended` exactly where the end stands, with its
    /// answer. The end is the answer after all entries before it, or `Memory` for want of memory, or `Fuel`
    /// where the program is heavy and the fuel of a search block was wanted. Its copy is then all that was
    /// seen, and an online execution so far.
    pub fn turn<B: Board>(&mut self, board: &mut B) -> Stepped
        requires agent { self.old.agent ≡ (B.sight board.old).agent }
        requires held { (B.sight board.old).holds program ≡ true }
        requires behind { IsBehind self.old.list (B.sight board.old).seen }
        ensures same { self.new.agent ≡ self.old.agent }
        ensures whole { self.new.list ≡ (B.sight board.new).seen }
        ensures turn { TurnIs (B.sight board.old) (B.sight board.new) result }
        ensures online { IsOnlineSoFar self.new.agent (report_of self.new.agent self.new.list) }
    {
        self.driver.turn(board)
    }

    /// Whether the program has ended.
    pub fn has_ended(&self) -> bool
        ensures { result ≡ has_end self.now.list }
    {
        self.driver.core.has_ended()
    }

    /// Whether the device is open after the entries so far.
    pub fn is_open(&self, device: u8) -> bool
        requires { device < length self.now.agent.devices }
        ensures { result ≡ is_open device self.now.list }
    {
        self.driver.core.is_open(device)
    }
}

impl<'a> Lead for Runner<'a> {
    ghost use Rattle.std.specs.Prelude.{None};
    ghost use Rattle.golog_lead.specs.Waiting.{waits};
    ghost use Rattle.golog_agent.specs.Laws.{quiet_goes_on};

    ghost mind = { λ runner. record {
      agent = runner.agent;
      bounds = (0, 0);
      list = runner.list;
      waits = waits runner.agent;
      outlet = None;
    } };

    ghost stands = { λ _. Unit {0} };

    fn turn<B: Board>(&mut self, board: &mut B) -> Led {
        let stepped = Runner::turn(self, board);
        self.keeps_rules();
        led_by(stepped)
    }

    fn gather<B: Board>(&mut self, board: &mut B) {
        self.driver.catch_up(board);
        self.driver.core.keeps_rules();
    }

    ghost goes_on = { λ runner journal quiet. quiet_goes_on runner.agent journal quiet };
}

impl<'a> RoundLead for Runner<'a> {
    ghost use Rattle.golog_semantics.specs.Inline.{lead};
    ghost use Rattle.golog_semantics.specs.InlineText.{report_of};
    ghost use Rattle.golog_semantics.specs.Online.{IsOnlineSoFar};
    ghost use Rattle.golog_lead.specs.Short.{IsShort};
    ghost use Rattle.golog_agent.specs.Laws.{lead_adds, lead_stays};

    ghost keeps = { λ bounds agent journal. IsOnlineSoFar agent (report_of agent journal) };

    ghost alone = { λ bounds. lead };

    ghost short = { IsShort };

    fn step<B: Board>(&mut self, board: &mut B) {
        Runner::turn(self, board);
    }

    fn has_ended(&self) -> bool {
        Runner::has_ended(self)
    }

    fn is_open(&self, device: u8) -> bool {
        Runner::is_open(self, device)
    }

    fn keeps_rules(&self) {
        Runner::keeps_rules(self);
    }

    ghost adds = { λ bounds. lead_adds };

    ghost stays = { λ bounds. lead_stays };
}
