//! `Core`, a program under way of which no entry is kept: what is known after them, what is counted
//! of them, and what it does next.
ghost use Rattle.std.specs.Prelude.{◌≡◌, ◌<◌, ◌≤◌, IfOk, IfSome, IsTrue, true, false, [], ◌∷◌, ◌++◌, length, unwrap_or};
ghost use Rattle.golog_tree.specs.Nest.{nest};
ghost use Rattle.golog_semantics.specs.Blocks.{moves};
ghost use Rattle.golog_semantics.specs.Journal.{has_end, is_open, is_full, is_quiet, is_settled, lacks_results, may_be_answered, longest};
ghost use Rattle.golog_semantics.specs.Answer.{is_unanswered};
ghost use Rattle.golog_semantics.specs.Progress.{values_after, left_after};
ghost use Rattle.golog_semantics.specs.Search.{final, nest_limit};
ghost use Rattle.golog_semantics.specs.Ways.{is_empty};
ghost use Rattle.golog_semantics.specs.WellFormed.{WellFormed};
ghost use Rattle.golog_search.specs.Decided.{IsAhead};
ghost use Rattle.golog_journal.specs.Boards.{IsBoardList};
ghost use Rattle.golog_lead.specs.Keeping.{EndsBy, KeepsRules};
ghost use Rattle.golog_agent.specs.Keeping.{IsUnderWay};
ghost use Rattle.golog_agent.specs.Planned.{PlanIs, IsNextStep};

use crate::decider::Decider;
use crate::held::{Held, held_after};
use crate::plan::{Plan, planned};
use golog_base::{NoMemory, both};
use golog_journal::Counts;
use golog_lead::{UnderWay, ended_after};
use golog_progress::State;
use golog_search::Decision;
use golog_semantics::{Answer, Entry, Mode, Move};
use golog_tree::{Agent, Prog};
use golog_ways::Expand;
use std::alloc::Global;
use std::marker::Model;

/// A program under way. It keeps none of the entries: what is known after them, what is counted of them, and what
/// is decided there. Contracts see it as the agent and the entries so far.
#[derive(Drop)]
pub struct Core<'a> {
    alloc: Global,
    counts: Counts,
    /// What is known after the entries, and what is decided there.
    decider: Decider<'a>,
    /// The command whose result the program waits for.
    held: Option<Held>,
    /// How the program ended.
    ended: Option<Answer>,
}

impl<'a> Model for Core<'a> {
    ghost use Rattle.golog_lead.specs.Courses.{Course};
    ghost use Rattle.golog_agent.specs.Keeping.{KeepsUp};
    ghost use Rattle.std.specs.Coded.{codes};
    ghost use Rattle.golog_tree.specs.contracts.cond.Cond as cond;
    ghost use Rattle.golog_tree.specs.contracts.cond.Term as term;
    ghost use Rattle.golog_tree.specs.contracts.prog.Prog as prog;
    ghost use Rattle.golog_tree.specs.contracts.prog.Way as way;

    ghost Value = { Course };

    ghost coded = { Prim.hlevel (codes, cond.the_row.coded, term.the_row.coded, prog.the_row.coded, way.the_row.coded) };

    ghost view = { λ core. record { agent = core.counts.agent; list = core.counts.entries } };

    ghost invariant = { λ core.
        KeepsUp core.counts.agent core.counts.entries core.decider core.held core.ended };
}

impl<'a> Core<'a> {
    /// The program of this agent before any entry. No later call for an entry takes memory.
    pub(crate) fn new(alloc: Global, agent: &'a Agent) -> Result<Core<'a>, NoMemory>
        requires { WellFormed agent.now }
        ensures { IfOk result (λ core. core ≡ record { agent = agent.now; list = [] }) }
    {
        let (counts, decider) = both(Counts::new(alloc, agent), Decider::new(alloc, agent))?;
        Ok(Core {
            alloc,
            counts,
            decider,
            held: None,
            ended: None,
        })
    }

    /// What is so of the entries. Does nothing.
    pub(crate) fn keeps_rules(&self)
        ensures under_way { IsUnderWay self.now.agent self.now.list }
        ensures short { length self.now.list ≤ longest }
    {
        let _length = self.counts.len();
    }

    /// Takes one more entry, which keeps the rules, and the program that it leaves, if that is another.
    pub(crate) fn take(&mut self, entry: Entry, left: Option<Prog>)
        requires lawful { IsBoardList self.old.agent (self.old.list ++ entry ∷ []) }
        requires online { KeepsRules self.old.agent self.old.list entry }
        requires left { left_after self.old.agent (self.old.list ++ entry ∷ [])
            ≡ unwrap_or left (left_after self.old.agent self.old.list) }
        requires nests { IfSome left (λ left. nest left ≤ nest_limit) }
        ensures { self.new ≡ record { agent = self.old.agent; list = self.old.list ++ entry ∷ [] } }
    {
        let held = held_after(&self.counts, self.held, entry);
        let ended = ended_after(self.ended, entry);
        self.decider.take(entry, left);
        self.counts.add(entry);
        self.held = held;
        self.ended = ended;
    }

    /// How the program ended, if it has.
    pub(crate) fn answer(&self) -> Option<Answer>
        ensures { EndsBy self.now.list result }
    {
        self.ended
    }

    /// Whether the program has ended.
    pub(crate) fn has_ended(&self) -> bool
        ensures { result ≡ has_end self.now.list }
    {
        self.ended.is_some()
    }

    /// Whether the device is open after the entries so far.
    pub(crate) fn is_open(&self, device: u8) -> bool
        requires { device < length self.now.agent.devices }
        ensures { result ≡ is_open device self.now.list }
    {
        self.counts.is_open(device)
    }

    // Whether each device is closed or at rest.
    fn is_quiet(&self) -> bool
        ensures { result ≡ is_quiet self.now.agent self.now.list }
    {
        self.counts.is_quiet()
    }

    // Whether a result is still to come.
    fn lacks_results(&self) -> bool
        ensures { result ≡ lacks_results self.now.agent self.now.list }
    {
        self.counts.lacks_results()
    }

    // Whether a result is still to come of a device that is open.
    fn may_be_answered(&self) -> bool
        ensures { result ≡ may_be_answered self.now.agent self.now.list }
    {
        self.counts.may_be_answered()
    }

    // What the program does next, where it certainly ends or steps. It is decided anew only where the values or the
    // program left have changed since.
    fn ahead<X: Expand>(&mut self, expand: &X) -> Result<Option<Decision>, NoMemory>
        ensures same { self.new ≡ self.old }
        ensures ahead { IfOk result (IsAhead self.old.agent (values_after self.old.agent self.old.list)
            (left_after self.old.agent self.old.list) true) }
    {
        self.decider.decide(self.alloc, expand)
    }

    /// Keeps this step, if there is one, which was decided and is not committed.
    pub(crate) fn keep_step(&mut self, step: Option<Move>)
        requires { IfSome step (IsNextStep self.old.agent self.old.list) }
        ensures { self.new ≡ self.old }
    {
        if let Some(step) = step {
            self.decider.keep(self.alloc, Some(Decision::Step(step)));
        }
    }

    // What the program is to do, where it waits for no result and there is room. Where it may end, it waits for the
    // results that may still come.
    fn decided_plan<X: Expand>(&mut self, expand: &X) -> Plan
        requires settled { IsTrue (is_settled self.old.agent self.old.list) }
        requires answered { is_unanswered self.old.agent self.old.list ≡ false }
        requires room { is_full self.old.list ≡ false }
        ensures same { self.new ≡ self.old }
        ensures plan { PlanIs self.old.agent self.old.list result }
    {
        self.keeps_rules();
        match self.ahead(expand) {
            Ok(Some(decision)) => planned(decision, self.may_be_answered()),
            Ok(None) if self.is_quiet() => self.blocked_plan(expand),
            Ok(None) => Plan::Wait,
            Err(_) => Plan::End(Answer::Memory),
        }
    }

    // What the program is to do that neither certainly ends nor steps, where no device may post any more: results that
    // are lacking will not come.
    fn blocked_plan<X: Expand>(&self, expand: &X) -> Plan
        requires settled { IsTrue (is_settled self.now.agent self.now.list) }
        requires answered { is_unanswered self.now.agent self.now.list ≡ false }
        requires room { is_full self.now.list ≡ false }
        requires quiet { IsTrue (is_quiet self.now.agent self.now.list) }
        requires unended { final self.now.agent (values_after self.now.agent self.now.list) Mode.Must
            (left_after self.now.agent self.now.list) ≡ false }
        requires stepless { IsTrue (is_empty (moves self.now.agent (values_after self.now.agent self.now.list)
            Mode.Must (left_after self.now.agent self.now.list))) }
        ensures { PlanIs self.now.agent self.now.list result }
    {
        if self.lacks_results() {
            return Plan::End(Answer::Unanswered);
        }
        match self.decider.why_blocked(self.alloc, expand) {
            Ok(decision) => planned(decision, false),
            Err(_) => Plan::End(Answer::Memory),
        }
    }

    /// What the program is to do next. Where a search has many programs at hand, their steps are asked of this.
    pub(crate) fn plan<X: Expand>(&mut self, expand: &X) -> Plan
        requires { has_end self.old.list ≡ false }
        ensures same { self.new ≡ self.old }
        ensures plan { PlanIs self.old.agent self.old.list result }
    {
        if self.counts.is_full() {
            return Plan::End(Answer::Full);
        }
        match self.held {
            Some(command) if self.counts.is_open(command.device) => Plan::Wait,
            Some(_) => Plan::End(Answer::Unanswered),
            None => self.decided_plan(expand),
        }
    }
}

impl<'a> UnderWay for Core<'a> {
    ghost course = { λ core. core };

    fn agent(&self) -> &Agent {
        self.decider.agent()
    }

    fn len(&self) -> u32 {
        self.counts.len()
    }

    fn state(&self) -> &State {
        self.decider.state()
    }
}
