//! `PlanCore`, a program that follows plans, under way, of which no entry is kept.
ghost use Rattle.std.specs.Prelude.{◌≡◌, ◌<◌, ◌≤◌, IfOk, IfSome, IsTrue, None, Some, not, [], ◌∷◌, ◌++◌, length};
ghost use Rattle.golog_semantics.specs.BlockFree.{has_block as does_have_block};
ghost use Rattle.golog_semantics.specs.Journal.{has_end, is_open as is_open_in, longest};
ghost use Rattle.golog_semantics.specs.WellFormed.{WellFormed};
ghost use Rattle.golog_journal.specs.Boards.{IsBoardList};
ghost use Rattle.golog_lead.specs.Keeping.{EndsBy};
ghost use Rattle.golog_branch.specs.PlanJournals.{KeepsPlanned};
ghost use Rattle.golog_plan.specs.Keeping.{IsFollowed, KeptFor, kept_by, planned_to, with_list};

use golog_base::{NoMemory, both};
use golog_branch::Kept;
use golog_journal::Counts;
use golog_lead::{UnderWay, ended_after};
use golog_progress::{State, start};
use golog_semantics::{Answer, Entry};
use golog_tree::Agent;
use std::alloc::Global;
use std::marker::Model;
use std::{mem, slice};

/// A program that follows plans, under way. Contracts see it as the agent, the bounds of its plans and the entries so
/// far.
#[derive(Drop)]
pub struct PlanCore<'a> {
    pub(crate) alloc: Global,
    pub(crate) agent: &'a Agent,
    pub(crate) counts: Counts,
    /// What is known after the entries.
    pub(crate) state: State,
    /// What is left of the program and the plan that is kept, where it was not lost for want of memory.
    pub(crate) kept: Option<Kept>,
    /// How the program ended.
    ended: Option<Answer>,
    pub(crate) depth: u32,
    pub(crate) fuel: u32,
}

impl<'a> Model for PlanCore<'a> {
    ghost use Rattle.golog_plan.specs.Keeping.{PlanCourse, KeepsPlan};
    ghost use Rattle.std.specs.Coded.{codes};
    ghost use Rattle.golog_tree.specs.contracts.cond.Cond as cond;
    ghost use Rattle.golog_tree.specs.contracts.cond.Term as term;
    ghost use Rattle.golog_tree.specs.contracts.prog.Prog as prog;
    ghost use Rattle.golog_tree.specs.contracts.prog.Way as way;

    ghost Value = { PlanCourse };

    ghost coded = { Prim.hlevel (codes, cond.the_row.coded, term.the_row.coded, prog.the_row.coded, way.the_row.coded) };

    ghost view = { λ core. record {
      agent = core.counts.agent;
      depth = core.depth;
      fuel = core.fuel;
      list = core.counts.entries;
    } };

    ghost invariant = { λ core.
        KeepsPlan (record {
          agent = core.counts.agent;
          depth = core.depth;
          fuel = core.fuel;
          list = core.counts.entries;
        }) core.agent.now core.state core.kept core.ended };
}

/// What is kept after one more entry: what is given for a step, and else what was kept, with the branch of a result.
/// Nothing where memory is wanted.
fn kept_next(kept: Option<Kept>, given: Option<Kept>, entry: Entry) -> Option<Kept>
    ensures { IfSome result (λ next. Some next ≡ kept_by kept given entry) }
{
    match given {
        Some(given) => {
            drop(kept);
            Some(given)
        }
        None => followed(kept, entry),
    }
}

/// The same of an entry that is none of a step.
fn followed(kept: Option<Kept>, entry: Entry) -> Option<Kept>
    ensures { IfSome result (λ next. Some next ≡ kept_by kept None entry) }
{
    match kept {
        Some(kept) => after_entry(kept, entry),
        None => None,
    }
}

/// The same, where something was kept.
fn after_entry(kept: Kept, entry: Entry) -> Option<Kept>
    ensures { IfSome result (λ next. Some next ≡ kept_by (Some kept) None entry) }
{
    match entry {
        Entry::Sense { value, .. } => kept.after_result(value).ok(),
        Entry::Do { .. }
        | Entry::Test
        | Entry::Exo { .. }
        | Entry::Rest { .. }
        | Entry::Close { .. }
        | Entry::End { .. } => Some(kept),
    }
}

impl<'a> PlanCore<'a> {
    /// The program of this agent before any entry.
    pub(crate) fn new(
        alloc: Global,
        agent: &'a Agent,
        depth: u32,
        fuel: u32,
    ) -> Result<PlanCore<'a>, NoMemory>
        requires agent { WellFormed agent.now }
        requires blockless { IsTrue (not (does_have_block agent.now agent.now.main)) }
        requires depth { 1 ≤ depth }
        requires fuel { 1 ≤ fuel }
        ensures { IfOk result (λ core. core ≡ planned_to agent.now depth fuel []) }
    {
        let known = both(Counts::new(alloc, agent), start(alloc, agent));
        let ((counts, state), kept) = both(known, Kept::new(alloc, agent))?;
        Ok(PlanCore {
            alloc,
            agent,
            counts,
            state,
            kept: Some(kept),
            ended: None,
            depth,
            fuel,
        })
    }

    /// What is so of the entries. Does nothing.
    pub(crate) fn keeps_rules(&self)
        ensures followed { IsFollowed self.now }
        ensures short { length self.now.list ≤ longest }
    {
        let _length = self.counts.len();
    }

    /// Takes one more entry, which keeps the rules, and what is kept then where it is that of a step.
    pub(crate) fn take(&mut self, entry: Entry, given: Option<Kept>)
        requires lawful { IsBoardList self.old.agent (self.old.list ++ entry ∷ []) }
        requires planned { KeepsPlanned self.old.agent self.old.depth self.old.fuel self.old.list entry }
        requires kept { KeptFor self.old entry given }
        ensures { self.new ≡ with_list self.old (self.old.list ++ entry ∷ []) }
    {
        let was = mem::replace(&mut self.kept, None);
        let kept = kept_next(was, given, entry);
        let ended = ended_after(self.ended, entry);
        self.state.roll(self.agent, &[entry]);
        self.counts.add(entry);
        self.ended = ended;
        drop(mem::replace(&mut self.kept, kept));
    }

    /// How the program ended, if it has.
    pub(crate) fn answer(&self) -> Option<Answer>
        ensures { EndsBy self.now.list result }
    {
        self.ended
    }

    /// Whether the program has ended.
    pub(crate) fn has_ended(&self) -> bool
        ensures { result ≡ has_end self.now.list }
    {
        self.ended.is_some()
    }

    /// Whether the device is open after the entries so far.
    pub(crate) fn is_open(&self, device: u8) -> bool
        requires { device < length self.now.agent.devices }
        ensures { result ≡ is_open_in device self.now.list }
    {
        self.counts.is_open(device)
    }
}

impl<'a> UnderWay for PlanCore<'a> {
    ghost use Rattle.golog_plan.specs.Keeping.{course_of};

    ghost course = { λ core. course_of core };

    fn agent(&self) -> &Agent {
        self.agent
    }

    fn len(&self) -> u32 {
        self.counts.len()
    }

    fn state(&self) -> &State {
        &self.state
    }
}
