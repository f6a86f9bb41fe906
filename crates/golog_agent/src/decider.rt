//! `Decider`: what is known and the program left, with what was decided there and isn't committed
//! yet, and the watches of the runs under way.
ghost use Rattle.std.specs.Prelude.{◌≡◌, ◌↔◌, ◌≤◌, IfOk, IfSome, IsTrue, false, true, Some, [], ◌∷◌};
ghost use Rattle.std.specs.Option.{is_some};
ghost use Rattle.golog_tree.specs.Nest.{nest};
ghost use Rattle.golog_semantics.specs.Blocks.{moves};
ghost use Rattle.golog_semantics.specs.Search.{final, nest_limit};
ghost use Rattle.golog_semantics.specs.Ways.{is_empty};
ghost use Rattle.golog_semantics.specs.WellFormed.{WellFormed};
ghost use Rattle.golog_progress.specs.Entries.{EntriesFit};
ghost use Rattle.golog_search.specs.Decided.{IsAhead, IsDecided};
ghost use Rattle.golog_agent.specs.Configuration.{IsSound, configuration_after, with_entry};
ghost use Rattle.golog_agent.specs.Deciding.{is_standing};

use golog_base::{Bytes, List, NoMemory, both};
use golog_progress::{State, start};
use golog_search::{Decision, decide_blocked, decide_step_of};
use golog_semantics::{Entry, Mode};
use golog_tree::{Agent, Prog, copy_prog};
use golog_watch::Watches;
use golog_ways::{Expand, Ready, ready_of};
use std::alloc::Global;
use std::marker::Model;
use std::mem;

/// Whether these are the values, if there are any.
fn is_at(at: &Option<Bytes>, values: &[u8]) -> bool
    ensures { IsTrue result ↔ (at.now ≡ Some values.now) }
{
    match at {
        Some(at) => at.as_slice() == values,
        None => false,
    }
}

/// A copy of the values, unless memory is wanted.
fn copied(alloc: Global, values: &[u8]) -> Option<Bytes>
    ensures { IfSome result (λ copy. copy ≡ values.now) }
{
    List::copy_of(alloc, values).ok()
}

/// What is kept of a decision that is handed out, if anything: that there is an end, or neither an end nor a step, or
/// that fuel is lacking.
fn standing(decided: &Option<Decision>) -> Option<Option<Decision>>
    ensures ahead { IfSome result (λ ahead. ahead ≡ decided.now) }
    ensures stands { is_some result ≡ is_standing decided.now }
{
    match decided {
        None => Some(None),
        Some(Decision::Final) => Some(Some(Decision::Final)),
        Some(Decision::Fuel) => Some(Some(Decision::Fuel)),
        Some(_) => None,
    }
}

/// What was decided ahead and is not committed, the watches of the runs that are under way, and the conditions of the
/// agent's program that are made ready.
#[derive(Drop)]
pub(crate) struct Ahead {
    /// The values at which it was decided what the program left does next, where that is kept.
    at: Option<Bytes>,
    /// What was decided there.
    decision: Option<Decision>,
    watches: Watches,
    ready: List<Ready>,
}

/// The values that are known of an agent and the program left, with what was decided there and is not committed.
/// Contracts see it as that configuration.
#[derive(Drop)]
pub(crate) struct Decider<'a> {
    agent: &'a Agent,
    state: State,
    left: Prog,
    /// Whether a step left the program, so that it nests no deeper than a step may leave.
    shallow: bool,
    ahead: Ahead,
}

impl<'a> Model for Decider<'a> {
    ghost use Rattle.std.specs.Prelude.{◌≡◌, ◌≤◌, true, IfSome};
    ghost use Rattle.std.specs.Coded.{codes};
    ghost use Rattle.golog_agent.specs.Configuration.{Configuration};
    ghost use Rattle.golog_tree.specs.contracts.cond.Cond as cond;
    ghost use Rattle.golog_tree.specs.contracts.cond.Term as term;
    ghost use Rattle.golog_tree.specs.contracts.prog.Prog as program;
    ghost use Rattle.golog_tree.specs.contracts.prog.Way as way;
    ghost use Rattle.golog_flat.specs.contracts.check.Check as check;
    ghost use Rattle.golog_tree.specs.Nest.{nest};
    ghost use Rattle.golog_semantics.specs.Search.{nest_limit};
    ghost use Rattle.golog_search.specs.Decided.{IsAhead};
    ghost use Rattle.golog_watch.specs.Watched.{AreWatches};
    ghost use Rattle.golog_ways.specs.Ready.{AreReady};

    ghost Value = { Configuration };

    ghost coded = { Prim.hlevel
        (codes, cond.the_row.coded, term.the_row.coded, program.the_row.coded, way.the_row.coded, check.the_row.coded) };

    ghost view = { λ decider. record { agent = decider.agent.now; values = decider.state; left = decider.left } };

    ghost invariant = { λ decider.
        (decider.shallow ≡ true → nest decider.left ≤ nest_limit)
        × IfSome decider.ahead.at (λ values. IsAhead decider.agent.now values decider.left true decider.ahead.decision)
        × AreWatches decider.agent.now decider.ahead.watches
        × AreReady decider.agent.now decider.ahead.ready };
}

impl<'a> Decider<'a> {
    /// Before any entry of an agent. Its program may nest deeper than a step may leave.
    pub(crate) fn new(alloc: Global, agent: &'a Agent) -> Result<Decider<'a>, NoMemory>
        requires { WellFormed agent.now }
        ensures { IfOk result (λ decider. decider ≡ configuration_after agent.now []) }
    {
        let known = both(start(alloc, agent), copy_prog(alloc, &agent.main));
        let ((state, left), watches) = both(known, Watches::new(alloc))?;
        Ok(Decider {
            agent,
            state,
            left,
            shallow: false,
            ahead: Ahead {
                at: None,
                decision: None,
                watches,
                ready: ready_of(alloc, agent),
            },
        })
    }

    /// The agent that it was made with.
    pub(crate) fn agent(&self) -> &'a Agent
        ensures { result.now ≡ self.now.agent }
    {
        self.agent
    }

    /// What is known.
    pub(crate) fn state(&self) -> &State
        ensures { result.now ≡ self.now.values }
    {
        &self.state
    }

    /// Takes one more entry, and the program that it leaves, if that is another. What was decided of the program
    /// left before is no longer kept then.
    pub(crate) fn take(&mut self, entry: Entry, left: Option<Prog>)
        requires sound { IsSound self.old }
        requires entry { EntriesFit self.old.agent (entry ∷ []) }
        requires nests { IfSome left (λ left. nest left ≤ nest_limit) }
        ensures { self.new ≡ with_entry self.old entry left }
    {
        self.state.roll(self.agent, &[entry]);
        if let Some(left) = left {
            self.shallow = true;
            drop(mem::replace(&mut self.ahead.at, None));
            drop(mem::replace(&mut self.left, left));
        }
    }

    /// What the program does next, where it certainly ends or steps. It is decided anew only where it isn't kept
    /// at these values. Where it ends, neither ends nor steps, or lacks fuel, that is kept.
    pub(crate) fn decide<X: Expand>(
        &mut self,
        alloc: Global,
        expand: &X,
    ) -> Result<Option<Decision>, NoMemory>
        requires { IsSound self.old }
        ensures same { self.new ≡ self.old }
        ensures ahead { IfOk result (IsAhead self.old.agent self.old.values self.old.left true) }
    {
        let decided = self.look(alloc, expand)?;
        self.keep_standing(alloc, &decided);
        Ok(decided)
    }

    // Keeps of what was decided what may stand.
    fn keep_standing(&mut self, alloc: Global, decided: &Option<Decision>)
        requires { IsAhead self.old.agent self.old.values self.old.left true decided.now }
        ensures { self.new ≡ self.old }
    {
        if let Some(ahead) = standing(decided) {
            self.keep(alloc, ahead);
        }
    }

    // Takes what is kept at these values, or decides. Nothing is kept then.
    fn look<X: Expand>(&mut self, alloc: Global, expand: &X) -> Result<Option<Decision>, NoMemory>
        requires { IsSound self.old }
        ensures same { self.new ≡ self.old }
        ensures ahead { IfOk result (IsAhead self.old.agent self.old.values self.old.left true) }
    {
        let at = self.ahead.at.take();
        let here = is_at(&at, self.state.values());
        drop(at);
        if here {
            Ok(self.ahead.decision.take())
        } else {
            decide_step_of(
                alloc,
                self.agent,
                &self.left,
                &self.state,
                self.shallow,
                &mut self.ahead.watches,
                expand,
                self.ahead.ready.as_slice(),
            )
        }
    }

    /// Keeps what was decided and is not committed; or nothing, where memory is wanted.
    pub(crate) fn keep(&mut self, alloc: Global, ahead: Option<Decision>)
        requires { IsAhead self.old.agent self.old.values self.old.left true ahead }
        ensures { self.new ≡ self.old }
    {
        let at = copied(alloc, self.state.values());
        drop(mem::replace(&mut self.ahead.at, at));
        drop(mem::replace(&mut self.ahead.decision, ahead));
    }

    /// Why the program neither certainly ends nor steps.
    pub(crate) fn why_blocked<X: Expand>(
        &self,
        alloc: Global,
        expand: &X,
    ) -> Result<Decision, NoMemory>
        requires sound { IsSound self.now }
        requires unended { final self.now.agent self.now.values Mode.Must self.now.left ≡ false }
        requires stepless { IsTrue (is_empty (moves self.now.agent self.now.values Mode.Must self.now.left)) }
        ensures { IfOk result (IsDecided self.now.agent self.now.values self.now.left true) }
    {
        decide_blocked(alloc, self.agent, &self.left, &self.state, expand)
    }
}
