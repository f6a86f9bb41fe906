// `Watch`, a run with the conditions that tell whether it goes through, and whether what is left of
// it does.
ghost use Rattle.std.specs.Prelude.{◌≡◌, IfOk, IfSome, IsOk, IsTrue, length, not, slice_get};
ghost use Rattle.golog_semantics.specs.BlockFree.{has_block};
ghost use Rattle.golog_semantics.specs.Blocks.{goes_through as leads_to_final};
ghost use Rattle.golog_semantics.specs.Fits.{cond_fits, nothing_bound};
ghost use Rattle.golog_semantics.specs.ProgFits.{fits};
ghost use Rattle.golog_semantics.specs.InSorts.{AreInSorts};
ghost use Rattle.golog_semantics.specs.Ways.{is_so};
ghost use Rattle.golog_semantics.specs.WellFormed.{WellFormed};
ghost use Rattle.golog_ways.specs.Searched.{IsSearched};
ghost use Rattle.golog_watch.specs.Watched.{IsTold, IsWatch, StaysKept, Tells};
ghost use Rattle.golog_watch.specs.Watched.{is_left as is_left_of, is_whole as is_whole_of, keeps as keeps_run};

use crate::conditions::conditions;
use golog_base::{List, NoMemory};
use golog_known::{Env, value};
use golog_progress::State;
use golog_tree::{Agent, Cond, Prog, Way, are_same_ways, copy_prog, is_same_prog};
use golog_ways::{Mode, copy_ways, goes_through, holds};
use std::alloc::Global;

/// A run and the program that it is of, and conditions that tell whether it goes through, and whether all that
/// is left of it does after its first ways: by their lengths, the shortest first, as far as they are small.
#[derive(Drop)]
pub struct Watch {
    body: Prog,
    rest: List<Way>,
    conds: List<Cond>,
}

/// Whether the condition certainly holds in the state.
fn is_certain(agent: &Agent, cond: &Cond, state: &State) -> bool
    requires formed { WellFormed agent.now }
    requires closed { IsTrue (cond_fits agent.now cond.now nothing_bound) }
    requires sorts { AreInSorts agent.now state.now }
    ensures { result ≡ is_so agent.now state.now Mode.Must cond.now }
{
    holds(Mode::Must, value(agent, cond, &Env::new(), state.values()))
}

/// Whether a program and a run are these.
fn is_whole(whole: &Prog, run: &[Way], body: &Prog, rest: &[Way]) -> bool
    ensures { result ≡ is_whole_of whole.now run.now body.now rest.now }
{
    is_same_prog(whole, body) && are_same_ways(run, rest)
}

/// Whether a program and a run are these, or what is left of these after some of the ways.
fn is_left(whole: &Prog, run: &[Way], body: &Prog, rest: &[Way]) -> bool
    ensures { result ≡ is_left_of whole.now run.now body.now rest.now }
{
    if run.len() == rest.len() {
        return is_whole(whole, run, body, rest);
    }
    match run.split_first() {
        Some((way, later)) => is_left(&way.left, later, body, rest),
        None => false,
    }
}

impl Watch {
    /// A watch of a run. No search block stands in the body, and none is reached from it.
    pub fn of(alloc: Global, agent: &Agent, body: &Prog, rest: &[Way]) -> Result<Watch, NoMemory>
        requires formed { WellFormed agent.now }
        requires program { IsTrue (fits agent.now body.now) }
        requires blockless { IsTrue (not (has_block agent.now body.now)) }
        ensures watch { IfOk result (IsWatch agent.now) }
        ensures body { IfOk result (λ w. w.body ≡ body.now) }
        ensures rest { IfOk result (λ w. w.rest ≡ rest.now) }
    {
        let conds = conditions(alloc, agent, body, rest)?;
        let rest = copy_ways(alloc, rest)?;
        let body = copy_prog(alloc, body)?;
        Ok(Watch { body, rest, conds })
    }

    /// Whether the run goes through from a state: each of its ways is a certain step of the program left, and
    /// where they lead the program certainly may end. It does where it went through from a state in which less
    /// was known. Takes no memory where the watch has a condition that tells it.
    pub fn still(&self, alloc: Global, agent: &Agent, state: &State) -> Result<bool, NoMemory>
        requires formed { WellFormed agent.now }
        requires watch { IsWatch agent.now self.now }
        requires sorts { AreInSorts agent.now state.now }
        ensures still { IfOk result (λ b. b
            ≡ leads_to_final agent.now self.now.body self.now.rest state.now) }
        ensures kept { IfOk result (StaysKept agent.now self.now.body self.now.rest state.now) }
        ensures told { IsTold self.now self.now.rest → IsOk result }
    {
        self.still_left(alloc, agent, &self.body, self.rest.as_slice(), state)
    }

    /// Whether what is left of the run goes through from a state.
    pub(crate) fn still_left(
        &self,
        alloc: Global,
        agent: &Agent,
        body: &Prog,
        rest: &[Way],
        state: &State,
    ) -> Result<bool, NoMemory>
        requires formed { WellFormed agent.now }
        requires searched { IsSearched agent.now body.now state.now }
        requires tells { IfSome (slice_get self.now.conds (length rest.now))
            (Tells agent.now body.now rest.now) }
        ensures still { IfOk result (λ b. b ≡ leads_to_final agent.now body.now rest.now state.now) }
        ensures told { IsTold self.now rest.now → IsOk result }
    {
        match self.conds.get(rest.len()) {
            Some(cond) => Ok(is_certain(agent, cond, state)),
            None => goes_through(alloc, agent, body, rest, state),
        }
    }

    /// Whether a run is the watch's, or what is left of it after some of its ways.
    pub(crate) fn keeps(&self, body: &Prog, rest: &[Way]) -> bool
        ensures { result ≡ keeps_run body.now rest.now self.now }
    {
        is_left(&self.body, self.rest.as_slice(), body, rest)
    }
}
