// `want_of`: what a search block wants that finds no run.
ghost use Rattle.std.specs.Prelude.{◌≡◌, IfOk};
ghost use Rattle.golog_semantics.specs.WellFormed.{WellFormed};
ghost use Rattle.golog_ways.specs.Searched.{IsSearched};
ghost use Rattle.golog_trace.specs.Wanted.{certain_want as want_by, near_want as want_near, want_of as wanted_by, want_words};

use golog_base::NoMemory;
use golog_find::{Found, find};
use golog_progress::State;
use golog_semantics::Block;
use golog_tree::Agent;
use std::alloc::Global;

/// What a search block wants.
#[derive(Clone, Copy, Debug, PartialEq, Eq)]
pub enum Want {
    /// Nothing: it finds a certain run.
    Nothing,
    /// More states to look at than its fuel.
    Fuel,
    /// More known of the fluents: there may be a run then.
    Knowledge,
    /// More steps than its depth: something stayed unseen.
    Depth,
    /// Another body or another state: no number of steps leads to an end.
    Another,
}

impl Want {
    /// The words for it.
    pub fn words(self) -> &'static [u8]
        ensures { result.now ≡ want_words self }
    {
        match self {
            Want::Nothing => b"finds a run",
            Want::Fuel => b"wants fuel",
            Want::Knowledge => b"wants knowledge",
            Want::Depth => b"wants depth",
            Want::Another => b"has no run",
        }
    }
}

/// What a block wants, by the search for a certain run, if that tells.
fn certain_want(found: &Found) -> Option<Want>
    ensures { result ≡ want_by found.now }
{
    match found {
        Found::Run(_) => Some(Want::Nothing),
        Found::Fuel => Some(Want::Fuel),
        Found::Absent { .. } => None,
    }
}

/// What a block without a certain run wants, by the search for a run that there may be were more known.
fn near_want(found: &Found) -> Want
    ensures { result ≡ want_near found.now }
{
    match found {
        Found::Run(_) => Want::Knowledge,
        Found::Fuel => Want::Fuel,
        Found::Absent { cut } => { if *cut { Want::Depth } else { Want::Another } }
    }
}

/// What a search block wants in a state, where it searches within its depth and its fuel.
pub fn want_of(alloc: Global, agent: &Agent, block: &Block, state: &State) -> Result<Want, NoMemory>
    requires formed { WellFormed agent.now }
    requires searched { IsSearched agent.now block.now.body state.now }
    ensures { IfOk result (λ want. want ≡ wanted_by agent.now state.now block.now) }
{
    let found = find(alloc, agent, block, state, true)?;
    match certain_want(&found) {
        Some(want) => Ok(want),
        None => {
            let near = find(alloc, agent, block, state, false)?;
            Ok(near_want(&near))
        }
    }
}
