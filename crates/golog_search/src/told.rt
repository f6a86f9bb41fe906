// What a `Keep` tells of the runs that are under way in a program.
ghost use Rattle.std.specs.Prelude.{◌≡◌, ◌↔◌, ◌++◌, IfOk, IsTrue, OnOk};
ghost use Rattle.golog_semantics.specs.InSorts.{AreInSorts};
ghost use Rattle.golog_semantics.specs.WellFormed.{WellFormed};
ghost use Rattle.golog_fronts.specs.Closed.{IsClosed};
ghost use Rattle.golog_ways.specs.Searched.{IsSearched};
ghost use Rattle.golog_search.specs.Told.{AreTold, told_at, told_in};

use golog_base::{List, NoMemory};
use golog_progress::State;
use golog_tree::{Agent, Prog, Way, are_same_ways, copy_prog, is_same_prog};
use golog_ways::{Keep, copy_ways};
use std::alloc::Global;

/// A run that is under way, by the body of its block and its rest, and whether it goes through.
#[derive(Drop)]
pub struct Told {
    pub body: Prog,
    pub rest: List<Way>,
    pub through: bool,
}

impl Told {
    /// What is told of a run.
    fn of(alloc: Global, body: &Prog, rest: &[Way], through: bool) -> Result<Told, NoMemory>
        ensures { IfOk result (λ told. told
            ≡ record { body = body.now; rest = rest.now; through = through }) }
    {
        let rest = copy_ways(alloc, rest)?;
        let body = copy_prog(alloc, body)?;
        Ok(Told {
            body,
            rest,
            through,
        })
    }

    /// Whether it is told of this run.
    pub fn is_of(&self, body: &Prog, rest: &[Way]) -> bool
        ensures { IsTrue result ↔ ((self.now.body ≡ body.now) × (self.now.rest ≡ rest.now)) }
    {
        is_same_prog(&self.body, body) && are_same_ways(self.rest.as_slice(), rest)
    }
}

/// Adds what is told of a run.
fn ask<K: Keep>(
    alloc: Global,
    agent: &Agent,
    body: &Prog,
    rest: &[Way],
    state: &State,
    keep: &mut K,
    told: &mut List<Told>,
) -> Result<(), NoMemory>
    requires formed { WellFormed agent.now }
    requires searched { IsSearched agent.now body.now state.now }
    requires serves { K.serves keep.old agent.now }
    requires told { AreTold agent.now state.now told.old }
    ensures told { OnOk result (AreTold agent.now state.now told.new) }
    ensures asked { OnOk result (told.new ≡ told.old ++ told_at agent.now state.now body.now rest.now) }
    ensures serves { K.serves keep.new agent.now }
{
    if rest.is_empty() {
        return Ok(());
    }
    let through = keep.still(alloc, agent, body, rest, state)?;
    let one = Told::of(alloc, body, rest, through)?;
    told.push(one)
}

/// Adds what is told of the runs that are under way in a program.
#[cycle(asking)]
fn ask_of<K: Keep>(
    alloc: Global,
    agent: &Agent,
    prog: &Prog,
    state: &State,
    keep: &mut K,
    told: &mut List<Told>,
) -> Result<(), NoMemory>
    requires formed { WellFormed agent.now }
    requires closed { IsClosed agent.now prog.now }
    requires sorts { AreInSorts agent.now state.now }
    requires serves { K.serves keep.old agent.now }
    requires told { AreTold agent.now state.now told.old }
    ensures told { OnOk result (AreTold agent.now state.now told.new) }
    ensures asked { OnOk result (told.new ≡ told.old ++ told_in agent.now state.now prog.now) }
    ensures serves { K.serves keep.new agent.now }
{
    match prog {
        Prog::Follow { body, rest, .. } => {
            ask(alloc, agent, body.get(), rest.as_slice(), state, keep, told)
        }
        Prog::Seq(one, _) => ask_of(alloc, agent, one.get(), state, keep, told),
        Prog::Conc(one, other) => {
            ask_of_both(alloc, agent, one.get(), other.get(), state, keep, told)
        }
        Prog::Prio(one, other) => {
            ask_of_both(alloc, agent, one.get(), other.get(), state, keep, told)
        }
        _ => Ok(()),
    }
}

/// The same of two programs.
#[cycle(asking)]
fn ask_of_both<K: Keep>(
    alloc: Global,
    agent: &Agent,
    one: &Prog,
    other: &Prog,
    state: &State,
    keep: &mut K,
    told: &mut List<Told>,
) -> Result<(), NoMemory>
    requires formed { WellFormed agent.now }
    requires one { IsClosed agent.now one.now }
    requires other { IsClosed agent.now other.now }
    requires sorts { AreInSorts agent.now state.now }
    requires serves { K.serves keep.old agent.now }
    requires told { AreTold agent.now state.now told.old }
    ensures told { OnOk result (AreTold agent.now state.now told.new) }
    ensures asked { OnOk result (told.new ≡ told.old ++ (told_in agent.now state.now one.now
        ++ told_in agent.now state.now other.now)) }
    ensures serves { K.serves keep.new agent.now }
{
    ask_of(alloc, agent, one, state, keep, told)?;
    ask_of(alloc, agent, other, state, keep, told)
}

/// What is told of the runs that are under way in a program, beside or before its other parts.
pub fn told_of<K: Keep>(
    alloc: Global,
    agent: &Agent,
    prog: &Prog,
    state: &State,
    keep: &mut K,
) -> Result<List<Told>, NoMemory>
    requires formed { WellFormed agent.now }
    requires closed { IsClosed agent.now prog.now }
    requires sorts { AreInSorts agent.now state.now }
    requires serves { K.serves keep.old agent.now }
    ensures told { IfOk result (AreTold agent.now state.now) }
    ensures asked { IfOk result (λ told. told ≡ told_in agent.now state.now prog.now) }
    ensures serves { K.serves keep.new agent.now }
{
    let mut told = List::new(alloc);
    match ask_of(alloc, agent, prog, state, keep, &mut told) {
        Ok(()) => Ok(told),
        Err(refused) => {
            drop(told);
            Err(refused)
        }
    }
}
