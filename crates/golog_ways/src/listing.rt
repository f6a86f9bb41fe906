// `ways_of`: the steps of a program in a state and a mode, from its fronts.
ghost use Rattle.std.specs.Prelude.{◌≡◌, ◌∷◌, ◌++◌, [], IfOk, IsTrue, OnOk};
ghost use Rattle.golog_semantics.specs.Fits.{cond_fits, nothing_bound};
ghost use Rattle.golog_semantics.specs.Fronts.{open_ways as ways_opened};
ghost use Rattle.golog_semantics.specs.Search.{plain_ways};
ghost use Rattle.golog_semantics.specs.InSorts.{AreInSorts};
ghost use Rattle.golog_semantics.specs.Ways.{is_so};
ghost use Rattle.golog_semantics.specs.WellFormed.{WellFormed};
ghost use Rattle.golog_fronts.specs.FrontLists.{are_closed, guarded, guarded_of};
ghost use Rattle.golog_ways.specs.Searched.{IsSearched};

use crate::modes::holds;
use golog_base::{List, NoMemory};
use golog_fronts::{Front, fronts};
use golog_known::{Env, value};
use golog_progress::State;
use golog_semantics::Mode;
use golog_tree::{Agent, Prog, Way};
use std::alloc::Global;

/// Whether a step may be taken in the mode.
fn is_open(agent: &Agent, mode: Mode, front: &Front, state: &State) -> bool
    requires agent { WellFormed agent.now }
    requires closed { IsTrue (cond_fits agent.now front.now.cond nothing_bound) }
    requires sorts { AreInSorts agent.now state.now }
    ensures { result ≡ is_so agent.now state.now mode front.now.cond }
{
    holds(mode, value(agent, &front.cond, &Env::new(), state.values()))
}

/// The step, without its condition.
fn way_of(front: Front) -> Way
    ensures { result ≡ (guarded_of front).way }
{
    let Front { cond, label, left } = front;
    drop(cond);
    Way { label, left }
}

/// Adds the step, without its condition, where it may be taken in the mode.
fn add_open(
    ways: &mut List<Way>,
    agent: &Agent,
    mode: Mode,
    front: Front,
    state: &State,
) -> Result<(), NoMemory>
    requires agent { WellFormed agent.now }
    requires closed { IsTrue (cond_fits agent.now front.cond nothing_bound) }
    requires sorts { AreInSorts agent.now state.now }
    ensures { OnOk result (ways.new ≡ ways.old ++ ways_opened agent.now state.now mode (guarded_of front ∷ [])) }
{
    if is_open(agent, mode, &front, state) {
        ways.push(way_of(front))
    } else {
        drop(front);
        Ok(())
    }
}

/// The steps that may be taken in the mode, in order.
fn open_ways(
    alloc: Global,
    agent: &Agent,
    mode: Mode,
    fronts: List<Front>,
    state: &State,
) -> Result<List<Way>, NoMemory>
    requires agent { WellFormed agent.now }
    requires closed { IsTrue (are_closed agent.now fronts) }
    requires sorts { AreInSorts agent.now state.now }
    ensures { IfOk result (λ ways. ways ≡ ways_opened agent.now state.now mode (guarded fronts)) }
{
    let mut ways = List::new(alloc);
    for front in fronts.into_vec() {
        add_open(&mut ways, agent, mode, front, state)?;
    }
    Ok(ways)
}

/// The steps of a program in the mode, in order.
pub fn ways_of(
    alloc: Global,
    agent: &Agent,
    mode: Mode,
    prog: &Prog,
    state: &State,
) -> Result<List<Way>, NoMemory>
    requires agent { WellFormed agent.now }
    requires searched { IsSearched agent.now prog.now state.now }
    ensures { IfOk result (λ ways. ways ≡ plain_ways agent.now state.now mode prog.now) }
{
    let fronts = fronts(alloc, agent, prog)?;
    open_ways(alloc, agent, mode, fronts, state)
}
