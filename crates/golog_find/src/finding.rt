// `find` and `search_block`: the fuel of a search, and what the search comes to.
ghost use Rattle.std.specs.Prelude.{◌≡◌, ◌+◌, ◌<◌, [], ◌∷◌, IfOk, IsTrue, MatchOption, false, not, true};
ghost use Rattle.golog_semantics.specs.BlockFree.{has_block};
ghost use Rattle.golog_semantics.specs.ProgFits.{fits};
ghost use Rattle.golog_semantics.specs.InSorts.{AreInSorts};
ghost use Rattle.golog_semantics.specs.Truth.{Values};
ghost use Rattle.golog_semantics.specs.WellFormed.{WellFormed};
ghost use Rattle.golog_find.specs.Finding.{found, found_by, mode_of as mode_for};
ghost use Rattle.golog_find.specs.InWorlds.{AbsenceIsCertain, RunIsCertain};
ghost use Rattle.golog_find.specs.Levels.{AreSearched, room_for, start_of};
ghost use Rattle.golog_find.specs.Numbers.{IsNumbered, looked_of};
ghost use Rattle.golog_find.specs.Visits.{AreKept};
ghost use Rattle.golog_ways.specs.Searched.{IsSearched};

use crate::found::Found;
use crate::search::Search;
use golog_base::NoMemory;
use golog_progress::State;
use golog_semantics::{Block, Mode};
use golog_tree::Agent;
use golog_ways::{Expand, Plain};
use std::alloc::Global;

/// The mode in which runs are looked for: `Must` where they are to be certain, else `Near`.
fn mode_of(certain: bool) -> Mode
    ensures { result ≡ mode_for certain }
{
    if certain { Mode::Must } else { Mode::Near }
}

/// What is left of the fuel when so many states are looked at, and `None` where it does not suffice. A search
/// without bounds keeps all of it.
fn spent(bounded: bool, fuel: usize, count: usize) -> Option<usize>
    ensures { MatchOption result ((bounded ≡ true) × (fuel < count))
        (λ rest. bounded ≡ true → rest + count ≡ fuel) }
{
    if !bounded {
        Some(fuel)
    } else if count <= fuel {
        Some(fuel - count)
    } else {
        None
    }
}

/// For how many states of a level there is room: as many as fuel is left, or any number in a search without
/// bounds.
fn room_of(bounded: bool, fuel: usize) -> Option<usize>
    ensures { result ≡ room_for bounded fuel }
{
    if bounded { Some(fuel) } else { None }
}

/// What a search comes to that stands where it begins, for runs in the mode.
fn search_on<X: Expand>(
    alloc: Global,
    agent: &Agent,
    block: &Block,
    search: &mut Search,
    mode: Mode,
    bounded: bool,
    expand: &X,
) -> Result<Found, NoMemory>
    requires agent { WellFormed agent.now }
    requires numbers { IsNumbered search.old }
    requires kept { AreKept agent.now search.old.nodes search.old.visits }
    requires searched { AreSearched agent.now (looked_of search.old).last }
    ensures { (values : Values) → IsSearched agent.now block.now.body values
        → looked_of search.old ≡ record { before = []; last = start_of block.now.body values ∷ []; cut = false }
        → IfOk result (λ f. f ≡ found_by bounded agent.now values mode block.now) }
{
    let mut fuel = block.fuel as usize;
    for _step in 0..block.depth {
        let Some(rest) = spent(bounded, fuel, search.width()) else {
            return Ok(Found::Fuel);
        };
        fuel = rest;
        search.deepen(alloc, agent, mode, room_of(bounded, fuel), expand)?;
        if let Some(place) = search.first_end(alloc, agent, mode)? {
            let run = search.run_to(alloc, place)?;
            return Ok(Found::Run(run));
        }
    }
    Ok(Found::Absent {
        cut: search.is_cut(),
    })
}

/// The search of a block in a state, for runs in the mode. Where it is bounded, it looks at no more states
/// than the block's fuel, and stores of the next level no more than what is left of that, one state and an end.
/// Who lists the steps of its states and asks their conditions is told.
pub fn search_block_with<X: Expand>(
    alloc: Global,
    agent: &Agent,
    block: &Block,
    state: &State,
    mode: Mode,
    bounded: bool,
    expand: &X,
) -> Result<Found, NoMemory>
    requires agent { WellFormed agent.now }
    requires searched { IsSearched agent.now block.now.body state.now }
    ensures { IfOk result (λ f. f ≡ found_by bounded agent.now state.now mode block.now) }
{
    let mut search = Search::new(alloc, &block.body, state)?;
    let found = search_on(alloc, agent, block, &mut search, mode, bounded, expand);
    drop(search);
    found
}

/// The search of a block in a state, for runs in the mode. Where it is bounded, it looks at no more states
/// than the block's fuel, and stores of the next level no more than what is left of that, one state and an end.
pub fn search_block(
    alloc: Global,
    agent: &Agent,
    block: &Block,
    state: &State,
    mode: Mode,
    bounded: bool,
) -> Result<Found, NoMemory>
    requires agent { WellFormed agent.now }
    requires searched { IsSearched agent.now block.now.body state.now }
    ensures { IfOk result (λ f. f ≡ found_by bounded agent.now state.now mode block.now) }
{
    search_block_with(alloc, agent, block, state, mode, bounded, &Plain::new())
}

/// What `find` tells. Whoever expands lists the steps of many states at once and asks their conditions; the answer
/// names it nowhere.
pub fn find_with<X: Expand>(
    alloc: Global,
    agent: &Agent,
    block: &Block,
    state: &State,
    certain: bool,
    expand: &X,
) -> Result<Found, NoMemory>
    requires agent { WellFormed agent.now }
    requires program { IsTrue (fits agent.now block.now.body) }
    requires blockless { IsTrue (not (has_block agent.now block.now.body)) }
    requires sorts { AreInSorts agent.now state.now }
    ensures found { IfOk result (λ f. f ≡ found agent.now state.now (mode_for certain) block.now) }
    ensures so { IfOk result (RunIsCertain agent.now state.now block.now.body certain) }
    ensures none { IfOk result (AbsenceIsCertain agent.now state.now block.now.body certain) }
{
    search_block_with(alloc, agent, block, state, mode_of(certain), true, expand)
}

/// The search of a block in a state, for a run that is certain, or else for one that there may be were more
/// known. A run has at least one step and at most as many as the depth, and leads to where the program may
/// end.
///
/// `Fuel` comes exactly where the search would look at more states than the fuel: at the distinct states of
/// each number of steps below the least length of a run, or below the depth where there is no run. Else `Run`
/// is the first run of least length, and where there is none `Absent` tells whether something stayed unseen.
/// `NoMemory` comes where none is left for the states.
///
/// In each world in which all is so that is known, as many steps as a certain run has lead to an end; and where
/// not even an uncertain run is there and nothing stayed unseen, no number of steps but none does.
pub fn find(
    alloc: Global,
    agent: &Agent,
    block: &Block,
    state: &State,
    certain: bool,
) -> Result<Found, NoMemory>
    requires agent { WellFormed agent.now }
    requires program { IsTrue (fits agent.now block.now.body) }
    requires blockless { IsTrue (not (has_block agent.now block.now.body)) }
    requires sorts { AreInSorts agent.now state.now }
    ensures found { IfOk result (λ f. f ≡ found agent.now state.now (mode_for certain) block.now) }
    ensures so { IfOk result (RunIsCertain agent.now state.now block.now.body certain) }
    ensures none { IfOk result (AbsenceIsCertain agent.now state.now block.now.body certain) }
{
    find_with(alloc, agent, block, state, certain, &Plain::new())
}
