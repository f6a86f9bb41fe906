// `Reached`: the states of a level in the making, each once, found again by their hashes.
ghost use Rattle.std.specs.Prelude.{◌≡◌, [], IfOk, MatchOption, OnOk, Some, All, false, true, slice_get};
ghost use Rattle.std.specs.List.{list_any};
ghost use Rattle.std.specs.Option.{option_map_or};
ghost use Rattle.golog_ways.specs.Searched.{IsSearched};
ghost use Rattle.golog_branch.specs.Levels.{IsSpot, state_of, states_of, with_state};
ghost use Rattle.golog_branch.specs.Places.{ArePlaces, Sees, is_spot, spot_hash};
ghost use Rattle.golog_semantics.specs.WellFormed.{WellFormed};

use crate::planner::Planner;
use crate::spot::Spot;
use golog_base::{List, NoMemory};
use golog_memo::{Nodes, Places};
use golog_progress::State;
use golog_semantics::Mode;
use golog_tree::{Prog, copy_prog};
use golog_ways::is_final;
use std::alloc::Global;
use std::hash::{FoldHasher, Hasher};

/// The states of a level in the making, each once, and the places at which they stand, by their hashes. Equal programs
/// have one number.
#[derive(Drop)]
pub struct Reached {
    nodes: Nodes,
    seen: Places,
    pub spots: List<Spot>,
}

/// The hash of a program's number and values.
fn hash_of(number: u64, values: &[u8]) -> u64
    ensures { result ≡ spot_hash number values.now }
{
    let mut hasher = FoldHasher::default();
    hasher.write_u64(number);
    hasher.write(values);
    hasher.finish()
}

/// Whether the state is of this program's number and these values.
fn is_of(spot: &Spot, number: u64, state: &State) -> bool
    ensures { result ≡ is_spot number state.now spot.now }
{
    number == spot.number && state.values() == spot.state.as_slice()
}

/// Whether a state of this program's number and these values stands at a place.
fn is_at(spots: &List<Spot>, place: usize, number: u64, state: &State) -> bool
    ensures { result ≡ option_map_or (is_spot number state.now) (slice_get spots.now place) false }
{
    match spots.get(place) {
        Some(spot) => is_of(spot, number, state),
        None => false,
    }
}

impl<'a> Planner<'a> {
    /// A state, by the number of its program.
    pub fn spot(&self, left: &Prog, number: u64, state: &State) -> Result<Spot, NoMemory>
        requires agent { WellFormed self.now.agent.now }
        requires facts { self.now.facts.now ≡ self.now.agent.now }
        requires searched { IsSearched self.now.agent.now left.now state.now }
        ensures number { IfOk result (λ spot. spot.number ≡ number) }
        ensures state { IfOk result (λ spot. state_of spot ≡ (left.now, state.now)) }
        ensures so { IfOk result (IsSpot self.now.agent.now) }
    {
        let ends = is_final(self.alloc, self.agent, Mode::Must, left, state)?;
        let state = List::copy_of(self.alloc, state.values())?;
        let left = copy_prog(self.alloc, left)?;
        Ok(Spot {
            left,
            number,
            state,
            ends,
        })
    }

    /// What is known in a state.
    pub fn known_at(&self, spot: &Spot) -> Result<State, NoMemory>
        requires { IsSpot self.now.agent.now spot.now }
        ensures { IfOk result (λ state. state ≡ spot.now.state) }
    {
        State::of(self.alloc, self.agent, spot.state.as_slice())
    }
}

impl Reached {
    /// No state yet.
    pub fn new(alloc: Global) -> Result<Reached, NoMemory>
        ensures spots { IfOk result (λ reached. reached.spots ≡ []) }
        ensures places { IfOk result ArePlaces }
    {
        let nodes = Nodes::new(alloc)?;
        let seen = Places::new(alloc);
        let spots = List::new(alloc);
        Ok(Reached { nodes, seen, spots })
    }

    /// The states.
    pub fn into_spots(self) -> List<Spot>
        ensures { result ≡ self.spots }
    {
        let Reached { nodes, seen, spots } = self;
        drop(nodes);
        drop(seen);
        spots
    }

    /// A place of the state of this program's number and these values, which has this hash, where it is there.
    fn find(&self, number: u64, state: &State, hash: u64) -> Option<usize>
        requires seen { Sees self.now.seen self.now.spots }
        requires hash { hash ≡ spot_hash number state.now }
        ensures { MatchOption result (list_any (is_spot number state.now) self.now.spots ≡ false)
            (λ place. option_map_or (is_spot number state.now) (slice_get self.now.spots place) false ≡ true) }
    {
        let spots = &self.spots;
        let found = self
            .seen
            .find(hash, |place| is_at(spots, place, number, state));
        found
    }

    /// The place of a state, which is added behind the others where it is not there yet. After an `Err` the places
    /// are of no more use.
    pub fn place(
        &mut self,
        planner: &Planner,
        left: &Prog,
        state: &State,
    ) -> Result<usize, NoMemory>
        requires agent { WellFormed planner.now.agent.now }
        requires facts { planner.now.facts.now ≡ planner.now.agent.now }
        requires places { ArePlaces self.old }
        requires spots { All (IsSpot planner.now.agent.now) self.old.spots }
        requires searched { IsSearched planner.now.agent.now left.now state.now }
        ensures places { OnOk result (ArePlaces self.new) }
        ensures spots { OnOk result (All (IsSpot planner.now.agent.now) self.new.spots) }
        ensures states { OnOk result (states_of self.new.spots
            ≡ with_state (states_of self.old.spots) (left.now, state.now)) }
        ensures place { IfOk result (λ place. slice_get (states_of self.new.spots) place
            ≡ Some (left.now, state.now)) }
    {
        let number = self.nodes.number(left)?;
        let hash = hash_of(number, state.values());
        if let Some(place) = self.find(number, state, hash) {
            return Ok(place);
        }
        let place = self.spots.len();
        self.seen.add(hash, place)?;
        let spot = planner.spot(left, number, state)?;
        self.spots.push(spot)?;
        Ok(place)
    }
}
