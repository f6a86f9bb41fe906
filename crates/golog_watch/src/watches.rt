// `Watches`, the watches of the runs that were asked for last, at most 16, the one used last
// standing last: a `Keep`.
ghost use Rattle.std.specs.Prelude.{◌≡◌, ◌<◌, [], ◌∷◌, ◌++◌, IfOk, IsTrue, OnErr, OnOk, length, not};
ghost use Rattle.std.specs.List.{position};
ghost use Rattle.golog_tree.specs.declared.agent.Agent.{Agent as AnyAgent};
ghost use Rattle.golog_semantics.specs.BlockFree.{has_block};
ghost use Rattle.golog_semantics.specs.Blocks.{goes_through as leads_to_final};
ghost use Rattle.golog_semantics.specs.ProgFits.{fits};
ghost use Rattle.golog_semantics.specs.WellFormed.{WellFormed};
ghost use Rattle.golog_ways.specs.Searched.{IsSearched};
ghost use Rattle.golog_watch.specs.Watched.{AreWatches, IsRecalled, LastKeeps, StayThere, UsedLast, keeps, with_room};

use crate::watch::Watch;
use golog_base::NoMemory;
use golog_progress::State;
use golog_tree::{Agent, Prog, Way};
use golog_ways::{Keep, goes_through};
use std::alloc::Global;

/// The most watches that are kept.
const MOST: usize = 16;

/// The watches of the runs that were asked for last, at most 16, the one that was used last standing last.
#[derive(Drop)]
pub struct Watches {
    watches: Vec<Watch>,
}

/// The place of the first watch that keeps the run.
fn place_of(watches: &[Watch], body: &Prog, rest: &[Way]) -> Option<usize>
    ensures { result ≡ position (keeps body.now rest.now) watches.now }
{
    watches.iter().position(|watch| watch.keeps(body, rest))
}

impl Watches {
    /// No watch yet, of any agent.
    pub fn new(alloc: Global) -> Result<Watches, NoMemory>
        ensures { IfOk result (λ ws. (agent : AnyAgent) → AreWatches agent ws) }
    {
        let watches = Vec::with_capacity(alloc, MOST)?;
        Ok(Watches { watches })
    }

    /// Puts the watch at the place behind the others.
    fn use_again(&mut self, place: usize)
        requires { place < length self.old.watches.items }
        ensures { UsedLast self.old.watches.items place self.new.watches.items }
    {
        self.watches[place..].rotate_left(1);
    }

    /// Drops the first watch where there are 16.
    fn make_room(&mut self)
        ensures { self.new.watches.items ≡ with_room self.old.watches.items }
    {
        if self.watches.len() == MOST {
            drop(self.watches.remove(0));
        }
    }

    /// Puts a watch behind the others, the first of which goes where there are 16. Where memory is wanting the
    /// others stay.
    fn add(&mut self, watch: Watch) -> Result<(), NoMemory>
        ensures added { OnOk result (self.new.watches.items
            ≡ with_room self.old.watches.items ++ watch ∷ []) }
        ensures others { OnErr result (self.new.watches.items ≡ with_room self.old.watches.items) }
    {
        self.make_room();
        self.watches.push(watch)?;
        Ok(())
    }

    /// Puts the watch of a run last, and makes it where there is none. The others stay, but for the first where there
    /// are 16 and one is made.
    fn recall(
        &mut self,
        alloc: Global,
        agent: &Agent,
        body: &Prog,
        rest: &[Way],
    ) -> Result<(), NoMemory>
        requires formed { WellFormed agent.now }
        requires program { IsTrue (fits agent.now body.now) }
        requires blockless { IsTrue (not (has_block agent.now body.now)) }
        requires watches { AreWatches agent.now self.old }
        ensures watches { AreWatches agent.now self.new }
        ensures last { OnOk result (LastKeeps body.now rest.now self.new.watches.items) }
        ensures recalled { OnOk result (IsRecalled body.now rest.now self.old.watches.items self.new.watches.items) }
        ensures others { OnErr result (StayThere self.old.watches.items self.new.watches.items) }
    {
        match place_of(&self.watches, body, rest) {
            Some(place) => {
                self.use_again(place);
                Ok(())
            }
            None => {
                let watch = Watch::of(alloc, agent, body, rest)?;
                self.add(watch)
            }
        }
    }

    /// Whether the run goes through, told by the last watch, which keeps the run.
    fn tell(
        &self,
        alloc: Global,
        agent: &Agent,
        body: &Prog,
        rest: &[Way],
        state: &State,
    ) -> Result<bool, NoMemory>
        requires formed { WellFormed agent.now }
        requires searched { IsSearched agent.now body.now state.now }
        requires watches { AreWatches agent.now self.now }
        requires last { LastKeeps body.now rest.now self.now.watches.items }
        ensures { IfOk result (λ b. b ≡ leads_to_final agent.now body.now rest.now state.now) }
    {
        match self.watches.last() {
            Some(watch) => watch.still_left(alloc, agent, body, rest, state),
            None => goes_through(alloc, agent, body, rest, state),
        }
    }
}

impl Keep for Watches {
    ghost use Rattle.golog_watch.specs.Watched.{AreWatches};

    ghost serves = { λ watches agent. AreWatches agent watches };

    fn still(
        &mut self,
        alloc: Global,
        agent: &Agent,
        body: &Prog,
        rest: &[Way],
        state: &State,
    ) -> Result<bool, NoMemory> {
        self.recall(alloc, agent, body, rest)?;
        self.tell(alloc, agent, body, rest, state)
    }
}
