// Where the steps of a level's states lead among the states of the next.
ghost use Rattle.std.specs.Prelude.{◌≡◌, ◌<◌, [], ◌∷◌, ◌++◌, All, IfOk, List, MatchOption, OnOk, filter, fold, length, map};
ghost use Rattle.std.specs.List.{flat_map};
ghost use Rattle.golog_tree.specs.declared.prog.Way.{Way as AnyWay};
ghost use Rattle.golog_semantics.specs.InSorts.{AreInSorts};
ghost use Rattle.golog_semantics.specs.Search.{is_followed};
ghost use Rattle.golog_ways.specs.Searched.{IsSearched};
ghost use Rattle.golog_branch.specs.declared.cases.Case.{Case as AnyCase};
ghost use Rattle.golog_branch.specs.Levels.{IsLinked, IsNextLevel, IsSpot, IsWay, case_of, jumped, led, linked, state_of, states_of, way_led, with_state};
ghost use Rattle.golog_branch.specs.Places.{ArePlaces};
ghost use Rattle.golog_branch.specs.Plans.{followed, next_states, way_states};
ghost use Rattle.golog_semantics.specs.WellFormed.{WellFormed};

use crate::cases::Case;
use crate::last::NEST_LIMIT;
use crate::places::Reached;
use crate::planner::Planner;
use crate::spot::{Jump, Link, Linked, Spot};
use golog_base::{List, NoMemory};
use golog_progress::State;
use golog_semantics::Mode;
use golog_tree::{Prog, Way, nest};
use golog_ways::{copy_way, ways_of};

impl<'a> Planner<'a> {
    /// Where these cases lead, among the states of the next level, to which new ones are added.
    fn jumps(&self, next: &mut Reached, left: &Prog, cases: &[Case]) -> Result<List<Jump>, NoMemory>
        requires agent { WellFormed self.now.agent.now }
        requires facts { self.now.facts.now ≡ self.now.agent.now }
        requires cases { All (λ (c : AnyCase). IsSearched self.now.agent.now left.now c.state) cases.now }
        requires places { ArePlaces next.old }
        requires spots { All (IsSpot self.now.agent.now) next.old.spots }
        ensures places { OnOk result (ArePlaces next.new) }
        ensures spots { OnOk result (All (IsSpot self.now.agent.now) next.new.spots) }
        ensures states { OnOk result (states_of next.new.spots
            ≡ fold with_state (states_of next.old.spots) (map (λ (c : AnyCase). (left.now, c.state)) cases.now)) }
        ensures jumps { IfOk result (λ jumps. map (jumped (states_of next.new.spots)) jumps
            ≡ map (λ (c : AnyCase). led left.now (case_of c)) cases.now) }
    {
        let mut jumps = List::new(self.alloc);
        for case in cases {
            let place = next.place(self, left, &case.state)?;
            let value = case.value;
            jumps.push(Jump { value, place })?;
        }
        Ok(jumps)
    }

    /// A step, and where its cases lead.
    fn link(&self, next: &mut Reached, state: &State, way: &Way) -> Result<Link, NoMemory>
        requires agent { WellFormed self.now.agent.now }
        requires facts { self.now.facts.now ≡ self.now.agent.now }
        requires sorts { AreInSorts self.now.agent.now state.now }
        requires way { IsWay self.now.agent.now way.now }
        requires places { ArePlaces next.old }
        requires spots { All (IsSpot self.now.agent.now) next.old.spots }
        ensures places { OnOk result (ArePlaces next.new) }
        ensures spots { OnOk result (All (IsSpot self.now.agent.now) next.new.spots) }
        ensures states { OnOk result (states_of next.new.spots
            ≡ fold with_state (states_of next.old.spots) (way_states self.now.agent.now state.now way.now)) }
        ensures link { IfOk result (λ link. linked (states_of next.new.spots) link
            ≡ way_led self.now.agent.now state.now way.now) }
    {
        let cases = self.cases(state, way.label)?;
        let jumps = self.jumps(next, &way.left, cases.as_slice());
        drop(cases);
        let jumps = jumps?;
        let way = copy_way(self.alloc, way)?;
        Ok(Link { way, next: jumps })
    }

    /// Adds a step, where it may be followed.
    fn add_link(
        &self,
        links: &mut List<Link>,
        next: &mut Reached,
        state: &State,
        way: &Way,
    ) -> Result<(), NoMemory>
        requires agent { WellFormed self.now.agent.now }
        requires facts { self.now.facts.now ≡ self.now.agent.now }
        requires sorts { AreInSorts self.now.agent.now state.now }
        requires way { IsWay self.now.agent.now way.now }
        requires places { ArePlaces next.old }
        requires spots { All (IsSpot self.now.agent.now) next.old.spots }
        ensures places { OnOk result (ArePlaces next.new) }
        ensures spots { OnOk result (All (IsSpot self.now.agent.now) next.new.spots) }
        ensures states { OnOk result (states_of next.new.spots
            ≡ fold with_state (states_of next.old.spots)
            (flat_map (way_states self.now.agent.now state.now) (filter is_followed (way.now ∷ [])))) }
        ensures links { OnOk result ((ways : List AnyWay)
            → map (linked (states_of next.old.spots)) links.old ≡ map (way_led self.now.agent.now state.now) ways
            → map (linked (states_of next.new.spots)) links.new
            ≡ map (way_led self.now.agent.now state.now) (ways ++ filter is_followed (way.now ∷ []))) }
    {
        if nest(&way.left) > NEST_LIMIT {
            return Ok(());
        }
        let link = self.link(next, state, way)?;
        links.push(link)?;
        Ok(())
    }

    /// Those of these steps that may be followed, and where their cases lead.
    fn links_of(
        &self,
        next: &mut Reached,
        state: &State,
        ways: &[Way],
    ) -> Result<List<Link>, NoMemory>
        requires agent { WellFormed self.now.agent.now }
        requires facts { self.now.facts.now ≡ self.now.agent.now }
        requires sorts { AreInSorts self.now.agent.now state.now }
        requires ways { All (IsWay self.now.agent.now) ways.now }
        requires places { ArePlaces next.old }
        requires spots { All (IsSpot self.now.agent.now) next.old.spots }
        ensures places { OnOk result (ArePlaces next.new) }
        ensures spots { OnOk result (All (IsSpot self.now.agent.now) next.new.spots) }
        ensures states { OnOk result (states_of next.new.spots
            ≡ fold with_state (states_of next.old.spots)
            (flat_map (way_states self.now.agent.now state.now) (filter is_followed ways.now))) }
        ensures links { IfOk result (λ links. map (linked (states_of next.new.spots)) links
            ≡ map (way_led self.now.agent.now state.now) (filter is_followed ways.now)) }
    {
        let mut links = List::new(self.alloc);
        for way in ways {
            self.add_link(&mut links, next, state, way)?;
        }
        Ok(links)
    }

    /// The steps of a program that may be followed, and where their cases lead.
    fn links_from(
        &self,
        next: &mut Reached,
        left: &Prog,
        state: &State,
    ) -> Result<List<Link>, NoMemory>
        requires agent { WellFormed self.now.agent.now }
        requires facts { self.now.facts.now ≡ self.now.agent.now }
        requires searched { IsSearched self.now.agent.now left.now state.now }
        requires places { ArePlaces next.old }
        requires spots { All (IsSpot self.now.agent.now) next.old.spots }
        ensures places { OnOk result (ArePlaces next.new) }
        ensures spots { OnOk result (All (IsSpot self.now.agent.now) next.new.spots) }
        ensures states { OnOk result (states_of next.new.spots
            ≡ fold with_state (states_of next.old.spots) (next_states self.now.agent.now (left.now, state.now))) }
        ensures links { IfOk result (λ links. map (linked (states_of next.new.spots)) links
            ≡ map (way_led self.now.agent.now state.now) (followed self.now.agent.now left.now state.now)) }
    {
        let ways = ways_of(self.alloc, self.agent, Mode::Must, left, state)?;
        let links = self.links_of(next, state, ways.as_slice());
        drop(ways);
        links
    }

    /// What is kept of a state, whose steps lead to those of the next level.
    fn linked(&self, next: &mut Reached, spot: &Spot) -> Result<Linked, NoMemory>
        requires agent { WellFormed self.now.agent.now }
        requires facts { self.now.facts.now ≡ self.now.agent.now }
        requires spot { IsSpot self.now.agent.now spot.now }
        requires places { ArePlaces next.old }
        requires spots { All (IsSpot self.now.agent.now) next.old.spots }
        ensures places { OnOk result (ArePlaces next.new) }
        ensures spots { OnOk result (All (IsSpot self.now.agent.now) next.new.spots) }
        ensures states { OnOk result (states_of next.new.spots
            ≡ fold with_state (states_of next.old.spots) (next_states self.now.agent.now (state_of spot.now))) }
        ensures linked { IfOk result (IsLinked self.now.agent.now (states_of next.new.spots) (state_of spot.now)) }
    {
        let state = self.known_at(spot)?;
        let links = self.links_from(next, &spot.left, &state);
        drop(state);
        let links = links?;
        let ends = spot.ends;
        Ok(Linked { ends, links })
    }

    /// What is kept of the states of a level, whose steps lead to those of the next; `None` exactly where the next
    /// level has more states than there is room for.
    pub fn linked_level(
        &self,
        next: &mut Reached,
        spots: &[Spot],
        room: usize,
    ) -> Result<Option<List<Linked>>, NoMemory>
        requires agent { WellFormed self.now.agent.now }
        requires facts { self.now.facts.now ≡ self.now.agent.now }
        requires level { All (IsSpot self.now.agent.now) spots.now }
        requires places { ArePlaces next.old }
        requires empty { next.old.spots ≡ [] }
        ensures { IfOk result (λ level. MatchOption level
            (room < length (fold with_state [] (flat_map (next_states self.now.agent.now) (states_of spots.now))))
            (λ level. IsNextLevel self.now.agent.now (states_of spots.now) room level next.new.spots)) }
    {
        let mut level = List::new(self.alloc);
        for spot in spots {
            let linked = self.linked(next, spot)?;
            level.push(linked)?;
            if next.spots.len() > room {
                return Ok(None);
            }
        }
        Ok(Some(level))
    }
}
