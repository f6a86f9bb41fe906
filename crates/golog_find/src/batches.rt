// How a search looks one step further: it visits the programs of its last level, and takes its states
// in batches, of each of which it is told first what steps there are, and then adds where they lead.
ghost use Rattle.std.specs.Prelude.{◌≡◌, ◌+◌, ◌-◌, ◌^◌, ◌<◌, ◌≤◌, ◌++◌, ◌∷◌, [], All, IfOk, OnOk, drop, fold, if◌then◌else◌, is_none, length, map, take};
ghost use Rattle.golog_memo.specs.Numbered.{AreOnce};
ghost use Rattle.golog_semantics.specs.InSorts.{AreInSorts};
ghost use Rattle.golog_semantics.specs.WellFormed.{WellFormed};
ghost use Rattle.golog_ways.specs.Open.{AreChecked, open_places};
ghost use Rattle.golog_find.specs.Batches.{IsSource, IsToldOf, handed, node_at, places_at, reached_of, source_meant, ways_at};
ghost use Rattle.golog_find.specs.Levels.{AreSearched, stored_level, stored_steps, with_stored};
ghost use Rattle.golog_find.specs.Numbers.{GoesOn, HaveNumbers, IsLevel, all_meant, level_of};
ghost use Rattle.golog_find.specs.Visits.{AreEffects, AreKept};

use crate::deepening::Deepening;
use crate::effects::Effects;
use crate::level::Level;
use crate::sources::{Source, Told, Turn, asked_of, list_at, lists_of, source_at};
use crate::states::States;
use crate::visits::Visits;
use golog_base::{List, NoMemory};
use golog_memo::Nodes;
use golog_progress::State;
use golog_tree::{Way, copy_prog};
use golog_ways::{Asked, Expand, Node};

/// So many states at most are in a batch.
const BATCH: usize = 4_096;

/// How many of so many states are in the next batch.
fn batch_of(left: usize) -> usize
    requires { 0 < left }
    ensures some { 0 < result }
    ensures inside { result ≤ left }
{
    if left < BATCH { left } else { BATCH }
}

impl<'a> Deepening<'a> {
    /// The states at the places from `from` up to `end`, and what is kept of their programs.
    fn sources<'v>(
        &self,
        nodes: &Nodes,
        visits: &'v Visits,
        states: &'v States,
        from: usize,
        end: usize,
    ) -> Result<List<Source<'v>>, NoMemory>
        requires ordered { from ≤ end }
        requires inside { end ≤ length states.now }
        requires numbers { HaveNumbers nodes.now states.now }
        requires kept { AreKept self.now.agent.now nodes.now visits.now }
        requires searched { AreSearched self.now.agent.now (all_meant nodes.now states.now) }
        ensures states { IfOk result (λ sources. map reached_of sources ≡ take (end - from) (drop from states.now)) }
        ensures sources { IfOk result (All (IsSource self.now.agent.now nodes.now)) }
    {
        // What the programs of the numbers are matters to the contract alone.
        let _ = nodes;
        let mut sources = List::new(self.alloc);
        for place in from..end {
            let reached = states.at(place);
            let opened = visits.of(reached.left);
            sources.push(Source { reached, opened })?;
        }
        Ok(sources)
    }

    /// The program of a state and its values, in memory of their own.
    fn node_of(&self, nodes: &Nodes, source: &Source<'_>) -> Result<Node, NoMemory>
        requires { IsSource self.now.agent.now nodes.now source.now }
        ensures { IfOk result (λ node. node ≡ node_at nodes.now source.now) }
    {
        let state = State::of(self.alloc, self.agent, source.reached.values)?;
        match copy_prog(self.alloc, nodes.prog(source.reached.left)) {
            Ok(left) => Ok(Node { left, state }),
            Err(refused) => {
                drop(state);
                Err(refused)
            }
        }
    }

    /// Adds that, where nothing is kept of the program.
    fn add_node(
        &self,
        list: &mut List<Node>,
        nodes: &Nodes,
        source: &Source<'_>,
    ) -> Result<(), NoMemory>
        requires { IsSource self.now.agent.now nodes.now source.now }
        ensures { OnOk result (list.new ≡ list.old
            ++ (if is_none source.now.opened then node_at nodes.now source.now ∷ [] else [])) }
    {
        if source.opened.is_none() {
            let node = self.node_of(nodes, source)?;
            list.push(node)
        } else {
            Ok(())
        }
    }

    /// The programs and the values of those states of whose programs nothing is kept.
    fn nodes_of(&self, nodes: &Nodes, sources: &[Source<'_>]) -> Result<List<Node>, NoMemory>
        requires { All (IsSource self.now.agent.now nodes.now) sources.now }
        ensures { IfOk result (λ list. list ≡ map (node_at nodes.now) (handed sources.now)) }
    {
        let mut list = List::new(self.alloc);
        for at in 0..sources.len() {
            self.add_node(&mut list, nodes, source_at(sources, at))?;
        }
        Ok(list)
    }

    /// The steps of those states of whose programs nothing is kept.
    fn listed<X: Expand>(
        &self,
        nodes: &Nodes,
        sources: &[Source<'_>],
        expand: &X,
    ) -> Result<List<List<Way>>, NoMemory>
        requires agent { WellFormed self.now.agent.now }
        requires sources { All (IsSource self.now.agent.now nodes.now) sources.now }
        ensures { IfOk result (λ all. all
            ≡ map (ways_at self.now.agent.now self.now.mode nodes.now) (handed sources.now)) }
    {
        let handed = self.nodes_of(nodes, sources)?;
        let listed = expand.ways(self.alloc, self.agent, self.mode, handed.as_slice());
        drop(handed);
        listed
    }

    /// What is asked of these states.
    fn questions<'v>(
        &self,
        nodes: &Nodes,
        sources: &[Source<'v>],
    ) -> Result<List<Asked<'v>>, NoMemory>
        requires { All (IsSource self.now.agent.now nodes.now) sources.now }
        ensures checked { IfOk result (λ asked. All (λ a. AreChecked self.now.agent.now a.fronts.now) asked) }
        ensures sorts { IfOk result (λ asked. All (λ a. AreInSorts self.now.agent.now a.values.now) asked) }
        ensures places { IfOk result (λ asked. map (λ a. open_places self.now.agent.now a.values.now self.now.mode
            (map (λ f. f.cond) a.fronts.now)) asked ≡ map (places_at self.now.agent.now self.now.mode) sources.now) }
    {
        // What the programs of the numbers are matters to the contract alone.
        let _ = nodes;
        let mut asked = List::new(self.alloc);
        for at in 0..sources.len() {
            let source = source_at(sources, at);
            asked.push(asked_of(source))?;
        }
        Ok(asked)
    }

    /// For each of these states the places of the kept steps that may be taken.
    fn ask<X: Expand>(
        &self,
        nodes: &Nodes,
        sources: &[Source<'_>],
        expand: &X,
    ) -> Result<List<List<usize>>, NoMemory>
        requires agent { WellFormed self.now.agent.now }
        requires sources { All (IsSource self.now.agent.now nodes.now) sources.now }
        ensures { IfOk result (λ all. all ≡ map (places_at self.now.agent.now self.now.mode) sources.now) }
    {
        let asked = self.questions(nodes, sources)?;
        let places = expand.open(self.alloc, self.agent, self.mode, asked.as_slice());
        drop(asked);
        places
    }

    /// What is told of these states: the steps of those of whose programs nothing is kept, and of the others which kept
    /// steps may be taken.
    fn tell<X: Expand>(
        &self,
        nodes: &Nodes,
        sources: &[Source<'_>],
        expand: &X,
    ) -> Result<Told, NoMemory>
        requires agent { WellFormed self.now.agent.now }
        requires sources { All (IsSource self.now.agent.now nodes.now) sources.now }
        ensures listed { IfOk result (λ told. told.listed
            ≡ map (ways_at self.now.agent.now self.now.mode nodes.now) (handed sources.now)) }
        ensures places { IfOk result (λ told. told.places
            ≡ map (places_at self.now.agent.now self.now.mode) sources.now) }
    {
        let listed = self.listed(nodes, sources, expand)?;
        match self.ask(nodes, sources, expand) {
            Ok(places) => Ok(Told { listed, places }),
            Err(refused) => {
                drop(listed);
                Err(refused)
            }
        }
    }

    /// Adds the states that one step leads to from this one, of which was told.
    fn add_steps(
        &self,
        level: &mut Level,
        nodes: &mut Nodes,
        effects: &Effects,
        source: &Source<'_>,
        told: &Told,
        turn: Turn,
    ) -> Result<(), NoMemory>
        requires agent { WellFormed self.now.agent.now }
        requires source { IsSource self.now.agent.now nodes.old source.now }
        requires effects { AreEffects self.now.agent.now effects.now }
        requires told { IsToldOf self.now.agent.now self.now.mode nodes.old source.now told.now turn }
        requires level { IsLevel self.now.agent.now nodes.old level.old }
        ensures level { OnOk result (IsLevel self.now.agent.now nodes.new level.new) }
        ensures goes_on { OnOk result (GoesOn nodes.old nodes.new) }
        ensures means { OnOk result (level_of nodes.new level.new
            ≡ fold (with_stored self.now.agent.now self.now.mode self.now.room turn.place source.now.reached.values.now)
            (level_of nodes.old level.old)
            (ways_at self.now.agent.now self.now.mode nodes.old source.now)) }
    {
        match source.opened {
            Some(opened) => {
                let places = list_at(&told.places, turn.at);
                self.add_fronts(
                    level,
                    nodes,
                    effects,
                    turn.place,
                    source.reached.values,
                    opened,
                    places,
                )
            }
            None => {
                let ways = list_at(&told.listed, turn.used);
                self.add_ways(level, nodes, turn.place, source, ways)
            }
        }
    }

    /// Adds the states that one step leads to from these, of which was told, and the first of which stands at the place
    /// `from`.
    fn merge(
        &self,
        level: &mut Level,
        nodes: &mut Nodes,
        effects: &Effects,
        from: usize,
        sources: &[Source<'_>],
        told: &Told,
    ) -> Result<(), NoMemory>
        requires agent { WellFormed self.now.agent.now }
        requires room { from + length sources.now < 2 ^ 64 }
        requires sources { All (IsSource self.now.agent.now nodes.old) sources.now }
        requires effects { AreEffects self.now.agent.now effects.now }
        requires listed { told.now.listed
            ≡ map (ways_at self.now.agent.now self.now.mode nodes.old) (handed sources.now) }
        requires places { told.now.places ≡ map (places_at self.now.agent.now self.now.mode) sources.now }
        requires level { IsLevel self.now.agent.now nodes.old level.old }
        ensures level { OnOk result (IsLevel self.now.agent.now nodes.new level.new) }
        ensures goes_on { OnOk result (GoesOn nodes.old nodes.new) }
        ensures means { OnOk result (level_of nodes.new level.new
            ≡ stored_steps self.now.agent.now self.now.mode self.now.room from (level_of nodes.old level.old)
            (map (source_meant nodes.old) sources.now)) }
    {
        let mut used = 0;
        for at in 0..sources.len() {
            let source = source_at(sources, at);
            let place = from + at;
            let turn = Turn { place, at, used };
            self.add_steps(level, nodes, effects, source, told, turn)?;
            used += lists_of(source);
        }
        Ok(())
    }

    /// Adds the states that one step leads to from these, the first of which stands at the place `from`.
    fn add_sources<X: Expand>(
        &self,
        level: &mut Level,
        nodes: &mut Nodes,
        effects: &Effects,
        from: usize,
        sources: &[Source<'_>],
        expand: &X,
    ) -> Result<(), NoMemory>
        requires agent { WellFormed self.now.agent.now }
        requires room { from + length sources.now < 2 ^ 64 }
        requires sources { All (IsSource self.now.agent.now nodes.old) sources.now }
        requires effects { AreEffects self.now.agent.now effects.now }
        requires level { IsLevel self.now.agent.now nodes.old level.old }
        ensures level { OnOk result (IsLevel self.now.agent.now nodes.new level.new) }
        ensures goes_on { OnOk result (GoesOn nodes.old nodes.new) }
        ensures means { OnOk result (level_of nodes.new level.new
            ≡ stored_steps self.now.agent.now self.now.mode self.now.room from (level_of nodes.old level.old)
            (map (source_meant nodes.old) sources.now)) }
    {
        let told = self.tell(nodes, sources, expand)?;
        let merged = self.merge(level, nodes, effects, from, sources, &told);
        drop(told);
        merged
    }

    /// Adds the states that one step leads to from those at the places from `from` up to `end`.
    fn add_batch<X: Expand>(
        &self,
        level: &mut Level,
        nodes: &mut Nodes,
        visits: &Visits,
        states: &States,
        from: usize,
        end: usize,
        expand: &X,
    ) -> Result<(), NoMemory>
        requires agent { WellFormed self.now.agent.now }
        requires ordered { from ≤ end }
        requires inside { end ≤ length states.now }
        requires numbers { HaveNumbers nodes.old states.now }
        requires kept { AreKept self.now.agent.now nodes.old visits.now }
        requires searched { AreSearched self.now.agent.now (all_meant nodes.old states.now) }
        requires level { IsLevel self.now.agent.now nodes.old level.old }
        ensures level { OnOk result (IsLevel self.now.agent.now nodes.new level.new) }
        ensures goes_on { OnOk result (GoesOn nodes.old nodes.new) }
        ensures means { OnOk result (level_of nodes.new level.new
            ≡ stored_steps self.now.agent.now self.now.mode self.now.room from (level_of nodes.old level.old)
            (all_meant nodes.old (take (end - from) (drop from states.now)))) }
    {
        let sources = self.sources(nodes, visits, states, from, end)?;
        let effects = &visits.effects;
        let added = self.add_sources(level, nodes, effects, from, sources.as_slice(), expand);
        drop(sources);
        added
    }

    /// Visits the programs of these states: those that were visited before are kept then.
    fn visit_all(
        &self,
        nodes: &mut Nodes,
        visits: &mut Visits,
        states: &States,
    ) -> Result<(), NoMemory>
        requires agent { WellFormed self.now.agent.now }
        requires numbers { HaveNumbers nodes.old states.now }
        requires once { AreOnce nodes.old }
        requires kept { AreKept self.now.agent.now nodes.old visits.old }
        requires searched { AreSearched self.now.agent.now (all_meant nodes.old states.now) }
        ensures goes_on { OnOk result (GoesOn nodes.old nodes.new) }
        ensures once { OnOk result (AreOnce nodes.new) }
        ensures kept { OnOk result (AreKept self.now.agent.now nodes.new visits.new) }
    {
        for place in 0..states.len() {
            let reached = states.at(place);
            visits.visit(self.alloc, self.agent, nodes, reached.left)?;
        }
        Ok(())
    }

    /// The distinct states that one step leads to from these, whose programs were visited, as far as there is room for
    /// them.
    fn led_from<X: Expand>(
        &self,
        nodes: &mut Nodes,
        visits: &Visits,
        states: &States,
        expand: &X,
    ) -> Result<Level, NoMemory>
        requires agent { WellFormed self.now.agent.now }
        requires numbers { HaveNumbers nodes.old states.now }
        requires once { AreOnce nodes.old }
        requires kept { AreKept self.now.agent.now nodes.old visits.now }
        requires searched { AreSearched self.now.agent.now (all_meant nodes.old states.now) }
        ensures goes_on { OnOk result (GoesOn nodes.old nodes.new) }
        ensures level { IfOk result (λ level. IsLevel self.now.agent.now nodes.new level) }
        ensures next { IfOk result (λ level. level_of nodes.new level
            ≡ stored_level self.now.agent.now self.now.mode self.now.room (all_meant nodes.old states.now)) }
    {
        let mut level = Level::new(self.alloc, self.agent)?;
        let count = states.len();
        let mut from = 0;
        while from < count {
            let end = from + batch_of(count - from);
            self.add_batch(&mut level, nodes, visits, states, from, end, expand)?;
            from = end;
        }
        Ok(level)
    }

    /// The distinct states that one step leads to from these, as far as there is room for them. The steps of a
    /// program that was visited before are kept. Whoever expands is asked for all states of a batch at once.
    pub fn next_level<X: Expand>(
        &self,
        nodes: &mut Nodes,
        visits: &mut Visits,
        states: &States,
        expand: &X,
    ) -> Result<Level, NoMemory>
        requires agent { WellFormed self.now.agent.now }
        requires numbers { HaveNumbers nodes.old states.now }
        requires once { AreOnce nodes.old }
        requires kept { AreKept self.now.agent.now nodes.old visits.old }
        requires searched { AreSearched self.now.agent.now (all_meant nodes.old states.now) }
        ensures goes_on { OnOk result (GoesOn nodes.old nodes.new) }
        ensures kept { OnOk result (AreKept self.now.agent.now nodes.new visits.new) }
        ensures level { IfOk result (λ level. IsLevel self.now.agent.now nodes.new level) }
        ensures next { IfOk result (λ level. level_of nodes.new level
            ≡ stored_level self.now.agent.now self.now.mode self.now.room (all_meant nodes.old states.now)) }
    {
        self.visit_all(nodes, visits, states)?;
        self.led_from(nodes, visits, states, expand)
    }
}
