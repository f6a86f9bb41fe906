// `Level`, the distinct states that are so many steps away, and how those are added that the steps
// from a state lead to, as far as there is room for them.
ghost use Rattle.std.specs.Prelude.{◌≡◌, [], IfOk, IsTrue, OnOk, false, fold, length, map};
ghost use Rattle.std.specs.List.{list_any};
ghost use Rattle.golog_semantics.specs.InSorts.{AreInSorts};
ghost use Rattle.golog_semantics.specs.Reports.{fits_label};
ghost use Rattle.golog_semantics.specs.Search.{final, plain_ways};
ghost use Rattle.golog_semantics.specs.WellFormed.{WellFormed};
ghost use Rattle.golog_ways.specs.Open.{open_places};
ghost use Rattle.golog_ways.specs.Searched.{IsSearched};
ghost use Rattle.golog_find.specs.Batches.{ways_at};
ghost use Rattle.golog_find.specs.Levels.{is_stored, with_stored};
ghost use Rattle.golog_find.specs.Numbers.{GoesOn, IsLevel, Sees, is_pair, level_of, with_numbered};
ghost use Rattle.golog_find.specs.Rows.{state_hash};
ghost use Rattle.golog_find.specs.Visits.{AreEffects, IsNumberedFront, IsOfAgent, IsOpened, meant_front, prog_at};

use crate::NEST_LIMIT;
use crate::deepening::Deepening;
use crate::effects::Effects;
use crate::numbered::Numbered;
use crate::sources::Source;
use crate::states::{States, hash_of};
use crate::visits::Opened;
use golog_base::NoMemory;
use golog_memo::{Nodes, Places};
use golog_tree::{Agent, Prog, Way, nest};
use golog_ways::{NumberedFront, is_final};
use std::alloc::Global;

/// The distinct states that are so many steps away, and whether some step that would lead there is not
/// followed, since what it leaves nests too deep. The places that were seen are those of the states by their
/// hashes. Each step is first followed to `next`, and kept only where that is not there yet. Where there is room for
/// so many states, no more are stored than that and one, and the first end behind these.
#[derive(Drop)]
pub struct Level {
    pub states: States,
    pub seen: Places,
    pub next: Numbered,
    pub cut: bool,
}

impl Level {
    /// No state yet.
    pub fn new(alloc: Global, agent: &Agent) -> Result<Level, NoMemory>
        requires { WellFormed agent.now }
        ensures states { IfOk result (λ level. level.states ≡ []) }
        ensures seen { IfOk result (λ level. Sees level.seen []) }
        ensures next { IfOk result (λ level. AreInSorts agent.now level.next.state) }
        ensures cut { IfOk result (λ level. level.cut ≡ false) }
    {
        let next = Numbered::blank(alloc, agent)?;
        Ok(Level {
            states: States::new(alloc),
            seen: Places::new(alloc),
            next,
            cut: false,
        })
    }

    /// Whether the next state, which has this hash, is there.
    fn has_next(&self, hash: u64) -> bool
        requires seen { Sees self.now.seen self.now.states }
        requires hash { hash ≡ state_hash self.now.next.left self.now.next.state }
        ensures { result ≡ list_any (is_pair self.now.next.left self.now.next.state) self.now.states }
    {
        let states = &self.states;
        let left = self.next.left;
        let values = self.next.state.values();
        let found = self
            .seen
            .find(hash, |place| states.has(place, left, values));
        found.is_some()
    }

    /// Adds the next state, where it is not there yet.
    fn add_next(&mut self) -> Result<(), NoMemory>
        requires { Sees self.old.seen self.old.states }
        ensures seen { OnOk result (Sees self.new.seen self.new.states) }
        ensures states { OnOk result (self.new.states ≡ with_numbered self.old.states self.old.next) }
        ensures next { OnOk result (self.new.next ≡ self.old.next) }
        ensures cut { OnOk result (self.new.cut ≡ self.old.cut) }
    {
        let hash = hash_of(self.next.left, self.next.state.values());
        if self.has_next(hash) {
            return Ok(());
        }
        self.seen.add(hash, self.states.len())?;
        self.states.push(&self.next)?;
        Ok(())
    }
}

impl<'a> Deepening<'a> {
    /// Whether the next state, where this program is left, is to be stored: while there is room, as one more, and
    /// behind that where the program may end in it.
    fn wants(&self, level: &Level, left: &Prog) -> Result<bool, NoMemory>
        requires agent { WellFormed self.now.agent.now }
        requires searched { IsSearched self.now.agent.now left.now level.now.next.state }
        ensures { IfOk result (λ b. b ≡ is_stored self.now.room (length level.now.states)
            (final self.now.agent.now level.now.next.state self.now.mode left.now)) }
    {
        let Some(room) = self.room else {
            return Ok(true);
        };
        let count = level.states.len();
        if count <= room {
            return Ok(true);
        }
        if count - 1 > room {
            return Ok(false);
        }
        is_final(self.alloc, self.agent, self.mode, left, &level.next.state)
    }

    /// Adds the state that a step leads to from these values, where it is to be stored, unless what the step leaves
    /// nests too deep.
    fn add(
        &self,
        level: &mut Level,
        nodes: &mut Nodes,
        from: usize,
        values: &[u8],
        way: &Way,
    ) -> Result<(), NoMemory>
        requires agent { WellFormed self.now.agent.now }
        requires searched { IsSearched self.now.agent.now way.now.left values.now }
        requires label { IsTrue (fits_label self.now.agent.now way.now.label) }
        requires level { IsLevel self.now.agent.now nodes.old level.old }
        ensures level { OnOk result (IsLevel self.now.agent.now nodes.new level.new) }
        ensures goes_on { OnOk result (GoesOn nodes.old nodes.new) }
        ensures means { OnOk result (level_of nodes.new level.new
            ≡ with_stored self.now.agent.now self.now.mode self.now.room from values.now
            (level_of nodes.old level.old) way.now) }
    {
        if nest(&way.left) > NEST_LIMIT {
            level.cut = true;
            return Ok(());
        }
        level.next.lead(self.agent, from, values, way.label, None);
        if !self.wants(level, &way.left)? {
            return Ok(());
        }
        let number = nodes.number(&way.left)?;
        level.next.left = number;
        level.add_next()?;
        Ok(())
    }

    /// Adds the state that a kept step leads to from these values, where it is to be stored, unless what the step
    /// leaves nests too deep.
    fn add_front(
        &self,
        level: &mut Level,
        nodes: &Nodes,
        effects: &Effects,
        from: usize,
        values: &[u8],
        front: &NumberedFront,
    ) -> Result<(), NoMemory>
        requires agent { WellFormed self.now.agent.now }
        requires searched { IsSearched self.now.agent.now (prog_at nodes.now front.now.left) values.now }
        requires front { IsNumberedFront nodes.now front.now }
        requires agents { IsOfAgent self.now.agent.now (meant_front nodes.now front.now) }
        requires effects { AreEffects self.now.agent.now effects.now }
        requires level { IsLevel self.now.agent.now nodes.now level.old }
        ensures level { OnOk result (IsLevel self.now.agent.now nodes.now level.new) }
        ensures means { OnOk result (level_of nodes.now level.new
            ≡ with_stored self.now.agent.now self.now.mode self.now.room from values.now
            (level_of nodes.now level.old) (meant_front nodes.now front.now).way) }
    {
        if !front.followed {
            level.cut = true;
            return Ok(());
        }
        let effect = effects.of(front.label);
        level
            .next
            .lead(self.agent, from, values, front.label, effect);
        if !self.wants(level, nodes.prog(front.left))? {
            return Ok(());
        }
        level.next.left = front.left;
        level.add_next()?;
        Ok(())
    }

    /// Adds the states that one step leads to from these values, of a program whose steps are kept: those at these
    /// places may be taken.
    pub fn add_fronts(
        &self,
        level: &mut Level,
        nodes: &Nodes,
        effects: &Effects,
        from: usize,
        values: &[u8],
        opened: &Opened,
        places: &[usize],
    ) -> Result<(), NoMemory>
        requires agent { WellFormed self.now.agent.now }
        requires searched { IsSearched self.now.agent.now (prog_at nodes.now opened.now.prog) values.now }
        requires opened { IsOpened self.now.agent.now nodes.now opened.now }
        requires effects { AreEffects self.now.agent.now effects.now }
        requires places { places.now ≡ open_places self.now.agent.now values.now self.now.mode
            (map (λ f. f.cond) opened.now.fronts) }
        requires level { IsLevel self.now.agent.now nodes.now level.old }
        ensures level { OnOk result (IsLevel self.now.agent.now nodes.now level.new) }
        ensures means { OnOk result (level_of nodes.now level.new
            ≡ fold (with_stored self.now.agent.now self.now.mode self.now.room from values.now)
            (level_of nodes.now level.old)
            (plain_ways self.now.agent.now values.now self.now.mode (prog_at nodes.now opened.now.prog))) }
    {
        for at in 0..places.len() {
            let front = opened.front_at(places, at);
            self.add_front(level, nodes, effects, from, values, front)?;
        }
        Ok(())
    }

    /// Adds the states that one step leads to from this one, of a program whose steps were listed anew.
    pub fn add_ways(
        &self,
        level: &mut Level,
        nodes: &mut Nodes,
        from: usize,
        source: &Source<'_>,
        ways: &[Way],
    ) -> Result<(), NoMemory>
        requires agent { WellFormed self.now.agent.now }
        requires searched { IsSearched self.now.agent.now (prog_at nodes.old source.now.reached.left)
            source.now.reached.values.now }
        requires ways { ways.now ≡ ways_at self.now.agent.now self.now.mode nodes.old source.now }
        requires level { IsLevel self.now.agent.now nodes.old level.old }
        ensures level { OnOk result (IsLevel self.now.agent.now nodes.new level.new) }
        ensures goes_on { OnOk result (GoesOn nodes.old nodes.new) }
        ensures means { OnOk result (level_of nodes.new level.new
            ≡ fold (with_stored self.now.agent.now self.now.mode self.now.room from source.now.reached.values.now)
            (level_of nodes.old level.old)
            (ways_at self.now.agent.now self.now.mode nodes.old source.now)) }
    {
        for way in ways {
            self.add(level, nodes, from, source.reached.values, way)?;
        }
        Ok(())
    }
}
