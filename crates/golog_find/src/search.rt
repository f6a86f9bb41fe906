// `Search`, what a search has seen: how it goes one step further, the first end of its last level,
// and the run that leads there.
ghost use Rattle.std.specs.Prelude.{◌≡◌, ◌<◌, [], ◌∷◌, ◌++◌, ◌||◌, All, IfOk, OnOk, false, length, map, not, reverse};
ghost use Rattle.std.specs.List.{position_from};
ghost use Rattle.golog_semantics.specs.Search.{final};
ghost use Rattle.golog_semantics.specs.Ways.{is_empty};
ghost use Rattle.golog_semantics.specs.WellFormed.{WellFormed};
ghost use Rattle.golog_find.specs.Levels.{AreSearched, AreStored, ends_at, next_level as next_of};
ghost use Rattle.golog_find.specs.Levels.{run_to as run_of, start_of};
ghost use Rattle.golog_find.specs.Numbers.{HaveNumbers, IsNumbered, all_meant, looked_of, meant};
ghost use Rattle.golog_find.specs.Rows.{lent};
ghost use Rattle.golog_find.specs.Visits.{AreKept, prog_at};
ghost use Rattle.golog_tree.specs.declared.agent.Agent.{Agent as AnyAgent};
ghost use Rattle.golog_ways.specs.Searched.{IsSearched};

use crate::deepening::Deepening;
use crate::level::Level;
use crate::numbered::Numbered;
use crate::states::{NumberedRef, States};
use crate::visits::Visits;
use golog_base::{List, NoMemory};
use golog_memo::Nodes;
use golog_progress::State;
use golog_semantics::Mode;
use golog_tree::{Agent, Prog, Way, copy_prog};
use golog_ways::{Expand, is_final};
use std::alloc::Global;
use std::mem;

/// What a search has seen: the programs by their numbers, what is kept of those that it has visited, the states
/// of each number of steps from none on, those of the last number by themselves, and whether some step was not
/// followed.
#[derive(Drop)]
pub struct Search {
    pub nodes: Nodes,
    pub visits: Visits,
    pub before: List<States>,
    pub last: States,
    pub cut: bool,
}

/// The run that led to the state at a place among these, through the levels before them. A place where no
/// state stands has the empty run.
fn steps_to(
    alloc: Global,
    nodes: &Nodes,
    before: &[States],
    states: &States,
    place: usize,
) -> Result<List<Way>, NoMemory>
    requires states { HaveNumbers nodes.now states.now }
    requires before { All (HaveNumbers nodes.now) before.now }
    ensures { IfOk result (λ run. run
        ≡ run_of (reverse (map (all_meant nodes.now) before.now)) (all_meant nodes.now states.now) place) }
{
    let [earlier @ .., nearer] = before else {
        return Ok(List::new(alloc));
    };
    if place >= states.len() {
        return Ok(List::new(alloc));
    }
    let reached = states.at(place);
    let mut run = steps_to(alloc, nodes, earlier, nearer, reached.from)?;
    let left = copy_prog(alloc, nodes.prog(reached.left))?;
    run.push(Way {
        label: reached.label,
        left,
    })?;
    Ok(run)
}

/// Whether a program may end at these values.
fn is_end(
    alloc: Global,
    agent: &Agent,
    mode: Mode,
    prog: &Prog,
    values: &[u8],
) -> Result<bool, NoMemory>
    requires agent { WellFormed agent.now }
    requires searched { IsSearched agent.now prog.now values.now }
    ensures { IfOk result (λ b. b ≡ final agent.now values.now mode prog.now) }
{
    let state = State::of(alloc, agent, values)?;
    let ends = is_final(alloc, agent, mode, prog, &state);
    drop(state);
    ends
}

impl Search {
    /// A search that stands where it begins.
    pub fn new(alloc: Global, prog: &Prog, state: &State) -> Result<Search, NoMemory>
        ensures looked { IfOk result (λ search. looked_of search
            ≡ record { before = []; last = start_of prog.now state.now ∷ []; cut = false }) }
        ensures numbers { IfOk result IsNumbered }
        ensures kept { (agent : AnyAgent) → IfOk result (λ search. AreKept agent search.nodes search.visits) }
    {
        let mut nodes = Nodes::new(alloc)?;
        let start = Numbered::start(alloc, &mut nodes, prog, state)?;
        let before = List::new(alloc);
        let mut last = States::new(alloc);
        last.push(&start)?;
        Ok(Search {
            nodes,
            visits: Visits::new(alloc),
            before,
            last,
            cut: false,
        })
    }

    /// Whether something stays unseen: what comes after the last level, or after a step that was not
    /// followed.
    pub fn is_cut(&self) -> bool
        ensures { result ≡ (not (is_empty (looked_of self.now).last) || self.now.cut) }
    {
        !self.last.is_empty() || self.cut
    }

    /// How many states the last level has.
    pub fn width(&self) -> usize
        ensures { result ≡ length (looked_of self.now).last }
    {
        self.last.len()
    }

    /// Looks one step further. Where there is room for so many states, one more is stored at most, and behind
    /// these an end. After an `Err` the search is of no more use: its last level may be lost.
    pub fn deepen<X: Expand>(
        &mut self,
        alloc: Global,
        agent: &Agent,
        mode: Mode,
        room: Option<usize>,
        expand: &X,
    ) -> Result<(), NoMemory>
        requires agent { WellFormed agent.now }
        requires numbers { IsNumbered self.old }
        requires kept { AreKept agent.now self.old.nodes self.old.visits }
        requires searched { AreSearched agent.now (looked_of self.old).last }
        ensures before { OnOk result ((looked_of self.new).before
            ≡ (looked_of self.old).before ++ (looked_of self.old).last ∷ []) }
        ensures last { OnOk result (AreStored agent.now mode room
            (next_of agent.now mode (looked_of self.old).last).states (looked_of self.new).last) }
        ensures cut { OnOk result (self.new.cut
            ≡ (self.old.cut || (next_of agent.now mode (looked_of self.old).last).cut)) }
        ensures searched { OnOk result (AreSearched agent.now (looked_of self.new).last) }
        ensures numbers { OnOk result (IsNumbered self.new) }
        ensures kept { OnOk result (AreKept agent.now self.new.nodes self.new.visits) }
    {
        let deepening = Deepening {
            alloc,
            agent,
            mode,
            room,
        };
        let level = deepening.next_level(&mut self.nodes, &mut self.visits, &self.last, expand)?;
        let Level {
            states,
            seen,
            next,
            cut,
        } = level;
        drop(seen);
        drop(next);
        let last = mem::replace(&mut self.last, states);
        self.cut = self.cut || cut;
        self.before.push(last)?;
        Ok(())
    }

    /// Whether the program may end in a state.
    fn may_end(
        &self,
        alloc: Global,
        agent: &Agent,
        mode: Mode,
        reached: NumberedRef<'_>,
    ) -> Result<bool, NoMemory>
        requires agent { WellFormed agent.now }
        requires number { reached.left < length self.now.nodes }
        requires kept { AreKept agent.now self.now.nodes self.now.visits }
        requires searched { IsSearched agent.now (prog_at self.now.nodes reached.left) reached.values.now }
        ensures { IfOk result (λ b. b ≡ ends_at agent.now mode (meant self.now.nodes (lent reached.entry))) }
    {
        match self.visits.of(reached.left) {
            Some(opened) => Ok(opened.end.holds(agent, mode, reached.values)),
            None => is_end(
                alloc,
                agent,
                mode,
                self.nodes.prog(reached.left),
                reached.values,
            ),
        }
    }

    /// The place of the first state of the last level in which the program may end.
    pub fn first_end(
        &self,
        alloc: Global,
        agent: &Agent,
        mode: Mode,
    ) -> Result<Option<usize>, NoMemory>
        requires agent { WellFormed agent.now }
        requires numbers { IsNumbered self.now }
        requires kept { AreKept agent.now self.now.nodes self.now.visits }
        requires searched { AreSearched agent.now (looked_of self.now).last }
        ensures { IfOk result (λ place. place
            ≡ position_from (ends_at agent.now mode) 0 (looked_of self.now).last) }
    {
        for place in 0..self.last.len() {
            if self.may_end(alloc, agent, mode, self.last.at(place))? {
                return Ok(Some(place));
            }
        }
        Ok(None)
    }

    /// The run that led to the state at a place of the last level. A place where no state stands has the empty
    /// run.
    pub fn run_to(&self, alloc: Global, place: usize) -> Result<List<Way>, NoMemory>
        requires { IsNumbered self.now }
        ensures { IfOk result (λ run. run
            ≡ run_of (reverse (looked_of self.now).before) (looked_of self.now).last place) }
    {
        steps_to(
            alloc,
            &self.nodes,
            self.before.as_slice(),
            &self.last,
            place,
        )
    }
}
