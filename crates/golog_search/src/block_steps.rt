// The steps of a search block: whether its kept run goes through, its first certain step, and in
// which modes it has one.
ghost use Rattle.std.specs.Prelude.{◌≡◌, ◌≤◌, ◌&&◌, ◌||◌, false, true, IfErr, IfOk, IsTrue, Some, length, nat_le};
ghost use Rattle.std.specs.List.{list_all};
ghost use Rattle.golog_tree.specs.declared.prog.Prog.TheVariants as prog;
ghost use Rattle.golog_semantics.specs.declared.Mode.{Mode};
ghost use Rattle.golog_semantics.specs.Blocks.{beginning, going_on};
ghost use Rattle.golog_semantics.specs.Blocks.{is_kept as keeps_run, labels_of as labels_in};
ghost use Rattle.golog_semantics.specs.Heavy.{is_above};
ghost use Rattle.golog_semantics.specs.Search.{Run, is_followed};
ghost use Rattle.golog_semantics.specs.WellFormed.{WellFormed};
ghost use Rattle.golog_find.specs.Finding.{found_by};
ghost use Rattle.golog_ways.specs.First.{head_of};
ghost use Rattle.golog_ways.specs.Reach.{reaches};
ghost use Rattle.golog_search.specs.BlockSteps.{first_of_block as first_of, near_of_block as near_of};
ghost use Rattle.golog_search.specs.BlockSteps.{AreNear, has_step, wants_more};
ghost use Rattle.golog_ways.specs.Searched.{IsSearched};
ghost use Rattle.golog_search.specs.Told.{AreTold};

use crate::reach::{FirstStep, NearStep};
use crate::searches::Searches;
use crate::told::Told;
use golog_base::{Boxed, List, NoMemory};
use golog_find::{Found, NEST_LIMIT, search_block_with};
use golog_progress::State;
use golog_semantics::{Block, Mode, Move};
use golog_tree::{Agent, Label, Prog, Way, copy_prog, nest};
use golog_ways::{Expand, Reach, Stop, copy_ways, goes_through};
use std::alloc::Global;

/// Whether some run is under way, and it goes through from the state. It is stepped again where nothing is told
/// of it.
pub fn is_kept(
    alloc: Global,
    agent: &Agent,
    body: &Prog,
    rest: &[Way],
    state: &State,
    told: &[Told],
) -> Result<bool, NoMemory>
    requires agent { WellFormed agent.now }
    requires searched { IsSearched agent.now body.now state.now }
    requires told { AreTold agent.now state.now told.now }
    ensures { IfOk result (λ b. b ≡ keeps_run agent.now state.now body.now rest.now) }
{
    if rest.is_empty() {
        return Ok(false);
    }
    for one in told {
        if one.is_of(body, rest) {
            return Ok(one.through);
        }
    }
    goes_through(alloc, agent, body, rest, state)
}

/// What the ways of a run do.
fn labels_of(alloc: Global, run: &[Way]) -> Result<List<Label>, NoMemory>
    ensures { IfOk result (λ labels. labels ≡ labels_in run.now) }
{
    let mut labels = List::new(alloc);
    for way in run {
        labels.push(way.label)?;
    }
    Ok(labels)
}

/// What the first way of a run leaves: the block, which follows the rest of the run.
fn follow(alloc: Global, block: &Block, way: &Way, later: &[Way]) -> Result<Prog, NoMemory>
    ensures { IfOk result (λ left. left
        ≡ prog.Follow block.now.depth block.now.fuel way.now.left later.now) }
{
    let body = Boxed::new(alloc, copy_prog(alloc, &way.left)?)?;
    let rest = copy_ways(alloc, later)?;
    Ok(Prog::Follow {
        depth: block.depth,
        fuel: block.fuel,
        body,
        rest,
    })
}

/// The first step along a run that is under way.
fn step_along(alloc: Global, block: &Block, run: &[Way]) -> Result<Option<Move>, NoMemory>
    ensures { IfOk result (λ step. step ≡ head_of (going_on block.now.depth block.now.fuel run.now)) }
{
    let [way, later @ ..] = run else {
        return Ok(None);
    };
    let left = follow(alloc, block, way, later)?;
    Ok(Some(Move {
        label: way.label,
        left,
        run: None,
    }))
}

/// The step that begins a run.
fn step_into(alloc: Global, block: &Block, run: &[Way]) -> Result<Option<Move>, NoMemory>
    ensures { IfOk result (λ step. step
        ≡ head_of (beginning block.now.depth block.now.fuel (Some run.now))) }
{
    let [way, later @ ..] = run else {
        return Ok(None);
    };
    let labels = labels_of(alloc, run)?;
    let left = follow(alloc, block, way, later)?;
    Ok(Some(Move {
        label: way.label,
        left,
        run: Some(labels),
    }))
}

/// The block of these parts.
pub fn block_of(alloc: Global, depth: u32, fuel: u32, body: &Prog) -> Result<Block, NoMemory>
    ensures { IfOk result (λ block. block ≡ record { depth = depth; fuel = fuel; body = body.now }) }
{
    let body = copy_prog(alloc, body)?;
    Ok(Block { depth, fuel, body })
}

/// A step in each mode.
const ALL: Reach = Reach {
    must: true,
    near: true,
    may: true,
};

/// Whether a search within the depth follows each step of a run and finds its end.
fn is_within(depth: u32, run: &[Way]) -> bool
    ensures { result ≡ (nat_le (length run.now) depth && list_all is_followed run.now) }
{
    if run.len() > depth as usize {
        return false;
    }
    for way in run {
        if nest(&way.left) > NEST_LIMIT {
            return false;
        }
    }
    true
}

impl<'a, X: Expand> Searches<'a, X> {
    /// The search of a block, for runs in the mode.
    fn search_for(
        &self,
        alloc: Global,
        agent: &Agent,
        block: &Block,
        mode: Mode,
        bounded: bool,
    ) -> Result<Found, NoMemory>
        requires agent { WellFormed agent.now }
        requires searched { IsSearched agent.now block.now.body self.now.state.now }
        ensures { IfOk result (λ f. f ≡ found_by bounded agent.now self.now.state.now mode block.now) }
    {
        search_block_with(alloc, agent, block, self.state, mode, bounded, self.expand)
    }

    /// The first certain step of a block that follows a run: along it, where it goes through from the state, and
    /// else the step that begins the first certain run of least length. `Fuel` comes exactly where the run is not
    /// kept, the search is bounded, and in mode `Must` it would look at more states than the block's fuel.
    pub fn first_of_block(
        &self,
        alloc: Global,
        agent: &Agent,
        block: &Block,
        rest: &[Way],
    ) -> Result<FirstStep, NoMemory>
        requires agent { WellFormed agent.now }
        requires searched { IsSearched agent.now block.now.body self.now.state.now }
        requires told { AreTold agent.now self.now.state.now self.now.told.now }
        ensures { IfOk result (λ step. step
            ≡ first_of self.now.bounded agent.now self.now.state.now block.now rest.now) }
    {
        if is_kept(alloc, agent, &block.body, rest, self.state, self.told)? {
            return Ok(FirstStep::Step(step_along(alloc, block, rest)?));
        }
        match self.search_for(alloc, agent, block, Mode::Must, self.bounded)? {
            Found::Run(run) => Ok(FirstStep::Step(step_into(alloc, block, run.as_slice())?)),
            Found::Absent { cut: _ } => Ok(FirstStep::Step(None)),
            Found::Fuel => Ok(FirstStep::Fuel),
        }
    }

    /// Whether a block has a step in mode `Near`, and whether in `May`, whatever run it follows: in both where a
    /// run may begin with one, and in `May` also where a run may lie beyond what the search looks at. `Fuel`
    /// comes exactly where the search is bounded and in mode `Near` would look at more states than the block's
    /// fuel.
    fn near_of_block(
        &self,
        alloc: Global,
        agent: &Agent,
        block: &Block,
        bounded: bool,
    ) -> Result<NearStep, NoMemory>
        requires agent { WellFormed agent.now }
        requires searched { IsSearched agent.now block.now.body self.now.state.now }
        requires depth { 1 ≤ block.now.depth }
        ensures { IfOk result (λ step. (rest : Run) → step
            ≡ near_of bounded agent.now self.now.state.now block.now rest) }
    {
        match self.search_for(alloc, agent, block, Mode::Near, bounded)? {
            Found::Run(run) => {
                drop(run);
                Ok(NearStep::Steps {
                    near: true,
                    may: true,
                })
            }
            Found::Absent { cut } => Ok(NearStep::Steps {
                near: false,
                may: cut,
            }),
            Found::Fuel => Ok(NearStep::Fuel),
        }
    }

    /// The certain step as told, and what a search tells of the others, whatever run the block follows.
    fn reach_near(
        &self,
        alloc: Global,
        agent: &Agent,
        block: &Block,
        must: bool,
        bounded: bool,
    ) -> Result<Reach, Stop>
        requires agent { WellFormed agent.now }
        requires searched { IsSearched agent.now block.now.body self.now.state.now }
        requires depth { 1 ≤ block.now.depth }
        ensures reach { IfOk result (λ r. (rest : Run)
            → AreNear agent.now self.now.state.now block.now rest must r) }
        ensures fuel { IfErr result (λ stop. stop ≡ Stop.Fuel
            → (bounded && is_above agent.now self.now.state.now Mode.Near block.now) ≡ true) }
    {
        match self.near_of_block(alloc, agent, block, bounded)? {
            NearStep::Steps { near, may } => Ok(Reach { must, near, may }),
            NearStep::Fuel => Err(Stop::Fuel),
        }
    }

    /// In which modes a block has a step whose run is kept: a certain one, and mostly without a search.
    fn reach_along(
        &self,
        alloc: Global,
        agent: &Agent,
        block: &Block,
        rest: &[Way],
    ) -> Result<Reach, Stop>
        requires agent { WellFormed agent.now }
        requires searched { IsSearched agent.now block.now.body self.now.state.now }
        requires depth { 1 ≤ block.now.depth }
        requires kept { IsTrue (keeps_run agent.now self.now.state.now block.now.body rest.now) }
        ensures reach { IfOk result (λ r. (m : Mode)
            → reaches m r ≡ has_step agent.now self.now.state.now m block.now rest.now) }
        ensures memory { IfErr result (λ stop. stop ≡ Stop.Memory) }
    {
        if is_within(block.depth, rest) {
            return Ok(ALL);
        }
        self.reach_near(alloc, agent, block, true, false)
    }

    /// In which modes a block has a step, where a search told of `Near` and of `May`. Where no step is near, none is
    /// certain.
    fn reach_beside(
        &self,
        alloc: Global,
        agent: &Agent,
        block: &Block,
        rest: &[Way],
        near: bool,
        may: bool,
    ) -> Result<Reach, Stop>
        requires agent { WellFormed agent.now }
        requires searched { IsSearched agent.now block.now.body self.now.state.now }
        requires depth { 1 ≤ block.now.depth }
        requires kept { keeps_run agent.now self.now.state.now block.now.body rest.now ≡ false }
        requires near { near ≡ has_step agent.now self.now.state.now Mode.Near block.now rest.now }
        requires may { may ≡ has_step agent.now self.now.state.now Mode.May block.now rest.now }
        ensures reach { IfOk result (λ r. (m : Mode)
            → reaches m r ≡ has_step agent.now self.now.state.now m block.now rest.now) }
        ensures fuel { IfErr result (λ stop. stop ≡ Stop.Fuel
            → (wants_more self.now.bounded agent.now self.now.state.now Mode.Must block.now rest.now
            || wants_more self.now.bounded agent.now self.now.state.now Mode.Near block.now rest.now) ≡ true) }
    {
        // What run the block follows is no matter: it is not kept.
        let _ = rest;
        if !near {
            return Ok(Reach {
                must: false,
                near,
                may,
            });
        }
        match self.search_for(alloc, agent, block, Mode::Must, self.bounded)? {
            Found::Run(run) => {
                drop(run);
                Ok(ALL)
            }
            Found::Absent { cut: _ } => Ok(Reach {
                must: false,
                near,
                may,
            }),
            Found::Fuel => Err(Stop::Fuel),
        }
    }

    /// The same where a search in mode `Near` wants more than the block's fuel: it is told only where a step is
    /// certain.
    fn reach_certain(
        &self,
        alloc: Global,
        agent: &Agent,
        block: &Block,
        rest: &[Way],
    ) -> Result<Reach, Stop>
        requires agent { WellFormed agent.now }
        requires searched { IsSearched agent.now block.now.body self.now.state.now }
        requires depth { 1 ≤ block.now.depth }
        requires kept { keeps_run agent.now self.now.state.now block.now.body rest.now ≡ false }
        requires above { (self.now.bounded && is_above agent.now self.now.state.now Mode.Near block.now) ≡ true }
        ensures reach { IfOk result (λ r. (m : Mode)
            → reaches m r ≡ has_step agent.now self.now.state.now m block.now rest.now) }
        ensures fuel { IfErr result (λ stop. stop ≡ Stop.Fuel
            → (wants_more self.now.bounded agent.now self.now.state.now Mode.Must block.now rest.now
            || wants_more self.now.bounded agent.now self.now.state.now Mode.Near block.now rest.now) ≡ true) }
    {
        // What run the block follows is no matter: it is not kept.
        let _ = rest;
        match self.search_for(alloc, agent, block, Mode::Must, self.bounded)? {
            Found::Run(run) => {
                drop(run);
                Ok(ALL)
            }
            Found::Absent { cut: _ } => Err(Stop::Fuel),
            Found::Fuel => Err(Stop::Fuel),
        }
    }

    /// In which modes a block has a step that follows no run, or one that is not kept. What is near is searched for
    /// first: where there is none, as mostly where this is asked, that search is the only one.
    fn reach_anew(
        &self,
        alloc: Global,
        agent: &Agent,
        block: &Block,
        rest: &[Way],
    ) -> Result<Reach, Stop>
        requires agent { WellFormed agent.now }
        requires searched { IsSearched agent.now block.now.body self.now.state.now }
        requires depth { 1 ≤ block.now.depth }
        requires kept { keeps_run agent.now self.now.state.now block.now.body rest.now ≡ false }
        ensures reach { IfOk result (λ r. (m : Mode)
            → reaches m r ≡ has_step agent.now self.now.state.now m block.now rest.now) }
        ensures fuel { IfErr result (λ stop. stop ≡ Stop.Fuel
            → (wants_more self.now.bounded agent.now self.now.state.now Mode.Must block.now rest.now
            || wants_more self.now.bounded agent.now self.now.state.now Mode.Near block.now rest.now) ≡ true) }
    {
        match self.near_of_block(alloc, agent, block, self.bounded)? {
            NearStep::Steps { near, may } => {
                self.reach_beside(alloc, agent, block, rest, near, may)
            }
            NearStep::Fuel => self.reach_certain(alloc, agent, block, rest),
        }
    }

    /// In which modes a block that follows a run has a step. `Stop::Fuel` comes only where the run is not kept,
    /// and a bounded search, in mode `Must` or `Near`, would look at more states than the block's fuel.
    pub fn reach_of_block(
        &self,
        alloc: Global,
        agent: &Agent,
        block: &Block,
        rest: &[Way],
    ) -> Result<Reach, Stop>
        requires agent { WellFormed agent.now }
        requires searched { IsSearched agent.now block.now.body self.now.state.now }
        requires depth { 1 ≤ block.now.depth }
        requires told { AreTold agent.now self.now.state.now self.now.told.now }
        ensures reach { IfOk result (λ r. (m : Mode)
            → reaches m r ≡ has_step agent.now self.now.state.now m block.now rest.now) }
        ensures fuel { IfErr result (λ stop. stop ≡ Stop.Fuel
            → (wants_more self.now.bounded agent.now self.now.state.now Mode.Must block.now rest.now
            || wants_more self.now.bounded agent.now self.now.state.now Mode.Near block.now rest.now) ≡ true) }
    {
        if is_kept(alloc, agent, &block.body, rest, self.state, self.told)? {
            self.reach_along(alloc, agent, block, rest)
        } else {
            self.reach_anew(alloc, agent, block, rest)
        }
    }
}
