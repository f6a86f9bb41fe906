// Who lists the steps of many programs, and asks many conditions: `Expand`, and one after another.
ghost use Rattle.std.specs.Prelude.{◌≡◌, All, IfOk, map};
ghost use Rattle.golog_semantics.specs.InSorts.{AreInSorts};
ghost use Rattle.golog_semantics.specs.Search.{plain_ways};
ghost use Rattle.golog_semantics.specs.Ways.{is_so};
ghost use Rattle.golog_semantics.specs.WellFormed.{WellFormed};
ghost use Rattle.golog_flat.specs.Checks.{IsCheckOf};
ghost use Rattle.golog_ways.specs.Open.{AreChecked, open_places};
ghost use Rattle.golog_ways.specs.Searched.{IsSearched};

use crate::listing::ways_of;
use golog_base::{List, NoMemory};
use golog_flat::Check;
use golog_progress::State;
use golog_semantics::Mode;
use golog_tree::{Agent, Cond, Label, Prog, Way};
use std::alloc::Global;

/// A program without search blocks, and the state in which its steps are asked for.
#[derive(Drop)]
pub struct Node {
    pub left: Prog,
    pub state: State,
}

/// A step of a program: the condition under which it may be taken, with the check of it, what it does, the number of
/// the program left, and whether that may be followed.
#[derive(Drop)]
pub struct NumberedFront {
    pub cond: Cond,
    pub check: Check,
    pub label: Label,
    pub left: u64,
    pub followed: bool,
}

impl NumberedFront {
    /// Whether the condition holds at these values, in the mode: the check is asked.
    pub fn holds_at(&self, agent: &Agent, mode: Mode, values: &[u8]) -> bool
        requires agent { WellFormed agent.now }
        requires checked { IsCheckOf agent.now self.now.cond self.now.check }
        requires sorts { AreInSorts agent.now values.now }
        ensures { result ≡ is_so agent.now values.now mode self.now.cond }
    {
        self.check.holds(agent, mode, values)
    }
}

/// What is asked at the values of one state: which of these steps have a condition that holds there. How much work that
/// is, counted in fluents that are looked at, is a guess, and decides nothing but who does it.
#[derive(Clone, Copy)]
pub struct Asked<'a> {
    pub values: &'a [u8],
    pub fronts: &'a [NumberedFront],
    pub weight: u64,
}

/// Who lists the steps of many programs, and asks the conditions of steps that are kept.
pub trait Expand: Drop {
    ghost use Rattle.std.specs.Prelude.{◌≡◌, All, IfOk, map};
    ghost use Rattle.golog_semantics.specs.InSorts.{AreInSorts};
    ghost use Rattle.golog_semantics.specs.Search.{plain_ways};
    ghost use Rattle.golog_semantics.specs.WellFormed.{WellFormed};
    ghost use Rattle.golog_ways.specs.Open.{AreChecked, open_places};
    ghost use Rattle.golog_ways.specs.Searched.{IsSearched};

    /// For each node, in order, the steps of its program in its state, in the mode.
    fn ways(
        &self,
        alloc: Global,
        agent: &Agent,
        mode: Mode,
        nodes: &[Node],
    ) -> Result<List<List<Way>>, NoMemory>
        requires agent { WellFormed agent.now }
        requires searched { All (λ node. IsSearched agent.now node.left node.state) nodes.now }
        ensures { IfOk result (λ all. all
            ≡ map (λ node. plain_ways agent.now node.state mode node.left) nodes.now) };

    /// For each of these, in order, the places of those whose condition holds at its values, in the mode.
    fn open(
        &self,
        alloc: Global,
        agent: &Agent,
        mode: Mode,
        asked: &[Asked<'_>],
    ) -> Result<List<List<usize>>, NoMemory>
        requires agent { WellFormed agent.now }
        requires checked { All (λ a. AreChecked agent.now a.fronts.now) asked.now }
        requires sorts { All (λ a. AreInSorts agent.now a.values.now) asked.now }
        ensures { IfOk result (λ all. all
            ≡ map (λ a. open_places agent.now a.values.now mode (map (λ f. f.cond) a.fronts.now)) asked.now) };
}

/// The steps of each node's program in its state, in the mode, listed one after another.
pub fn ways_in_turn(
    alloc: Global,
    agent: &Agent,
    mode: Mode,
    nodes: &[Node],
) -> Result<List<List<Way>>, NoMemory>
    requires agent { WellFormed agent.now }
    requires searched { All (λ node. IsSearched agent.now node.left node.state) nodes.now }
    ensures { IfOk result (λ all. all
        ≡ map (λ node. plain_ways agent.now node.state mode node.left) nodes.now) }
{
    let mut all = List::new(alloc);
    for node in nodes {
        all.push(ways_of(alloc, agent, mode, &node.left, &node.state)?)?;
    }
    Ok(all)
}

/// The places of those whose condition holds at the values, in the mode.
fn open_at(
    alloc: Global,
    agent: &Agent,
    mode: Mode,
    asked: &Asked<'_>,
) -> Result<List<usize>, NoMemory>
    requires agent { WellFormed agent.now }
    requires checked { AreChecked agent.now asked.now.fronts.now }
    requires sorts { AreInSorts agent.now asked.now.values.now }
    ensures { IfOk result (λ places. places
        ≡ open_places agent.now asked.now.values.now mode (map (λ f. f.cond) asked.now.fronts.now)) }
{
    let mut places = List::new(alloc);
    for (place, front) in asked.fronts.iter().enumerate() {
        if front.holds_at(agent, mode, asked.values) {
            places.push(place)?;
        }
    }
    Ok(places)
}

/// For each of these the places of those whose condition holds at its values, in the mode, asked one after another.
pub fn open_in_turn(
    alloc: Global,
    agent: &Agent,
    mode: Mode,
    asked: &[Asked<'_>],
) -> Result<List<List<usize>>, NoMemory>
    requires agent { WellFormed agent.now }
    requires checked { All (λ a. AreChecked agent.now a.fronts.now) asked.now }
    requires sorts { All (λ a. AreInSorts agent.now a.values.now) asked.now }
    ensures { IfOk result (λ all. all
        ≡ map (λ a. open_places agent.now a.values.now mode (map (λ f. f.cond) a.fronts.now)) asked.now) }
{
    let mut all = List::new(alloc);
    for one in asked {
        all.push(open_at(alloc, agent, mode, one)?)?;
    }
    Ok(all)
}

/// Lists and asks one after another, on the caller's thread.
#[derive(Clone, Copy, Debug)]
pub struct Plain;

impl Plain {
    /// One that lists and asks one after another. Takes no memory.
    pub fn new() -> Plain {
        Plain
    }
}

impl Expand for Plain {
    fn ways(
        &self,
        alloc: Global,
        agent: &Agent,
        mode: Mode,
        nodes: &[Node],
    ) -> Result<List<List<Way>>, NoMemory> {
        ways_in_turn(alloc, agent, mode, nodes)
    }

    fn open(
        &self,
        alloc: Global,
        agent: &Agent,
        mode: Mode,
        asked: &[Asked<'_>],
    ) -> Result<List<List<usize>>, NoMemory> {
        open_in_turn(alloc, agent, mode, asked)
    }
}
