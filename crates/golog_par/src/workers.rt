// Workers: in how many parts something is cut, and the listing and asking that they share out.
ghost use Rattle.std.specs.Prelude.{◌≡◌, ◌<◌, ◌≤◌, All, IfOk, map};
ghost use Rattle.golog_semantics.specs.InSorts.{AreInSorts};
ghost use Rattle.golog_semantics.specs.Search.{plain_ways};
ghost use Rattle.golog_semantics.specs.WellFormed.{WellFormed};
ghost use Rattle.golog_ways.specs.Open.{AreChecked, open_places};
ghost use Rattle.golog_ways.specs.Searched.{IsSearched};

use crate::chunks::in_chunks;
use crate::known::Known;
use golog_base::{List, NoMemory};
use golog_semantics::Mode;
use golog_tree::{Agent, Way, nest};
use golog_ways::{Asked, Expand, Node, open_in_turn, ways_in_turn};
use std::alloc::Global;
use std::thread::Threads;

/// The least weight of a part. To start a thread for less takes longer than the part.
const PART_WEIGHT: u64 = 4_000;

/// What the listing of a program's steps weighs, where a fluent that is looked at weighs one.
const NODE_WEIGHT: u64 = 64;

/// The deepest nest of a program whose steps may be listed on a thread of our own, whose stack is small.
const DEEPEST: u32 = 512;

/// Threads that share out the work, so many at most.
#[derive(Drop)]
pub struct Workers<'a, R: Threads> {
    rt: &'a R,
    pub count: u32,
    ghost some: { 0 < count },
}

/// How much work it is to ask all of these.
fn weight_of(asked: &[Asked<'_>]) -> u64 {
    let mut weight = 0u64;
    for one in asked {
        weight = weight.saturating_add(one.weight);
    }
    weight
}

/// The steps of each node's program in its state, listed in so many parts at most.
#[tactic(auto, using(crate::proofs::Joining::all_in_part))]
fn ways_in_parts<R: Threads, G: Known>(
    rt: &R,
    alloc: Global,
    parts: usize,
    agent: &G,
    mode: Mode,
    nodes: &[Node],
) -> Result<List<List<Way>>, NoMemory>
    requires parts { 0 < parts }
    requires agent { WellFormed (G.agent agent.now) }
    requires searched { All (λ node. IsSearched (G.agent agent.now) node.left node.state) nodes.now }
    ensures { IfOk result (λ all. all
        ≡ map (λ node. plain_ways (G.agent agent.now) node.state mode node.left) nodes.now) }
{
    in_chunks(
        rt,
        parts,
        nodes,
        &|part: &[Node]| -> Result<List<List<Way>>, NoMemory>
            requires { WellFormed (G.agent agent.now)
                × All (λ node. IsSearched (G.agent agent.now) node.left node.state) part.now }
            ensures { IfOk result (λ all. all
                ≡ map (λ node. plain_ways (G.agent agent.entry.now) node.state mode node.left) part.entry.now) }
        { ways_in_turn(alloc, agent.get(), mode, part) },
    )
}

/// The places of those whose condition holds, for each of these at its values, asked in so many parts at most.
#[tactic(auto, using(crate::proofs::Joining::all_in_part))]
fn open_in_parts<R: Threads, G: Known>(
    rt: &R,
    alloc: Global,
    parts: usize,
    agent: &G,
    mode: Mode,
    asked: &[Asked<'_>],
) -> Result<List<List<usize>>, NoMemory>
    requires parts { 0 < parts }
    requires agent { WellFormed (G.agent agent.now) }
    requires checked { All (λ a. AreChecked (G.agent agent.now) a.fronts.now) asked.now }
    requires sorts { All (λ a. AreInSorts (G.agent agent.now) a.values.now) asked.now }
    ensures { IfOk result (λ all. all ≡ map (λ a. open_places (G.agent agent.now) a.values.now mode
        (map (λ f. f.cond) a.fronts.now)) asked.now) }
{
    in_chunks(
        rt,
        parts,
        asked,
        &|part: &[Asked<'_>]| -> Result<List<List<usize>>, NoMemory>
            requires { WellFormed (G.agent agent.now)
                × All (λ a. AreChecked (G.agent agent.now) a.fronts.now) part.now
                × All (λ a. AreInSorts (G.agent agent.now) a.values.now) part.now }
            ensures { IfOk result (λ all. all ≡ map (λ a. open_places (G.agent agent.entry.now) a.values.now mode
                (map (λ f. f.cond) a.fronts.now)) part.entry.now) }
        { open_in_turn(alloc, agent.get(), mode, part) },
    )
}

impl<'a, R: Threads> Workers<'a, R> {
    /// So many threads at most. Takes no memory.
    pub fn new(rt: &'a R, count: u32) -> Workers<'a, R>
        requires { (1 ≤ count) × (count ≤ 16) }
        ensures { result.count ≡ count }
    {
        Workers { rt, count }
    }

    /// In how many parts work of this weight is shared out: in fewer where there is little to do.
    fn parts(&self, weight: u64) -> usize
        ensures some { 0 < result }
        ensures most { result ≤ self.now.count }
    {
        (weight / PART_WEIGHT).clamp(1, u64::from(self.count)) as usize
    }

    /// In how many parts these nodes are shared out: in one where a program nests too deep for a small stack.
    fn parts_of(&self, nodes: &[Node]) -> usize
        ensures some { 0 < result }
        ensures most { result ≤ self.now.count }
    {
        if nodes.iter().any(|node| nest(&node.left) > DEEPEST) {
            return 1;
        }
        self.parts((nodes.len() as u64).saturating_mul(NODE_WEIGHT))
    }
}

impl<'a, R: Threads> Expand for Workers<'a, R> {
    fn ways(
        &self,
        alloc: Global,
        agent: &Agent,
        mode: Mode,
        nodes: &[Node],
    ) -> Result<List<List<Way>>, NoMemory> {
        ways_in_parts(self.rt, alloc, self.parts_of(nodes), agent, mode, nodes)
    }

    fn open(
        &self,
        alloc: Global,
        agent: &Agent,
        mode: Mode,
        asked: &[Asked<'_>],
    ) -> Result<List<List<usize>>, NoMemory> {
        let parts = self.parts(weight_of(asked));
        open_in_parts(self.rt, alloc, parts, agent, mode, asked)
    }
}
