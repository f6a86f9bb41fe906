// Which programs a search has visited, and what is kept of those visited again: their steps with
// their conditions, what each leaves by its number, and the check of the end.
ghost use Rattle.std.specs.Prelude.{◌≡◌, ◌<◌, IfOk, IsTrue, List as AnyList, MatchOption, OnOk, Some, false, true, length, slice_get, slice_index};
ghost use Rattle.golog_memo.specs.Numbered.{AreOnce};
ghost use Rattle.golog_semantics.specs.Fits.{cond_fits, nothing_bound};
ghost use Rattle.golog_semantics.specs.ProgFits.{fits};
ghost use Rattle.golog_semantics.specs.WellFormed.{WellFormed};
ghost use Rattle.golog_tree.specs.declared.agent.Agent.{Agent as AnyAgent};
ghost use Rattle.golog_tree.specs.declared.prog.Prog.{Prog as AnyProg};
ghost use Rattle.golog_fronts.specs.FrontBlock.{has_front_block};
ghost use Rattle.golog_fronts.specs.FrontLists.{are_closed, guarded, guarded_of};
ghost use Rattle.golog_flat.specs.Checks.{IsCheckOf};
ghost use Rattle.golog_ways.specs.Open.{AreChecked};
ghost use Rattle.golog_find.specs.Numbers.{GoesOn};
ghost use Rattle.golog_find.specs.Visits.{AreEffects, AreFrontsOf, AreKept, AreOpenedFronts, IsEndCheck, IsFrontOf, IsKeptOf, IsVisited, keeps, nothing, place_in, prog_at};

use crate::effects::Effects;
use golog_base::{List, NoMemory};
use golog_flat::{Check, parts_of};
use golog_memo::Nodes;
use golog_tree::{Agent, Prog, copy_cond, nest};
use golog_ways::{Front, NumberedFront, end_cond, fronts};
use std::alloc::Global;
use std::collections::HashMap;

/// The deepest nest of what a step leaves.
pub const NEST_LIMIT: u32 = 2048;

/// As soon as so many fronts are kept, those of no further program are.
const MOST_KEPT: usize = 65_536;

/// The mark of a program of which nothing is kept.
const NOTHING: u64 = u64::MAX;

/// The front, what it leaves by its number, with the check of its condition.
fn numbered_front(
    alloc: Global,
    agent: &Agent,
    nodes: &mut Nodes,
    front: &Front,
) -> Result<NumberedFront, NoMemory>
    requires agent { WellFormed agent.now }
    requires closed { IsTrue (cond_fits agent.now front.now.cond nothing_bound) }
    ensures front { IfOk result (IsFrontOf nodes.new (guarded_of front.now)) }
    ensures checked { IfOk result (λ f. IsCheckOf agent.now f.cond f.check) }
    ensures goes_on { OnOk result (GoesOn nodes.old nodes.new) }
    ensures once { OnOk result (AreOnce nodes.new) }
{
    let left = nodes.number(&front.left)?;
    let check = Check::of(alloc, agent, &front.cond)?;
    match copy_cond(alloc, &front.cond) {
        Ok(cond) => Ok(NumberedFront {
            cond,
            check,
            label: front.label,
            left,
            followed: nest(&front.left) <= NEST_LIMIT,
        }),
        Err(refused) => {
            drop(check);
            Err(refused)
        }
    }
}

/// The fronts, what they leave by its number, each with the check of its condition.
fn numbered(
    alloc: Global,
    agent: &Agent,
    nodes: &mut Nodes,
    fronts: &[Front],
) -> Result<List<NumberedFront>, NoMemory>
    requires agent { WellFormed agent.now }
    requires closed { IsTrue (are_closed agent.now fronts.now) }
    requires once { AreOnce nodes.old }
    ensures fronts { IfOk result (AreFrontsOf nodes.new (guarded fronts.now)) }
    ensures checked { IfOk result (AreChecked agent.now) }
    ensures goes_on { OnOk result (GoesOn nodes.old nodes.new) }
    ensures once { OnOk result (AreOnce nodes.new) }
{
    let mut list = List::new(alloc);
    for front in fronts {
        list.push(numbered_front(alloc, agent, nodes, front)?)?;
    }
    Ok(list)
}

/// The steps of the program of a number, what they leave by its number.
fn fronts_at(
    alloc: Global,
    agent: &Agent,
    nodes: &mut Nodes,
    number: u64,
) -> Result<List<NumberedFront>, NoMemory>
    requires agent { WellFormed agent.now }
    requires number { number < length nodes.old }
    requires once { AreOnce nodes.old }
    requires program { IsTrue (fits agent.now (prog_at nodes.old number)) }
    requires free { has_front_block agent.now (prog_at nodes.old number) ≡ false }
    ensures fronts { IfOk result (AreOpenedFronts agent.now nodes.new (prog_at nodes.old number)) }
    ensures goes_on { OnOk result (GoesOn nodes.old nodes.new) }
    ensures once { OnOk result (AreOnce nodes.new) }
{
    let steps = fronts(alloc, agent, nodes.prog(number))?;
    numbered(alloc, agent, nodes, steps.as_slice())
}

/// The check of the condition under which a program may end.
fn end_check(alloc: Global, agent: &Agent, prog: &Prog) -> Result<Check, NoMemory>
    requires agent { WellFormed agent.now }
    requires program { IsTrue (fits agent.now prog.now) }
    ensures { IfOk result (IsEndCheck agent.now prog.now) }
{
    let cond = end_cond(alloc, agent, prog)?;
    let check = Check::of(alloc, agent, &cond);
    drop(cond);
    check
}

/// How much work it is to ask the conditions of these steps: a guess, which decides no answer.
fn weight_of(agent: &Agent, fronts: &[NumberedFront]) -> u64
    requires { WellFormed agent.now }
{
    let mut weight = 0u64;
    for front in fronts {
        weight = weight.saturating_add(u64::from(parts_of(agent, &front.cond)));
    }
    weight
}

/// What is kept of the program of a number: its steps with their conditions, the check of its end, and how much work it
/// is to ask the conditions.
#[derive(Drop)]
pub struct Opened {
    pub prog: u64,
    pub fronts: List<NumberedFront>,
    pub end: Check,
    pub weight: u64,
}

impl Opened {
    /// The steps and the end of the program of a number.
    fn of(alloc: Global, agent: &Agent, nodes: &mut Nodes, number: u64) -> Result<Opened, NoMemory>
        requires agent { WellFormed agent.now }
        requires number { number < length nodes.old }
        requires once { AreOnce nodes.old }
        requires program { IsTrue (fits agent.now (prog_at nodes.old number)) }
        requires free { has_front_block agent.now (prog_at nodes.old number) ≡ false }
        ensures opened { IfOk result (IsKeptOf agent.now nodes.new number) }
        ensures goes_on { OnOk result (GoesOn nodes.old nodes.new) }
        ensures once { OnOk result (AreOnce nodes.new) }
    {
        let end = end_check(alloc, agent, nodes.prog(number))?;
        match fronts_at(alloc, agent, nodes, number) {
            Ok(fronts) => {
                let weight = weight_of(agent, fronts.as_slice());
                Ok(Opened {
                    prog: number,
                    fronts,
                    end,
                    weight,
                })
            }
            Err(refused) => {
                drop(end);
                Err(refused)
            }
        }
    }

    /// The same, and keeps what its steps write.
    fn with_effects(
        alloc: Global,
        agent: &Agent,
        nodes: &mut Nodes,
        effects: &mut Effects,
        number: u64,
    ) -> Result<Opened, NoMemory>
        requires agent { WellFormed agent.now }
        requires number { number < length nodes.old }
        requires once { AreOnce nodes.old }
        requires program { IsTrue (fits agent.now (prog_at nodes.old number)) }
        requires free { has_front_block agent.now (prog_at nodes.old number) ≡ false }
        requires effects { AreEffects agent.now effects.old }
        ensures opened { IfOk result (IsKeptOf agent.now nodes.new number) }
        ensures goes_on { OnOk result (GoesOn nodes.old nodes.new) }
        ensures once { OnOk result (AreOnce nodes.new) }
        ensures effects { OnOk result (AreEffects agent.now effects.new) }
    {
        let opened = Opened::of(alloc, agent, nodes, number)?;
        match effects.keep_all(alloc, agent, opened.fronts.as_slice()) {
            Ok(()) => Ok(opened),
            Err(refused) => {
                drop(opened);
                Err(refused)
            }
        }
    }

    /// The step whose place stands there among these.
    pub fn front_at(&self, places: &[usize], at: usize) -> &NumberedFront
        requires at { at < length places.now }
        requires inside { slice_index places.now at < length self.now.fronts }
        ensures { slice_get self.now.fronts (slice_index places.now at) ≡ Some result.now }
    {
        &self.fronts.as_slice()[places[at]]
    }
}

/// The programs whose steps a search has asked for, and what is kept of those for which it did so again, with what
/// their steps write.
#[derive(Drop)]
pub struct Visits {
    places: HashMap<u64, u64>,
    opened: List<Opened>,
    count: usize,
    pub effects: Effects,
}

impl Visits {
    /// No program was visited. Takes no memory.
    pub fn new(alloc: Global) -> Visits
        ensures { (agent : AnyAgent) (progs : AnyList AnyProg) → AreKept agent progs result }
    {
        Visits {
            places: HashMap::new(alloc),
            opened: List::new(alloc),
            count: 0,
            effects: Effects::new(alloc),
        }
    }

    /// What is kept of the program of a number.
    pub fn of(&self, number: u64) -> Option<&Opened>
        ensures { (agent : AnyAgent) (progs : AnyList AnyProg) → AreKept agent progs self.now
            → MatchOption result (keeps self.now number ≡ false)
            (λ opened. IsKeptOf agent progs number opened.now) }
    {
        let place = self.places.get(&number)?;
        let opened = self.opened.get(*place as usize)?;
        if opened.prog == number {
            Some(opened)
        } else {
            None
        }
    }

    /// Keeps the steps and the end of the program of a number.
    fn keep(
        &mut self,
        alloc: Global,
        agent: &Agent,
        nodes: &mut Nodes,
        number: u64,
    ) -> Result<(), NoMemory>
        requires agent { WellFormed agent.now }
        requires number { number < length nodes.old }
        requires once { AreOnce nodes.old }
        requires program { IsTrue (fits agent.now (prog_at nodes.old number)) }
        requires free { has_front_block agent.now (prog_at nodes.old number) ≡ false }
        requires kept { AreKept agent.now nodes.old self.old }
        requires asked { place_in self.old number ≡ Some nothing }
        ensures kept { OnOk result (AreKept agent.now nodes.new self.new) }
        ensures visited { OnOk result (IsVisited number self.old self.new) }
        ensures keeps { OnOk result (keeps self.new number ≡ true) }
        ensures goes_on { OnOk result (GoesOn nodes.old nodes.new) }
        ensures once { OnOk result (AreOnce nodes.new) }
    {
        self.places.insert(number, self.opened.len() as u64)?;
        let opened = Opened::with_effects(alloc, agent, nodes, &mut self.effects, number)?;
        self.count = self.count.saturating_add(opened.fronts.len());
        self.opened.push(opened)?;
        Ok(())
    }

    /// The steps of the program of a number are about to be asked for. From the second time on they are kept.
    pub fn visit(
        &mut self,
        alloc: Global,
        agent: &Agent,
        nodes: &mut Nodes,
        number: u64,
    ) -> Result<(), NoMemory>
        requires agent { WellFormed agent.now }
        requires number { number < length nodes.old }
        requires once { AreOnce nodes.old }
        requires program { IsTrue (fits agent.now (prog_at nodes.old number)) }
        requires free { has_front_block agent.now (prog_at nodes.old number) ≡ false }
        requires kept { AreKept agent.now nodes.old self.old }
        ensures kept { OnOk result (AreKept agent.now nodes.new self.new) }
        ensures visited { OnOk result (IsVisited number self.old self.new) }
        ensures goes_on { OnOk result (GoesOn nodes.old nodes.new) }
        ensures once { OnOk result (AreOnce nodes.new) }
    {
        match self.places.get(&number) {
            None => {
                self.places.insert(number, NOTHING)?;
                Ok(())
            }
            Some(place) if *place == NOTHING && self.count < MOST_KEPT => {
                self.keep(alloc, agent, nodes, number)
            }
            Some(_) => Ok(()),
        }
    }
}
