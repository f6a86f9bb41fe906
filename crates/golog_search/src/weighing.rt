// Whether some search block at the front of a program weighs: it may keep the program from an
// answer.
ghost use Rattle.std.specs.Prelude.{◌≡◌, ◌||◌, IfOk, IsTrue, not, true};
ghost use Rattle.std.specs.List.{list_any};
ghost use Rattle.golog_semantics.specs.BlockFree.{has_block};
ghost use Rattle.golog_semantics.specs.Blocks.{is_kept as keeps_run};
ghost use Rattle.golog_semantics.specs.Heavy.{front_blocks, is_above};
ghost use Rattle.golog_semantics.specs.ProgFits.{fits};
ghost use Rattle.golog_semantics.specs.InSorts.{AreInSorts};
ghost use Rattle.golog_semantics.specs.WellFormed.{WellFormed};
ghost use Rattle.golog_fronts.specs.Closed.{IsClosed};
ghost use Rattle.golog_find.specs.Finding.{mode_of};
ghost use Rattle.golog_ways.specs.Searched.{IsSearched};
ghost use Rattle.golog_search.specs.Weighing.{lacks_fuel as lacks, some_weighs as weighs_some};
ghost use Rattle.golog_search.specs.Weighing.{weighs_by, weighs_unless_kept};

use crate::block_steps::{block_of, is_kept};
use golog_base::NoMemory;
use golog_find::{Found, find};
use golog_progress::State;
use golog_semantics::Block;
use golog_tree::{Agent, Arg, Prog, Way, put_arg, sort_size};
use golog_ways::{body_of, may_skip};
use std::alloc::Global;

/// Where the blocks at a front are weighed: the agent, what is known, and whether the program is stepless, which
/// is to say has no certain step.
#[derive(Clone, Copy)]
struct Standing<'a> {
    alloc: Global,
    agent: &'a Agent,
    state: &'a State,
    stepless: bool,
}

/// Whether a search wants more than the fuel.
fn lacks_fuel(found: &Found) -> bool
    ensures { result ≡ lacks found.now }
{
    match found {
        Found::Run(_) => false,
        Found::Absent { .. } => false,
        Found::Fuel => true,
    }
}

impl<'a> Standing<'a> {
    /// Whether the search of a block wants more than the fuel, in mode `Must` where the run is to be certain,
    /// else in mode `Near`.
    fn wants_more(&self, block: &Block, certain: bool) -> Result<bool, NoMemory>
        requires agent { WellFormed self.now.agent.now }
        requires program { IsTrue (fits self.now.agent.now block.now.body) }
        requires blockless { IsTrue (not (has_block self.now.agent.now block.now.body)) }
        requires sorts { AreInSorts self.now.agent.now self.now.state.now }
        ensures { IfOk result (λ b. b ≡ is_above self.now.agent.now self.now.state.now (mode_of certain) block.now) }
    {
        let found = find(self.alloc, self.agent, block, self.state, certain)?;
        Ok(lacks_fuel(&found))
    }

    /// Whether a block may keep the program from an answer, which stands in the higher part of a `prio` or does
    /// not.
    fn block_weighs(&self, block: &Block, higher: bool) -> Result<bool, NoMemory>
        requires agent { WellFormed self.now.agent.now }
        requires program { IsTrue (fits self.now.agent.now block.now.body) }
        requires blockless { IsTrue (not (has_block self.now.agent.now block.now.body)) }
        requires sorts { AreInSorts self.now.agent.now self.now.state.now }
        ensures { IfOk result (λ b. b ≡ weighs_by self.now.agent.now self.now.state.now self.now.stepless
            (record { block = block.now; is_higher = higher })) }
    {
        if self.wants_more(block, true)? {
            Ok(true)
        } else if self.stepless || higher {
            self.wants_more(block, false)
        } else {
            Ok(false)
        }
    }

    /// Whether a block of these parts weighs.
    fn search_weighs(
        &self,
        depth: u32,
        fuel: u32,
        body: &Prog,
        higher: bool,
    ) -> Result<bool, NoMemory>
        requires agent { WellFormed self.now.agent.now }
        requires searched { IsSearched self.now.agent.now body.now self.now.state.now }
        ensures { IfOk result (λ b. b ≡ weighs_by self.now.agent.now self.now.state.now self.now.stepless
            (record {
              block = record { depth = depth; fuel = fuel; body = body.now };
              is_higher = higher;
            })) }
    {
        let block = block_of(self.alloc, depth, fuel, body)?;
        let weighs = self.block_weighs(&block, higher);
        drop(block);
        weighs
    }

    /// Whether a block of these parts weighs, unless it follows a run that goes through, when it does not.
    fn follow_weighs(
        &self,
        depth: u32,
        fuel: u32,
        body: &Prog,
        rest: &[Way],
        higher: bool,
    ) -> Result<bool, NoMemory>
        requires agent { WellFormed self.now.agent.now }
        requires searched { IsSearched self.now.agent.now body.now self.now.state.now }
        ensures { IfOk result (λ b. b
            ≡ weighs_unless_kept self.now.agent.now self.now.state.now self.now.stepless higher
            (record { depth = depth; fuel = fuel; body = body.now }) rest.now) }
    {
        if is_kept(self.alloc, self.agent, body, rest, self.state, &[])? {
            Ok(false)
        } else {
            self.search_weighs(depth, fuel, body, higher)
        }
    }

    /// Whether some block at the front of a program weighs, which stands in the higher part of a `prio` or does
    /// not.
    #[cycle(weighing)]
    fn some_weighs(&self, prog: &Prog, higher: bool) -> Result<bool, NoMemory>
        requires agent { WellFormed self.now.agent.now }
        requires closed { IsClosed self.now.agent.now prog.now }
        requires sorts { AreInSorts self.now.agent.now self.now.state.now }
        ensures { IfOk result (λ b. b
            ≡ weighs_some self.now.agent.now self.now.state.now self.now.stepless higher prog.now) }
    {
        match prog {
            Prog::Nil => Ok(false),
            Prog::Act { .. } => Ok(false),
            Prog::Test(_) => Ok(false),
            Prog::Seq(one, other) => self.weighs_in_seq(one.get(), other.get(), higher),
            Prog::Choice(one, other) => self.either_weighs(one.get(), other.get(), higher),
            Prog::If { yes, no, .. } => self.either_weighs(yes.get(), no.get(), higher),
            Prog::Conc(one, other) => self.either_weighs(one.get(), other.get(), higher),
            Prog::Prio(high, low) => self.weighs_in_prio(high.get(), low.get(), higher),
            Prog::Pick { var, sort, body } => self.weighs_in_pick(*var, *sort, body.get(), higher),
            Prog::Star(body) => self.some_weighs(body.get(), higher),
            Prog::Cstar(body) => self.some_weighs(body.get(), higher),
            Prog::While { body, .. } => self.some_weighs(body.get(), higher),
            Prog::Call { item, args } => self.weighs_in_call(*item, args.as_slice(), higher),
            Prog::Search { depth, fuel, body } => {
                self.search_weighs(*depth, *fuel, body.get(), higher)
            }
            Prog::Follow {
                depth,
                fuel,
                body,
                rest,
            } => {
                let body = body.get();
                let rest = rest.as_slice();
                self.follow_weighs(*depth, *fuel, body, rest, higher)
            }
        }
    }

    /// Whether some block weighs at the front of one program or the other.
    #[cycle(weighing)]
    fn either_weighs(&self, one: &Prog, other: &Prog, higher: bool) -> Result<bool, NoMemory>
        requires agent { WellFormed self.now.agent.now }
        requires one { IsClosed self.now.agent.now one.now }
        requires other { IsClosed self.now.agent.now other.now }
        requires sorts { AreInSorts self.now.agent.now self.now.state.now }
        ensures { IfOk result (λ b. b ≡
            (weighs_some self.now.agent.now self.now.state.now self.now.stepless higher one.now
            || weighs_some self.now.agent.now self.now.state.now self.now.stepless higher other.now)) }
    {
        if self.some_weighs(one, higher)? {
            Ok(true)
        } else {
            self.some_weighs(other, higher)
        }
    }

    /// The same of the two parts of a `prio`.
    #[cycle(weighing)]
    fn weighs_in_prio(&self, high: &Prog, low: &Prog, higher: bool) -> Result<bool, NoMemory>
        requires agent { WellFormed self.now.agent.now }
        requires high { IsClosed self.now.agent.now high.now }
        requires low { IsClosed self.now.agent.now low.now }
        requires sorts { AreInSorts self.now.agent.now self.now.state.now }
        ensures { IfOk result (λ b. b
            ≡ (weighs_some self.now.agent.now self.now.state.now self.now.stepless true high.now
            || weighs_some self.now.agent.now self.now.state.now self.now.stepless higher low.now)) }
    {
        if self.some_weighs(high, true)? {
            Ok(true)
        } else {
            self.some_weighs(low, higher)
        }
    }

    /// The second part stands at the front only where the first may be skipped.
    #[cycle(weighing)]
    fn weighs_in_seq(&self, one: &Prog, other: &Prog, higher: bool) -> Result<bool, NoMemory>
        requires agent { WellFormed self.now.agent.now }
        requires closed { IsClosed self.now.agent.now (Prog.Seq one.now other.now) }
        requires sorts { AreInSorts self.now.agent.now self.now.state.now }
        ensures { IfOk result (λ b. b
            ≡ weighs_some self.now.agent.now self.now.state.now self.now.stepless higher
            (Prog.Seq one.now other.now)) }
    {
        if may_skip(self.agent, one) {
            self.either_weighs(one, other, higher)
        } else {
            self.some_weighs(one, higher)
        }
    }

    /// The same of a program that is not needed any more.
    #[cycle(weighing)]
    fn weighs_in(&self, prog: Prog, higher: bool) -> Result<bool, NoMemory>
        requires agent { WellFormed self.now.agent.now }
        requires closed { IsClosed self.now.agent.now prog }
        requires sorts { AreInSorts self.now.agent.now self.now.state.now }
        ensures { IfOk result (λ b. b
            ≡ weighs_some self.now.agent.now self.now.state.now self.now.stepless higher prog) }
    {
        let weighs = self.some_weighs(&prog, higher);
        drop(prog);
        weighs
    }

    /// Each constant of the sort is put in.
    #[cycle(weighing)]
    fn weighs_in_pick(
        &self,
        var: u8,
        sort: u32,
        body: &Prog,
        higher: bool,
    ) -> Result<bool, NoMemory>
        requires agent { WellFormed self.now.agent.now }
        requires closed { IsClosed self.now.agent.now (Prog.Pick var sort body.now) }
        requires sorts { AreInSorts self.now.agent.now self.now.state.now }
        ensures { IfOk result (λ b. b
            ≡ weighs_some self.now.agent.now self.now.state.now self.now.stepless higher
            (Prog.Pick var sort body.now)) }
    {
        for constant in 0..sort_size(self.agent, sort) {
            let put = put_arg(self.alloc, body, var, constant as u8)?;
            if self.weighs_in(put, higher)? {
                return Ok(true);
            }
        }
        Ok(false)
    }

    /// A call begins with the body.
    #[cycle(weighing)]
    fn weighs_in_call(&self, item: u32, args: &[Arg], higher: bool) -> Result<bool, NoMemory>
        requires agent { WellFormed self.now.agent.now }
        requires closed { IsClosed self.now.agent.now (Prog.Call item args.now) }
        requires sorts { AreInSorts self.now.agent.now self.now.state.now }
        ensures { IfOk result (λ b. b
            ≡ weighs_some self.now.agent.now self.now.state.now self.now.stepless higher
            (Prog.Call item args.now)) }
    {
        let body = body_of(self.alloc, self.agent, item, args)?;
        self.weighs_in(body, higher)
    }
}

/// Whether some search block at the front of a program may keep it from an answer, where the program is
/// stepless, which is to say has no certain step, or is not. `NoMemory` where none is left for the searches,
/// or for the bodies of picks and calls, with constants put in.
pub fn some_block_weighs(
    alloc: Global,
    agent: &Agent,
    prog: &Prog,
    state: &State,
    stepless: bool,
) -> Result<bool, NoMemory>
    requires agent { WellFormed agent.now }
    requires program { IsTrue (fits agent.now prog.now) }
    requires sorts { AreInSorts agent.now state.now }
    ensures { IfOk result (λ b. b ≡ list_any (weighs_by agent.now state.now stepless)
        (front_blocks agent.now state.now prog.now)) }
{
    let standing = Standing {
        alloc,
        agent,
        state,
        stepless,
    };
    standing.some_weighs(prog, false)
}
