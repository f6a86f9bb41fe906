// `add_blocks`: the search blocks at the front of a program, each with what it wants.
ghost use Rattle.std.specs.Prelude.{◌≡◌, ◌++◌, false, true, IfOk, IsTrue, OnOk};
ghost use Rattle.golog_semantics.specs.Blocks.{is_kept as keeps_run};
ghost use Rattle.golog_semantics.specs.InSorts.{AreInSorts};
ghost use Rattle.golog_semantics.specs.WellFormed.{WellFormed};
ghost use Rattle.golog_fronts.specs.Closed.{IsClosed};
ghost use Rattle.golog_ways.specs.Searched.{IsSearched};
ghost use Rattle.golog_trace.specs.Wanted.{block_text, blocks_text, unless_kept};

use crate::wanted::want_of;
use golog_base::{Bytes, NoMemory, add_decimal};
use golog_fronts::{body_of, may_skip};
use golog_print::print_prog;
use golog_progress::State;
use golog_semantics::Block;
use golog_tree::{Agent, Arg, Prog, Way, copy_prog, put_arg, sort_size};
use golog_ways::goes_through;
use std::alloc::Global;

/// Where the blocks at a front are told: the agent, and what is known.
#[derive(Clone, Copy)]
struct Scene<'a> {
    alloc: Global,
    agent: &'a Agent,
    state: &'a State,
}

/// The block of these parts.
fn block_of(alloc: Global, depth: u32, fuel: u32, body: &Prog) -> Result<Block, NoMemory>
    ensures { IfOk result (λ block. block ≡ record { depth = depth; fuel = fuel; body = body.now }) }
{
    let body = copy_prog(alloc, body)?;
    Ok(Block { depth, fuel, body })
}

impl<'a> Scene<'a> {
    /// Whether some run is under way, and it goes through from the state.
    fn is_kept(&self, body: &Prog, rest: &[Way]) -> Result<bool, NoMemory>
        requires agent { WellFormed self.now.agent.now }
        requires searched { IsSearched self.now.agent.now body.now self.now.state.now }
        ensures { IfOk result (λ b. b ≡ keeps_run self.now.agent.now self.now.state.now body.now rest.now) }
    {
        if rest.is_empty() {
            return Ok(false);
        }
        goes_through(self.alloc, self.agent, body, rest, self.state)
    }

    /// Adds a block and what it wants.
    fn add_block(&self, text: &mut Bytes, block: &Block) -> Result<(), NoMemory>
        requires agent { WellFormed self.now.agent.now }
        requires searched { IsSearched self.now.agent.now block.now.body self.now.state.now }
        ensures { OnOk result (text.new ≡ text.old
            ++ block_text self.now.agent.now self.now.state.now block.now) }
    {
        let shown = print_prog(self.alloc, self.agent, &block.body)?;
        let want = want_of(self.alloc, self.agent, block, self.state)?;
        text.extend(b"search ")?;
        add_decimal(text, block.depth as usize)?;
        text.extend(b" ")?;
        add_decimal(text, block.fuel as usize)?;
        text.extend(b" ")?;
        text.extend(shown.as_slice())?;
        text.extend(b" ")?;
        text.extend(want.words())?;
        text.extend(b"\n")
    }

    /// Adds a block of these parts.
    fn add_search(
        &self,
        text: &mut Bytes,
        depth: u32,
        fuel: u32,
        body: &Prog,
    ) -> Result<(), NoMemory>
        requires agent { WellFormed self.now.agent.now }
        requires searched { IsSearched self.now.agent.now body.now self.now.state.now }
        ensures { OnOk result (text.new ≡ text.old ++ block_text self.now.agent.now self.now.state.now
            (record { depth = depth; fuel = fuel; body = body.now })) }
    {
        let block = block_of(self.alloc, depth, fuel, body)?;
        let added = self.add_block(text, &block);
        drop(block);
        added
    }

    /// Adds a block of these parts, unless it follows a run that goes through.
    fn add_follow(
        &self,
        text: &mut Bytes,
        depth: u32,
        fuel: u32,
        body: &Prog,
        rest: &[Way],
    ) -> Result<(), NoMemory>
        requires agent { WellFormed self.now.agent.now }
        requires searched { IsSearched self.now.agent.now body.now self.now.state.now }
        ensures { OnOk result (text.new ≡ text.old ++ unless_kept self.now.agent.now self.now.state.now
            (record { depth = depth; fuel = fuel; body = body.now }) rest.now) }
    {
        if self.is_kept(body, rest)? {
            return Ok(());
        }
        self.add_search(text, depth, fuel, body)
    }

    /// Adds the blocks at the front of a program, which stands in the higher part of a `prio` or does not.
    #[cycle(adding)]
    fn add(&self, text: &mut Bytes, prog: &Prog, higher: bool) -> Result<(), NoMemory>
        requires agent { WellFormed self.now.agent.now }
        requires closed { IsClosed self.now.agent.now prog.now }
        requires sorts { AreInSorts self.now.agent.now self.now.state.now }
        ensures { OnOk result (text.new ≡ text.old
            ++ blocks_text self.now.agent.now self.now.state.now higher prog.now) }
    {
        match prog {
            Prog::Nil => Ok(()),
            Prog::Act { .. } => Ok(()),
            Prog::Test(_) => Ok(()),
            Prog::Seq(one, other) => self.add_in_seq(text, one.get(), other.get(), higher),
            Prog::Choice(one, other) => self.add_both(text, one.get(), other.get(), higher),
            Prog::If { yes, no, .. } => self.add_both(text, yes.get(), no.get(), higher),
            Prog::Conc(one, other) => self.add_both(text, one.get(), other.get(), higher),
            Prog::Prio(high, low) => self.add_in_prio(text, high.get(), low.get(), higher),
            Prog::Pick { var, sort, body } => {
                self.add_in_pick(text, *var, *sort, body.get(), higher)
            }
            Prog::Star(body) => self.add(text, body.get(), higher),
            Prog::Cstar(body) => self.add(text, body.get(), higher),
            Prog::While { body, .. } => self.add(text, body.get(), higher),
            Prog::Call { item, args } => self.add_in_call(text, *item, args.as_slice(), higher),
            Prog::Search { depth, fuel, body } => self.add_search(text, *depth, *fuel, body.get()),
            Prog::Follow {
                depth,
                fuel,
                body,
                rest,
            } => {
                let body = body.get();
                let rest = rest.as_slice();
                self.add_follow(text, *depth, *fuel, body, rest)
            }
        }
    }

    /// Adds the blocks at the front of one program and then those of the other.
    #[cycle(adding)]
    fn add_both(
        &self,
        text: &mut Bytes,
        one: &Prog,
        other: &Prog,
        higher: bool,
    ) -> Result<(), NoMemory>
        requires agent { WellFormed self.now.agent.now }
        requires one { IsClosed self.now.agent.now one.now }
        requires other { IsClosed self.now.agent.now other.now }
        requires sorts { AreInSorts self.now.agent.now self.now.state.now }
        ensures { OnOk result (text.new ≡ text.old
            ++ blocks_text self.now.agent.now self.now.state.now higher one.now
            ++ blocks_text self.now.agent.now self.now.state.now higher other.now) }
    {
        self.add(text, one, higher)?;
        self.add(text, other, higher)
    }

    /// The same of the two parts of a `prio`.
    #[cycle(adding)]
    fn add_in_prio(
        &self,
        text: &mut Bytes,
        high: &Prog,
        low: &Prog,
        higher: bool,
    ) -> Result<(), NoMemory>
        requires agent { WellFormed self.now.agent.now }
        requires high { IsClosed self.now.agent.now high.now }
        requires low { IsClosed self.now.agent.now low.now }
        requires sorts { AreInSorts self.now.agent.now self.now.state.now }
        ensures { OnOk result (text.new ≡ text.old
            ++ blocks_text self.now.agent.now self.now.state.now true high.now
            ++ blocks_text self.now.agent.now self.now.state.now higher low.now) }
    {
        self.add(text, high, true)?;
        self.add(text, low, higher)
    }

    /// The second part stands at the front only where the first may be skipped.
    #[cycle(adding)]
    fn add_in_seq(
        &self,
        text: &mut Bytes,
        one: &Prog,
        other: &Prog,
        higher: bool,
    ) -> Result<(), NoMemory>
        requires agent { WellFormed self.now.agent.now }
        requires closed { IsClosed self.now.agent.now (Prog.Seq one.now other.now) }
        requires sorts { AreInSorts self.now.agent.now self.now.state.now }
        ensures { OnOk result (text.new ≡ text.old
            ++ blocks_text self.now.agent.now self.now.state.now higher (Prog.Seq one.now other.now)) }
    {
        if may_skip(self.agent, one) {
            self.add_both(text, one, other, higher)
        } else {
            self.add(text, one, higher)
        }
    }

    /// The same of a program that is not needed any more.
    #[cycle(adding)]
    fn add_put(&self, text: &mut Bytes, prog: Prog, higher: bool) -> Result<(), NoMemory>
        requires agent { WellFormed self.now.agent.now }
        requires closed { IsClosed self.now.agent.now prog }
        requires sorts { AreInSorts self.now.agent.now self.now.state.now }
        ensures { OnOk result (text.new ≡ text.old
            ++ blocks_text self.now.agent.now self.now.state.now higher prog) }
    {
        let added = self.add(text, &prog, higher);
        drop(prog);
        added
    }

    /// Each constant of the sort is put in.
    #[cycle(adding)]
    fn add_in_pick(
        &self,
        text: &mut Bytes,
        var: u8,
        sort: u32,
        body: &Prog,
        higher: bool,
    ) -> Result<(), NoMemory>
        requires agent { WellFormed self.now.agent.now }
        requires closed { IsClosed self.now.agent.now (Prog.Pick var sort body.now) }
        requires sorts { AreInSorts self.now.agent.now self.now.state.now }
        ensures { OnOk result (text.new ≡ text.old
            ++ blocks_text self.now.agent.now self.now.state.now higher (Prog.Pick var sort body.now)) }
    {
        for constant in 0..sort_size(self.agent, sort) {
            let put = put_arg(self.alloc, body, var, constant as u8)?;
            self.add_put(text, put, higher)?;
        }
        Ok(())
    }

    /// A call begins with the body.
    #[cycle(adding)]
    fn add_in_call(
        &self,
        text: &mut Bytes,
        item: u32,
        args: &[Arg],
        higher: bool,
    ) -> Result<(), NoMemory>
        requires agent { WellFormed self.now.agent.now }
        requires closed { IsClosed self.now.agent.now (Prog.Call item args.now) }
        requires sorts { AreInSorts self.now.agent.now self.now.state.now }
        ensures { OnOk result (text.new ≡ text.old
            ++ blocks_text self.now.agent.now self.now.state.now higher (Prog.Call item args.now)) }
    {
        let body = body_of(self.alloc, self.agent, item, args)?;
        self.add_put(text, body, higher)
    }
}

/// What is said of the search blocks at the front of a program, in order: each with what it wants in the state. A run that
/// is under way and goes through is no block here.
pub fn blocks_text(
    alloc: Global,
    agent: &Agent,
    prog: &Prog,
    state: &State,
) -> Result<Bytes, NoMemory>
    requires formed { WellFormed agent.now }
    requires program { IsClosed agent.now prog.now }
    requires sorts { AreInSorts agent.now state.now }
    ensures { IfOk result (λ text. text ≡ blocks_text agent.now state.now false prog.now) }
{
    let scene = Scene {
        alloc,
        agent,
        state,
    };
    let mut text = Bytes::new(alloc);
    scene.add(&mut text, prog, false)?;
    Ok(text)
}
