// `first_move` and `first_move_with`, the first certain step of a program: the first part is asked first, and
// nothing is listed.
ghost use Rattle.std.specs.Prelude.{◌≡◌, false, IfOk, IfErr, length};
ghost use Rattle.golog_tree.specs.Ground.{ground_fluents};
ghost use Rattle.golog_fronts.specs.Closed.{IsFit, IsClosed};
ghost use Rattle.golog_ways.specs.FirstMove.{IsFirst};
ghost use Rattle.golog_ways.specs.Lacking.{StopsAt};
ghost use Rattle.golog_ways.specs.Ready.{AreReady};
ghost use Rattle.golog_ways.specs.Walks.{IsReadyWithin, IsFirstWithin, FirstStops};

use crate::answering::{Blocks, Stop};
use crate::following::Following;
use crate::here::{Here, Within};
use crate::modes::holds;
use crate::placing::{before, first_beside, over, second_beside, under};
use crate::ready::Ready;
use golog_fronts::body_of;
use golog_semantics::{Mode, Move};
use golog_tree::{Agent, Arg, Cond, Prog, Truth, Way, put_arg, sort_size};
use std::alloc::Global;

/// The first of the certain steps of a program, without listing the others, where `values` has the value of
/// each ground fluent and `blocks` tells the steps of search blocks.
pub fn first_move<B: Blocks>(
    alloc: Global,
    agent: &Agent,
    blocks: &B,
    prog: &Prog,
    values: &[u8],
) -> Result<Option<Move>, Stop>
    requires fit { IsFit agent.now }
    requires closed { IsClosed agent.now prog.now }
    requires whole { length values.now ≡ length (ground_fluents agent.now) }
    requires ready { B.ready blocks.now agent.now values.now }
    ensures first { IfOk result
        (IsFirst agent.now (B.moves blocks.now agent.now values.now) values.now prog.now) }
    ensures fuel { IfErr result
        (StopsAt agent.now (B.wants blocks.now agent.now values.now) false prog.now) }
{
    first_move_with(alloc, agent, blocks, prog, values, &[])
}

/// The same. The conditions that are made ready are asked by their checks.
pub fn first_move_with<B: Blocks>(
    alloc: Global,
    agent: &Agent,
    blocks: &B,
    prog: &Prog,
    values: &[u8],
    ready: &[Ready],
) -> Result<Option<Move>, Stop>
    requires fit { IsFit agent.now }
    requires closed { IsClosed agent.now prog.now }
    requires whole { length values.now ≡ length (ground_fluents agent.now) }
    requires ready { B.ready blocks.now agent.now values.now }
    requires checked { AreReady agent.now ready.now }
    ensures first { IfOk result
        (IsFirst agent.now (B.moves blocks.now agent.now values.now) values.now prog.now) }
    ensures fuel { IfErr result
        (StopsAt agent.now (B.wants blocks.now agent.now values.now) false prog.now) }
{
    let here = Here {
        alloc,
        agent,
        values,
        ready,
    };
    let within = Within { here, blocks };
    within.first_move(prog)
}

impl<'a, 'v, 'b, B: Blocks> Within<'a, 'v, 'b, B> {
    #[cycle(moving)]
    pub fn first_move(&self, prog: &Prog) -> Result<Option<Move>, Stop>
        requires closed { IsClosed self.now.here.agent.now prog.now }
        requires ready { IsReadyWithin B.ready self.now }
        ensures first { IfOk result (IsFirstWithin B.moves self.now prog.now) }
        ensures fuel { IfErr result (FirstStops B.wants self.now prog.now) }
    {
        match prog {
            Prog::Nil => Ok(None),
            Prog::Act { action, args } => Ok(self.here.act_move(*action, args.as_slice())),
            Prog::Test(cond) => Ok(self.here.test_move(cond)),
            Prog::Seq(one, other) => self.first_of_seq(one.get(), other.get()),
            Prog::Choice(one, other) => self.first_of_choice(one.get(), other.get()),
            Prog::Conc(one, other) => self.first_of_conc(one.get(), other.get()),
            Prog::Prio(high, low) => self.first_of_prio(high.get(), low.get()),
            Prog::If { cond, yes, no } => self.first_of_if(cond, yes.get(), no.get()),
            Prog::Pick { var, sort, body } => self.first_of_pick(*var, *sort, body.get()),
            Prog::Call { item, args } => self.first_of_call(*item, args.as_slice()),
            Prog::Star(body) => {
                let found = self.first_move(body.get())?;
                before(self.here.alloc, found, prog)
            }
            Prog::Cstar(body) => {
                let found = self.first_move(body.get())?;
                first_beside(self.here.alloc, found, prog)
            }
            Prog::While { cond, body } => {
                if holds(Mode::Must, self.here.truth(cond)) {
                    let found = self.first_move(body.get())?;
                    before(self.here.alloc, found, prog)
                } else {
                    Ok(None)
                }
            }
            Prog::Search { depth, fuel, body } => {
                self.first_of_block(*depth, *fuel, body.get(), &[])
            }
            Prog::Follow {
                depth,
                fuel,
                body,
                rest,
            } => self.first_of_block(*depth, *fuel, body.get(), rest.as_slice()),
        }
    }

    /// The first certain step of a block. One that has not begun follows nothing.
    fn first_of_block(
        &self,
        depth: u32,
        fuel: u32,
        body: &Prog,
        rest: &[Way],
    ) -> Result<Option<Move>, Stop>
        requires closed { IsClosed self.now.here.agent.now (Prog.Follow depth fuel body.now rest.now) }
        requires ready { IsReadyWithin B.ready self.now }
        ensures first { IfOk result (IsFirstWithin B.moves self.now (Prog.Follow depth fuel body.now rest.now)) }
        ensures fuel { IfErr result (FirstStops B.wants self.now (Prog.Follow depth fuel body.now rest.now)) }
    {
        let block = Following {
            depth,
            fuel,
            body,
            rest,
        };
        self.blocks
            .first(self.here.alloc, self.here.agent, self.here.values, &block)
    }

    #[cycle(moving)]
    fn first_of_seq(&self, one: &Prog, other: &Prog) -> Result<Option<Move>, Stop>
        requires closed { IsClosed self.now.here.agent.now (Prog.Seq one.now other.now) }
        requires ready { IsReadyWithin B.ready self.now }
        ensures first { IfOk result (IsFirstWithin B.moves self.now (Prog.Seq one.now other.now)) }
        ensures fuel { IfErr result (FirstStops B.wants self.now (Prog.Seq one.now other.now)) }
    {
        match self.first_move(one)? {
            Some(found) => before(self.here.alloc, Some(found), other),
            None => {
                if self.here.can_end(Mode::Must, one)? {
                    self.first_move(other)
                } else {
                    Ok(None)
                }
            }
        }
    }

    #[cycle(moving)]
    fn first_of_choice(&self, one: &Prog, other: &Prog) -> Result<Option<Move>, Stop>
        requires closed { IsClosed self.now.here.agent.now (Prog.Choice one.now other.now) }
        requires ready { IsReadyWithin B.ready self.now }
        ensures first { IfOk result (IsFirstWithin B.moves self.now (Prog.Choice one.now other.now)) }
        ensures fuel { IfErr result (FirstStops B.wants self.now (Prog.Choice one.now other.now)) }
    {
        match self.first_move(one)? {
            Some(found) => Ok(Some(found)),
            None => self.first_move(other),
        }
    }

    #[cycle(moving)]
    fn first_of_conc(&self, one: &Prog, other: &Prog) -> Result<Option<Move>, Stop>
        requires closed { IsClosed self.now.here.agent.now (Prog.Conc one.now other.now) }
        requires ready { IsReadyWithin B.ready self.now }
        ensures first { IfOk result (IsFirstWithin B.moves self.now (Prog.Conc one.now other.now)) }
        ensures fuel { IfErr result (FirstStops B.wants self.now (Prog.Conc one.now other.now)) }
    {
        match self.first_move(one)? {
            Some(found) => first_beside(self.here.alloc, Some(found), other),
            None => {
                let found = self.first_move(other)?;
                second_beside(self.here.alloc, one, found)
            }
        }
    }

    /// The lower part steps only where no step of the higher is possible.
    #[cycle(moving)]
    fn first_of_prio(&self, high: &Prog, low: &Prog) -> Result<Option<Move>, Stop>
        requires closed { IsClosed self.now.here.agent.now (Prog.Prio high.now low.now) }
        requires ready { IsReadyWithin B.ready self.now }
        ensures first { IfOk result (IsFirstWithin B.moves self.now (Prog.Prio high.now low.now)) }
        ensures fuel { IfErr result (FirstStops B.wants self.now (Prog.Prio high.now low.now)) }
    {
        match self.first_move(high)? {
            Some(found) => over(self.here.alloc, Some(found), low),
            None => {
                let reach = self.reach_of(high)?;
                if reach.holds_in(Mode::May) {
                    Ok(None)
                } else {
                    let found = self.first_move(low)?;
                    under(self.here.alloc, high, found)
                }
            }
        }
    }

    #[cycle(moving)]
    fn first_of_if(&self, cond: &Cond, yes: &Prog, no: &Prog) -> Result<Option<Move>, Stop>
        requires closed { IsClosed self.now.here.agent.now (Prog.If cond.now yes.now no.now) }
        requires ready { IsReadyWithin B.ready self.now }
        ensures first { IfOk result (IsFirstWithin B.moves self.now (Prog.If cond.now yes.now no.now)) }
        ensures fuel { IfErr result (FirstStops B.wants self.now (Prog.If cond.now yes.now no.now)) }
    {
        match self.here.truth(cond) {
            Truth::Yes => self.first_move(yes),
            Truth::No => self.first_move(no),
            Truth::Unknown => Ok(None),
        }
    }

    /// The first certain step of a program that is not needed any more.
    #[cycle(moving)]
    fn first_of(&self, prog: Prog) -> Result<Option<Move>, Stop>
        requires closed { IsClosed self.now.here.agent.now prog }
        requires ready { IsReadyWithin B.ready self.now }
        ensures first { IfOk result (IsFirstWithin B.moves self.now prog) }
        ensures fuel { IfErr result (FirstStops B.wants self.now prog) }
    {
        let first = self.first_move(&prog);
        drop(prog);
        first
    }

    #[cycle(moving)]
    fn first_of_pick(&self, var: u8, sort: u32, body: &Prog) -> Result<Option<Move>, Stop>
        requires closed { IsClosed self.now.here.agent.now (Prog.Pick var sort body.now) }
        requires ready { IsReadyWithin B.ready self.now }
        ensures first { IfOk result (IsFirstWithin B.moves self.now (Prog.Pick var sort body.now)) }
        ensures fuel { IfErr result (FirstStops B.wants self.now (Prog.Pick var sort body.now)) }
    {
        for constant in 0..sort_size(self.here.agent, sort) {
            let put = put_arg(self.here.alloc, body, var, constant as u8)?;
            let found = self.first_of(put)?;
            if let Some(found) = found {
                return Ok(Some(found));
            }
        }
        Ok(None)
    }

    #[cycle(moving)]
    fn first_of_call(&self, item: u32, args: &[Arg]) -> Result<Option<Move>, Stop>
        requires closed { IsClosed self.now.here.agent.now (Prog.Call item args.now) }
        requires ready { IsReadyWithin B.ready self.now }
        ensures first { IfOk result (IsFirstWithin B.moves self.now (Prog.Call item args.now)) }
        ensures fuel { IfErr result (FirstStops B.wants self.now (Prog.Call item args.now)) }
    {
        let body = body_of(self.here.alloc, self.here.agent, item, args)?;
        self.first_of(body)
    }
}
