// `reach_of`: in which modes a program has a step, part by part.
ghost use Rattle.std.specs.Prelude.{◌≡◌, true, IfOk, IfErr, length};
ghost use Rattle.golog_tree.specs.Ground.{ground_fluents};
ghost use Rattle.golog_fronts.specs.Closed.{IsFit, IsClosed};
ghost use Rattle.golog_ways.specs.Lacking.{StopsAt};
ghost use Rattle.golog_ways.specs.Reach.{IsReach};
ghost use Rattle.golog_ways.specs.Walks.{IsReadyWithin, IsReachWithin, IsReachOfEitherWithin, IsReachOrWithin, ReachStops, ReachStopsAtEither};

use crate::answering::{Blocks, Stop};
use crate::following::Following;
use crate::here::{Here, Within};
use crate::modes::holds;
use crate::reaches::{NOWHERE, Reach};
use golog_fronts::body_of;
use golog_known::negation;
use golog_semantics::Mode;
use golog_tree::{Agent, Arg, Cond, Prog, Truth, Way, put_arg, sort_size};
use std::alloc::Global;

/// In which modes a program has a step, where `values` has the value of each ground fluent and `blocks` tells
/// the steps of search blocks.
pub fn reach_of<B: Blocks>(
    alloc: Global,
    agent: &Agent,
    blocks: &B,
    prog: &Prog,
    values: &[u8],
) -> Result<Reach, Stop>
    requires fit { IsFit agent.now }
    requires closed { IsClosed agent.now prog.now }
    requires whole { length values.now ≡ length (ground_fluents agent.now) }
    requires ready { B.ready blocks.now agent.now values.now }
    ensures reach { IfOk result
        (IsReach agent.now (B.moves blocks.now agent.now values.now) values.now prog.now) }
    ensures fuel { IfErr result
        (StopsAt agent.now (B.wants blocks.now agent.now values.now) true prog.now) }
{
    let here = Here {
        alloc,
        agent,
        values,
        ready: &[],
    };
    let within = Within { here, blocks };
    within.reach_of(prog)
}

impl<'a, 'v, 'b, B: Blocks> Within<'a, 'v, 'b, B> {
    #[cycle(reach)]
    pub fn reach_of(&self, prog: &Prog) -> Result<Reach, Stop>
        requires closed { IsClosed self.now.here.agent.now prog.now }
        requires ready { IsReadyWithin B.ready self.now }
        ensures reach { IfOk result (IsReachWithin B.moves self.now prog.now) }
        ensures fuel { IfErr result (ReachStops B.wants self.now prog.now) }
    {
        match prog {
            Prog::Nil => Ok(NOWHERE),
            Prog::Act { action, args } => {
                Ok(Reach::of(self.here.precondition(*action, args.as_slice())))
            }
            Prog::Test(cond) => Ok(Reach::of(self.here.truth(cond))),
            Prog::Seq(one, other) => self.reach_of_seq(one.get(), other.get()),
            Prog::Choice(one, other) => self.reach_of_either(one.get(), other.get()),
            Prog::Conc(one, other) => self.reach_of_either(one.get(), other.get()),
            Prog::Prio(high, low) => self.reach_of_prio(high.get(), low.get()),
            Prog::Star(body) => self.reach_of(body.get()),
            Prog::Cstar(body) => self.reach_of(body.get()),
            Prog::If { cond, yes, no } => self.reach_of_if(cond, yes.get(), no.get()),
            Prog::While { cond, body } => self.reach_of_while(cond, body.get()),
            Prog::Pick { var, sort, body } => self.reach_of_pick(*var, *sort, body.get()),
            Prog::Call { item, args } => self.reach_of_call(*item, args.as_slice()),
            Prog::Search { depth, fuel, body } => {
                self.reach_of_block(*depth, *fuel, body.get(), &[])
            }
            Prog::Follow {
                depth,
                fuel,
                body,
                rest,
            } => self.reach_of_block(*depth, *fuel, body.get(), rest.as_slice()),
        }
    }

    /// In which modes a block has a step. One that has not begun follows nothing.
    fn reach_of_block(
        &self,
        depth: u32,
        fuel: u32,
        body: &Prog,
        rest: &[Way],
    ) -> Result<Reach, Stop>
        requires closed { IsClosed self.now.here.agent.now (Prog.Follow depth fuel body.now rest.now) }
        requires ready { IsReadyWithin B.ready self.now }
        ensures reach { IfOk result (IsReachWithin B.moves self.now (Prog.Follow depth fuel body.now rest.now)) }
        ensures fuel { IfErr result (ReachStops B.wants self.now (Prog.Follow depth fuel body.now rest.now)) }
    {
        let block = Following {
            depth,
            fuel,
            body,
            rest,
        };
        self.blocks
            .reach(self.here.alloc, self.here.agent, self.here.values, &block)
    }

    /// In which modes one of two programs has a step. Where the first certainly has one, the second isn't asked.
    #[cycle(reach)]
    fn reach_of_either(&self, one: &Prog, other: &Prog) -> Result<Reach, Stop>
        requires one { IsClosed self.now.here.agent.now one.now }
        requires other { IsClosed self.now.here.agent.now other.now }
        requires ready { IsReadyWithin B.ready self.now }
        ensures reach { IfOk result (IsReachOfEitherWithin B.moves self.now one.now other.now) }
        ensures fuel { IfErr result (ReachStopsAtEither B.wants self.now one.now other.now) }
    {
        let reach = self.reach_of(one)?;
        self.reach_or(reach, Truth::Yes, other)
    }

    /// Where the higher part has a near step and a possible one, the lower part isn't asked.
    #[cycle(reach)]
    fn reach_of_prio(&self, high: &Prog, low: &Prog) -> Result<Reach, Stop>
        requires closed { IsClosed self.now.here.agent.now (Prog.Prio high.now low.now) }
        requires ready { IsReadyWithin B.ready self.now }
        ensures reach { IfOk result (IsReachWithin B.moves self.now (Prog.Prio high.now low.now)) }
        ensures fuel { IfErr result (ReachStops B.wants self.now (Prog.Prio high.now low.now)) }
    {
        let high = self.reach_of(high)?;
        if high.is_settled(Truth::Unknown) {
            Ok(high)
        } else {
            let low = self.reach_of(low)?;
            Ok(high.over(low))
        }
    }

    /// Where the first part can't end, or certainly has a step, the second isn't asked.
    #[cycle(reach)]
    fn reach_of_seq(&self, one: &Prog, other: &Prog) -> Result<Reach, Stop>
        requires closed { IsClosed self.now.here.agent.now (Prog.Seq one.now other.now) }
        requires ready { IsReadyWithin B.ready self.now }
        ensures reach { IfOk result (IsReachWithin B.moves self.now (Prog.Seq one.now other.now)) }
        ensures fuel { IfErr result (ReachStops B.wants self.now (Prog.Seq one.now other.now)) }
    {
        let reach = self.reach_of(one)?;
        if reach.is_settled(Truth::Yes) {
            return Ok(reach);
        }
        let ends = self.here.ends_of(one)?;
        if holds(Mode::May, ends) {
            self.reach_or(reach, ends, other)
        } else {
            Ok(reach)
        }
    }

    /// The reach so far, together with that of a program where a condition of this truth holds. The program isn't
    /// asked where nothing comes of it.
    #[cycle(reach)]
    fn reach_or(&self, so_far: Reach, truth: Truth, prog: &Prog) -> Result<Reach, Stop>
        requires closed { IsClosed self.now.here.agent.now prog.now }
        requires ready { IsReadyWithin B.ready self.now }
        ensures reach { IfOk result (IsReachOrWithin B.moves self.now so_far truth prog.now) }
        ensures fuel { IfErr result (ReachStops B.wants self.now prog.now) }
    {
        if so_far.is_settled(truth) {
            Ok(so_far)
        } else {
            let reach = self.reach_of(prog)?;
            Ok(so_far.or(reach.where_holds(truth)))
        }
    }

    #[cycle(reach)]
    fn reach_of_if(&self, cond: &Cond, yes: &Prog, no: &Prog) -> Result<Reach, Stop>
        requires closed { IsClosed self.now.here.agent.now (Prog.If cond.now yes.now no.now) }
        requires ready { IsReadyWithin B.ready self.now }
        ensures reach { IfOk result (IsReachWithin B.moves self.now (Prog.If cond.now yes.now no.now)) }
        ensures fuel { IfErr result (ReachStops B.wants self.now (Prog.If cond.now yes.now no.now)) }
    {
        let is_so = self.here.truth(cond);
        let yes = self.reach_or(NOWHERE, is_so, yes)?;
        self.reach_or(yes, negation(is_so), no)
    }

    #[cycle(reach)]
    fn reach_of_while(&self, cond: &Cond, body: &Prog) -> Result<Reach, Stop>
        requires closed { IsClosed self.now.here.agent.now (Prog.While cond.now body.now) }
        requires ready { IsReadyWithin B.ready self.now }
        ensures reach { IfOk result (IsReachWithin B.moves self.now (Prog.While cond.now body.now)) }
        ensures fuel { IfErr result (ReachStops B.wants self.now (Prog.While cond.now body.now)) }
    {
        let is_so = self.here.truth(cond);
        self.reach_or(NOWHERE, is_so, body)
    }

    /// The reach of a program that is not needed any more.
    #[cycle(reach)]
    fn reach_of_put(&self, prog: Prog) -> Result<Reach, Stop>
        requires closed { IsClosed self.now.here.agent.now prog }
        requires ready { IsReadyWithin B.ready self.now }
        ensures reach { IfOk result (IsReachWithin B.moves self.now prog) }
        ensures fuel { IfErr result (ReachStops B.wants self.now prog) }
    {
        let reach = self.reach_of(&prog);
        drop(prog);
        reach
    }

    #[cycle(reach)]
    fn reach_of_pick(&self, var: u8, sort: u32, body: &Prog) -> Result<Reach, Stop>
        requires closed { IsClosed self.now.here.agent.now (Prog.Pick var sort body.now) }
        requires ready { IsReadyWithin B.ready self.now }
        ensures reach { IfOk result (IsReachWithin B.moves self.now (Prog.Pick var sort body.now)) }
        ensures fuel { IfErr result (ReachStops B.wants self.now (Prog.Pick var sort body.now)) }
    {
        let mut some = NOWHERE;
        for constant in 0..sort_size(self.here.agent, sort) {
            let put = put_arg(self.here.alloc, body, var, constant as u8)?;
            let one = self.reach_of_put(put)?;
            some = some.or(one);
            if some.is_settled(Truth::Yes) {
                return Ok(some);
            }
        }
        Ok(some)
    }

    #[cycle(reach)]
    fn reach_of_call(&self, item: u32, args: &[Arg]) -> Result<Reach, Stop>
        requires closed { IsClosed self.now.here.agent.now (Prog.Call item args.now) }
        requires ready { IsReadyWithin B.ready self.now }
        ensures reach { IfOk result (IsReachWithin B.moves self.now (Prog.Call item args.now)) }
        ensures fuel { IfErr result (ReachStops B.wants self.now (Prog.Call item args.now)) }
    {
        let body = body_of(self.here.alloc, self.here.agent, item, args)?;
        self.reach_of_put(body)
    }
}
