// `fronts`: the steps of a program with their conditions, in order.
ghost use Rattle.std.specs.Prelude.{◌≡◌, false, All, IfOk, IsTrue};
ghost use Rattle.golog_semantics.specs.Fronts.{AreFronts};
ghost use Rattle.golog_semantics.specs.WellFormed.{WellFormed};
ghost use Rattle.golog_fronts.specs.Closed.{IsClosed};
ghost use Rattle.golog_fronts.specs.FrontBlock.{has_front_block};
ghost use Rattle.golog_fronts.specs.FrontLists.{AreAllFronts, AreBothFronts, AreClosedFronts};
ghost use Rattle.golog_fronts.specs.FrontLists.{are_closed, guarded};
ghost use Rattle.golog_fronts.specs.Lefts.{LeavesClosed};

use crate::blocks::may_skip;
use crate::bodies::body_of;
use crate::context::Place;
use crate::front_lists::{Front, fronts_at, joined};
use crate::here::Fit;
use crate::laying::{
    act_front, either_way, in_sequence, one_over_other, side_by_side, test_front, while_holds,
};
use golog_base::{List, NoMemory, both};
use golog_tree::{Agent, Arg, Prog, put_arg, sort_size};
use std::alloc::Global;

impl<'a> Fit<'a> {
    /// The steps of a program with their conditions, in order.
    #[cycle(opening)]
    fn fronts_of(&self, prog: &Prog) -> Result<List<Front>, NoMemory>
        requires { IsClosed self.now.agent.now prog.now }
        ensures { IfOk result (AreClosedFronts self.now.agent.now prog.now) }
    {
        match prog {
            Prog::Nil => Ok(List::new(self.alloc)),
            Prog::Act { action, args } => act_front(
                self.alloc,
                self.agent,
                *action,
                args.as_slice(),
            ),
            Prog::Test(cond) => test_front(self.alloc, cond),
            Prog::Seq(one, other) => self.fronts_of_seq(one.get(), other.get()),
            Prog::Choice(one, other) => {
                let (ones, others) = self.fronts_of_both(one.get(), other.get())?;
                joined(ones, others)
            }
            Prog::Conc(one, other) => self.fronts_of_conc(one.get(), other.get()),
            Prog::Prio(high, low) => self.fronts_of_prio(high.get(), low.get()),
            Prog::If { cond, yes, no } => {
                let (yes, no) = self.fronts_of_both(yes.get(), no.get())?;
                either_way(self.alloc, cond, yes, no)
            }
            Prog::While { cond, body } => {
                let steps = self.fronts_of(body.get())?;
                while_holds(self.alloc, cond, steps, prog)
            }
            Prog::Star(body) => {
                let steps = self.fronts_of(body.get())?;
                fronts_at(self.alloc, Place::Before, steps.as_slice(), prog)
            }
            Prog::Cstar(body) => {
                let steps = self.fronts_of(body.get())?;
                fronts_at(self.alloc, Place::FirstBeside, steps.as_slice(), prog)
            }
            Prog::Pick { var, sort, body } => self.fronts_of_pick(*var, *sort, body.get()),
            Prog::Call { item, args } => self.fronts_of_call(*item, args.as_slice()),
            Prog::Search { .. } => Ok(List::new(self.alloc)),
            Prog::Follow { .. } => Ok(List::new(self.alloc)),
        }
    }

    #[cycle(opening)]
    fn fronts_of_both(
        &self,
        one: &Prog,
        other: &Prog,
    ) -> Result<(List<Front>, List<Front>), NoMemory>
        requires one { IsClosed self.now.agent.now one.now }
        requires other { IsClosed self.now.agent.now other.now }
        ensures { IfOk result (λ pair. AreBothFronts self.now.agent.now one.now other.now pair.0 pair.1) }
    {
        let ones = self.fronts_of(one);
        let others = self.fronts_of(other);
        both(ones, others)
    }

    /// The second part isn't looked at where the first never ends without a step.
    #[cycle(opening)]
    fn fronts_of_seq(&self, one: &Prog, other: &Prog) -> Result<List<Front>, NoMemory>
        requires { IsClosed self.now.agent.now (Prog.Seq one.now other.now) }
        ensures { IfOk result (AreClosedFronts self.now.agent.now (Prog.Seq one.now other.now)) }
    {
        if may_skip(self.agent, one) {
            let (ones, others) = self.fronts_of_both(one, other)?;
            in_sequence(self.alloc, self.agent, ones, others, one, other)
        } else {
            let steps = self.fronts_of(one)?;
            fronts_at(self.alloc, Place::Before, steps.as_slice(), other)
        }
    }

    #[cycle(opening)]
    fn fronts_of_conc(&self, one: &Prog, other: &Prog) -> Result<List<Front>, NoMemory>
        requires { IsClosed self.now.agent.now (Prog.Conc one.now other.now) }
        ensures { IfOk result (AreClosedFronts self.now.agent.now (Prog.Conc one.now other.now)) }
    {
        let (ones, others) = self.fronts_of_both(one, other)?;
        side_by_side(self.alloc, ones, others, one, other)
    }

    #[cycle(opening)]
    fn fronts_of_prio(&self, high: &Prog, low: &Prog) -> Result<List<Front>, NoMemory>
        requires { IsClosed self.now.agent.now (Prog.Prio high.now low.now) }
        ensures { IfOk result (AreClosedFronts self.now.agent.now (Prog.Prio high.now low.now)) }
    {
        let (highs, lows) = self.fronts_of_both(high, low)?;
        one_over_other(self.alloc, highs, lows, high, low)
    }

    /// The fronts of a program that is not needed any more.
    #[cycle(opening)]
    fn fronts_of_put(&self, prog: Prog) -> Result<List<Front>, NoMemory>
        requires { IsClosed self.now.agent.now prog }
        ensures { IfOk result (AreClosedFronts self.now.agent.now prog) }
    {
        let fronts = self.fronts_of(&prog);
        drop(prog);
        fronts
    }

    #[cycle(opening)]
    fn fronts_of_pick(&self, var: u8, sort: u32, body: &Prog) -> Result<List<Front>, NoMemory>
        requires { IsClosed self.now.agent.now (Prog.Pick var sort body.now) }
        ensures { IfOk result (AreClosedFronts self.now.agent.now (Prog.Pick var sort body.now)) }
    {
        let mut all = List::new(self.alloc);
        for constant in 0..sort_size(self.agent, sort) {
            let put = put_arg(self.alloc, body, var, constant as u8)?;
            let steps = self.fronts_of_put(put)?;
            all = joined(all, steps)?;
        }
        Ok(all)
    }

    #[cycle(opening)]
    fn fronts_of_call(&self, item: u32, args: &[Arg]) -> Result<List<Front>, NoMemory>
        requires { IsClosed self.now.agent.now (Prog.Call item args.now) }
        ensures { IfOk result (AreClosedFronts self.now.agent.now (Prog.Call item args.now)) }
    {
        let body = body_of(self.alloc, self.agent, item, args)?;
        self.fronts_of_put(body)
    }
}

/// The steps of a program, each with the condition under which it may be taken: in every mode and at all
/// values, the steps of the program are those whose condition holds, in order. The conditions have no free
/// variable and stay inside the agent's numbers and sorts; what the steps leave is closed as the program is,
/// and their actions are the agent's. Steps of search blocks are not among them, so no block may stand at the
/// front.
pub fn fronts(alloc: Global, agent: &Agent, prog: &Prog) -> Result<List<Front>, NoMemory>
    requires agent { WellFormed agent.now }
    requires program { IsClosed agent.now prog.now }
    requires free { has_front_block agent.now prog.now ≡ false }
    ensures ways { IfOk result (λ fs. AreFronts agent.now prog.now (guarded fs)) }
    ensures all { IfOk result (λ fs. AreAllFronts agent.now prog.now (guarded fs)) }
    ensures closed { IfOk result (λ fs. IsTrue (are_closed agent.now fs)) }
    ensures lefts { IfOk result (λ fs. All (λ f. LeavesClosed agent.now prog.now f.way) (guarded fs)) }
{
    let fit = Fit { alloc, agent };
    fit.fronts_of(prog)
}
