// `end_cond`: the condition under which a program may end.
ghost use Rattle.std.specs.Prelude.{◌≡◌, IfOk, IsTrue};
ghost use Rattle.golog_semantics.specs.Fits.{cond_fits, nothing_bound};
ghost use Rattle.golog_semantics.specs.Fronts.{IsEnd};
ghost use Rattle.golog_semantics.specs.WellFormed.{WellFormed};
ghost use Rattle.golog_fronts.specs.Closed.{IsClosed};
ghost use Rattle.golog_fronts.specs.Ends.{AreEnds, IsClosedEnd};

use crate::blocks::may_skip;
use crate::bodies::body_of;
use crate::combining::{by_cases, conjunction, disjunction, implied};
use crate::here::Fit;
use golog_base::{List, NoMemory, both};
use golog_tree::{Agent, Arg, Cond, Prog, put_arg, sort_size};
use std::alloc::Global;

impl<'a> Fit<'a> {
    /// The condition under which a program may end.
    #[cycle(ending)]
    pub fn end_of(&self, prog: &Prog) -> Result<Cond, NoMemory>
        requires { IsClosed self.now.agent.now prog.now }
        ensures { IfOk result (IsClosedEnd self.now.agent.now prog.now) }
    {
        match prog {
            Prog::Nil => Ok(Cond::Truth(true)),
            Prog::Act { .. } => Ok(Cond::Truth(false)),
            Prog::Test(_) => Ok(Cond::Truth(false)),
            Prog::Seq(one, other) => self.end_of_seq(one.get(), other.get()),
            Prog::Choice(one, other) => {
                let (one, other) = self.ends(one.get(), other.get())?;
                disjunction(self.alloc, one, other)
            }
            Prog::Conc(one, other) => {
                let (one, other) = self.ends(one.get(), other.get())?;
                conjunction(self.alloc, one, other)
            }
            Prog::Prio(high, low) => {
                let (high, low) = self.ends(high.get(), low.get())?;
                conjunction(self.alloc, high, low)
            }
            Prog::If { cond, yes, no } => {
                let (yes, no) = self.ends(yes.get(), no.get())?;
                by_cases(self.alloc, cond, yes, no)
            }
            Prog::While { cond, body } => {
                let body = self.end_of(body.get())?;
                implied(self.alloc, cond, body)
            }
            Prog::Star(_) => Ok(Cond::Truth(true)),
            Prog::Cstar(_) => Ok(Cond::Truth(true)),
            Prog::Pick { var, sort, body } => self.end_of_pick(*var, *sort, body.get()),
            Prog::Call { item, args } => self.end_of_call(*item, args.as_slice()),
            Prog::Search { body, .. } => self.end_of(body.get()),
            Prog::Follow { body, .. } => self.end_of(body.get()),
        }
    }

    #[cycle(ending)]
    fn ends(&self, one: &Prog, other: &Prog) -> Result<(Cond, Cond), NoMemory>
        requires one { IsClosed self.now.agent.now one.now }
        requires other { IsClosed self.now.agent.now other.now }
        ensures { IfOk result (λ pair. AreEnds self.now.agent.now one.now other.now pair.0 pair.1) }
    {
        let one = self.end_of(one);
        let other = self.end_of(other);
        both(one, other)
    }

    /// The second part isn't looked at where the first never ends without a step.
    #[cycle(ending)]
    fn end_of_seq(&self, one: &Prog, other: &Prog) -> Result<Cond, NoMemory>
        requires { IsClosed self.now.agent.now (Prog.Seq one.now other.now) }
        ensures { IfOk result (IsClosedEnd self.now.agent.now (Prog.Seq one.now other.now)) }
    {
        if may_skip(self.agent, one) {
            let (one, other) = self.ends(one, other)?;
            conjunction(self.alloc, one, other)
        } else {
            Ok(Cond::Truth(false))
        }
    }

    /// The end of a program that is not needed any more.
    #[cycle(ending)]
    fn end_of_put(&self, prog: Prog) -> Result<Cond, NoMemory>
        requires { IsClosed self.now.agent.now prog }
        ensures { IfOk result (IsClosedEnd self.now.agent.now prog) }
    {
        let end = self.end_of(&prog);
        drop(prog);
        end
    }

    #[cycle(ending)]
    fn end_of_pick(&self, var: u8, sort: u32, body: &Prog) -> Result<Cond, NoMemory>
        requires { IsClosed self.now.agent.now (Prog.Pick var sort body.now) }
        ensures { IfOk result (IsClosedEnd self.now.agent.now (Prog.Pick var sort body.now)) }
    {
        let mut ends = List::new(self.alloc);
        for constant in 0..sort_size(self.agent, sort) {
            let put = put_arg(self.alloc, body, var, constant as u8)?;
            let end = self.end_of_put(put)?;
            ends.push(end)?;
        }
        Ok(Cond::Or(ends))
    }

    #[cycle(ending)]
    fn end_of_call(&self, item: u32, args: &[Arg]) -> Result<Cond, NoMemory>
        requires { IsClosed self.now.agent.now (Prog.Call item args.now) }
        ensures { IfOk result (IsClosedEnd self.now.agent.now (Prog.Call item args.now)) }
    {
        let body = body_of(self.alloc, self.agent, item, args)?;
        self.end_of_put(body)
    }
}

/// The condition under which a program may end: in every mode and at all values, it may end exactly where
/// the condition holds. It has no free variable and stays inside the agent's numbers and sorts.
pub fn end_cond(alloc: Global, agent: &Agent, prog: &Prog) -> Result<Cond, NoMemory>
    requires agent { WellFormed agent.now }
    requires program { IsClosed agent.now prog.now }
    ensures end { IfOk result (IsEnd agent.now prog.now) }
    ensures closed { IfOk result (λ c. IsTrue (cond_fits agent.now c nothing_bound)) }
{
    let fit = Fit { alloc, agent };
    fit.end_of(prog)
}
