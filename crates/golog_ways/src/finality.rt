// `ends_of`: how sure it is that a program may end, as one truth. True is certain, false not
// possible, unknown possible and not certain.
ghost use Rattle.std.specs.Prelude.{◌≡◌, not, ◌&&◌, ◌||◌, IfOk};
ghost use Rattle.golog_semantics.specs.Modes.{holds as holds_in};
ghost use Rattle.golog_semantics.specs.Search.{final};
ghost use Rattle.golog_fronts.specs.Closed.{IsClosed};
ghost use Rattle.golog_fronts.specs.Ends.{EndsAs, EndsAsBoth, EndsAsOr};

use crate::here::Here;
use crate::modes::holds;
use golog_base::NoMemory;
use golog_fronts::{body_of, may_skip};
use golog_known::{both, either, negation};
use golog_semantics::Mode;
use golog_tree::{Arg, Prog, Truth, put_arg, sort_size};

/// Whether what is as sure as `so_far` gets no surer by what is at most as sure as `most`.
fn is_settled(so_far: Truth, most: Truth) -> bool
    ensures { result ≡ ((not (holds_in Mode.May most) || holds_in Mode.May so_far)
        && (not (holds_in Mode.Must most) || holds_in Mode.Must so_far)) }
{
    match (so_far, most) {
        (Truth::Yes, _) | (_, Truth::No) => true,
        (Truth::No, _) | (_, Truth::Yes) => false,
        (Truth::Unknown, Truth::Unknown) => true,
    }
}

impl<'a, 'v> Here<'a, 'v> {
    /// How sure it is that a program may end. Nothing is evaluated where the program may not be skipped at any
    /// values.
    pub fn ends_of(&self, prog: &Prog) -> Result<Truth, NoMemory>
        requires { IsClosed self.now.agent.now prog.now }
        ensures { IfOk result (EndsAs self.now.agent.now self.now.values.now prog.now) }
    {
        if may_skip(self.agent, prog) {
            self.ends_in(prog)
        } else {
            Ok(Truth::No)
        }
    }

    /// Whether a program may end, in the mode.
    pub fn can_end(&self, mode: Mode, prog: &Prog) -> Result<bool, NoMemory>
        requires { IsClosed self.now.agent.now prog.now }
        ensures { IfOk result (λ b. b ≡ final self.now.agent.now self.now.values.now mode prog.now) }
    {
        let ends = self.ends_of(prog)?;
        Ok(holds(mode, ends))
    }

    #[cycle(ends)]
    fn ends_in(&self, prog: &Prog) -> Result<Truth, NoMemory>
        requires { IsClosed self.now.agent.now prog.now }
        ensures { IfOk result (EndsAs self.now.agent.now self.now.values.now prog.now) }
    {
        match prog {
            Prog::Nil => Ok(Truth::Yes),
            Prog::Act { .. } => Ok(Truth::No),
            Prog::Test(_) => Ok(Truth::No),
            Prog::Seq(one, other) => self.both_end(one.get(), other.get()),
            Prog::Conc(one, other) => self.both_end(one.get(), other.get()),
            Prog::Prio(high, low) => self.both_end(high.get(), low.get()),
            Prog::Choice(one, other) => {
                let one = self.ends_in(one.get())?;
                self.ends_or(one, Truth::Yes, other.get())
            }
            Prog::If { cond, yes, no } => {
                let is_so = self.truth(cond);
                let yes = self.ends_or(Truth::No, is_so, yes.get())?;
                self.ends_or(yes, negation(is_so), no.get())
            }
            Prog::While { cond, body } => {
                let is_over = negation(self.truth(cond));
                self.ends_or(is_over, Truth::Yes, body.get())
            }
            Prog::Pick { var, sort, body } => self.ends_of_pick(*var, *sort, body.get()),
            Prog::Call { item, args } => self.ends_of_call(*item, args.as_slice()),
            Prog::Star(_) => Ok(Truth::Yes),
            Prog::Cstar(_) => Ok(Truth::Yes),
            Prog::Search { body, .. } => self.ends_in(body.get()),
            Prog::Follow { body, .. } => self.ends_in(body.get()),
        }
    }

    /// How sure it is that both programs may end. Where the first can't, the second isn't looked at.
    #[cycle(ends)]
    fn both_end(&self, one: &Prog, other: &Prog) -> Result<Truth, NoMemory>
        requires one { IsClosed self.now.agent.now one.now }
        requires other { IsClosed self.now.agent.now other.now }
        ensures { IfOk result (EndsAsBoth self.now.agent.now self.now.values.now one.now other.now) }
    {
        let one = self.ends_in(one)?;
        if holds(Mode::May, one) {
            let other = self.ends_in(other)?;
            Ok(both(one, other))
        } else {
            Ok(one)
        }
    }

    /// How sure an end is that is this sure so far, or is that of a program where a condition of this truth holds.
    /// The program isn't looked at where nothing comes of it.
    #[cycle(ends)]
    fn ends_or(&self, so_far: Truth, truth: Truth, prog: &Prog) -> Result<Truth, NoMemory>
        requires { IsClosed self.now.agent.now prog.now }
        ensures { IfOk result (EndsAsOr self.now.agent.now self.now.values.now so_far truth prog.now) }
    {
        if is_settled(so_far, truth) {
            Ok(so_far)
        } else {
            let ends = self.ends_in(prog)?;
            Ok(either(so_far, both(truth, ends)))
        }
    }

    /// How sure it is that a program may end that is not needed any more.
    #[cycle(ends)]
    fn ends_of_put(&self, prog: Prog) -> Result<Truth, NoMemory>
        requires { IsClosed self.now.agent.now prog }
        ensures { IfOk result (EndsAs self.now.agent.now self.now.values.now prog) }
    {
        let ends = self.ends_in(&prog);
        drop(prog);
        ends
    }

    #[cycle(ends)]
    fn ends_of_pick(&self, var: u8, sort: u32, body: &Prog) -> Result<Truth, NoMemory>
        requires { IsClosed self.now.agent.now (Prog.Pick var sort body.now) }
        ensures { IfOk result (EndsAs self.now.agent.now self.now.values.now (Prog.Pick var sort body.now)) }
    {
        let mut some = Truth::No;
        for constant in 0..sort_size(self.agent, sort) {
            let put = put_arg(self.alloc, body, var, constant as u8)?;
            let one = self.ends_of_put(put)?;
            some = either(some, one);
            if holds(Mode::Must, some) {
                return Ok(some);
            }
        }
        Ok(some)
    }

    #[cycle(ends)]
    fn ends_of_call(&self, item: u32, args: &[Arg]) -> Result<Truth, NoMemory>
        requires { IsClosed self.now.agent.now (Prog.Call item args.now) }
        ensures { IfOk result (EndsAs self.now.agent.now self.now.values.now (Prog.Call item args.now)) }
    {
        let body = body_of(self.alloc, self.agent, item, args)?;
        self.ends_of_put(body)
    }
}
