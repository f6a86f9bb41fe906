// The truth of a condition and of a precondition, at the values known.
ghost use Rattle.std.specs.Prelude.{◌≡◌, [], IsTrue, map};
ghost use Rattle.golog_semantics.specs.Fits.{cond_fits, nothing_bound};
ghost use Rattle.golog_semantics.specs.Truth.{truth_of, env_of, arg_value};
ghost use Rattle.golog_fronts.specs.Closed.{IsClosed};
ghost use Rattle.golog_fronts.specs.Precondition.{precondition as precondition_of};

use crate::here::Here;
use crate::ready::ready_truth;
use golog_known::{Env, value};
use golog_tree::{Arg, Cond, Prog, Truth};

impl<'a, 'v> Here<'a, 'v> {
    /// The truth of a condition with no free variable: by its check where it is made ready.
    pub fn truth(&self, cond: &Cond) -> Truth
        requires { IsTrue (cond_fits self.now.agent.now cond.now nothing_bound) }
        ensures { result ≡ truth_of self.now.agent.now self.now.values.now cond.now (env_of []) }
    {
        match ready_truth(self.agent, self.ready, cond, self.values) {
            Some(truth) => truth,
            None => value(self.agent, cond, &Env::new(), self.values),
        }
    }

    /// The truth of the precondition of an action at these constants.
    pub fn precondition(&self, action: u32, args: &[Arg]) -> Truth
        requires { IsClosed self.now.agent.now (Prog.Act action args.now) }
        ensures { result ≡ precondition_of self.now.agent.now self.now.values.now action
            (map (arg_value (env_of [])) args.now) }
    {
        let constants = Env::new().arg_values(args);
        let env = Env::of(&constants[..args.len()]);
        for item in self.agent.poss.as_slice() {
            if item.action == action {
                return value(self.agent, &item.cond, &env, self.values);
            }
        }
        Truth::Yes
    }
}
