// The step of an action or of a test.
ghost use Rattle.golog_semantics.specs.Ways.{Blocks};
ghost use Rattle.golog_fronts.specs.Closed.{IsClosed};
ghost use Rattle.golog_ways.specs.FirstMove.{IsFirst};

use crate::here::Here;
use crate::modes::holds;
use golog_known::Env;
use golog_semantics::{Mode, Move};
use golog_tree::{Arg, Cond, Label, Prog, action_no};

impl<'a, 'v> Here<'a, 'v> {
    /// The certain step of an action, where its precondition is true. It begins no run.
    pub fn act_move(&self, action: u32, args: &[Arg]) -> Option<Move>
        requires { IsClosed self.now.agent.now (Prog.Act action args.now) }
        ensures { (blocks : Blocks)
            → IsFirst self.now.agent.now blocks self.now.values.now (Prog.Act action args.now) result }
    {
        if holds(Mode::Must, self.precondition(action, args)) {
            let constants = Env::new().arg_values(args);
            let number = action_no(self.agent, action, &constants[..args.len()]);
            Some(Move {
                label: Label::Do(number),
                left: Prog::Nil,
                run: None,
            })
        } else {
            None
        }
    }

    /// The certain step of a test, where its condition is true. It begins no run.
    pub fn test_move(&self, cond: &Cond) -> Option<Move>
        requires { IsClosed self.now.agent.now (Prog.Test cond.now) }
        ensures { (blocks : Blocks)
            → IsFirst self.now.agent.now blocks self.now.values.now (Prog.Test cond.now) result }
    {
        if holds(Mode::Must, self.truth(cond)) {
            Some(Move {
                label: Label::Quiet,
                left: Prog::Nil,
                run: None,
            })
        } else {
            None
        }
    }
}
