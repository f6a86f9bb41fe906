// The value of a fluent at arguments, found by the number of the ground fluent.
ghost use Rattle.std.specs.Prelude.{◌≡◌, length, map};
ghost use Rattle.golog_tree.specs.Ground.{IsCountable, ground_fluents};
ghost use Rattle.golog_semantics.specs.Truth.{fluent_value, arg_value};
ghost use Rattle.golog_known.specs.Fits.{FluentFitsAt};

use crate::env::Env;
use golog_tree::{Agent, Arg, fluent_no};

/// The value of a fluent at these arguments.
pub fn fluent_at(agent: &Agent, fluent: u32, args: &[Arg], env: &Env, values: &[u8]) -> u8
    requires countable { IsCountable agent.now }
    requires fits { FluentFitsAt agent.now fluent args.now env.now }
    requires whole { length values.now ≡ length (ground_fluents agent.now) }
    ensures { result ≡ fluent_value agent.now values.now fluent (map (arg_value env.now) args.now) }
{
    let args_of = env.arg_values(args);
    let number = fluent_no(agent, fluent, &args_of[..args.len()]);
    values[number as usize]
}
