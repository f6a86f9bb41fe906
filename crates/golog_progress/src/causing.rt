//! A cause, with the values that its effect is taken from.
ghost use Rattle.std.specs.Prelude.{◌≡◌, length};
ghost use Rattle.golog_tree.specs.Ground.{IsCountable, ground_fluents};

use golog_tree::{Agent, CauseItem};

/// A cause of an agent, and the value of each ground fluent before the action, which its effect is taken from.
#[derive(Clone, Copy)]
pub(crate) struct Causing<'a, 'c, 'v> {
    pub agent: &'a Agent,
    pub cause: &'c CauseItem,
    pub values: &'v [u8],
    ghost countable: { IsCountable agent.now },
    ghost whole: { length values.now ≡ length (ground_fluents agent.now) },
}
