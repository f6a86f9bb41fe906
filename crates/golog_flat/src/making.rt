// For whom checks are made, and why none was.
ghost use Rattle.golog_tree.specs.Ground.{IsCountable};

use golog_base::NoMemory;
use golog_tree::Agent;
use std::alloc::Global;

/// For whom checks are made.
#[derive(Clone, Copy)]
pub(crate) struct Making<'a> {
    pub alloc: Global,
    pub agent: &'a Agent,
    /// A binder is put in where the condition below it then has fewer parts.
    pub most_parts: u32,
    ghost countable: { IsCountable agent.now },
}

/// Why no check was made of a condition.
#[derive(Clone, Copy, Debug, PartialEq, Eq)]
pub(crate) enum Stop {
    /// No memory was left.
    Memory,
    /// A part of it has to stand as it is, and speaks of a variable that is bound outside.
    Bound,
}

impl From<NoMemory> for Stop {
    ghost use Rattle.std.specs.Prelude.{◌≡◌};
    ghost use Rattle.golog_flat.specs.declared.making.Stop.{Stop};
    ghost use Rattle.golog_flat.specs.declared.making.Stop.TheVariants.{Memory};

    ghost from_gives = { λ _ stop. stop ≡ Memory };

    fn from(_refused: NoMemory) -> Stop {
        Stop::Memory
    }
}
