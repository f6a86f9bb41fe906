//! Where a walk over programs stands, with what is so of it: the walks are methods of its types.
ghost use Rattle.std.specs.Prelude.{◌≡◌, length};
ghost use Rattle.golog_tree.specs.Ground.{ground_fluents};
ghost use Rattle.golog_fronts.specs.Closed.{IsFit};
ghost use Rattle.golog_ways.specs.Ready.{AreReady};

use crate::answering::Blocks;
use crate::ready::Ready;
use golog_tree::Agent;
use std::alloc::Global;

/// An agent whose programs are walked over, the value of each of its ground fluents, and the conditions of it that are
/// made ready, if any.
#[derive(Clone, Copy)]
pub(crate) struct Here<'a, 'v> {
    pub alloc: Global,
    pub agent: &'a Agent,
    pub values: &'v [u8],
    pub ready: &'v [Ready],
    ghost fit: { IsFit agent.now },
    ghost whole: { length values.now ≡ length (ground_fluents agent.now) },
    ghost checked: { AreReady agent.now ready.now },
}

/// The same, and who tells the steps of search blocks there.
#[derive_where(Clone, Copy)]
pub(crate) struct Within<'a, 'v, 'b, B: Blocks> {
    pub here: Here<'a, 'v>,
    pub blocks: &'b B,
}
