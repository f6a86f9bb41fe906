//! `Fit`, an agent whose programs are walked over: the walks are its methods.
ghost use Rattle.golog_fronts.specs.Closed.{IsFit};

use golog_tree::Agent;
use std::alloc::Global;

/// An agent whose programs are walked over.
#[derive(Clone, Copy)]
pub(crate) struct Fit<'a> {
    pub alloc: Global,
    pub agent: &'a Agent,
    ghost fit: { IsFit agent.now },
}
