//! `Deepening`, how a search looks one step further: whose steps are looked at, in which mode, and
//! for how many states there is room.
use golog_semantics::Mode;
use golog_tree::Agent;
use std::alloc::Global;

/// Whose steps are looked at, in which mode, and for how many states of the next level there is room: for any
/// number where none is said.
#[derive(Clone, Copy)]
pub struct Deepening<'a> {
    pub alloc: Global,
    pub agent: &'a Agent,
    pub mode: Mode,
    pub room: Option<usize>,
}
