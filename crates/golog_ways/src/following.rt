//! A search block, as a walk over programs comes to it.
use golog_tree::{Prog, Way};

/// A search block that follows the rest of a run. One that has not begun follows nothing.
#[derive(Clone, Copy)]
pub struct Following<'a> {
    pub depth: u32,
    pub fuel: u32,
    pub body: &'a Prog,
    pub rest: &'a [Way],
}
