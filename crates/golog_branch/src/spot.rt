// What a search keeps: a state (`Spot`), where a step leads (`Jump`, `Link`), a state with its steps (`Linked`).
use golog_base::{Bytes, List};
use golog_tree::{Prog, Way};

/// A state that a search for a plan has come to: the program left, its number among those of the level, the values
/// that are known then, and whether the program certainly may end.
#[derive(Drop)]
pub struct Spot {
    pub left: Prog,
    pub number: u64,
    pub state: Bytes,
    pub ends: bool,
}

/// Where a case of a step leads: the value that is sensed, 255 where nothing is, and the place of the state in the
/// next level.
#[derive(Clone, Copy)]
pub struct Jump {
    pub value: u8,
    pub place: usize,
}

/// A step that may be followed, and where its cases lead, in order.
#[derive(Drop)]
pub struct Link {
    pub way: Way,
    pub next: List<Jump>,
}

/// What is kept of a state whose steps are known: whether the program certainly may end, and the steps that may be
/// followed, in order.
#[derive(Drop)]
pub struct Linked {
    pub ends: bool,
    pub links: List<Link>,
}
