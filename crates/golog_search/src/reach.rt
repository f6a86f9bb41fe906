// What is told of the steps of a search block.
use golog_semantics::Move;

/// The first certain step of a search block.
#[derive(Drop)]
pub enum FirstStep {
    /// The step, where there is one.
    Step(Option<Move>),
    /// The search would look at more states than the block's fuel.
    Fuel,
}

/// What a search in mode `Near` tells of the steps of a block.
#[derive(Drop)]
pub enum NearStep {
    /// Whether it has one in mode `Near`, since a run may begin with it, and whether in mode `May`, since one
    /// may lie beyond what the search looks at.
    Steps { near: bool, may: bool },
    /// The search would look at more states than the block's fuel.
    Fuel,
}
