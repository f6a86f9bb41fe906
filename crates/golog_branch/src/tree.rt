// Plans as trees: a step has a branch for each value that may be sensed.
use golog_base::{Boxed, List};
use golog_tree::{Label, Prog};

/// A plan that branches on what is sensed (De Giacomo and Levesque 1999: a program with a branch for each outcome
/// of sensing).
#[cycle(tree)]
#[derive(Drop)]
pub enum Tree {
    /// The program may end.
    Done,
    /// A step, the program that it leaves, and what comes then for each value that may be sensed.
    Step {
        label: Label,
        left: Prog,
        next: List<Branch>,
    },
}

/// What comes after a step: the value that is sensed, 255 where nothing is, and the rest of the plan. A rest that
/// stands in several places may be shared.
#[cycle(tree)]
#[derive(Drop)]
pub struct Branch {
    pub value: u8,
    pub tree: Boxed<Tree>,
}

/// What the search for a plan comes to.
#[derive(Drop)]
pub enum Planned {
    /// The first plan of least height.
    Found(Boxed<Tree>),
    /// There is none within the depth.
    Absent,
    /// The search would look at more states than the fuel.
    Fuel,
    /// The plan has more than 10,000 steps.
    Large,
}
