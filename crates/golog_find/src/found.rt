// `Found`, what the search of a block comes to: a run, none, or want of fuel.
use golog_base::List;
use golog_tree::Way;

/// What the search of a block comes to.
#[derive(Drop)]
pub enum Found {
    /// The first run of least length, each step with the program that it leaves.
    Run(List<Way>),
    /// There is no run of at most as many steps as the block's depth. It is cut where something stayed
    /// unseen: what follows a path as long as the depth, or a step that leaves a program which nests too
    /// deep.
    Absent { cut: bool },
    /// The search would look at more states than the block's fuel.
    Fuel,
}
