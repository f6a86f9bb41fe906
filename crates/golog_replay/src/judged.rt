// `Judged`, what is found of an entry: the rule that it breaks, or the program that it leaves.
use golog_semantics::{Move, Why};
use golog_tree::Prog;

/// What is found of an entry.
#[derive(Drop)]
pub(crate) enum Judged {
    /// It breaks this rule, and none before it.
    Broken(Why),
    /// It keeps the rules, and this program is left, if another than before.
    Kept(Option<Prog>),
}

/// Whether an entry is a step, and which.
#[derive(Drop)]
pub(crate) enum Stepping {
    /// It is none.
    NoStep,
    /// It is none that the program may take here.
    Breaks,
    /// It is this one.
    Steps(Move),
}
