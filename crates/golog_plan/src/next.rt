//! `Next`, what a program that follows plans is to do.
use golog_base::Bytes;
use golog_branch::Kept;
use golog_semantics::Answer;
use golog_tree::Label;

/// The first step of what is ahead: what it does, what is kept then, and, where it begins a plan, the end of its line,
/// with its line feed.
#[derive(Drop)]
pub(crate) struct Begun {
    pub label: Label,
    pub kept: Kept,
    pub tail: Option<Bytes>,
}

/// What the program is to do next.
#[derive(Drop)]
pub(crate) enum Next {
    /// Nothing, until a device has posted.
    Wait,
    /// It ends.
    End(Answer),
    /// It takes this step.
    Step(Begun),
}
