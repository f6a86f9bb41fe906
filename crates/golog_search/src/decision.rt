// `Decision`, what a program does next, and `Blocked`, why it does nothing, with the answer of
// that.
ghost use Rattle.std.specs.Prelude.{◌≡◌};
ghost use Rattle.golog_search.specs.Laws.{blocked_answer};

use golog_semantics::{Answer, Move};

/// What a program does next.
#[derive(Drop)]
pub enum Decision {
    /// It ends: that it may end is certain.
    Final,
    /// It takes this step.
    Step(Move),
    /// It has no certain step or end.
    Blocked(Blocked),
    /// A search block needs more fuel than it has.
    Fuel,
    /// What its step leaves nests too deep.
    Deep,
}

/// Why a program has no certain step or end.
#[derive(Clone, Copy, Debug, PartialEq, Eq)]
pub enum Blocked {
    /// It might step or end, were more known.
    Unknown,
    /// A step is possible only beyond what the searches looked at.
    Depth,
    /// No step and no end is possible.
    Stuck,
}

impl Blocked {
    /// The answer of a program that is blocked so.
    pub fn answer(self) -> Answer
        ensures { result ≡ blocked_answer self }
    {
        match self {
            Blocked::Unknown => Answer::Unknown,
            Blocked::Depth => Answer::Depth,
            Blocked::Stuck => Answer::Stuck,
        }
    }
}
