// Conditions and terms as they are checked, their arguments, and truth values.
use golog_base::{Boxed, List};

/// A truth value of the strong Kleene logic.
#[derive(Clone, Copy, Debug, PartialEq, Eq)]
pub enum Truth {
    Yes,
    No,
    Unknown,
}

/// An argument: a constant by its position in its sort, or a variable by its number.
#[derive(Clone, Copy, Debug, PartialEq, Eq)]
pub enum Arg {
    Const(u8),
    Var(u8),
}

/// A term, of a sort. `Ite` stands in no agent: regression makes it.
#[cycle(cond)]
#[derive(PartialEq, Eq, Drop)]
pub enum Term {
    Arg(Arg),
    Fluent {
        fluent: u32,
        args: List<Arg>,
    },
    /// The term plus a number, which stops at the ends of the sort.
    Shift {
        sort: u32,
        term: Boxed<Term>,
        by: i32,
    },
    Ite {
        cond: Boxed<Cond>,
        yes: Boxed<Term>,
        no: Boxed<Term>,
    },
}

/// A condition. A comparison has the sort of its sides, and a binder the number of its variable.
#[cycle(cond)]
#[derive(PartialEq, Eq, Drop)]
pub enum Cond {
    Truth(bool),
    /// A fluent into `bool` has the value `true`.
    Is {
        fluent: u32,
        args: List<Arg>,
    },
    Equal {
        sort: u32,
        one: Term,
        other: Term,
    },
    Less {
        sort: u32,
        one: Term,
        other: Term,
    },
    AtMost {
        sort: u32,
        one: Term,
        other: Term,
    },
    Not(Boxed<Cond>),
    And(List<Cond>),
    Or(List<Cond>),
    ForSome {
        var: u8,
        sort: u32,
        body: Boxed<Cond>,
    },
    ForAll {
        var: u8,
        sort: u32,
        body: Boxed<Cond>,
    },
}
