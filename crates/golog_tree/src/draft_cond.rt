// Conditions, terms and arguments as they were read, with a place at each node.
use golog_base::{Boxed, List, Word};

/// A byte place in a file, counted from 0.
pub type Place = u32;

/// A word or a number in a term place, as it was read: which variable or constant it is, `check` finds.
#[derive(Clone, Copy, Debug)]
pub enum DraftArg {
    Word { word: Word, at: Place },
    Number { number: i32, at: Place },
}

/// A term as it was read.
#[derive(Drop)]
pub enum DraftTerm {
    Arg(DraftArg),
    Fluent {
        fluent: u32,
        args: List<DraftArg>,
        at: Place,
    },
    /// The term plus a number, or, where the number is below 0, minus its amount.
    Shift {
        term: Boxed<DraftTerm>,
        by: i32,
        at: Place,
    },
}

/// A condition as it was read. The sorts of comparisons are found by `check`.
#[derive(Drop)]
pub enum DraftCond {
    Truth {
        truth: bool,
        at: Place,
    },
    Is {
        fluent: u32,
        args: List<DraftArg>,
        at: Place,
    },
    Equal {
        one: DraftTerm,
        other: DraftTerm,
        at: Place,
    },
    Less {
        one: DraftTerm,
        other: DraftTerm,
        at: Place,
    },
    AtMost {
        one: DraftTerm,
        other: DraftTerm,
        at: Place,
    },
    Not {
        cond: Boxed<DraftCond>,
        at: Place,
    },
    And {
        conds: List<DraftCond>,
        at: Place,
    },
    Or {
        conds: List<DraftCond>,
        at: Place,
    },
    ForSome {
        var: Word,
        sort: u32,
        body: Boxed<DraftCond>,
        at: Place,
    },
    ForAll {
        var: Word,
        sort: u32,
        body: Boxed<DraftCond>,
        at: Place,
    },
}
