// Programs as they are checked, labels, and ways: a step with the program left.
use crate::cond::{Arg, Cond};
use golog_base::{Boxed, List};

/// What a step does: a ground action, by its number, or a test.
#[derive(Clone, Copy, Debug, PartialEq, Eq)]
pub enum Label {
    Quiet,
    Do(u32),
}

/// A program (the constructs of ConGolog 2000, and search blocks of De Giacomo and Levesque 1999 with a
/// depth and a fuel). `Cstar` is concurrent iteration, and `Prio` runs its second part only where the
/// first has no step.
#[cycle(prog)]
#[derive(PartialEq, Eq, Drop)]
pub enum Prog {
    Nil,
    Act {
        action: u32,
        args: List<Arg>,
    },
    Test(Cond),
    Seq(Boxed<Prog>, Boxed<Prog>),
    Choice(Boxed<Prog>, Boxed<Prog>),
    Pick {
        var: u8,
        sort: u32,
        body: Boxed<Prog>,
    },
    Star(Boxed<Prog>),
    If {
        cond: Cond,
        yes: Boxed<Prog>,
        no: Boxed<Prog>,
    },
    While {
        cond: Cond,
        body: Boxed<Prog>,
    },
    Conc(Boxed<Prog>, Boxed<Prog>),
    Prio(Boxed<Prog>, Boxed<Prog>),
    Cstar(Boxed<Prog>),
    Call {
        item: u32,
        args: List<Arg>,
    },
    Search {
        depth: u32,
        fuel: u32,
        body: Boxed<Prog>,
    },
    /// A search block under way, with the rest of the run that it follows.
    Follow {
        depth: u32,
        fuel: u32,
        body: Boxed<Prog>,
        rest: List<Way>,
    },
}

/// A step and the program left after it.
#[cycle(prog)]
#[derive(PartialEq, Eq, Drop)]
pub struct Way {
    pub label: Label,
    pub left: Prog,
}
