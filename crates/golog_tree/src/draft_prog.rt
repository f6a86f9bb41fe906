// Programs as they were read, with a place at each node.
use crate::draft_cond::{DraftArg, DraftCond, Place};
use golog_base::{Boxed, List, Word};

/// A program as it was read. The parts of `Seq`, `Choice`, `Conc` and `Prio` stand in one list; `check`
/// nests them to the right. The depth and the fuel of a block may be outside their limits.
#[derive(Drop)]
pub enum DraftProg {
    Nil {
        at: Place,
    },
    Act {
        action: u32,
        args: List<DraftArg>,
        at: Place,
    },
    Test {
        cond: DraftCond,
        at: Place,
    },
    Seq {
        parts: List<DraftProg>,
        at: Place,
    },
    Choice {
        parts: List<DraftProg>,
        at: Place,
    },
    Pick {
        var: Word,
        sort: u32,
        body: Boxed<DraftProg>,
        at: Place,
    },
    Star {
        body: Boxed<DraftProg>,
        at: Place,
    },
    If {
        cond: DraftCond,
        yes: Boxed<DraftProg>,
        no: Boxed<DraftProg>,
        at: Place,
    },
    While {
        cond: DraftCond,
        body: Boxed<DraftProg>,
        at: Place,
    },
    Conc {
        parts: List<DraftProg>,
        at: Place,
    },
    Prio {
        parts: List<DraftProg>,
        at: Place,
    },
    Cstar {
        body: Boxed<DraftProg>,
        at: Place,
    },
    Call {
        item: u32,
        args: List<DraftArg>,
        at: Place,
    },
    Search {
        depth: i32,
        fuel: i32,
        body: Boxed<DraftProg>,
        at: Place,
    },
}
