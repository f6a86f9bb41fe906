// A theory and a program as they were read, each item with its place.
use crate::draft_cond::{DraftArg, DraftCond, DraftTerm, Place};
use crate::draft_prog::DraftProg;
use golog_base::{List, Word};

/// A theory as it was read. Its lists are in file order, what is built in standing first at place 0;
/// sorts, fluents, actions and devices are named by their numbers there. Each item has the place where
/// its form begins.
#[derive(Drop)]
pub struct DraftTheory {
    pub sorts: List<DraftSort>,
    pub fluents: List<DraftFluent>,
    pub actions: List<DraftAction>,
    pub devices: List<DraftDevice>,
    pub poss: List<DraftPoss>,
    pub causes: List<DraftCause>,
    pub senses: List<DraftSense>,
    /// The start values as they were read.
    pub starts: List<DraftStart>,
}

/// The procedures and the program of an agent as they were read. Procedures are named by their numbers
/// in file order.
#[derive(Drop)]
pub struct DraftProgram {
    pub procs: List<DraftProc>,
    pub main: DraftMain,
}

/// A finite sort as it was read.
#[derive(Drop)]
pub enum DraftSort {
    /// The whole numbers from `low` to `high`.
    Range {
        name: Word,
        low: i32,
        high: i32,
        at: Place,
    },
    Listed {
        name: Word,
        constants: List<Word>,
        at: Place,
    },
}

/// A fluent: the sorts of its arguments, and its own.
#[derive(Drop)]
pub struct DraftFluent {
    pub name: Word,
    pub args: List<u32>,
    pub sort: u32,
    pub at: Place,
}

/// An action: the sorts of its arguments, its device where it has one, and the devices that may post it.
#[derive(Drop)]
pub struct DraftAction {
    pub name: Word,
    pub args: List<u32>,
    pub device: Option<u32>,
    pub posters: List<u32>,
    pub at: Place,
}

/// A device as it was read.
#[derive(Drop)]
pub struct DraftDevice {
    pub name: Word,
    pub at: Place,
}

/// The precondition of an action, and the words of the action's arguments in order.
#[derive(Drop)]
pub struct DraftPoss {
    pub action: u32,
    pub vars: List<Word>,
    pub cond: DraftCond,
    pub at: Place,
}

/// An effect of an action. One that was read without a condition has `true` at the item's place.
#[derive(Drop)]
pub struct DraftCause {
    pub action: u32,
    pub action_args: List<DraftArg>,
    pub fluent: u32,
    pub fluent_args: List<DraftArg>,
    pub term: DraftTerm,
    pub cond: DraftCond,
    pub at: Place,
}

/// The fluent whose value an action's result tells, and the words of the action's arguments in order. The result may
/// come later where the item says so.
#[derive(Drop)]
pub struct DraftSense {
    pub action: u32,
    pub vars: List<Word>,
    pub fluent: u32,
    pub args: List<DraftArg>,
    pub later: bool,
    pub at: Place,
}

/// A start value as it was read, where `None` is unknown.
#[derive(Drop)]
pub enum DraftStart {
    /// That of all ground fluents of a fluent, which its `fluent` item gives.
    Each {
        fluent: u32,
        value: Option<DraftArg>,
        at: Place,
    },
    /// That of one ground fluent, which a `start` item gives. It goes before that of its fluent.
    One {
        fluent: u32,
        args: List<DraftArg>,
        value: Option<DraftArg>,
        at: Place,
    },
}

/// A parameter of a procedure.
#[derive(Drop)]
pub struct DraftParam {
    pub var: Word,
    pub sort: u32,
}

/// A procedure as it was read, with its parameters in order.
#[derive(Drop)]
pub struct DraftProc {
    pub name: Word,
    pub params: List<DraftParam>,
    pub body: DraftProg,
    pub at: Place,
}

/// The `main` item.
#[derive(Drop)]
pub struct DraftMain {
    pub body: DraftProg,
    pub at: Place,
}
