// `Agent`, a checked agent, and its items.
use crate::cond::{Arg, Cond, Term};
use crate::prog::Prog;
use golog_base::{List, Word};

/// A checked agent. Its lists are in file order, what is built in standing first; sorts, fluents, actions, devices
/// and procedures are named by their numbers there. `starts` has one byte for each ground fluent: a constant by its
/// position in its sort, or 255 where it is unknown.
#[derive(Drop)]
pub struct Agent {
    pub sorts: List<SortItem>,
    pub fluents: List<FluentItem>,
    pub actions: List<ActionItem>,
    pub firsts: Firsts,
    pub devices: List<Word>,
    pub poss: List<PossItem>,
    pub causes: List<CauseItem>,
    pub senses: List<SenseItem>,
    pub starts: List<u8>,
    pub procs: List<ProcItem>,
    pub main: Prog,
}

/// What ground things are counted by: how many constants each sort has, and the number of the first ground fluent of
/// each fluent, and of the first ground action of each action, which is how many ground ones those before it have.
#[derive(Drop)]
pub struct Firsts {
    pub sizes: List<u32>,
    pub fluents: List<u32>,
    pub actions: List<u32>,
}

/// A sort: the whole numbers from `low` to `high`, or names in this order.
#[derive(Drop)]
pub enum SortItem {
    Range { name: Word, low: i32, high: i32 },
    Listed { name: Word, constants: List<Word> },
}

/// A fluent: the sorts of its arguments, and its own.
#[derive(Drop)]
pub struct FluentItem {
    pub name: Word,
    pub args: List<u32>,
    pub sort: u32,
}

/// An action: the sorts of its arguments, its device where it has one, and the devices that may post it. It is
/// exogenous exactly where some may, and then has no device of its own.
#[derive(Drop)]
pub struct ActionItem {
    pub name: Word,
    pub args: List<u32>,
    pub device: Option<u32>,
    pub posters: List<u32>,
}

/// The precondition of an action, whose arguments are the variables from 0 on (Reiter 2001).
#[derive(Drop)]
pub struct PossItem {
    pub action: u32,
    pub cond: Cond,
}

/// An effect of an action on a fluent, in the situation before it (Reiter 2001). The variables of the arguments are
/// numbered in the order of their first occurrence.
#[derive(Drop)]
pub struct CauseItem {
    pub action: u32,
    pub action_args: List<Arg>,
    pub fluent: u32,
    pub fluent_args: List<Arg>,
    pub term: Term,
    pub cond: Cond,
}

/// The fluent whose value an action's result tells. The action's arguments are the variables from 0 on. The program
/// waits for the result, unless it may come later.
#[derive(Drop)]
pub struct SenseItem {
    pub action: u32,
    pub fluent: u32,
    pub args: List<Arg>,
    pub later: bool,
}

/// A procedure: the sorts of its parameters, which are the variables from 0 on, and its body.
#[derive(Drop)]
pub struct ProcItem {
    pub name: Word,
    pub params: List<u32>,
    pub body: Prog,
}
