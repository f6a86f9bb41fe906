//! Agents, conditions and programs, as they are read and as they are checked, and small calls on them.
//!
//! `put_arg` puts a constant in for a variable; `copy_prog` gives an equal program, which shares
//! the parts that stand in `Boxed`; `tidy_seq`, `tidy_conc` and `tidy_prio` join two programs
//! without an empty part, and `join_two` as they are; `fluent_no`, `action_no`, `fluent_of` and
//! `action_of` number ground fluents and actions, both ways. Parts of a recursive type stand in
//! `Boxed`, which a contract sees as the value, so that a copy is equal to its source by a plain
//! equation.
#![tactic(auto)]

mod agent;
mod cond;
mod copy;
mod draft;
mod draft_cond;
mod draft_prog;
mod ground;
mod join;
mod made;
mod nesting;
mod prog;
mod same;
mod substitute;
mod tidy;

pub use agent::{
    ActionItem, Agent, CauseItem, Firsts, FluentItem, PossItem, ProcItem, SenseItem, SortItem,
};
pub use cond::{Arg, Cond, Term, Truth};
pub use copy::{copy_cond, copy_prog};
pub use draft::{
    DraftAction, DraftCause, DraftDevice, DraftFluent, DraftMain, DraftParam, DraftPoss, DraftProc,
    DraftProgram, DraftSense, DraftSort, DraftStart, DraftTheory,
};
pub use draft_cond::{DraftArg, DraftCond, DraftTerm, Place};
pub use draft_prog::DraftProg;
pub use ground::{
    Ground, HasArgs, MOST_ARGS, action_count, action_no, action_of, args_count, fluent_no,
    fluent_of, item_size, sort_size,
};
pub use join::{Join, join_two};
pub use made::{
    Comparison, all_cond, compared_terms, fluent_cond, fluent_term, ite_term, shift_term, some_cond,
};
pub use nesting::nest;
pub use prog::{Label, Prog, Way};
pub use same::{are_same_ways, is_same_prog, is_same_way};
pub use substitute::{put_arg, put_cond};
pub use tidy::{tidy_conc, tidy_prio, tidy_seq};
