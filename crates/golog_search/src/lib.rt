//! What a program does next, search blocks included.
//!
//! `decide` goes by golog_ways' `is_final`, `first_move` and `reach_of` in the order of the answer:
//! may it end for certain, is there a first certain step, and if neither, might it step or end were
//! more known, or is a step possible at all. Its two halves stand by themselves: `decide_step` (the
//! end or the step; `decide_step_of` where the program is known not to nest too deep, and some
//! conditions are made ready) and `decide_blocked` (why there is neither, with searches of its own). `first_move` and `reach_of`
//! ask `Searches` for the steps of blocks, which searches each at the values of the state, within
//! the block's fuel or, for `decide_unbounded`, without bounds. Where a search wants more than its
//! fuel `decide` answers `Fuel`, and the program is heavy then; `heavy` tells that by itself. Of
//! programs without search blocks it knows that a step begins no run, and that what it leaves has
//! no block either (`blockless_steps`, `blockless_left`).
//!
//! A block that follows a run goes on along it as long as it goes through from the state, without a
//! search, and searches anew else (`search_block` of golog_find).
//!
//! `decide_kept` asks a `Keep` of golog_ways, before it looks for a step, of each run that is under
//! way in the program (`told`); what it tells is looked up where a block is reached. `decide` is
//! that call with `Walk`. `decide_with` is told who lists the steps of many states of a search at once
//! (`Expand` of golog_ways), and so are the halves that a runner calls; `decide_kept` is that with
//! `Plain`. Why a program is blocked is searched for by what is near first: where nothing is, nothing
//! is certain, and there is no further search.
//!
//! The layer above uses `IsDecided`, `decision` and the law `decided_is_answered`.
#![tactic(auto)]

mod block_steps;
mod deciding;
mod decision;
mod laws;
mod reach;
mod searches;
mod steady;
mod told;
mod weighing;

pub use deciding::{
    decide, decide_blocked, decide_kept, decide_step, decide_step_of, decide_unbounded,
    decide_with, heavy,
};
pub use decision::{Blocked, Decision};
pub use golog_find::{Found, NEST_LIMIT, find, find_with};
pub use golog_semantics::{Block, Move};
pub use laws::{blockless_left, blockless_steps, decided_is_answered};
