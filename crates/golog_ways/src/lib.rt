//! When a program may end, and its steps.
//!
//! `first(alloc, agent, prog, state)` is the first certain step, `any(alloc, agent, mode, prog,
//! state)` whether there is a step, `is_final(alloc, agent, mode, prog, state)` whether the program
//! may end; the steps of search blocks are not among those of `first` and `any`, which answer for
//! all steps where no block stands at the front; what `first` leaves is closed, so that it can be
//! asked again; `holds` and `flip` speak of modes.
//!
//! Each of the three walks stands once, and serves all three modes. How sure an end is, is put
//! together by the strong Kleene tables of golog_known: true is what is certain, false what isn't
//! possible, unknown what is possible and not certain. A step has a fourth case: with search blocks
//! it may be possible and not near. No walk goes on where its answer is settled: a program that may
//! not be skipped can't end, whatever its conditions; behind a part that certainly ends or steps,
//! no other is asked; and the lower part of a `prio` isn't asked where the higher has a step in
//! Near.
//!
//! `first_move` goes to the first part first and, where that has no certain step, asks whether it
//! may end or step; nothing is listed. It and `reach_of` stop for want of fuel only where a block
//! at the front wants more: in Must, or in Near where it stands in the higher part of a `prio`
//! (`first_move`), or anywhere (`reach_of`). `first_move_with` answers the same, and asks those
//! conditions by their checks that `ready_of` has made ready (`ready`). What a step leaves copies the
//! parts beside the path to what stepped, and of a `pick` or a call the body.
//!
//! The recursions end as those of golog_fronts do. Its calls are exported here too.
//!
//! Programs without search blocks can be followed step by step (`IsSearched`, specs/Searched).
//! `ways_of` of `listing` has their steps in a state and a mode, from the fronts; `going` has
//! `goes_through`, which steps a run again, `state_after` and copies of steps. `keep` has the trait
//! `Keep`: who tells whether runs go through and may keep what was learned of them, as long as all
//! calls are with one agent, which its ghost member `serves` says. `Walk` keeps nothing and steps
//! each run again. `expand` has the trait `Expand`: who lists the steps of many programs, each in its
//! state (`Node`), and asks the checks of many kept steps (`NumberedFront`, `Asked`). `Plain` does one
//! after another.
//!
//! The layers above use `first_move_with` and `reach_of` (golog_search), `ready_of` (golog_agent) and
//! `is_final` (golog_search, golog_find), with programs that `IsClosed` (golog_fronts, specs/Closed); `ways_of` and
//! `state_after` (golog_find); `goes_through` and `Keep` (golog_search, golog_watch). `first`,
//! `any`, `flip` and `has_front_block` are for whoever searches no block: of the other crates the
//! tests alone call them.
#![tactic(auto)]

mod answering;
mod conditions;
mod expand;
mod finality;
mod following;
mod going;
mod here;
mod keep;
mod listing;
mod modes;
mod moving;
mod placing;
mod programs;
mod reaches;
mod reaching;
mod ready;
mod single;
mod without;

pub use answering::{Blocks, Stop};
pub use expand::{Asked, Expand, Node, NumberedFront, Plain, open_in_turn, ways_in_turn};
pub use following::Following;
pub use going::{copy_way, copy_ways, goes_through, is_certain, state_after};
pub use golog_fronts::{
    Front, body_of, conjunction, end_cond, fronts, has_front_block, may_skip, none_is_reached,
    well_formed_is_fit,
};
pub use golog_semantics::Mode;
pub use keep::{Keep, Walk};
pub use listing::ways_of;
pub use modes::{flip, holds};
pub use moving::{first_move, first_move_with};
pub use programs::{any, first, is_final};
pub use reaches::Reach;
pub use reaching::reach_of;
pub use ready::{Ready, ready_of};
