//! What certain means: what is known, certain or settled is so in every world in which all is so that is known.
//!
//! `knowledge`: what is certain stays so where more is known. `worlds`: what is certain is so in
//! each world that completes what is known, for conditions, programs with search blocks, and
//! journals; that the steps of a world satisfy the axioms of Trans; and that a complete world stays
//! complete. One proof over a view of programs (as they are, or with runs under way written as
//! blocks) serves programs with search blocks and without (`WorldSteps`). The laws stand below
//! golog_known, so that the calls that decide can say what their answers mean in every world.
#![tactic(auto)]

mod knowledge;
mod worlds;

pub use knowledge::{known_stays, runs_stay, steps_keep_knowledge, ways_settle};
pub use worlds::{
    bodies_are_plain, bodies_stay_within, certain_blocks_are_so, ends_are_found_or_cut,
    journals_are_so, plain_steps_are_so, runs_lead, steps_are_so, trans_unfolds,
    world_blocks_are_possible, worlds_stay_complete,
};
