//! What the programs of a draft are by their shape: what they may do without a step, their search blocks, how deep
//! they nest, and their parts, which nest to the right.
//!
//! It tells the refusals for these (32, 33, 37, 38).
//!
//! What a procedure calls without a step, how deep it nests and where its search blocks stand is
//! told of the drafts, also where a term in them is refused, so that every refusal is known. The
//! specification says it of the *shape* of a draft (`specs/Shapes`): its program without conditions
//! and arguments. `proofs/Fores` proves that the functions over drafts tell what is so of the
//! shape; in golog_check `proofs/Shaped` proves that a program that is read is like its shape in
//! all that looks at neither conditions nor arguments, and `proofs/Transfer` that two agents whose
//! procedures are alike reach, nest and search alike; so the refusals, said of shapes, decide about
//! the agent.
#![tactic(auto)]

mod blocks;
mod codes;
mod fronts;
mod nesting;
mod parts;
mod reaching;
mod rounds;

pub use blocks::{blocks_refused, count_of};
pub use codes::{FRONT_DEEP, NESTED_SEARCH, SEARCH_NUMBERS, UNGUARDED};
pub use nesting::is_too_deep;
pub use parts::nested;
pub use reaching::fronts_refused;
