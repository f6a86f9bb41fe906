//! The theory that a form spells: sorts, fluents, actions and what they cause, or the first refusal.
//!
//! `theory_of` reads every item of an agent's form but `proc` and `main` into a `DraftTheory`, and
//! `condition_of` reads one condition over a theory. Nothing is resolved here that needs more than
//! the place of a word: a word in a term place stays a word in the draft, and sorts of terms are
//! not compared. Limits and codes are named constants; the definitions have numbers of their own
//! (`specs/Limits`, `specs/Codes`).
//!
//! A reader of programs makes `Index::of` the theory once and `Indexed::new` of both, and then
//! calls `cond_of` with the number of variables in scope, `binder_of`, `args_of`, `declared_with`
//! of a `Callee`, `action_called`, `fluent_called`, `number_of`, `sort_of` and `new_name`, and the
//! lookups of `Indexed`. Their clauses are by the same tables. An item that may name only what
//! stands before it is read over `Indexed::before(place)`, which costs a walk of the declarations
//! before that place and makes no index. `Numbers` and `numbers_of` make an index of other things
//! that have names (`Named`), as procedures; `limits` has the limits that programs share:
//! arguments, variables in scope, bytes of a name.
#![tactic(auto)]

mod actions;
mod built_in;
pub mod conditions;
mod draft;
mod effects;
pub mod fault;
mod fluents;
pub mod heads;
pub mod index;
mod indexed;
mod items;
mod keyword;
pub mod limits;
pub mod names;
pub mod parts;
mod placed;
mod sorts;
mod started;
mod terms;

pub use conditions::cond_of;
pub use fault::TheoryFault;
pub use index::Index;
pub use indexed::Indexed;
pub use items::{condition_of, theory_of, theory_of_items};
