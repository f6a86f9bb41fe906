//! A program that follows plans, over a board: each plan that it begins stands in the line of its first step.
//!
//! A `PlanScribe` is made of a `PlanPen`, as a scribe of golog_agent is of its pen, and is a lead of golog_lead's
//! rounds. It is a `PlanDriver` over a `PlanPrinted`, which copies all that it lacks of the board, decides at the whole
//! list that it has seen, and commits that at its length; where that has become longer it begins again. `PlanCore` keeps
//! no entry: what is known after them, what is counted of them, and what is left of the program with the plan that is
//! kept. What a search for a plan came to is not kept where nothing was committed by it.
//!
//! Where a result is to come, it is one alone (`LacksOne`): a step is taken only where none is lacking. So the program
//! waits for it exactly where its device is open.
//!
//! The branch of a result is looked up when its entry is copied. Where an owner more of it can't be counted then, what
//! is kept is lost, and the program ends for want of memory in its next turn.
#![tactic(auto)]

mod deciding;
mod driver;
mod next;
mod pen;
mod plan_core;
mod printed;
mod record;
mod scribe;

pub use pen::PlanPen;
pub use scribe::PlanScribe;
