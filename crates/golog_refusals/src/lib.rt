//! Laws of what `check` refuses, which nothing stands on.
//!
//! The `specs/` here say what the parts of a draft say. These tell nothing of refusals: a draft
//! says an agent or it doesn't. The laws are the contracts of functions with empty bodies: a draft
//! that is refused says no well-formed agent, and any other says one alone, which `check` gives. No
//! crate stands on it.
#![tactic(auto)]

ghost use Rattle.golog_refusals.specs.RefusalLaws.{CondsAreSaid, GivenIsSaid, RefusedSaysNone, SaidIsGiven};

/// A draft that `check` refuses, with whatever code, says no well-formed agent.
pub fn refused_says_none()
    ensures { RefusedSaysNone }
{}

/// The agent that `check` gives is one that the draft says.
pub fn given_is_said()
    ensures { GivenIsSaid }
{}

/// A draft says one well-formed agent at most: the one that `check` gives.
pub fn said_is_given()
    ensures { SaidIsGiven }
{}

/// A condition that `check_condition` refuses says no condition of the agent; one that it takes says what it gives.
pub fn conditions_are_said()
    ensures { CondsAreSaid }
{}
