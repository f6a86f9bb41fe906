//! The agent that the bytes of a file spell, and the condition that bytes spell over it, or their first refusal.
//!
//! The layers above use `read_agent` with `AgentFault`; `read_theory_and_agent`, which gives an
//! `Understood`, and over it `read_condition` with `CondFault`; for proofs `specs/Spelled` (bytes
//! to agent; the first refusal), `specs/Conditions` (the same of a condition) and the laws.
#![tactic(auto)]

mod condition;
mod fault;
mod laws;
mod reading;

pub use condition::read_condition;
pub use fault::{AgentFault, CondFault};
pub use laws::{
    conditions_stay_kept, one_agent_is_spelled, one_cond_is_spelled, ranges_of_agents_fit,
    read_conditions_stay_kept, signature_stays, spelled_cond_is_unrefused, spelled_is_unrefused,
};
pub use reading::{Understood, read_agent, read_theory_and_agent};
