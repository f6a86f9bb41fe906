//! What a decision comes to: a step, an end, or nothing while a device may still post or a result
//! may still come.
ghost use Rattle.std.specs.Prelude.{◌≡◌};
ghost use Rattle.golog_agent.specs.Deciding.{plan_by};

use golog_search::Decision;
use golog_semantics::{Answer, Move};

/// What the program is to do next.
#[derive(Drop)]
pub(crate) enum Plan {
    /// Nothing, until a device has posted.
    Wait,
    /// It ends.
    End(Answer),
    /// It takes this step.
    Step(Move),
}

/// What the program is to do that decides so where it waits for no result, and, if it is blocked, no device may
/// post any more. `comes` says whether a result may still come.
pub(crate) fn planned(decision: Decision, comes: bool) -> Plan
    ensures { result ≡ plan_by comes decision }
{
    match decision {
        Decision::Final => {
            if comes {
                Plan::Wait
            } else {
                Plan::End(Answer::Done)
            }
        }
        Decision::Deep => Plan::End(Answer::Deep),
        Decision::Fuel => Plan::End(Answer::Fuel),
        Decision::Step(step) => Plan::Step(step),
        Decision::Blocked(blocked) => Plan::End(blocked.answer()),
    }
}
