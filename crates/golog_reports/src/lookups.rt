// The things of an agent that words name.
ghost use Rattle.std.specs.Prelude.{◌≡◌, ◌<◌, IfSome, is_some, not};
ghost use Rattle.golog_tree.specs.Ground.{action_args, ground_count};
ghost use Rattle.golog_semantics.specs.Reports.{is_own as spec_is_own, is_exogenous as spec_is_exogenous};
ghost use Rattle.golog_semantics.specs.WellFormed.{WellFormed};
ghost use Rattle.golog_reports.specs.Reads.{action_named, device_named, constant_named, is_agents_constant, own_action, posted_action, is_sent_to};
ghost use Rattle.golog_reports.specs.Views.{lent};

use golog_ground::{place_of_name, read_action, read_constant};
use golog_text::device_of;
use golog_tree::{Agent, action_of};

// The ground action of this text.
fn action_named(agent: &Agent, text: &[u8]) -> Option<u32>
    requires { WellFormed agent.now }
    ensures named { result ≡ action_named agent.now text.now }
    ensures number { IfSome result (λ action. action < ground_count agent.now (action_args agent.now)) }
{
    read_action(agent, text)
}

// The device of this name.
pub(crate) fn device_named(agent: &Agent, name: &[u8]) -> Option<u8>
    requires { WellFormed agent.now }
    ensures { result ≡ device_named agent.now name.now }
{
    let device = place_of_name(agent.devices.as_slice(), name)?;
    Some(device as u8)
}

// The constant of this text in a sort.
pub(crate) fn constant_named(agent: &Agent, sort: u32, text: &[u8]) -> Option<u8>
    requires { WellFormed agent.now }
    ensures { result ≡ constant_named agent.now sort text.now }
{
    read_constant(agent, sort, text)
}

// Whether the text is a constant of a sort.
pub(crate) fn is_constant_of(agent: &Agent, sort: u32, text: &[u8]) -> bool
    requires { WellFormed agent.now }
    ensures { result ≡ is_some (constant_named agent.now sort text.now) }
{
    constant_named(agent, sort, text).is_some()
}

// Whether the text is a constant of some sort.
pub(crate) fn is_agents_constant(agent: &Agent, text: &[u8]) -> bool
    requires { WellFormed agent.now }
    ensures { result ≡ is_agents_constant agent.now text.now }
{
    let count = agent.sorts.len();
    for sort in 0..count {
        if is_constant_of(agent, sort as u32, text) {
            return true;
        }
    }
    false
}

// Whether devices post the action.
fn is_posted(agent: &Agent, action: u32) -> bool
    requires formed { WellFormed agent.now }
    requires number { action < ground_count agent.now (action_args agent.now) }
    ensures yes { result ≡ spec_is_exogenous agent.now action }
    ensures no { not result ≡ spec_is_own agent.now action }
{
    let ground = action_of(agent, action);
    !agent.actions.as_slice()[ground.item as usize]
        .posters
        .is_empty()
}

// The action of the program that has this text.
#[tactic(auto, unfolding(crate::specs::Reads::own_action))]
pub(crate) fn own_action(agent: &Agent, text: &[u8]) -> Option<u32>
    requires { WellFormed agent.now }
    ensures named { result ≡ own_action agent.now text.now }
    ensures number { IfSome result (λ action. action < ground_count agent.now (action_args agent.now)) }
{
    let action = action_named(agent, text)?;
    if is_posted(agent, action) {
        return None;
    }
    Some(action)
}

// The exogenous action of this text.
#[tactic(auto, unfolding(crate::specs::Reads::posted_action))]
pub(crate) fn posted_action(agent: &Agent, text: &[u8]) -> Option<u32>
    requires { WellFormed agent.now }
    ensures { result ≡ posted_action agent.now text.now }
{
    let action = action_named(agent, text)?;
    if !is_posted(agent, action) {
        return None;
    }
    Some(action)
}

// Whether the device of an action is the one of this name, and there is none where none is named.
#[tactic(auto, unfolding(crate::specs::Reads::is_sent_to))]
pub(crate) fn is_sent_to(agent: &Agent, action: u32, name: Option<&[u8]>) -> bool
    requires formed { WellFormed agent.now }
    requires number { action < ground_count agent.now (action_args agent.now) }
    ensures { result ≡ is_sent_to agent.now action (lent name.entry) }
{
    match (device_of(agent, action), name) {
        (Some(device), Some(name)) => {
            agent.devices.as_slice()[device as usize].as_bytes() == name
        }
        (None, None) => true,
        _ => false,
    }
}
