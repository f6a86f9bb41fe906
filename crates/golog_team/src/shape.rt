//! Which agents may be the two sides of a team.
ghost use Rattle.std.specs.Prelude.{◌≡◌, ◌<◌, ◌&&◌, not, IfOk};
ghost use Rattle.std.specs.List.{list_any};
ghost use Rattle.golog_tree.specs.Ground.{IsCountable, ground_count, action_args};
ghost use Rattle.golog_semantics.specs.WellFormed.{WellFormed};
ghost use Rattle.golog_semantics.specs.Journal.{is_carried_by, is_sensing as does_sense};
ghost use Rattle.golog_team.specs.Shapes.{numbers, has_shape as has_its_shape, is_heard as is_heard_by, unheard as least_unheard, team_refusal as first_refusal};

use golog_base::NoMemory;
use golog_ground::{action_text, read_action};
use golog_journal::AgentFacts;
use golog_tree::{Agent, action_count};
use std::alloc::Global;

/// The agent hasn't exactly one device, or an action of that senses.
pub const TEAM_SHAPE: u8 = 45;

/// The text of an action of the agent's device is that of no action that the other agent's device may post.
pub const TEAM_WORD: u8 = 46;

/// Why two agents are no team.
#[derive(Clone, Copy, Debug, PartialEq, Eq)]
pub struct TeamRefusal {
    /// The agent that is refused: 0 for the first, 1 for the second.
    pub side: u8,
    pub code: u8,
    /// 0, or the number of the action.
    pub at: u32,
}

/// The first refusal of two agents as the sides of a team, if there is one: the shape of the first, that of the second,
/// the least action of the first that the second does not hear, that of the second that the first does not hear.
pub fn team_refusal(
    alloc: Global,
    first: &Agent,
    second: &Agent,
) -> Result<Option<TeamRefusal>, NoMemory>
    requires formed { WellFormed first.now × WellFormed second.now }
    ensures { IfOk result (λ refusal. refusal ≡ first_refusal first.now second.now) }
{
    let one = AgentFacts::of(alloc, first)?;
    let other = AgentFacts::of(alloc, second)?;
    Ok(refusal_by(first, second, &one, &other))
}

fn refusal_by(
    first: &Agent,
    second: &Agent,
    one: &AgentFacts,
    other: &AgentFacts,
) -> Option<TeamRefusal>
    requires formed { WellFormed first.now × WellFormed second.now }
    requires facts { (one.now ≡ first.now) × (other.now ≡ second.now) }
    ensures { result ≡ first_refusal first.now second.now }
{
    if !has_shape(first, one) {
        return refused(0, TEAM_SHAPE, 0);
    }
    if !has_shape(second, other) {
        return refused(1, TEAM_SHAPE, 0);
    }
    match unheard(first, second, one, other) {
        Some(action) => refused(0, TEAM_WORD, action),
        None => match unheard(second, first, other, one) {
            Some(action) => refused(1, TEAM_WORD, action),
            None => None,
        },
    }
}

fn refused(side: u8, code: u8, at: u32) -> Option<TeamRefusal>
    ensures { result ≡ Some (record { side = side; code = code; at = at }) }
{
    Some(TeamRefusal { side, code, at })
}

/// Whether the agent has exactly one device, and no action of that senses.
pub fn has_shape(agent: &Agent, facts: &AgentFacts) -> bool
    requires countable { IsCountable agent.now }
    requires facts { facts.now ≡ agent.now }
    ensures { result ≡ has_its_shape agent.now }
{
    agent.devices.len() == 1 && !some_sense(agent, facts)
}

// Whether an action of the one device senses.
fn some_sense(agent: &Agent, facts: &AgentFacts) -> bool
    requires countable { IsCountable agent.now }
    requires facts { facts.now ≡ agent.now }
    ensures { result ≡ list_any (λ a. is_carried_by agent.now 0 a && does_sense agent.now a) (numbers agent.now) }
{
    let count = action_count(agent);
    for action in 0..count {
        if is_asked(facts, action) {
            return true;
        }
    }
    false
}

/// Whether the one device carries the action out.
pub(crate) fn is_carried(facts: &AgentFacts, action: u32) -> bool
    ensures { result ≡ is_carried_by facts.now 0 action }
{
    match facts.device_of(action) {
        Some(device) => device == 0,
        None => false,
    }
}

fn is_asked(facts: &AgentFacts, action: u32) -> bool
    ensures { result ≡ (is_carried_by facts.now 0 action && does_sense facts.now action) }
{
    is_carried(facts, action) && facts.is_sensing(action)
}

/// The least action of the agent's device whose text is that of no action that the other agent's device may post.
pub fn unheard(
    agent: &Agent,
    other: &Agent,
    facts: &AgentFacts,
    other_facts: &AgentFacts,
) -> Option<u32>
    requires formed { WellFormed agent.now × WellFormed other.now }
    requires facts { (facts.now ≡ agent.now) × (other_facts.now ≡ other.now) }
    ensures { result ≡ least_unheard agent.now other.now }
{
    let count = action_count(agent);
    for action in 0..count {
        if is_unheard(agent, other, facts, other_facts, action) {
            return Some(action);
        }
    }
    None
}

fn is_unheard(
    agent: &Agent,
    other: &Agent,
    facts: &AgentFacts,
    other_facts: &AgentFacts,
    action: u32,
) -> bool
    requires formed { WellFormed agent.now × WellFormed other.now }
    requires number { action < ground_count agent.now (action_args agent.now) }
    requires facts { (facts.now ≡ agent.now) × (other_facts.now ≡ other.now) }
    ensures { result ≡ (is_carried_by agent.now 0 action && not (is_heard_by agent.now other.now action)) }
{
    is_carried(facts, action) && !is_heard(agent, other, other_facts, action)
}

// Whether the other agent's device may post the action's text.
fn is_heard(agent: &Agent, other: &Agent, other_facts: &AgentFacts, action: u32) -> bool
    requires formed { WellFormed agent.now × WellFormed other.now }
    requires number { action < ground_count agent.now (action_args agent.now) }
    requires facts { other_facts.now ≡ other.now }
    ensures { result ≡ is_heard_by agent.now other.now action }
{
    let text = action_text(agent, action);
    match read_action(other, text.as_bytes()) {
        Some(heard) => other_facts.may_post(0, heard),
        None => false,
    }
}
