// A test of `start`, `State::of`, `copy`, `set`, `after_do`, `after_sense`, `roll`, `advance` and
// `restart`.
ghost use Rattle.std.specs.Prelude.{◌<◌, length};
ghost use Rattle.golog_tree.specs.Ground.{ground_actions};
ghost use Rattle.golog_semantics.specs.WellFormed.{WellFormed};

use crate::agents::{LAMP, action_of};
use crate::asserting::same;
use golog_base::{List, NoMemory};
use golog_file::read_agent;
use golog_progress::{Entry, State, advance, restart, start};
use golog_tree::Agent;
use std::alloc::Global;

/// Two digits, the other of which nobody knows, and actions whose effects speak of different arguments, of equal
/// ones, and of a first one that is 2.
const DIGITS: &[u8] = b"(agent
    (sort digit 0 9)
    (fluent one () digit 1) (fluent other () digit)
    (action both (digit digit)) (action same (digit digit)) (action second (digit digit))
    (causes (both x y) (one) x) (causes (both x y) (other) y)
    (causes (same x x) (one) x)
    (causes (second 2 x) (one) x)
    (main nil))";

/// The values of the first ground fluents, of which the first is built in, 99 where there are two.
fn three(state: &State) -> [u8; 3] {
    match state.values() {
        [running, one] => [*running, *one, 99],
        [running, one, other] => [*running, *one, *other],
        _ => [99; 3],
    }
}

/// The values after an action, and those of a copy that was made before.
fn after_one(alloc: Global, agent: &Agent, action: u32) -> Result<[[u8; 3]; 2], NoMemory>
    requires formed { WellFormed agent.now }
    requires action { action < length (ground_actions agent.now) }
{
    let mut state = start(alloc, agent)?;
    let copy = state.copy(alloc)?;
    state.after_do(agent, action);
    Ok([three(&state), three(&copy)])
}

/// The values after the entry of an action.
fn after_entry(alloc: Global, agent: &Agent, action: u32) -> Result<[u8; 3], NoMemory>
    requires formed { WellFormed agent.now }
    requires action { action < length (ground_actions agent.now) }
{
    let mut state = start(alloc, agent)?;
    state.roll(agent, &[Entry::Do { action }]);
    Ok(three(&state))
}

/// The values after an action as they are put in the place of those before, which a state is set to then.
fn after_advancing(alloc: Global, agent: &Agent, action: u32) -> Result<[u8; 3], NoMemory>
    requires formed { WellFormed agent.now }
    requires action { action < length (ground_actions agent.now) }
{
    let mut state = start(alloc, agent)?;
    let mut next = List::copy_of(alloc, state.values())?.into_vec();
    advance(agent, action, state.values(), next.as_mut_slice());
    state.set(next.as_slice());
    Ok(three(&state))
}

/// The values of a state of those after an action, and those at the start of the agent that begins anew from them.
fn begun_anew(alloc: Global, agent: &mut Agent, action: u32) -> Result<[[u8; 3]; 2], NoMemory>
    requires formed { WellFormed agent.old }
    requires action { action < length (ground_actions agent.old) }
{
    let mut state = start(alloc, agent)?;
    state.after_do(agent, action);
    let again = State::of(alloc, agent, state.values())?;
    restart(alloc, agent, state.values())?;
    let anew = start(alloc, agent)?;
    Ok([three(&again), three(&anew)])
}

/// The values once a sensing has told the last of them, and those of a copy that was made before.
fn after_sensing(alloc: Global, agent: &Agent) -> Result<[[u8; 3]; 2], NoMemory>
    requires { WellFormed agent.now }
{
    let mut state = start(alloc, agent)?;
    let copy = state.copy(alloc)?;
    if state.values().len() > 2 {
        state.after_sense(2, 7);
    }
    Ok([three(&state), three(&copy)])
}

/// The values after the action, those of a copy from before it, and those after the action's entry and by each other
/// way to come to them.
fn after_action(alloc: Global, agent: &mut Agent, action: u32) -> Result<[[u8; 3]; 6], NoMemory>
    requires formed { WellFormed agent.old }
    requires action { action < length (ground_actions agent.old) }
{
    let [after, copy] = after_one(alloc, agent, action)?;
    let rolled = after_entry(alloc, agent, action)?;
    let advanced = after_advancing(alloc, agent, action)?;
    let [again, anew] = begun_anew(alloc, agent, action)?;
    Ok([after, copy, rolled, advanced, again, anew])
}

/// The same of the action of this text. The empty text stands for the sensing.
fn after_text(alloc: Global, agent: &mut Agent, text: &[u8]) -> Option<[[u8; 3]; 6]>
    requires { WellFormed agent.old }
{
    if text.is_empty() {
        let [after, copy] = after_sensing(alloc, agent).ok()?;
        return Some([after, copy, after, after, after, after]);
    }
    let action = action_of(agent, text)?;
    after_action(alloc, agent, action).ok()
}

/// The same of the agent that a file spells.
fn after(alloc: Global, file: &[u8], text: &[u8]) -> Option<[[u8; 3]; 6]> {
    match read_agent(alloc, file) {
        Ok(mut agent) => {
            let answer = after_text(alloc, &mut agent, text);
            drop(agent);
            answer
        }
        Err(_fault) => None,
    }
}

// Each agent and action with the values before, which a copy keeps, and after it.
#[test]
fn actions_and_sensing_change_values(rt: HostRuntime) {
    let actions: [(&[u8], &[u8], [u8; 3], [u8; 3]); 7] = [
        (LAMP, b"switch", [0, 0, 99], [0, 1, 99]),
        (DIGITS, b"", [0, 1, 255], [0, 1, 7]),
        (DIGITS, b"both(3,4)", [0, 1, 255], [0, 3, 4]),
        (DIGITS, b"same(3,3)", [0, 1, 255], [0, 3, 255]),
        (DIGITS, b"same(3,4)", [0, 1, 255], [0, 1, 255]),
        (DIGITS, b"second(2,5)", [0, 1, 255], [0, 5, 255]),
        (DIGITS, b"second(3,5)", [0, 1, 255], [0, 1, 255]),
    ];
    for (file, text, before, after_it) in actions {
        let wanted = Some([after_it, before, after_it, after_it, after_it, after_it]);
        same(&rt, text, after(rt.alloc(), file, text), wanted);
    }
}
