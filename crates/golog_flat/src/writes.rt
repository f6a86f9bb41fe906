// The places that an action writes.
ghost use Rattle.std.specs.Prelude.{◌≡◌, ◌<◌, ◌≤◌, IfOk, length};
ghost use Rattle.golog_tree.specs.Ground.{ground_actions};
ghost use Rattle.golog_semantics.specs.WellFormed.{WellFormed};
ghost use Rattle.golog_flat.specs.Effects.{Agree, ends_all, with_place as spec_with_place};

use golog_base::{List, NoMemory};
use golog_known::UNKNOWN;
use golog_progress::advance;
use golog_tree::Agent;
use std::alloc::Global;

/// The value that a ground fluent gets, by its place, which is its number.
#[derive(Clone, Copy, Debug, PartialEq, Eq)]
pub struct Write {
    pub place: u32,
    pub value: u8,
}

/// The values after an action, where all were the same before.
fn after_all(alloc: Global, agent: &Agent, action: u32, value: u8) -> Result<List<u8>, NoMemory>
    requires agent { WellFormed agent.now }
    requires action { action < length (ground_actions agent.now) }
    ensures { IfOk result (λ values. values ≡ ends_all agent.now action value) }
{
    let count = agent.starts.len();
    let before = vec![in alloc; value; count]?;
    let mut next = vec![in alloc; value; count]?;
    advance(agent, action, before.as_slice(), next.as_mut_slice());
    Ok(List::from_vec(next))
}

/// The writes, and one more where a place ends the same from both.
fn with_place(writes: List<Write>, place: usize, low: u8, high: u8) -> Result<List<Write>, NoMemory>
    requires { place ≤ 4096 }
    ensures { IfOk result (λ more. more ≡ spec_with_place writes place low high) }
{
    let mut writes = writes;
    if low == high {
        writes.push(Write {
            place: place as u32,
            value: low,
        })?;
    }
    Ok(writes)
}

/// The places where both are the same, with the value there.
fn agreeing(alloc: Global, lows: &[u8], highs: &[u8]) -> Result<List<Write>, NoMemory>
    requires even { length highs.now ≡ length lows.now }
    requires few { length lows.now ≤ 4096 }
    ensures { IfOk result (Agree lows.now highs.now) }
{
    let mut writes = List::new(alloc);
    for place in 0..lows.len() {
        writes = with_place(writes, place, lows[place], highs[place])?;
    }
    Ok(writes)
}

/// What an action writes, where its causes are plain: the places that end the same from all 0 and from all unknown.
pub fn writes_of(alloc: Global, agent: &Agent, action: u32) -> Result<List<Write>, NoMemory>
    requires agent { WellFormed agent.now }
    requires action { action < length (ground_actions agent.now) }
    ensures { IfOk result (Agree (ends_all agent.now action 0) (ends_all agent.now action 255)) }
{
    let lows = after_all(alloc, agent, action, 0)?;
    let highs = after_all(alloc, agent, action, UNKNOWN)?;
    let writes = agreeing(alloc, lows.as_slice(), highs.as_slice());
    drop(lows);
    drop(highs);
    writes
}
