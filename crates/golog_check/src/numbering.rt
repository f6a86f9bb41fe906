// The size of each sort, and the number of the first ground thing of each fluent and each action.
ghost use Rattle.std.specs.Prelude.{◌≡◌, ◌≤◌, All, length, map, IfOk};
ghost use Rattle.golog_tree.specs.Ground.{IsCountable, action_args, firsts_of as spec_firsts_of, fluent_args, ground_count, item_size as spec_item_size, numbered as spec_numbered};
ghost use Rattle.golog_check.specs.Sums.{AreSmall};

use crate::sums::count_in;
use golog_base::{List, NoMemory, both};
use golog_tree::{Agent, Firsts, HasArgs, SortItem, item_size};
use std::alloc::Global;

/// How many constants each of these sorts has.
fn sizes_of(alloc: Global, sorts: &[SortItem]) -> Result<List<u32>, NoMemory>
    requires { AreSmall sorts.now }
    ensures { IfOk result (λ sizes. sizes ≡ map spec_item_size sorts.now) }
{
    let mut sizes = List::new(alloc);
    for sort in sorts {
        sizes.push(item_size(sort))?;
    }
    Ok(sizes)
}

/// The number of the first ground thing of each of these items.
fn firsts_of<T: HasArgs>(alloc: Global, agent: &Agent, items: &[T]) -> Result<List<u32>, NoMemory>
    requires small { AreSmall agent.now.sorts }
    requires few { All (λ sorts. length sorts ≤ 3) (map T.arg_sorts items.now) }
    requires numbered { ground_count agent.now (map T.arg_sorts items.now) ≤ 65536 }
    ensures { IfOk result (λ firsts. firsts ≡ spec_firsts_of agent.now (map T.arg_sorts items.now)) }
{
    let mut firsts = List::new(alloc);
    let mut count = 0;
    for item in items {
        firsts.push(count)?;
        count += count_in(agent.sorts.as_slice(), item.arg_sorts());
    }
    Ok(firsts)
}

/// The size of each sort, and the number of the first ground fluent of each fluent, and of the first ground action of
/// each action.
fn firsts_in(alloc: Global, agent: &Agent) -> Result<Firsts, NoMemory>
    requires { IsCountable (spec_numbered agent.now) }
    ensures { IfOk result (λ firsts. firsts ≡ (spec_numbered agent.now).firsts) }
{
    let sizes = sizes_of(alloc, agent.sorts.as_slice());
    let fluents = firsts_of(alloc, agent, agent.fluents.as_slice());
    let actions = firsts_of(alloc, agent, agent.actions.as_slice());
    let (sizes, (fluents, actions)) = both(sizes, both(fluents, actions))?;
    Ok(Firsts {
        sizes,
        fluents,
        actions,
    })
}

/// The agent, where each sort has its size, and each fluent and each action the number of its first ground thing.
pub fn numbered(alloc: Global, agent: Agent) -> Result<Agent, NoMemory>
    requires { IsCountable (spec_numbered agent) }
    ensures { IfOk result (λ whole. whole ≡ spec_numbered agent) }
{
    match firsts_in(alloc, &agent) {
        Ok(firsts) => Ok(Agent { firsts, ..agent }),
        Err(NoMemory) => {
            drop(agent);
            Err(NoMemory)
        }
    }
}
