// The start value of each ground fluent, in the order of their numbers.
ghost use Rattle.std.specs.Prelude.{◌≡◌, ◌<◌, ℕ, map, length, slice_index, slice_get, IfOk, MatchOption, IsTrue, ◌↔◌, Some};
ghost use Rattle.golog_tree.specs.Ground.{AreWithin, IsCountable, sizes, args_at, fluent_args, ground_fluents};
ghost use Rattle.golog_semantics.specs.Truth.{unknown};
ghost use Rattle.golog_check.specs.Starts.{Ground, own_after, own_value, one_after, start_value};

use crate::starts::{Start, UNKNOWN};
use crate::sums::count_in;
use golog_base::{List, NoMemory};
use golog_tree::{Agent, fluent_no, fluent_of, sort_size};
use std::alloc::Global;

/// Puts the start value of a fluent's own item to those of the items before it.
fn put_own(own: &mut Vec<u8>, start: &Start)
    ensures values { (fluent : ℕ) → fluent < length own.old.items →
        slice_index own.new.items fluent ≡ own_after (slice_index own.old.items fluent) start.now fluent }
    ensures all { length own.new.items ≡ length own.old.items }
{
    if let Start::Each { fluent, value } = start {
        let fluent = *fluent as usize;
        if fluent < own.len() {
            own[fluent] = *value;
        }
    }
}

/// The start value of each fluent's own item, unknown where it has none.
fn own_values(alloc: Global, fluents: usize, starts: &[Start]) -> Result<Vec<u8>, NoMemory>
    ensures values { IfOk result (λ own. (fluent : ℕ) → fluent < fluents →
        slice_index own.items fluent ≡ own_value unknown starts.now fluent) }
    ensures all { IfOk result (λ own. length own.items ≡ fluents) }
{
    let mut own = vec![in alloc; UNKNOWN; fluents]?;
    for start in starts {
        put_own(&mut own, start);
    }
    Ok(own)
}

/// Whether the arguments are constants of the sorts, one of each.
fn are_within(agent: &Agent, sorts: &[u32], args: &[u8]) -> bool
    requires { IsCountable agent.now }
    ensures { IsTrue result ↔ AreWithin (sizes agent.now sorts.now) args.now }
{
    match (sorts.split_first(), args.split_first()) {
        (None, None) => true,
        (Some((sort, sorts)), Some((arg, args))) => {
            u32::from(*arg) < sort_size(agent, *sort) && are_within(agent, sorts, args)
        }
        _ => false,
    }
}

/// The number of a ground fluent, where there is one of these arguments.
fn number_of(agent: &Agent, fluent: u32, args: &[u8]) -> Option<usize>
    requires { IsCountable agent.now }
    ensures { MatchOption result
        ((number : ℕ) → slice_get (ground_fluents agent.now) number ≡ Some (fluent, args.now) → ⊥)
        (λ number. slice_get (ground_fluents agent.now) number ≡ Some (fluent, args.now)) }
{
    let Some(item) = agent.fluents.get(fluent as usize) else {
        return None;
    };
    if !are_within(agent, item.args.as_slice(), args) {
        return None;
    }
    Some(fluent_no(agent, fluent, args) as usize)
}

/// How many ground fluents there are.
fn ground_count(agent: &Agent) -> u32
    requires { IsCountable agent.now }
    ensures { result ≡ length (ground_fluents agent.now) }
{
    let mut count = 0;
    for item in agent.fluents.as_slice() {
        count += count_in(agent.sorts.as_slice(), item.args.as_slice());
    }
    count
}

/// The start value of each ground fluent by its fluent's own item.
fn base_values(alloc: Global, agent: &Agent, own: &[u8]) -> Result<Vec<u8>, NoMemory>
    requires countable { IsCountable agent.now }
    requires all { length own.now ≡ length agent.now.fluents }
    ensures { IfOk result (λ values.
        values.items ≡ map (λ (at : Ground). slice_index own.now at.0) (ground_fluents agent.now)) }
{
    let mut values = Vec::new(alloc);
    for number in 0..ground_count(agent) {
        values.push(own[fluent_of(agent, number).item as usize])?;
    }
    Ok(values)
}

/// Puts the value of a `start` item over those of the items before it.
fn put_one(agent: &Agent, values: &mut Vec<u8>, start: &Start)
    requires { IsCountable agent.now }
    ensures values { (number : ℕ) (at : Ground) → number < length values.old.items
        → slice_get (ground_fluents agent.now) number ≡ Some at
        → slice_index values.new.items number ≡ one_after (slice_index values.old.items number) start.now at }
    ensures all { length values.new.items ≡ length values.old.items }
{
    if let Start::One {
        fluent,
        args,
        value,
    } = start
    {
        if let Some(number) = number_of(agent, *fluent, args.as_slice()) {
            if number < values.len() {
                values[number] = *value;
            }
        }
    }
}

/// The start value of each ground fluent, by their numbers: that of its `start` item, else that of its fluent's
/// own item, else unknown.
pub fn initial_values(alloc: Global, agent: &Agent, starts: &[Start]) -> Result<List<u8>, NoMemory>
    requires { IsCountable agent.now }
    ensures { IfOk result (λ values. values ≡ map (start_value starts.now) (ground_fluents agent.now)) }
{
    let own = own_values(alloc, agent.fluents.len(), starts)?;
    let mut values = base_values(alloc, agent, &own)?;
    for start in starts {
        put_one(agent, &mut values, start);
    }
    Ok(List::from_vec(values))
}
