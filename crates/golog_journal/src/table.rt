//! The facts of each ground action, made once, from the agent.
ghost use Rattle.std.specs.Prelude.{◌≡◌, ◌<◌, ◌≤◌, ◌==◌, ℕ, IfOk, IsTrue, IfSome, All, false, true, not, length, map, find, option_map, slice_get, slice_index_or};
ghost use Rattle.std.specs.List.{list_any};
ghost use Rattle.std.specs.Option.{option_map_or, option_copied};
ghost use Rattle.golog_tree.specs.Ground.{IsCountable, AreWithin, sizes, product, ground_count, action_args, fluent_args, args_at, sort_size as size_of_sort, fluent_no as number_of_fluent};
ghost use Rattle.golog_tree.specs.Numbered.{args as args_of_ground, IsGround};
ghost use Rattle.golog_semantics.specs.Truth.{env_of, arg_value};
ghost use Rattle.golog_semantics.specs.Values.{fluent_sort};
ghost use Rattle.golog_semantics.specs.Journal.{sensed_by as fluent_sensed_by, device_limit};
ghost use Rattle.golog_journal.specs.Agents.{ServesDevices};
ghost use Rattle.golog_journal.specs.Facts.{IsFactOf, AreAllFacts};

use crate::facts::{ActionFact, DEVICES};
use golog_base::NoMemory;
use golog_tree::{
    ActionItem, Agent, Arg, Ground, MOST_ARGS, SenseItem, action_count, action_of, fluent_no,
    fluent_of, sort_size,
};
use std::alloc::Global;

/// The facts of all ground actions, in the order of their numbers. Takes time for each of them and each
/// action item before it.
pub(crate) fn action_facts(alloc: Global, agent: &Agent) -> Result<Vec<ActionFact>, NoMemory>
    requires { ServesDevices agent.now }
    ensures { IfOk result (λ facts. AreAllFacts agent.now facts.items) }
{
    let count = action_count(agent);
    let mut facts = Vec::new(alloc);
    for number in 0..count {
        facts.push(fact_of(agent, number))?;
    }
    Ok(facts)
}

/// The facts of the ground action of a number.
fn fact_of(agent: &Agent, number: u32) -> ActionFact
    requires serves { ServesDevices agent.now }
    requires number { number < ground_count agent.now (action_args agent.now) }
    ensures { IsFactOf agent.now number result }
{
    let ground = action_of(agent, number);
    let item = item_at(agent.actions.as_slice(), ground.item);
    let device = device_in(item);
    let posters = posters_in(item);
    let sensed = sensed_in(agent, number, &ground);
    let values = values_of(agent, sensed);
    let held = held_in(agent.senses.as_slice(), ground.item);
    ActionFact {
        device,
        posters,
        sensed,
        values,
        held,
    }
}

/// The item of a number.
fn item_at(items: &[ActionItem], number: u32) -> &ActionItem
    requires { number < length items.now }
    ensures { slice_get items.now number ≡ Some result.now }
{
    &items[number as usize]
}

/// The device of an action.
fn device_in(item: &ActionItem) -> Option<u8>
    requires { IfSome item.now.device (λ device. device < device_limit) }
    ensures { result ≡ item.now.device }
{
    match item.device {
        Some(device) => Some(device as u8),
        None => None,
    }
}

/// Whether each device may post an action.
fn posters_in(item: &ActionItem) -> [bool; DEVICES]
    requires { All (λ poster. poster < device_limit) item.now.posters }
    ensures { (device : ℕ) → device < device_limit → slice_index_or result device false ≡ list_any (λ poster. poster == device) item.now.posters }
{
    let mut posters = [false; DEVICES];
    for poster in item.posters.as_slice() {
        posters[*poster as usize] = true;
    }
    posters
}

/// What an action's result tells, by the first item for it; `None` exactly where there is none.
pub fn sense_for(senses: &[SenseItem], action: u32) -> Option<&SenseItem>
    ensures { option_copied result ≡ find (λ item. item.action == action) senses.now }
{
    senses.iter().find(|sense| sense.action == action)
}

/// Whether the program goes on only after an action's result: it has one, which may not come later.
fn held_in(senses: &[SenseItem], action: u32) -> bool
    ensures { result ≡ option_map_or (λ item. not item.later) (find (λ item. item.action == action) senses.now) false }
{
    match sense_for(senses, action) {
        Some(sense) => !sense.later,
        None => false,
    }
}

/// The ground fluent whose value the result of a ground action tells.
fn sensed_in(agent: &Agent, number: u32, ground: &Ground) -> Option<u32>
    requires serves { ServesDevices agent.now }
    requires ground { IsGround agent.now (action_args agent.now) number ground.now }
    ensures fluent { result ≡ option_map (fluent_sensed_by agent.now (ground.now.item, args_of_ground ground.now))
        (find (λ item. item.action == ground.now.item) agent.now.senses) }
    ensures among { IfSome result (λ fluent. fluent < ground_count agent.now (fluent_args agent.now)) }
{
    match sense_for(agent.senses.as_slice(), ground.item) {
        Some(sense) => Some(fluent_in(agent, sense, &ground.args[..ground.count as usize])),
        None => None,
    }
}

/// The ground fluent that an item of sensing names, where the action has these arguments.
fn fluent_in(agent: &Agent, sense: &SenseItem, args: &[u8]) -> u32
    requires countable { IsCountable agent.now }
    requires few { length args.now ≤ 3 }
    requires fluent { sense.now.fluent < length agent.now.fluents }
    requires fits { AreWithin (sizes agent.now (args_at (fluent_args agent.now) sense.now.fluent)) (map (arg_value (env_of args.now)) sense.now.args) }
    ensures number { result ≡ number_of_fluent agent.now sense.now.fluent (map (arg_value (env_of args.now)) sense.now.args) }
    ensures among { result < ground_count agent.now (fluent_args agent.now) }
{
    let mut given = [0; MOST_ARGS];
    let items = sense.args.as_slice();
    for (index, arg) in items.iter().enumerate() {
        given[index] = value_in(*arg, args);
    }
    fluent_no(agent, sense.fluent, &given[..items.len()])
}

/// The value of an argument, where the first variables have these values.
fn value_in(arg: Arg, values: &[u8]) -> u8
    requires { length values.now ≤ 32 }
    ensures { result ≡ arg_value (env_of values.now) arg }
{
    match arg {
        Arg::Const(constant) => constant,
        Arg::Var(var) => match values.get(var as usize) {
            Some(value) => *value,
            None => 0,
        },
    }
}

/// How many values a ground fluent has.
fn values_of(agent: &Agent, fluent: Option<u32>) -> u32
    requires countable { IsCountable agent.now }
    requires among { IfSome fluent (λ number. number < ground_count agent.now (fluent_args agent.now)) }
    ensures { IfSome fluent (λ number. result ≡ size_of_sort agent.now (fluent_sort agent.now number)) }
{
    match fluent {
        Some(number) => {
            let ground = fluent_of(agent, number);
            let item = &agent.fluents.as_slice()[ground.item as usize];
            sort_size(agent, item.sort)
        }
        None => 0,
    }
}
