// `order_of`: the words are tested without memory, then read by a `Command` of `clap`, and made an
// order.
ghost use Rattle.std.specs.Prelude.{◌≡◌, Some, IsSome, IfOk, drop, map, string_bytes};
ghost use Rattle.golog_words.specs.Answers.{Answers, command_of};
ghost use Rattle.golog_words.specs.Commands.{PlanFits, WorkersFit, run_in, check_in, replay_in, ask_in, migrate_in, demo_in, team_in, plan_in, command_in};

use crate::command::is_command;
use crate::matches::{
    ask_matches, check_matches, demo_matches, migrate_matches, replay_matches, run_matches,
};
use crate::order::{Order, WordsFault};
use crate::size::{count_of, depth_in, fuel_in, size_in};
use golog_base::NoMemory;
use std::alloc::Global;

/// The order that the words give, without the program's name before them. They are refused exactly where they
/// are no command, for which no memory is wanted.
pub fn order_of<'w>(alloc: Global, words: &'w [String]) -> Result<Order<'w>, WordsFault>
    ensures answers { Answers result (command_in (map string_bytes words.entry.now)) }
    ensures workers { IfOk result (λ order. WorkersFit (command_of order)) }
    ensures plan { IfOk result (λ order. PlanFits (command_of order)) }
{
    if !is_command(words) {
        return Err(WordsFault::Refused);
    }
    match read(alloc, words) {
        Ok(order) => Ok(order),
        Err(NoMemory) => Err(WordsFault::Memory),
    }
}

// The order of words that are a command.
fn read<'w>(alloc: Global, words: &'w [String]) -> Result<Order<'w>, NoMemory>
    requires { IsSome (command_in (map string_bytes words.now)) }
    ensures { IfOk result (λ order. command_in (map string_bytes words.entry.now) ≡ Some (command_of order)) }
{
    let [first, ..] = words else { unreachable!() };
    match first.as_str() {
        "run" => read_run(alloc, words),
        "check" => read_check(alloc, words),
        "replay" => read_replay(alloc, words),
        "ask" => read_ask(alloc, words),
        "migrate" => read_migrate(alloc, words),
        "demo" => read_demo(alloc, words),
        "team" => read_team(alloc, words),
        "plan" => read_plan(alloc, words),
        _ => unreachable!(),
    }
}

fn read_run<'w>(alloc: Global, words: &'w [String]) -> Result<Order<'w>, NoMemory>
    requires { IsSome (run_in (drop 1 (map string_bytes words.now))) }
    ensures { IfOk result (λ order. run_in (drop 1 (map string_bytes words.entry.now)) ≡ Some (command_of order)) }
{
    let Ok(found) = run_matches(alloc, words) else {
        return Err(NoMemory);
    };
    Ok(Order::Run {
        agent: found.get_str("agent").unwrap(),
        devices: found.get_str("devices"),
        inline: found.get_flag("inline"),
        from: found.get_str("from"),
        workers: count_of(found.get_str("workers")),
    })
}

fn read_check<'w>(alloc: Global, words: &'w [String]) -> Result<Order<'w>, NoMemory>
    requires { IsSome (check_in (drop 1 (map string_bytes words.now))) }
    ensures { IfOk result (λ order. check_in (drop 1 (map string_bytes words.entry.now)) ≡ Some (command_of order)) }
{
    let Ok(found) = check_matches(alloc, words) else {
        return Err(NoMemory);
    };
    Ok(Order::Check {
        agent: found.get_str("agent").unwrap(),
    })
}

fn read_replay<'w>(alloc: Global, words: &'w [String]) -> Result<Order<'w>, NoMemory>
    requires { IsSome (replay_in (drop 1 (map string_bytes words.now))) }
    ensures { IfOk result (λ order. replay_in (drop 1 (map string_bytes words.entry.now)) ≡ Some (command_of order)) }
{
    let Ok(found) = replay_matches(alloc, words) else {
        return Err(NoMemory);
    };
    Ok(Order::Replay {
        agent: found.get_str("agent").unwrap(),
        journal: found.get_str("journal").unwrap(),
    })
}

fn read_ask<'w>(alloc: Global, words: &'w [String]) -> Result<Order<'w>, NoMemory>
    requires { IsSome (ask_in (drop 1 (map string_bytes words.now))) }
    ensures { IfOk result (λ order. ask_in (drop 1 (map string_bytes words.entry.now)) ≡ Some (command_of order)) }
{
    let Ok(found) = ask_matches(alloc, words) else {
        return Err(NoMemory);
    };
    Ok(Order::Ask {
        agent: found.get_str("agent").unwrap(),
        journal: found.get_str("journal").unwrap(),
        condition: found.get_str("condition").unwrap(),
    })
}

fn read_migrate<'w>(alloc: Global, words: &'w [String]) -> Result<Order<'w>, NoMemory>
    requires { IsSome (migrate_in (drop 1 (map string_bytes words.now))) }
    ensures { IfOk result (λ order. migrate_in (drop 1 (map string_bytes words.entry.now)) ≡ Some (command_of order)) }
{
    let Ok(found) = migrate_matches(alloc, words) else {
        return Err(NoMemory);
    };
    Ok(Order::Migrate {
        agent: found.get_str("agent").unwrap(),
        journal: found.get_str("journal").unwrap(),
    })
}

fn read_demo<'w>(alloc: Global, words: &'w [String]) -> Result<Order<'w>, NoMemory>
    requires { IsSome (demo_in (drop 1 (map string_bytes words.now))) }
    ensures { IfOk result (λ order. demo_in (drop 1 (map string_bytes words.entry.now)) ≡ Some (command_of order)) }
{
    let Ok(found) = demo_matches(alloc, words) else {
        return Err(NoMemory);
    };
    let word = found.get_str("size").unwrap();
    Ok(Order::Demo {
        size: size_in(word).unwrap(),
    })
}

// What may stand behind `team` may stand behind `run`: the second agent where the devices' scripts do.
fn read_team<'w>(alloc: Global, words: &'w [String]) -> Result<Order<'w>, NoMemory>
    requires { IsSome (team_in (drop 1 (map string_bytes words.now))) }
    ensures { IfOk result (λ order. team_in (drop 1 (map string_bytes words.entry.now)) ≡ Some (command_of order)) }
{
    let Ok(named) = run_matches(alloc, words) else {
        return Err(NoMemory);
    };
    Ok(Order::Team {
        first: named.get_str("agent").unwrap(),
        second: named.get_str("devices").unwrap(),
        inline: named.get_flag("inline"),
    })
}

// What may stand behind the numbers of a plan may stand behind `run`: the fuel is the word before it.
fn read_plan<'w>(alloc: Global, words: &'w [String]) -> Result<Order<'w>, NoMemory>
    requires { IsSome (plan_in (drop 1 (map string_bytes words.now))) }
    ensures { IfOk result (λ order. plan_in (drop 1 (map string_bytes words.entry.now)) ≡ Some (command_of order)) }
{
    let [_, depth, others @ ..] = words else {
        unreachable!()
    };
    let [fuel, ..] = others else { unreachable!() };
    let Ok(told) = run_matches(alloc, others) else {
        return Err(NoMemory);
    };
    Ok(Order::Plan {
        depth: depth_in(depth.as_str()).unwrap(),
        fuel: fuel_in(fuel.as_str()).unwrap(),
        agent: told.get_str("agent").unwrap(),
        devices: told.get_str("devices"),
        inline: told.get_flag("inline"),
    })
}
