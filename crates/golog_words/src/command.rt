// The test of the words, before they are read: it wants no memory.
ghost use Rattle.std.specs.Prelude.{◌≡◌, ◌&&◌, ℕ, map, string_bytes, is_some, option_and_then};
ghost use Rattle.golog_words.specs.Said.{said_of};
ghost use Rattle.golog_words.specs.Commands.{run_in, run_of, check_in, replay_in, ask_in, migrate_in, demo_in, team_in, team_of, is_depth, is_fuel, plan_in, plan_of, command_in};

use crate::said::{Said, is_file_word, said_by};
use crate::size::{count_of, depth_in, fuel_in, size_in};

// Whether the words are a command.
pub(crate) fn is_command(words: &[String]) -> bool
    ensures { result ≡ is_some (command_in (map string_bytes words.now)) }
{
    let [first, others @ ..] = words else {
        return false;
    };
    match first.as_str() {
        "run" => is_run(others),
        "check" => is_check(others),
        "replay" => is_replay(others),
        "ask" => is_ask(others),
        "migrate" => is_migrate(others),
        "demo" => is_demo(others),
        "team" => is_team(others),
        "plan" => is_plan(others),
        _ => false,
    }
}

// Whether these words may stand behind `run`.
fn is_run(words: &[String]) -> bool
    ensures { result ≡ is_some (run_in (map string_bytes words.now)) }
{
    match said_by(words) {
        Some(said) => said.agent.is_some() && said.awaits.is_none(),
        None => false,
    }
}

// Whether these words may stand behind `check`.
fn is_check(words: &[String]) -> bool
    ensures { result ≡ is_some (check_in (map string_bytes words.now)) }
{
    match words {
        [agent] => is_file_word(agent),
        _ => false,
    }
}

// Whether these words may stand behind `replay`.
fn is_replay(words: &[String]) -> bool
    ensures { result ≡ is_some (replay_in (map string_bytes words.now)) }
{
    match words {
        [agent, journal] => is_file_word(agent) && is_file_word(journal),
        _ => false,
    }
}

// Whether these words may stand behind `ask`.
fn is_ask(words: &[String]) -> bool
    ensures { result ≡ is_some (ask_in (map string_bytes words.now)) }
{
    match words {
        [agent, journal, condition] => {
            is_file_word(agent) && is_file_word(journal) && is_file_word(condition)
        }
        _ => false,
    }
}

// Whether these words may stand behind `migrate`.
fn is_migrate(words: &[String]) -> bool
    ensures { result ≡ is_some (migrate_in (map string_bytes words.now)) }
{
    match words {
        [agent, journal] => is_file_word(agent) && is_file_word(journal),
        _ => false,
    }
}

// Whether these words may stand behind `demo`.
fn is_demo(words: &[String]) -> bool
    ensures { result ≡ is_some (demo_in (map string_bytes words.now)) }
{
    match words {
        [size] => size_in(size.as_str()).is_some(),
        _ => false,
    }
}

// Whether these words may stand behind `team`.
fn is_team(words: &[String]) -> bool
    ensures { result ≡ is_some (team_in (map string_bytes words.now)) }
{
    match said_by(words) {
        Some(said) => names_two(said),
        None => false,
    }
}

// Whether two files were named, and neither a journal nor a number of workers.
fn names_two(said: Said<'_>) -> bool
    ensures { result ≡ is_some (option_and_then team_of (run_of (said_of said.entry))) }
{
    match (said.agent, said.devices, said.from, count_of(said.workers)) {
        (Some(_), Some(_), None, None) => said.awaits.is_none(),
        _ => false,
    }
}

// Whether these words may stand behind `plan`.
fn is_plan(words: &[String]) -> bool
    ensures { result ≡ is_some (plan_in (map string_bytes words.now)) }
{
    match words {
        [depth, fuel, others @ ..] => are_bounds(depth, fuel) && is_planned(others),
        _ => false,
    }
}

// Whether these words spell the depth and the fuel of a plan.
fn are_bounds(depth: &String, fuel: &String) -> bool
    ensures { result ≡ (is_depth (string_bytes depth.now) && is_fuel (string_bytes fuel.now)) }
{
    depth_in(depth.as_str()).is_some() && fuel_in(fuel.as_str()).is_some()
}

// Whether these words may stand behind the numbers of a plan, whichever these are.
fn is_planned(words: &[String]) -> bool
    ensures { (depth fuel : ℕ)
        → result ≡ is_some (option_and_then (plan_of depth fuel) (run_in (map string_bytes words.now))) }
{
    match said_by(words) {
        Some(said) => names_agent(said),
        None => false,
    }
}

// Whether an agent was named, and neither a journal nor a number of workers.
fn names_agent(said: Said<'_>) -> bool
    ensures { (depth fuel : ℕ)
        → result ≡ is_some (option_and_then (plan_of depth fuel) (run_of (said_of said.entry))) }
{
    match (said.agent, said.from, count_of(said.workers)) {
        (Some(_), None, None) => said.awaits.is_none(),
        _ => false,
    }
}
