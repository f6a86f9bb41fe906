// A command of `clap` for each first word, which stands in the words where a program's name does.
ghost use Rattle.std.specs.Prelude.{◌≡◌, Some, IsSome, IfOk, IfErr, drop, map, string_bytes};
ghost use Rattle.clap.specs.Words.{kind_of};
ghost use Rattle.golog_words.specs.Commands.{CommandLine as Spelled, run_in, check_in, replay_in, ask_in, migrate_in, demo_in};
ghost use Rattle.golog_words.specs.Found.{Finds};

use clap::error::ErrorKind;
use clap::{Arg, ArgAction, ArgMatches, Command, Error};
use std::alloc::Global;

// What `clap` finds in the words of a `run`. It fails only for want of memory.
pub(crate) fn run_matches<'w>(alloc: Global, words: &'w [String]) -> Result<ArgMatches<'w>, Error>
    ensures found { IfOk result (λ found. (command : Spelled)
        → run_in (drop 1 (map string_bytes words.entry.now)) ≡ Some command → Finds found command) }
    ensures fails { IfErr result (λ error. IsSome (run_in (drop 1 (map string_bytes words.entry.now)))
        → kind_of error ≡ ErrorKind.OutOfMemory) }
{
    let command = Command::new(alloc, "run")
        .arg(Arg::new(alloc, "agent"))?
        .arg(Arg::new(alloc, "devices"))?
        .arg(
            Arg::new(alloc, "inline")
                .long("inline")
                .action(ArgAction::SetTrue),
        )?
        .arg(Arg::new(alloc, "from").long("from").action(ArgAction::Set))?
        .arg(
            Arg::new(alloc, "workers")
                .long("workers")
                .action(ArgAction::Set),
        )?;
    command.try_get_matches_from(words)
}

// What `clap` finds in the words of a `check`. It fails only for want of memory.
pub(crate) fn check_matches<'w>(alloc: Global, words: &'w [String]) -> Result<ArgMatches<'w>, Error>
    ensures found { IfOk result (λ found. (command : Spelled)
        → check_in (drop 1 (map string_bytes words.entry.now)) ≡ Some command → Finds found command) }
    ensures fails { IfErr result (λ error. IsSome (check_in (drop 1 (map string_bytes words.entry.now)))
        → kind_of error ≡ ErrorKind.OutOfMemory) }
{
    let agent = Arg::new(alloc, "agent");
    let command = Command::new(alloc, "check").arg(agent)?;
    command.try_get_matches_from(words)
}

// What `clap` finds in the words of a `replay`. It fails only for want of memory.
pub(crate) fn replay_matches<'w>(
    alloc: Global,
    words: &'w [String],
) -> Result<ArgMatches<'w>, Error>
    ensures found { IfOk result (λ found. (command : Spelled)
        → replay_in (drop 1 (map string_bytes words.entry.now)) ≡ Some command → Finds found command) }
    ensures fails { IfErr result (λ error. IsSome (replay_in (drop 1 (map string_bytes words.entry.now)))
        → kind_of error ≡ ErrorKind.OutOfMemory) }
{
    let command = Command::new(alloc, "replay")
        .arg(Arg::new(alloc, "agent"))?
        .arg(Arg::new(alloc, "journal"))?;
    command.try_get_matches_from(words)
}

// What `clap` finds in the words of an `ask`. It fails only for want of memory.
pub(crate) fn ask_matches<'w>(alloc: Global, words: &'w [String]) -> Result<ArgMatches<'w>, Error>
    ensures found { IfOk result (λ found. (command : Spelled)
        → ask_in (drop 1 (map string_bytes words.entry.now)) ≡ Some command → Finds found command) }
    ensures fails { IfErr result (λ error. IsSome (ask_in (drop 1 (map string_bytes words.entry.now)))
        → kind_of error ≡ ErrorKind.OutOfMemory) }
{
    let command = Command::new(alloc, "ask")
        .arg(Arg::new(alloc, "agent"))?
        .arg(Arg::new(alloc, "journal"))?
        .arg(Arg::new(alloc, "condition"))?;
    command.try_get_matches_from(words)
}

// What `clap` finds in the words of a `migrate`. It fails only for want of memory.
pub(crate) fn migrate_matches<'w>(
    alloc: Global,
    words: &'w [String],
) -> Result<ArgMatches<'w>, Error>
    ensures found { IfOk result (λ found. (command : Spelled)
        → migrate_in (drop 1 (map string_bytes words.entry.now)) ≡ Some command → Finds found command) }
    ensures fails { IfErr result (λ error. IsSome (migrate_in (drop 1 (map string_bytes words.entry.now)))
        → kind_of error ≡ ErrorKind.OutOfMemory) }
{
    let command = Command::new(alloc, "migrate")
        .arg(Arg::new(alloc, "agent"))?
        .arg(Arg::new(alloc, "journal"))?;
    command.try_get_matches_from(words)
}

// What `clap` finds in the words of a `demo`. It fails only for want of memory.
pub(crate) fn demo_matches<'w>(alloc: Global, words: &'w [String]) -> Result<ArgMatches<'w>, Error>
    ensures found { IfOk result (λ found. (command : Spelled)
        → demo_in (drop 1 (map string_bytes words.entry.now)) ≡ Some command → Finds found command) }
    ensures fails { IfErr result (λ error. IsSome (demo_in (drop 1 (map string_bytes words.entry.now)))
        → kind_of error ≡ ErrorKind.OutOfMemory) }
{
    let size = Arg::new(alloc, "size");
    let command = Command::new(alloc, "demo").arg(size)?;
    command.try_get_matches_from(words)
}
