// Tests of devices that misbehave beside a good one, over threads: nothing of the good one is lost.
use crate::actors::{Actors, Part};
use crate::asserting::same;
use crate::calls::{Call, RUN_ON_THREADS, Setting, file_of};
use crate::replays::{found_of, posts_in, said_behind, ticks_of};
use crate::slots::threaded_with;
use crate::tables::FULL_ROOM;
use golog_base::{NoMemory, both};
use std::alloc::Global;
use std::process::Abort;
use std::sync::Wait;
use std::sync::atomic::AtomicU64;
use std::thread::Threads;

/// A bad device and a good one. Each can post, and is asked for what a command senses; the bad one has a command that
/// senses nothing too.
const ITEMS: &str = "
  (sort step 0 99)
  (device bad) (device good)
  (fluent lit () bool) (fluent seen () bool) (fluent over () bool false)
  (action look () good) (action peek () bad) (action poke () bad)
  (exo tick (step) bad) (exo greet (step) good) (exo finish () good)
  (senses (look) (lit)) (senses (peek) (seen))
  (causes (finish) (over) true)";

/// What the good device posts once it has answered that it is lit.
const GREETINGS: &str = "greet(0)\ngreet(1)\ngreet(2)\nfinish\n";

/// Ends where the good device has finished.
const FINISH: &str = "(seq (act look) (test (lit)) (test (over)))";

/// Never steps after that, and is stuck once each device is closed or at rest.
const STAY: &str = "(seq (act look) (test (lit)) (test (over)) (test (not (over))))";

/// Commands the bad device first, and stays.
const POKE: &str = "(seq (act poke) (act look) (test (lit)) (test (over)) (test (not (over))))";

/// Asks the bad device when the good one has finished, and stays.
const PEEK: &str =
    "(seq (act look) (test (lit)) (test (over)) (act peek) (test (seen)) (test (not (over))))";

/// How many bytes the journal of a run may have that doesn't fill it.
const ROOM: u32 = 10_000;

/// Runs this program over these devices, with room for so many bytes of a journal.
fn played_by<R: Threads + Wait + Sync>(
    threads: &R,
    alloc: Global,
    program: &str,
    actors: &Actors<'_, '_, HostRuntime>,
    room: u32,
) -> Result<Call, NoMemory> {
    let agent = file_of(alloc, ITEMS, program)?;
    let file = ("x.agent", agent.as_slice());
    let setting = Setting {
        room,
        ..Setting::of(RUN_ON_THREADS, file, ("x.devices", b"[]"))
    };
    let ran = threaded_with(threads, alloc, &setting, actors);
    drop(agent);
    ran
}

/// Runs this program over a device with this part, beside a good one that awaits so many of its words. They tell by
/// these counts how far they have come.
fn played_beside<'a, R: Threads + Wait + Sync>(
    threads: &R,
    rt: &HostRuntime,
    program: &str,
    bad: Part<'a>,
    awaited: u64,
    counts: (&'a AtomicU64, &'a AtomicU64),
    room: u32,
) -> Result<Call, NoMemory> {
    let good = Part {
        awaited,
        ..Part::of("true", GREETINGS)
    };
    let (one, two) = counts;
    let actors = Actors {
        clock: rt,
        first: bad,
        others: good,
        one,
        two,
    };
    played_by(threads, rt.alloc(), program, &actors, room)
}

/// The same from the first words on.
fn played<R: Threads + Wait + Sync>(
    threads: &R,
    rt: &HostRuntime,
    program: &str,
    bad: Part<'_>,
    awaited: u64,
    room: u32,
) -> Result<Call, NoMemory> {
    let (one, two) = (AtomicU64::new(0), AtomicU64::new(0));
    played_beside(threads, rt, program, bad, awaited, (&one, &two), room)
}

/// Whether nothing of the good device is lost.
fn has_all_of_good(alloc: Global, journal: &str) -> Result<bool, NoMemory> {
    let posts = posts_in(alloc, journal, "exo good ")?;
    let closing = said_behind(journal, "close good ");
    Ok(posts.as_str() == GREETINGS && matches!(closing, "ended 1" | "stopped 1"))
}

/// Whether a replay of a journal of this program says this.
fn is_found(alloc: Global, program: &str, journal: &str, text: &str) -> Result<bool, NoMemory> {
    let found = found_of(alloc, ITEMS, program, journal)?;
    Ok(found.said() == (0, text))
}

/// Whether what the bad device has posted are the first of these, in order.
fn has_first_posts(alloc: Global, journal: &str, wanted: &str) -> Result<bool, NoMemory> {
    let posts = posts_in(alloc, journal, "exo bad ")?;
    Ok(wanted.starts_with(posts.as_str()))
}

/// The posts of the bad device that stand, how it was closed, whether something of the good one is lost, and what a
/// replay says, a line for each.
fn account_of(alloc: Global, program: &str, journal: &str) -> Result<String, NoMemory> {
    let lost = if has_all_of_good(alloc, journal)? {
        ""
    } else {
        "lost\n"
    };
    let posts = posts_in(alloc, journal, "exo bad ");
    let (posts, found) = both(posts, found_of(alloc, ITEMS, program, journal))?;
    let (_status, text) = found.said();
    let closing = said_behind(journal, "close bad ");
    let account = format!(in alloc; "{}{closing}\n{lost}{text}", posts.as_str());
    drop(posts);
    drop(found);
    Ok(account?)
}

/// The status of such a run, and the account of its journal.
fn told_of<R: Threads + Wait + Sync>(
    threads: &R,
    rt: &HostRuntime,
    program: &str,
    bad: Part<'_>,
) -> Result<(u8, String), NoMemory> {
    let call = played(threads, rt, program, bad, 0, ROOM)?;
    let (status, journal) = call.said();
    let account = account_of(rt.alloc(), program, journal);
    drop(call);
    Ok((status, account?))
}

/// Asserts of such a run its status and the account.
fn tells<R: Threads + Wait + Sync + Abort>(
    threads: &R,
    rt: &HostRuntime,
    program: &str,
    bad: Part<'_>,
    told: (u8, &str),
) -> Result<(), NoMemory> {
    let (status, account) = told_of(threads, rt, program, bad)?;
    same(threads, bad.words, (status, account.as_str()), told);
    drop(account);
    Ok(())
}

// It posts what is no action, none of its own, or one of a constant that there isn't; it is silent; it closes.
#[test]
fn a_device_posts_nonsense_or_closes(rt: HostRuntime) -> Result<(), NoMemory> {
    let runs = [
        (
            "tick(1)\ntick(2)\ntock(\ntick(3)",
            "tick(1)\ntick(2)\nbad 0\nonline stuck\n",
        ),
        ("\ntick(1)", "bad 0\nonline stuck\n"),
        ("tick(1)\nfinish\ntick(2)", "tick(1)\nbad 0\nonline stuck\n"),
        ("tick(100)\ntick(1)", "bad 0\nonline stuck\n"),
        ("rest\ntick(1)", "stopped 0\nonline stuck\n"),
        (
            "tick(1)\ntick(2)\nclose\ntick(3)",
            "tick(1)\ntick(2)\nended 0\nonline stuck\n",
        ),
    ];
    for (words, wanted) in runs {
        tells(&rt, &rt, STAY, Part::of("", words), (10, wanted))?;
    }
    Ok(())
}

// It answers what it wasn't asked; no truth where it was asked for one; or nothing.
#[test]
fn a_device_answers_nonsense(rt: HostRuntime) -> Result<(), NoMemory> {
    let runs = [
        (POKE, "true", 10, "bad 1\nonline stuck\n"),
        (PEEK, "maybe", 14, "bad 1\nonline unanswered\n"),
        (PEEK, "7", 14, "bad 1\nonline unanswered\n"),
        (PEEK, "silent", 14, "bad 1\nonline unanswered\n"),
    ];
    for (program, answers, status, wanted) in runs {
        tells(
            &rt,
            &rt,
            program,
            Part::of(answers, "tick(1)"),
            (status, wanted),
        )?;
    }
    Ok(())
}

#[test]
fn a_device_sleeps_in_each_call(rt: HostRuntime) -> Result<(), NoMemory> {
    let runs = [
        (STAY, "", "tick(1)\ntick(2)\nended 0\nonline stuck\n"),
        (PEEK, "true", "tick(1)\ntick(2)\nended 1\nonline stuck\n"),
    ];
    for (program, answers, wanted) in runs {
        let bad = Part {
            pause: 100,
            ..Part::of(answers, "tick(1)\ntick(2)")
        };
        tells(&rt, &rt, program, bad, (10, wanted))?;
    }
    Ok(())
}

/// What is so of a run: its status, whether the bad device is closed in one of the ways that may be, whether its words
/// stand from the first on, whether nothing of the good one is lost, and whether a replay says what is wanted.
#[derive(Clone, Copy, Debug, PartialEq)]
struct Ended {
    status: u8,
    is_closed: bool,
    has_words: bool,
    has_good: bool,
    is_found: bool,
}

/// A run with this status of which all is so.
fn whole(status: u8) -> Ended {
    Ended {
        status,
        is_closed: true,
        has_words: true,
        has_good: true,
        is_found: true,
    }
}

/// What is so of the journal of such a run, whose bad device has this part.
fn ended_with(
    alloc: Global,
    program: &str,
    bad: Part<'_>,
    call: &Call,
    closings: &[&str],
    said: &str,
) -> Result<Ended, NoMemory> {
    let (status, journal) = call.said();
    let closing = said_behind(journal, "close bad ");
    let is_closed = closings.iter().any(|one| *one == closing);
    Ok(Ended {
        status,
        is_closed,
        has_words: has_first_posts(alloc, journal, bad.words)?,
        has_good: has_all_of_good(alloc, journal)?,
        is_found: is_found(alloc, program, journal, said)?,
    })
}

/// The same, where the good device awaits so many words of the bad one, which may fill the journal.
fn ended_of<R: Threads + Wait + Sync>(
    threads: &R,
    rt: &HostRuntime,
    program: &str,
    bad: Part<'_>,
    awaited: u64,
    closings: &[&str],
    said: &str,
) -> Result<Ended, NoMemory> {
    let call = played(threads, rt, program, bad, awaited, FULL_ROOM)?;
    let ended = ended_with(rt.alloc(), program, bad, &call, closings, said);
    drop(call);
    ended
}

// A device posts more than a journal takes, once the good one has posted all that it has. Its posts stand until the
// journal is full. It is closed in place of the next one, unless the program has ended before that.
#[test]
fn a_device_posts_without_end(rt: HostRuntime) -> Result<(), NoMemory> {
    let ticks = ticks_of(rt.alloc(), 1_048_580)?;
    let bad = Part {
        awaited: 5,
        ..Part::of("", ticks.as_str())
    };
    let closings = ["full 0", "late 0", "stopped 0"];
    let ended = ended_of(&rt, &rt, STAY, bad, 0, &closings, "online full\n")?;
    same(&rt, "endless", ended, whole(15));
    Ok(())
}

// A device posts whenever it is called, each time after a sleep. The good one goes on only once it is in such a call,
// and the program ends before the call returns.
#[test]
fn a_device_posts_after_the_end(rt: HostRuntime) -> Result<(), NoMemory> {
    let ticks = ticks_of(rt.alloc(), 50)?;
    let bad = Part {
        pause: 500,
        ..Part::of("", ticks.as_str())
    };
    let ended = ended_of(&rt, &rt, FINISH, bad, 1, &["late 0"], "online done\n")?;
    same(&rt, "late", ended, whole(0));
    Ok(())
}
