// Tests of a read or a write that fails in a command that runs no program, and of conditions after
// a journal of 4,000 entries.
use crate::calls::{ONE, REPLAY, RUN_FROM, Setting, says};
use golog_base::NoMemory;
use std::alloc::Global;
use std::process::Abort;

/// Lamps on 40 levels, which light only where there is power; an eye tells whether there is.
const LAMPS: &[u8] = b"(agent
    (sort level 1 40) (device eye) (device wind)
    (fluent lit (level) bool false) (fluent power () bool)
    (action light (level)) (action douse (level)) (action look () eye)
    (exo fail () wind)
    (senses (look) (power))
    (causes (light x) (lit x) true (power))
    (causes (douse x) (lit x) false)
    (causes (fail) (power) false)
    (main nil))";

const ASK: &[&str] = &["ask", "x.agent", "x.journal", "(p)"];

const MIGRATE: &[&str] = &["migrate", "x.agent", "x.journal"];

/// A call with these words over an agent file and a journal file.
fn over<'a>(words: &'a [&'a str], agent: &'a [u8], journal: &'a [u8]) -> Setting<'a> {
    Setting::of(words, ("x.agent", agent), ("x.journal", journal))
}

// The agent file is selected, read and found to end; then the journal file is.
#[test]
fn a_read_that_fails_is_a_read_fault(rt: HostRuntime) -> Result<(), NoMemory> {
    let rows: [(&[&str], &[u32], &str); 13] = [
        (ASK, &[0], "read fault agent\n"),
        (ASK, &[1], "read fault agent\n"),
        (ASK, &[2], "read fault agent\n"),
        (ASK, &[3], "read fault journal\n"),
        (ASK, &[4], "read fault journal\n"),
        (ASK, &[5], "read fault journal\n"),
        (REPLAY, &[2], "read fault agent\n"),
        (REPLAY, &[3], "read fault journal\n"),
        (MIGRATE, &[2], "read fault agent\n"),
        (MIGRATE, &[3], "read fault journal\n"),
        (RUN_FROM, &[2], "read fault agent\n"),
        (RUN_FROM, &[3], "read fault journal\n"),
        (RUN_FROM, &[5], "read fault journal\n"),
    ];
    for (words, reads, said) in rows {
        let failing = Setting {
            reads,
            ..over(words, ONE, b"0 do a\n")
        };
        says(&rt, said, &failing, (4, said))?;
    }
    Ok(())
}

// A write that fails goes before each answer.
#[test]
fn a_write_that_fails_is_told(rt: HostRuntime) -> Result<(), NoMemory> {
    let lines: [(&[&str], &str); 7] = [
        (&["check", "x.agent"], "ok"),
        (REPLAY, "no"),
        (ASK, "tr"),
        (MIGRATE, "go"),
        (RUN_FROM, "go"),
        (&["demo", "1"], "de"),
        (&["check", "y.agent"], "re"),
    ];
    for (words, said) in lines {
        let small = Setting {
            room: 2,
            ..over(words, ONE, b"0 do a\n")
        };
        says(&rt, said, &small, (5, said))?;
    }
    Ok(())
}

/// A journal of 4,000 entries, of which all but the first three light one lamp.
fn long_journal(alloc: Global) -> Result<String, NoMemory> {
    let mut journal = String::from_str(
        alloc,
        "0 do look @eye\n1 sense eye 0 true\n2 do light(40)\n",
    )?;
    for place in 3..4_000u32 {
        push_light(alloc, &mut journal, place)?;
    }
    Ok(journal)
}

fn push_light(alloc: Global, journal: &mut String, place: u32) -> Result<(), NoMemory> {
    let line = format!(in alloc; "{place} do light(7)\n")?;
    journal.push_str(line.as_str())?;
    Ok(())
}

/// Asserts what is said of a condition after that journal.
fn long_says<A: Abort + AllocGlobal>(rt: &A, condition: &str, said: &str) -> Result<(), NoMemory> {
    let journal = long_journal(rt.alloc())?;
    let words = ["ask", "x.agent", "x.journal", condition];
    let asked = over(&words, LAMPS, journal.as_bytes());
    let told = says(rt, condition, &asked, (0, said));
    drop(journal);
    told
}

#[test]
fn long_journals_are_asked(rt: HostRuntime) -> Result<(), NoMemory> {
    let asks = [
        ("(power)", "true\n"),
        ("(lit 40)", "true\n"),
        ("(lit 39)", "false\n"),
        ("(lit 7)", "true\n"),
        ("(some (x level) (and (lit x) (< x 8)))", "true\n"),
        ("(some (x level) (and (lit x) (< x 7)))", "false\n"),
        ("(all (x level) (or (lit x) (< x 40)))", "true\n"),
    ];
    for (condition, said) in asks {
        long_says(&rt, condition, said)?;
    }
    Ok(())
}
