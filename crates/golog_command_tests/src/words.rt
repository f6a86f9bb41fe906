// Tests of `order_of`.
use crate::asserting::same;
use golog_base::NoMemory;
use golog_words::{WordsFault, order_of};
use std::alloc::Global;

/// The words of a line, with a space between each two.
fn words_of(alloc: Global, line: &str) -> Result<Vec<String>, NoMemory> {
    let mut words = Vec::new(alloc);
    for word in line.split(' ') {
        words.push(String::from_str(alloc, word)?)?;
    }
    Ok(words)
}

/// What words are answered.
fn answer_to(alloc: Global, words: &[String]) -> Result<String, NoMemory> {
    match order_of(alloc, words) {
        Ok(order) => Ok(format!(in alloc; "{order:?}")?),
        Err(WordsFault::Refused) => Ok(String::from_str(alloc, "refused")?),
        Err(WordsFault::Memory) => Err(NoMemory),
    }
}

/// Whether the words of a line are answered so.
fn is_answered(alloc: Global, line: &str, wanted: &str) -> Result<bool, NoMemory> {
    let words = words_of(alloc, line)?;
    let answer = answer_to(alloc, words.as_slice());
    drop(words);
    Ok(answer?.as_str() == wanted)
}

#[test]
fn words_of_runs_are_read(rt: HostRuntime) -> Result<(), NoMemory> {
    let table = [
        (
            "run a",
            "Run { agent: \"a\", devices: None, inline: false, from: None, workers: None }",
        ),
        (
            "run --inline a",
            "Run { agent: \"a\", devices: None, inline: true, from: None, workers: None }",
        ),
        (
            "run a d",
            "Run { agent: \"a\", devices: Some(\"d\"), inline: false, from: None, workers: None }",
        ),
        (
            "run a --inline d",
            "Run { agent: \"a\", devices: Some(\"d\"), inline: true, from: None, workers: None }",
        ),
        (
            "run run check --inline",
            "Run { agent: \"run\", devices: Some(\"check\"), inline: true, from: None, workers: None }",
        ),
        (
            "run --from j a",
            "Run { agent: \"a\", devices: None, inline: false, from: Some(\"j\"), workers: None }",
        ),
        (
            "run a --inline --from j d",
            "Run { agent: \"a\", devices: Some(\"d\"), inline: true, from: Some(\"j\"), workers: None }",
        ),
        (
            "run a --workers 16",
            "Run { agent: \"a\", devices: None, inline: false, from: None, workers: Some(16) }",
        ),
        (
            "run --workers 1 a --inline d",
            "Run { agent: \"a\", devices: Some(\"d\"), inline: true, from: None, workers: Some(1) }",
        ),
        (
            "run a --from j --workers 9 --inline d",
            "Run { agent: \"a\", devices: Some(\"d\"), inline: true, from: Some(\"j\"), workers: Some(9) }",
        ),
        (
            "run --workers 10 --from 4 4 4",
            "Run { agent: \"4\", devices: Some(\"4\"), inline: false, from: Some(\"4\"), workers: Some(10) }",
        ),
    ];
    for (line, expected) in table {
        same(&rt, line, is_answered(rt.alloc(), line, expected)?, true);
    }
    Ok(())
}

#[test]
fn words_of_other_commands_are_read(rt: HostRuntime) -> Result<(), NoMemory> {
    let table = [
        ("check check", "Check { agent: \"check\" }"),
        ("replay a j", "Replay { agent: \"a\", journal: \"j\" }"),
        ("migrate a j", "Migrate { agent: \"a\", journal: \"j\" }"),
        (
            "ask a j (p)",
            "Ask { agent: \"a\", journal: \"j\", condition: \"(p)\" }",
        ),
        ("demo 1", "Demo { size: 1 }"),
        ("demo 200", "Demo { size: 200 }"),
        (
            "plan 16 100000 --inline x",
            "Plan { depth: 16, fuel: 100000, agent: \"x\", devices: None, inline: true }",
        ),
        (
            "plan 4 100 x --inline y",
            "Plan { depth: 4, fuel: 100, agent: \"x\", devices: Some(\"y\"), inline: true }",
        ),
        (
            "plan 1 1 x",
            "Plan { depth: 1, fuel: 1, agent: \"x\", devices: None, inline: false }",
        ),
        (
            "plan 4 100 4 100",
            "Plan { depth: 4, fuel: 100, agent: \"4\", devices: Some(\"100\"), inline: false }",
        ),
        (
            "plan 10 99999 x y --inline",
            "Plan { depth: 10, fuel: 99999, agent: \"x\", devices: Some(\"y\"), inline: true }",
        ),
    ];
    for (line, expected) in table {
        same(&rt, line, is_answered(rt.alloc(), line, expected)?, true);
    }
    Ok(())
}

#[test]
fn words_of_no_plan_are_refused(rt: HostRuntime) -> Result<(), NoMemory> {
    let table = [
        ("plan 0 1 x", "refused"),
        ("plan 17 1 x", "refused"),
        ("plan 4 0 x", "refused"),
        ("plan 4 100001 x", "refused"),
        ("plan 04 1 x", "refused"),
        ("plan 4 0100 x", "refused"),
        ("plan --inline 4 100 x", "refused"),
        ("plan 4 --inline 100 x", "refused"),
        ("plan 4 100", "refused"),
        ("plan 4 x", "refused"),
        ("plan 4 100 --inline", "refused"),
        ("plan 4 100 x y z", "refused"),
        ("plan 4 100 x --inline --inline", "refused"),
        ("plan 4 100 x --from y", "refused"),
        ("plan 4 100 x --workers 2", "refused"),
        ("plan +4 100 x", "refused"),
        ("plan 4 100 -x", "refused"),
        ("plan", "refused"),
        ("plan x 4 100", "refused"),
        ("plan 999999999999999999999999 1 x", "refused"),
    ];
    for (line, expected) in table {
        same(&rt, line, is_answered(rt.alloc(), line, expected)?, true);
    }
    Ok(())
}
