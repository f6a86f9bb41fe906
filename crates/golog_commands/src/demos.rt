// A demo: what its files hold, and the line that counts its run.
ghost use Rattle.std.specs.Prelude.{◌≡◌, ◌++◌, IfOk, OnOk, Ok, All, true, false, Contains, count_by};
ghost use Rattle.golog_semantics.specs.declared.journal.Entry.TheVariants.{End};
ghost use Rattle.golog_semantics.specs.Journal.{has_end};
ghost use Rattle.golog_semantics.specs.WellFormed.{WellFormed};
ghost use Rattle.golog_script.specs.DevicesFile.{scripts_of};
ghost use Rattle.golog_script.specs.ScriptTexts.{HasTexts};
ghost use Rattle.golog_file.specs.Spelled.{SpellsAgent};
ghost use Rattle.golog_demo.specs.Demo.{demo_agent, demo_devices};
ghost use Rattle.golog_commands.specs.declared.outcome.Outcome.TheVariants.{Demonstrated};
ghost use Rattle.golog_commands.specs.Demos.{SaysDemo, demo_counts, demo_text, is_do, is_exo, is_short};

use crate::outcome::Outcome;
use crate::ready::Ready;
use golog_base::{Bytes, List, NoMemory};
use golog_check_text::add_count;
use golog_demo::{DemoFiles, demo_files};
use golog_file::read_agent;
use golog_script::{Script, scripts_of};
use golog_semantics::{Answer, Entry, Report};
use golog_text::answer_name;
use golog_tree::Agent;
use std::alloc::Global;

/// What the demo of this size comes to whose run has this report. A run that was cut short wants memory.
pub fn demo_outcome(alloc: Global, size: u32, report: Report) -> Result<Outcome, NoMemory>
    requires { has_end report.entries ≡ true }
    ensures { IfOk result (SaysDemo size report) }
{
    let answer = answer_in(&report);
    let outcome = said_of(alloc, size, report.entries.as_slice(), answer);
    drop(report);
    outcome
}

/// The answer in a report of a program that has ended.
pub(crate) fn answer_in(report: &Report) -> Answer
    requires { has_end report.now.entries ≡ true }
    ensures { Contains report.now.entries (End result) }
{
    for entry in report.entries.as_slice() {
        if let Entry::End { answer } = entry {
            return *answer;
        }
    }
    unreachable!()
}

// What is said of a demo with this journal and answer, unless it was cut short.
fn said_of(alloc: Global, size: u32, entries: &[Entry], answer: Answer) -> Result<Outcome, NoMemory>
    ensures whole { IfOk result (λ outcome. is_short answer ≡ false) }
    ensures said { IfOk result (λ outcome. outcome ≡ Demonstrated (demo_text size entries.now answer)) }
{
    if is_short(answer) {
        return Err(NoMemory);
    }
    let text = demo_text(alloc, size, entries, answer)?;
    Ok(Outcome::Demonstrated { text })
}

/// What the files of the demo of this size hold. A size that no words spell wants memory.
pub fn demo_of(alloc: Global, size: u32) -> Result<Ready, NoMemory>
    ensures formed { IfOk result (λ ready. WellFormed ready.agent) }
    ensures texts { IfOk result (λ ready. All HasTexts ready.scripts) }
    ensures agent { IfOk result (λ ready. SpellsAgent (demo_agent size) ready.agent) }
    ensures scripts { IfOk result (λ ready. (scripts_of ready.agent.devices (demo_devices size)).outcome ≡ Ok ready.scripts) }
{
    if size < 1 || size > 200 {
        return Err(NoMemory);
    }
    let files = demo_files(alloc, size)?;
    let ready = ready_of(alloc, &files);
    drop(files);
    ready
}

// What these files hold.
fn ready_of(alloc: Global, files: &DemoFiles) -> Result<Ready, NoMemory>
    ensures formed { IfOk result (λ ready. WellFormed ready.agent) }
    ensures texts { IfOk result (λ ready. All HasTexts ready.scripts) }
    ensures agent { IfOk result (λ ready. SpellsAgent files.now.agent ready.agent) }
    ensures scripts { IfOk result (λ ready. (scripts_of ready.agent.devices files.now.devices).outcome ≡ Ok ready.scripts) }
{
    match agent_of(alloc, files.agent.as_slice()) {
        Ok(agent) => match scripts_for(alloc, &agent, files.devices.as_slice()) {
            Ok(scripts) => Ok(Ready {
                agent,
                scripts,
                start: None,
            }),
            Err(fault) => {
                drop(agent);
                Err(fault)
            }
        },
        Err(fault) => Err(fault),
    }
}

// The agent that these bytes spell.
fn agent_of(alloc: Global, bytes: &[u8]) -> Result<Agent, NoMemory>
    ensures formed { IfOk result WellFormed }
    ensures spelled { IfOk result (SpellsAgent bytes.now) }
{
    match read_agent(alloc, bytes) {
        Ok(agent) => Ok(agent),
        Err(_) => Err(NoMemory),
    }
}

// The scripts that these bytes spell for the devices of an agent.
fn scripts_for(alloc: Global, agent: &Agent, bytes: &[u8]) -> Result<List<Script>, NoMemory>
    ensures texts { IfOk result (All HasTexts) }
    ensures spelled { IfOk result (λ scripts. (scripts_of agent.now.devices bytes.now).outcome ≡ Ok scripts) }
{
    match scripts_of(alloc, bytes, &agent.devices) {
        Ok(scripts) => Ok(scripts),
        Err(_) => Err(NoMemory),
    }
}

// Whether a run that ends with this answer was cut short.
fn is_short(answer: Answer) -> bool
    ensures { result ≡ is_short answer }
{
    matches!(answer, Answer::Memory | Answer::Fuel)
}

// The line of a demo of this size with this journal and answer.
fn demo_text(alloc: Global, size: u32, entries: &[Entry], answer: Answer) -> Result<Bytes, NoMemory>
    ensures { IfOk result (λ text. text ≡ demo_text size entries.now answer) }
{
    let mut text = Bytes::new(alloc);
    match add_demo(&mut text, size, entries, answer) {
        Ok(()) => Ok(text),
        Err(fault) => {
            drop(text);
            Err(fault)
        }
    }
}

// Adds that line.
fn add_demo(text: &mut Bytes, size: u32, entries: &[Entry], answer: Answer) -> Result<(), NoMemory>
    ensures { OnOk result (text.new ≡ text.old ++ demo_text size entries.now answer) }
{
    add_counts(text, size, entries)?;
    text.extend(b" answer ")?;
    text.extend(answer_name(answer))?;
    text.extend(b"\n")
}

// Adds what stands in it before the answer.
fn add_counts(text: &mut Bytes, size: u32, entries: &[Entry]) -> Result<(), NoMemory>
    ensures { OnOk result (text.new ≡ text.old ++ demo_counts size entries.now) }
{
    add_count(text, b"demo ", size as usize)?;
    add_count(text, b" entries ", entries.len())?;
    add_count(text, b" actions ", actions_in(entries))?;
    add_count(text, b" posts ", posts_in(entries))
}

// How many actions of the program stand in a journal.
fn actions_in(entries: &[Entry]) -> usize
    ensures { result ≡ count_by is_do entries.now }
{
    entries
        .iter()
        .filter(|entry| matches!(entry, Entry::Do { .. }))
        .count()
}

// How many posts stand in it.
fn posts_in(entries: &[Entry]) -> usize
    ensures { result ≡ count_by is_exo entries.now }
{
    entries
        .iter()
        .filter(|entry| matches!(entry, Entry::Exo { .. }))
        .count()
}
