// The line that tells what a replay finds.
ghost use Rattle.std.specs.Prelude.{◌≡◌, ◌++◌, IfOk, OnOk};
ghost use Rattle.golog_semantics.specs.Verdicts.{why_text};
ghost use Rattle.golog_semantics.specs.declared.journal.Verdict.TheVariants.{Online, Not};
ghost use Rattle.golog_commands.specs.Outcome.{verdict_line};

use golog_base::{Bytes, NoMemory};
use golog_check_text::add_count;
use golog_semantics::{Answer, Verdict, Why};
use golog_text::answer_name;
use std::alloc::Global;

/// The line that tells what a replay finds.
pub fn verdict_line(alloc: Global, verdict: Verdict) -> Result<Bytes, NoMemory>
    ensures { IfOk result (λ text. text ≡ verdict_line verdict) }
{
    match verdict {
        Verdict::Online(answer) => online_line(alloc, answer),
        Verdict::Not { place, why } => not_online_line(alloc, place, why),
    }
}

// The line of a journal that ends with this answer.
fn online_line(alloc: Global, answer: Answer) -> Result<Bytes, NoMemory>
    ensures { IfOk result (λ text. text ≡ verdict_line (Online answer)) }
{
    let mut text = Bytes::new(alloc);
    match add_online(&mut text, answer) {
        Ok(()) => Ok(text),
        Err(fault) => {
            drop(text);
            Err(fault)
        }
    }
}

// Adds that line.
fn add_online(text: &mut Bytes, answer: Answer) -> Result<(), NoMemory>
    ensures { OnOk result (text.new ≡ text.old ++ verdict_line (Online answer)) }
{
    text.extend(b"online ")?;
    text.extend(answer_name(answer))?;
    text.extend(b"\n")
}

// The line of a journal in which this rule is broken at a place.
fn not_online_line(alloc: Global, place: u32, why: Why) -> Result<Bytes, NoMemory>
    ensures { IfOk result (λ text. text ≡ verdict_line (Not place why)) }
{
    let mut text = Bytes::new(alloc);
    match add_not_online(&mut text, place, why) {
        Ok(()) => Ok(text),
        Err(fault) => {
            drop(text);
            Err(fault)
        }
    }
}

// Adds that line.
fn add_not_online(text: &mut Bytes, place: u32, why: Why) -> Result<(), NoMemory>
    ensures { OnOk result (text.new ≡ text.old ++ verdict_line (Not place why)) }
{
    add_count(text, b"not online ", place as usize)?;
    text.extend(b" ")?;
    text.extend(why_name(why))?;
    text.extend(b"\n")
}

// The word for a rule.
fn why_name(why: Why) -> &'static [u8]
    ensures { result.now ≡ why_text why }
{
    match why {
        Why::After => b"after",
        Why::Poster => b"poster",
        Why::Place => b"place",
        Why::Taken => b"taken",
        Why::Step => b"step",
        Why::Run => b"run",
        Why::Answer => b"answer",
        Why::Close => b"close",
        Why::Text => b"text",
        Why::Short => b"short",
    }
}
