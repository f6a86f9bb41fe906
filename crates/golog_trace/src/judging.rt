// What is said of a condition: how it reads, its truth, and each ground fluent that it may read of which no value is
// known.
ghost use Rattle.std.specs.Prelude.{◌≡◌, ◌<◌, [], ◌∷◌, ◌++◌, IsTrue, OnOk, codes};
ghost use Rattle.golog_tree.specs.Ground.{IsCountable, fluent_args, ground_count};
ghost use Rattle.golog_semantics.specs.Fits.{cond_fits, nothing_bound};
ghost use Rattle.golog_semantics.specs.InSorts.{AreInSorts};
ghost use Rattle.golog_semantics.specs.WellFormed.{WellFormed};
ghost use Rattle.golog_trace.specs.Judged.{is_open as is_open_at, judged_text, open_line, open_lines, truth_word};

use crate::reading::may_read;
use golog_base::{Bytes, NoMemory};
use golog_ground::fluent_text;
use golog_known::{Env, UNKNOWN, value};
use golog_print::print_cond;
use golog_progress::State;
use golog_tree::{Agent, Cond, Truth};
use std::alloc::Global;

/// The word for a truth.
fn word_of(truth: Truth) -> &'static [u8]
    ensures { result.now ≡ truth_word truth }
{
    match truth {
        Truth::Yes => b"true",
        Truth::No => b"false",
        Truth::Unknown => b"unknown",
    }
}

/// Whether no value is known of a ground fluent that the condition may read.
fn is_open(agent: &Agent, cond: &Cond, fluent: u32, value: u8) -> bool
    requires countable { IsCountable agent.now }
    requires number { fluent < ground_count agent.now (fluent_args agent.now) }
    ensures { result ≡ is_open_at agent.now cond.now fluent value }
{
    value == UNKNOWN && may_read(agent, cond, fluent)
}

/// Adds the line of a ground fluent that the condition may read, where no value of it is known.
fn add_open(
    text: &mut Bytes,
    agent: &Agent,
    cond: &Cond,
    fluent: u32,
    value: u8,
) -> Result<(), NoMemory>
    requires countable { IsCountable agent.now }
    requires number { fluent < ground_count agent.now (fluent_args agent.now) }
    ensures { OnOk result (text.new ≡ text.old ++ open_line agent.now cond.now (fluent, value)) }
{
    if !is_open(agent, cond, fluent, value) {
        return Ok(());
    }
    text.extend(b"  ")?;
    text.extend(fluent_text(agent, fluent).as_bytes())?;
    text.extend(b" is unknown\n")
}

/// Adds the lines of the ground fluents that the condition may read and of which these values tell nothing.
fn add_opens(text: &mut Bytes, agent: &Agent, cond: &Cond, values: &[u8]) -> Result<(), NoMemory>
    requires formed { WellFormed agent.now }
    requires sorts { AreInSorts agent.now values.now }
    ensures { OnOk result (text.new ≡ text.old ++ open_lines agent.now cond.now values.now) }
{
    for (fluent, value) in values.iter().enumerate() {
        add_open(text, agent, cond, fluent as u32, *value)?;
    }
    Ok(())
}

/// Adds a line with a condition and its truth.
fn add_shown(text: &mut Bytes, shown: &[u8], truth: Truth) -> Result<(), NoMemory>
    ensures { OnOk result (text.new ≡ text.old ++ (shown.now ++ codes ": " ++ truth_word truth ++ 10 ∷ [])) }
{
    text.extend(shown)?;
    text.extend(b": ")?;
    text.extend(word_of(truth))?;
    text.extend(b"\n")
}

/// Adds a condition, its truth in the state, and the ground fluents that it may read of which no value is known. What it
/// says of the truth is what `golog_known::value` answers.
pub fn add_judged(
    text: &mut Bytes,
    alloc: Global,
    agent: &Agent,
    cond: &Cond,
    state: &State,
) -> Result<(), NoMemory>
    requires formed { WellFormed agent.now }
    requires closed { IsTrue (cond_fits agent.now cond.now nothing_bound) }
    requires sorts { AreInSorts agent.now state.now }
    ensures { OnOk result (text.new ≡ text.old ++ judged_text agent.now cond.now state.now) }
{
    let shown = print_cond(alloc, agent, cond)?;
    let truth = value(agent, cond, &Env::new(), state.values());
    add_shown(text, shown.as_slice(), truth)?;
    add_opens(text, agent, cond, state.values())
}
