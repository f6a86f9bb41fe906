// The values that a head says, and what stands behind it; refusals behind it are moved by its
// lines.
ghost use Rattle.std.specs.Prelude.{◌≡◌, ◌<◌, ◌≤◌, [], length, option_map};
ghost use Rattle.golog_tree.specs.Ground.{fluent_args, ground_count};
ghost use Rattle.golog_semantics.specs.Values.{ground_fluents};
ghost use Rattle.golog_semantics.specs.Verdicts.{head_length};
ghost use Rattle.golog_semantics.specs.WellFormed.{WellFormed};
ghost use Rattle.golog_reports.specs.Answers.{ReadsOn};
ghost use Rattle.golog_reports.specs.Reads.{start_named, start_said, start_in, start_read, begin_read, head_from};
ghost use Rattle.golog_reports.specs.Views.{start_of};

use crate::fault::{HEAD, TextFault};
use crate::forms::cut;
use crate::lookups::constant_named;
use crate::said::behind;
use golog_base::Bytes;
use golog_ground::fluent_text;
use golog_known::UNKNOWN;
use golog_text::fluent_sort;
use golog_tree::Agent;

// The value of a ground fluent that a text is, or that it is unknown.
#[tactic(auto, unfolding(crate::specs::Reads::start_named))]
fn start_named(agent: &Agent, fluent: u32, text: &[u8]) -> Option<u8>
    requires formed { WellFormed agent.now }
    requires number { fluent < ground_count agent.now (fluent_args agent.now) }
    ensures { result ≡ start_named agent.now fluent text.now }
{
    if text == b"unknown".as_slice() {
        return Some(UNKNOWN);
    }
    constant_named(agent, fluent_sort(agent, fluent), text)
}

// The value that the line of a ground fluent says.
#[tactic(auto, unfolding(crate::specs::Reads::start_said))]
fn start_said(agent: &Agent, fluent: u32, line: &[u8]) -> Option<u8>
    requires formed { WellFormed agent.now }
    requires number { fluent < ground_count agent.now (fluent_args agent.now) }
    ensures { result ≡ start_said agent.now fluent line.now }
{
    let named = behind(b"start ", line)?;
    let rest = behind(fluent_text(agent, fluent).as_bytes(), named)?;
    let text = behind(b" ", rest)?;
    start_named(agent, fluent, text)
}

// The value that the first line of a text says, and what stands behind its line feed.
#[tactic(auto, unfolding(crate::specs::Reads::start_in))]
fn start_in<'t>(agent: &Agent, fluent: u32, text: &'t [u8]) -> Option<(u8, &'t [u8])>
    requires formed { WellFormed agent.now }
    requires number { fluent < ground_count agent.now (fluent_args agent.now) }
    ensures { option_map start_of result ≡ start_in agent.now fluent text.now }
{
    let (line, rest) = cut(text, b'\n');
    let rest = rest?;
    let value = start_said(agent, fluent, line)?;
    Some((value, rest))
}

// Adds the value that the next line says, and gives what stands behind that line.
#[tactic(auto, unfolding(crate::specs::Reads::start_read))]
fn read_start<'t>(values: &mut Bytes, agent: &Agent, text: &'t [u8]) -> Result<&'t [u8], TextFault>
    requires formed { WellFormed agent.now }
    requires number { length values.old < ground_count agent.now (fluent_args agent.now) }
    ensures { ReadsOn result values.new (start_read agent.now values.old text.now) }
{
    let fluent = values.len() as u32;
    match start_in(agent, fluent, text) {
        Some((value, rest)) => {
            values.push(value)?;
            Ok(rest)
        }
        None => Err(TextFault::Refused {
            line: fluent + 1,
            why: HEAD,
        }),
    }
}

// What stands behind the last line of a head with these values.
#[tactic(auto, unfolding(crate::specs::Reads::begin_read))]
fn read_begin<'t>(values: &[u8], text: &'t [u8]) -> Result<&'t [u8], TextFault>
    requires { length values.now < 4097 }
    ensures { ReadsOn result values.now (begin_read values.now text.now) }
{
    match behind(b"begin\n", text) {
        Some(rest) => Ok(rest),
        None => Err(TextFault::Refused {
            line: values.len() as u32 + 1,
            why: HEAD,
        }),
    }
}

// Adds the values that a head says to a list that has none, and gives the lines of the entries. The head's first line
// is taken away.
pub(crate) fn read_head<'t>(
    values: &mut Bytes,
    agent: &Agent,
    text: &'t [u8],
) -> Result<&'t [u8], TextFault>
    requires formed { WellFormed agent.now }
    requires empty { values.old ≡ [] }
    ensures { ReadsOn result values.new (head_from agent.now (length (ground_fluents agent.now)) [] text.now) }
{
    let mut rest = text;
    for _ in 0..agent.starts.len() {
        rest = read_start(values, agent, rest)?;
    }
    read_begin(values.as_slice(), rest)
}

// How many lines a head has.
pub(crate) fn head_length(agent: &Agent) -> u32
    requires { WellFormed agent.now }
    ensures length { result ≡ head_length agent.now }
    ensures few { result ≤ 4098 }
{
    agent.starts.len() as u32 + 2
}
