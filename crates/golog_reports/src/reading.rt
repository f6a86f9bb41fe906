// `read_journal`, line after line: the place of each, and what the entries so far say.
ghost use Rattle.std.specs.Prelude.{◌≡◌, ◌<◌, ◌≤◌, [], true, length, is_some, IfOk, IsTrue, OnOk};
ghost use Rattle.std.specs.Option.{option_map_or};
ghost use Rattle.golog_tree.specs.Ground.{fluent_args, ground_count};
ghost use Rattle.golog_rows.specs.Answers.{Leaves};
ghost use Rattle.golog_semantics.specs.Reports.{IsReport, entry_limit};
ghost use Rattle.golog_semantics.specs.WellFormed.{WellFormed};
ghost use Rattle.golog_reports.specs.Answers.{Answers, IsFirstRow, code_at};
ghost use Rattle.golog_reports.specs.Reads.{constant_named, empty_report, entries_read, headed_report, is_in_place, has_small, sensed_by_entry, sensed_at, value_named, result_in, line_named, line_said, line_of, with_line, journal_from, journal_of, lines_in};
ghost use Rattle.golog_reports.specs.Views.{lent, body_of, said_of, named_of};

use crate::fault::{MISPLACED, NO_BODY, NO_RESULT, NOT_OWN, TextFault};
use crate::forms::cut;
use crate::head::{head_length, read_head};
use crate::lookups::{constant_named, is_constant_of};
use crate::named::{Named, body_named};
use crate::numbers::number_in;
use crate::said::{Body, Said, behind, said_in};
use golog_base::{Bytes, List, NoMemory};
use golog_journal::AgentFacts;
use golog_semantics::{Entry, PlacedRun, Report};
use golog_text::fluent_sort;
use golog_tree::{Agent, Label};
use std::alloc::Global;

// An entry, and the run that it begins.
#[derive(Drop)]
struct Line {
    entry: Entry,
    run: Option<List<Label>>,
}

// Whether a line may have the numbers in a body.
fn has_small(body: &Body<'_>) -> bool
    ensures { result ≡ has_small (body_of body.now) }
{
    match *body {
        Body::Sense { place, .. } => number_in(place).is_some(),
        Body::Rest { taken, .. } => number_in(taken).is_some(),
        Body::Close { taken, .. } => number_in(taken).is_some(),
        _ => true,
    }
}

// Whether the line's number is its place, and its numbers are not too great.
#[tactic(auto, unfolding(crate::specs::Reads::is_in_place))]
fn is_in_place(place: usize, said: &Said<'_>) -> bool
    ensures place { result ≡ is_in_place place (said_of said.now) }
    ensures small { IsTrue result → IsTrue (has_small (said_of said.now).body) }
    ensures within { IsTrue result → place < entry_limit }
{
    match number_in(said.number) {
        Some(number) => number as usize == place && has_small(&said.body),
        None => false,
    }
}

// The fluent that an entry senses, where it is a command of this device.
#[tactic(auto, unfolding(crate::specs::Reads::sensed_by_entry))]
fn sensed_by_entry(facts: &AgentFacts, device: u8, entry: Entry) -> Option<u32>
    ensures { result ≡ sensed_by_entry facts.now device entry }
{
    match entry {
        Entry::Do { action } if facts.device_of(action) == Some(device) => facts.sensed(action),
        _ => None,
    }
}

// The fluent that the command of this device at a place senses.
#[tactic(auto, unfolding(crate::specs::Reads::sensed_at))]
fn sensed_at(facts: &AgentFacts, before: &[Entry], device: u8, place: u32) -> Option<u32>
    ensures { result ≡ sensed_at facts.now before.now device place }
{
    match before.get(place as usize) {
        Some(entry) => sensed_by_entry(facts, device, *entry),
        None => None,
    }
}

// The value of a fluent that a text is, where the value known before is of its sort too.
#[tactic(auto, unfolding(crate::specs::Reads::value_named))]
fn value_named(agent: &Agent, fluent: u32, value: &[u8], old: Option<&[u8]>) -> Option<u8>
    requires formed { WellFormed agent.now }
    requires fluent { fluent < ground_count agent.now (fluent_args agent.now) }
    ensures { result ≡ value_named agent.now fluent value.now (lent old.entry) }
{
    let sort = fluent_sort(agent, fluent);
    if !is_constant_or_none(agent, sort, old) {
        return None;
    }
    constant_named(agent, sort, value)
}

// Whether the text, if there is one, is a constant of a sort.
fn is_constant_or_none(agent: &Agent, sort: u32, text: Option<&[u8]>) -> bool
    requires { WellFormed agent.now }
    ensures { result ≡ option_map_or (λ word. is_some (constant_named agent.now sort word)) (lent text.entry) true }
{
    match text {
        Some(text) => is_constant_of(agent, sort, text),
        None => true,
    }
}

// Adds a line to a report.
fn add_line(report: &mut Report, line: Line) -> Result<(), NoMemory>
    requires { length report.old.entries < entry_limit }
    ensures { OnOk result (report.new ≡ with_line report.old line) }
{
    let place = report.entries.len() as u32;
    report.entries.push(line.entry)?;
    match line.run {
        Some(labels) => report.runs.push(PlacedRun { place, labels }),
        None => Ok(()),
    }
}

// What a journal is read over: an agent, and the facts of its actions.
#[derive(Clone, Copy)]
struct Reader<'a> {
    alloc: Global,
    agent: &'a Agent,
    facts: &'a AgentFacts,
}

impl<'a> Reader<'a> {
    // The entry that is named, behind these.
    #[tactic(auto, unfolding(crate::specs::Reads::line_named))]
    fn line_named(&self, before: &[Entry], named: Named<'_>) -> Option<Line>
        requires formed { WellFormed self.now.agent.now }
        requires facts { self.now.facts.now ≡ self.now.agent.now }
        ensures { result ≡ line_named self.now.agent.now before.now (named_of named.entry) }
    {
        match named {
            Named::Told { entry, run } => Some(Line { entry, run }),
            Named::Result {
                device,
                place,
                value,
                old,
            } => match self.result_in(before, device, place, value, old) {
                Some(entry) => Some(Line { entry, run: None }),
                None => None,
            },
        }
    }

    // The result of an earlier command.
    #[tactic(auto, using(crate::proofs::FactsTold::sensed_told), unfolding(crate::specs::Reads::result_in))]
    fn result_in(
        &self,
        before: &[Entry],
        poster: u8,
        place: u32,
        value: &[u8],
        old: Option<&[u8]>,
    ) -> Option<Entry>
        requires formed { WellFormed self.now.agent.now }
        requires facts { self.now.facts.now ≡ self.now.agent.now }
        ensures { result ≡ result_in self.now.agent.now before.now poster place value.now (lent old.entry) }
    {
        let fluent = sensed_at(self.facts, before, poster, place)?;
        let value = value_named(self.agent, fluent, value, old)?;
        Some(Entry::Sense {
            poster,
            place,
            fluent,
            value,
        })
    }

    // What a line says behind these entries.
    #[tactic(auto, unfolding(crate::specs::Reads::line_said))]
    fn line_said(&self, before: &[Entry], said: Said<'_>) -> Result<Line, TextFault>
        requires formed { WellFormed self.now.agent.now }
        requires facts { self.now.facts.now ≡ self.now.agent.now }
        requires few { length before.now ≤ entry_limit }
        ensures said { Answers result (line_said self.now.agent.now before.now (said_of said.entry)) }
        ensures few { OnOk result (length before.now < entry_limit) }
    {
        let line = before.len() as u32;
        if !is_in_place(before.len(), &said) {
            return Err(TextFault::Refused {
                line,
                why: MISPLACED,
            });
        }
        let Some(named) = body_named(self.alloc, self.agent, said.body)? else {
            return Err(TextFault::Refused { line, why: NOT_OWN });
        };
        match self.line_named(before, named) {
            Some(line) => Ok(line),
            None => Err(TextFault::Refused {
                line,
                why: NO_RESULT,
            }),
        }
    }

    // What a line that has its line feed says behind these entries.
    #[tactic(auto, unfolding(crate::specs::Reads::line_of))]
    fn line_of(&self, before: &[Entry], text: &[u8]) -> Result<Line, TextFault>
        requires formed { WellFormed self.now.agent.now }
        requires facts { self.now.facts.now ≡ self.now.agent.now }
        requires few { length before.now ≤ entry_limit }
        ensures said { Answers result (line_of self.now.agent.now before.now text.now) }
        ensures few { OnOk result (length before.now < entry_limit) }
    {
        match said_in(text) {
            Some(said) => self.line_said(before, said),
            None => Err(TextFault::Refused {
                line: before.len() as u32,
                why: NO_BODY,
            }),
        }
    }

    // Adds the lines that a text without a head says to a report that has none.
    fn read_lines(&self, report: &mut Report, bytes: &[u8]) -> Result<(), TextFault>
        requires formed { WellFormed self.now.agent.now }
        requires facts { self.now.facts.now ≡ self.now.agent.now }
        requires empty { report.old.entries ≡ [] }
        ensures { Leaves code_at result report.new
            (journal_from self.now.agent.now report.old (lines_in bytes.now)) }
    {
        let (mut text, mut behind) = cut(bytes, b'\n');
        while let Some(rest) = behind {
            let line = self.line_of(report.entries.as_slice(), text)?;
            add_line(report, line)?;
            let (next, others) = cut(rest, b'\n');
            text = next;
            behind = others;
        }
        if !text.is_empty() {
            return Err(TextFault::Refused {
                line: report.entries.len() as u32,
                why: NO_BODY,
            });
        }
        Ok(())
    }

    // The report with this start that a text without a head says.
    fn report_from(&self, start: Option<Bytes>, bytes: &[u8]) -> Result<Report, TextFault>
        requires formed { WellFormed self.now.agent.now }
        requires facts { self.now.facts.now ≡ self.now.agent.now }
        ensures { Answers result (journal_from self.now.agent.now (empty_report start) (lines_in bytes.now)) }
    {
        let mut report = Report {
            entries: List::new(self.alloc),
            runs: List::new(self.alloc),
            start,
        };
        match self.read_lines(&mut report, bytes) {
            Ok(()) => Ok(report),
            Err(fault) => {
                drop(report);
                Err(fault)
            }
        }
    }

    // The report that the lines behind a head with these values say.
    #[tactic(auto, unfolding(crate::specs::Reads::entries_read))]
    fn entries_read(&self, values: Bytes, bytes: &[u8]) -> Result<Report, TextFault>
        requires formed { WellFormed self.now.agent.now }
        requires facts { self.now.facts.now ≡ self.now.agent.now }
        ensures { Answers result (entries_read self.now.agent.now values bytes.now) }
    {
        match self.report_from(Some(values), bytes) {
            Ok(report) => Ok(report),
            Err(fault) => Err(fault.moved(head_length(self.agent))),
        }
    }

    // The report that a text says whose first line, which is taken away, begins a head.
    #[tactic(auto, unfolding(crate::specs::Reads::headed_report))]
    fn headed_report(&self, bytes: &[u8]) -> Result<Report, TextFault>
        requires formed { WellFormed self.now.agent.now }
        requires facts { self.now.facts.now ≡ self.now.agent.now }
        ensures { Answers result (headed_report self.now.agent.now bytes.now) }
    {
        let mut values = List::new(self.alloc);
        match read_head(&mut values, self.agent, bytes) {
            Ok(rest) => self.entries_read(values, rest),
            Err(fault) => {
                drop(values);
                Err(fault)
            }
        }
    }

    // The report that a text says.
    #[tactic(auto, unfolding(crate::specs::Reads::journal_of))]
    fn report_in(&self, bytes: &[u8]) -> Result<Report, TextFault>
        requires formed { WellFormed self.now.agent.now }
        requires facts { self.now.facts.now ≡ self.now.agent.now }
        ensures { Answers result (journal_of self.now.agent.now bytes.now) }
    {
        match behind(b"golog 2\n", bytes) {
            Some(rest) => self.headed_report(rest),
            None => self.report_from(None, bytes),
        }
    }
}

/// The report that the text of a journal says, or its first refusal: the least line that is refused, and there
/// the least code. A line is as `write_journal` writes it, but behind a result any constant of the fluent's sort
/// may stand as the value known before, or none. A text that begins with the line `golog 2` has a head, which is the
/// report's start.
///
/// The codes: 50, where the line has no such form, names and numbers left open, or lacks its line feed; 51,
/// where its number isn't its place, or a number in it is above 2,097,151; 52, where an action, a device or a
/// constant isn't the agent's, an action is exogenous in `do` or in a run or not exogenous in `exo`, or the
/// device behind `@` isn't that of the action; 53, where a result is of no earlier sensing command of its
/// device, or a value isn't of the fluent's sort; 54, where a line of the head isn't that of the ground fluent
/// whose turn it is with a value of its sort or `unknown`, or isn't `begin` behind them, or lacks its line feed, or is
/// missing, where the line is the number of lines. Lines are counted from 0, and places from 0 behind the head. The
/// empty text has no line.
#[tactic(auto, using(crate::proofs::FactsTold::serves))]
pub fn read_journal(alloc: Global, agent: &Agent, bytes: &[u8]) -> Result<Report, TextFault>
    requires { WellFormed agent.now }
    ensures read { Answers result (journal_of agent.now bytes.now) }
    ensures first { IsFirstRow result (journal_of agent.now bytes.now).rows }
    ensures fits { IfOk result (IsReport agent.now) }
{
    let facts = AgentFacts::of(alloc, agent)?;
    let reader = Reader {
        alloc,
        agent,
        facts: &facts,
    };
    let report = reader.report_in(bytes);
    drop(facts);
    report
}
