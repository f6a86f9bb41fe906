// `replay`, which takes one entry after another, with the line of each beside its text.
ghost use Rattle.std.specs.Prelude.{◌≡◌, ◌<◌, ◌≤◌, [], ◌∷◌, ◌++◌, length, None, Some, IfOk, IsTrue, slice_get, drop};
ghost use Rattle.golog_semantics.specs.declared.journal.Report.{Report as AnyReport};
ghost use Rattle.golog_semantics.specs.Online.{first_fault, same_line};
ghost use Rattle.golog_semantics.specs.Progress.{values_after};
ghost use Rattle.golog_semantics.specs.Reports.{IsReport, entry_limit, fits_entry};
ghost use Rattle.golog_semantics.specs.Same.{same_values};
ghost use Rattle.golog_semantics.specs.InSorts.{AreInSorts};
ghost use Rattle.golog_semantics.specs.Text.{Text, line_text};
ghost use Rattle.golog_semantics.specs.WellFormed.{WellFormed};
ghost use Rattle.golog_text.specs.Named.{AreFrom, AreNamed, IsNamed};
ghost use Rattle.golog_replay.specs.Courses.{Follows, JudgedIs, TakenIs};
ghost use Rattle.golog_semantics.specs.Verdicts.{VerdictIs, entry_lines};

use crate::course::Course;
use crate::judged::Judged;
use crate::lines::Lines;
use crate::placed::PlacedEntry;
use golog_base::NoMemory;
use golog_progress::State;
use golog_semantics::{Entry, Report, Verdict, Why};
use golog_text::{Line, run_here, runs_behind};
use golog_tree::{Agent, Prog};
use std::alloc::Global;

/// Whether the line is the text of an entry, which is written for that in place of what was there.
fn is_text(
    line: &[u8],
    text: &mut Line,
    agent: &Agent,
    state: &State,
    here: &PlacedEntry<'_>,
) -> Result<bool, NoMemory>
    requires formed { WellFormed agent.now }
    requires values { state.now ≡ values_after agent.now here.now.before.now }
    requires sorts { AreInSorts agent.now state.now }
    requires in_order { AreFrom (length here.now.before.now) here.now.runs.now }
    requires runs { AreNamed agent.now here.now.runs.now }
    requires entry { IsNamed agent.now here.now.next }
    requires short { length here.now.before.now < entry_limit }
    ensures { IfOk result (λ b. b ≡ same_values line.now
        (line_text agent.now here.now.runs.now here.now.before.now here.now.next)) }
{
    let run = run_here(here.runs, here.before.len());
    let filled = text.try_fill(agent, here.before.len() as u32, here.next, state, run)?;
    match filled.split_last() {
        Some((_, own)) => Ok(line == own),
        None => Ok(false),
    }
}

/// Whether the next line is the text of an entry.
fn is_spelled(
    lines: &mut Lines<'_>,
    text: &mut Line,
    agent: &Agent,
    state: &State,
    here: &PlacedEntry<'_>,
) -> Result<bool, NoMemory>
    requires formed { WellFormed agent.now }
    requires values { state.now ≡ values_after agent.now here.now.before.now }
    requires sorts { AreInSorts agent.now state.now }
    requires in_order { AreFrom (length here.now.before.now) here.now.runs.now }
    requires runs { AreNamed agent.now here.now.runs.now }
    requires entry { IsNamed agent.now here.now.next }
    requires short { length here.now.before.now < entry_limit }
    ensures lines { IfOk result (λ _. lines.new ≡ drop 1 lines.old) }
    ensures same { IfOk result (λ b. b ≡ same_line (slice_get lines.old 0)
        (line_text agent.now here.now.runs.now here.now.before.now here.now.next)) }
{
    match lines.next() {
        Some(line) => is_text(line, text, agent, state, here),
        None => Ok(false),
    }
}

/// Takes the next entry, which keeps the rules but that of its text and leaves this program, if another than
/// before; else that rule, if its line is not its text.
fn take_kept(
    course: &mut Course,
    lines: &mut Lines<'_>,
    text: &mut Line,
    agent: &Agent,
    here: &PlacedEntry<'_>,
    left: Option<Prog>,
) -> Result<Option<Why>, NoMemory>
    requires follows { Follows agent.now here.now.before.now course.old }
    requires fits { IsTrue (fits_entry agent.now here.now.before.now here.now.next) }
    requires in_order { AreFrom (length here.now.before.now) here.now.runs.now }
    requires runs { AreNamed agent.now here.now.runs.now }
    requires entry { IsNamed agent.now here.now.next }
    requires short { length here.now.before.now < entry_limit }
    requires kept { JudgedIs agent.now here.now.before.now here.now.runs.now here.now.next (Judged.Kept left) }
    ensures { IfOk result (TakenIs agent.now here.now.before.now here.now.runs.now lines.old here.now.next
        lines.new course.new) }
{
    match is_spelled(lines, text, agent, &course.state, here) {
        Ok(true) => {
            course.advance(agent, here.before, here.next, left);
            Ok(None)
        }
        Ok(false) => {
            drop(left);
            Ok(Some(Why::Text))
        }
        Err(error) => {
            drop(left);
            Err(error)
        }
    }
}

/// Judges the next entry and takes it, if it keeps the rules; else the first that it breaks. The lines are those to
/// come.
fn take(
    course: &mut Course,
    lines: &mut Lines<'_>,
    text: &mut Line,
    alloc: Global,
    agent: &Agent,
    here: &PlacedEntry<'_>,
) -> Result<Option<Why>, NoMemory>
    requires follows { Follows agent.now here.now.before.now course.old }
    requires fits { IsTrue (fits_entry agent.now here.now.before.now here.now.next) }
    requires in_order { AreFrom (length here.now.before.now) here.now.runs.now }
    requires runs { AreNamed agent.now here.now.runs.now }
    requires entry { IsNamed agent.now here.now.next }
    requires short { length here.now.before.now < entry_limit }
    ensures { IfOk result (TakenIs agent.now here.now.before.now here.now.runs.now lines.old here.now.next
        lines.new course.new) }
{
    let judged = course.judge(alloc, agent, here)?;
    match judged {
        Judged::Broken(why) => Ok(Some(why)),
        Judged::Kept(left) => take_kept(course, lines, text, agent, here, left),
    }
}

/// What is found of a report in which no entry breaks a rule.
fn last_verdict(course: &Course, agent: &Agent, entries: &[Entry]) -> Verdict
    requires follows { Follows agent.now entries.now course.now }
    requires short { length entries.now ≤ entry_limit }
    ensures { (bytes : Text) (report : AnyReport) → report.entries ≡ entries.now
        → first_fault agent.now (Some (entry_lines agent.now bytes report.start)) report ≡ None → VerdictIs agent.now bytes report result }
{
    match course.standing.whole(agent, entries) {
        Some(answer) => Verdict::Online(answer),
        None => Verdict::Not {
            place: entries.len() as u32,
            why: Why::Short,
        },
    }
}

/// The verdict on a report, whose entries the course goes along, from the first on, and whose lines are these.
fn go_along(
    course: &mut Course,
    lines: &mut Lines<'_>,
    text: &mut Line,
    alloc: Global,
    agent: &Agent,
    bytes: &[u8],
    report: &Report,
) -> Result<Verdict, NoMemory>
    requires follows { Follows agent.now [] course.old }
    requires lines { lines.old ≡ entry_lines agent.now bytes.now report.now.start }
    requires report { IsReport agent.now report.now }
    ensures { IfOk result (VerdictIs agent.now bytes.now report.now) }
{
    // The contract alone speaks of the bytes.
    let _bytes = bytes;
    let entries = report.entries.as_slice();
    let mut runs = report.runs.as_slice();
    for (place, entry) in entries.iter().enumerate() {
        let before = &entries[..place];
        let here = PlacedEntry {
            before,
            next: *entry,
            runs,
        };
        let broken = take(course, lines, text, alloc, agent, &here)?;
        if let Some(why) = broken {
            return Ok(Verdict::Not {
                place: place as u32,
                why,
            });
        }
        runs = runs_behind(runs, place);
    }
    Ok(last_verdict(course, agent, entries))
}

/// The lines of the entries of a report that was read from these bytes.
fn entry_lines<'b>(agent: &Agent, bytes: &'b [u8], report: &Report) -> Lines<'b>
    requires { WellFormed agent.now }
    ensures { result ≡ entry_lines agent.now bytes.now report.now.start }
{
    let mut lines = Lines::of(bytes);
    if report.start.is_some() {
        let count = agent.starts.len() + 2;
        lines.pass(count);
        return lines;
    }
    lines
}

/// The verdict on a report that was read from these bytes, whose lines are written in this room.
fn replay_in(
    text: &mut Line,
    alloc: Global,
    agent: &Agent,
    bytes: &[u8],
    report: &Report,
) -> Result<Verdict, NoMemory>
    requires formed { WellFormed agent.now }
    requires report { IsReport agent.now report.now }
    ensures { IfOk result (VerdictIs agent.now bytes.now report.now) }
{
    let mut course = Course::new(alloc, agent)?;
    let mut lines = entry_lines(agent, bytes, report);
    let verdict = go_along(&mut course, &mut lines, text, alloc, agent, bytes, report);
    drop(course);
    verdict
}

/// Whether a report that was read from these bytes is an online execution of the agent, and else the first
/// place where a rule is broken, and there the first of the rules in their order: `short` at the number of
/// entries. The agent is the one that starts from the report's start, where it has one. Takes one decision for each action, test and end, and time for each entry and its line.
///
/// `NoMemory` comes only for want of memory.
pub fn replay(
    alloc: Global,
    agent: &Agent,
    bytes: &[u8],
    report: &Report,
) -> Result<Verdict, NoMemory>
    requires formed { WellFormed agent.now }
    requires report { IsReport agent.now report.now }
    ensures { IfOk result (VerdictIs agent.now bytes.now report.now) }
{
    let mut text = Line::new(alloc)?;
    let verdict = replay_in(&mut text, alloc, agent, bytes, report);
    drop(text);
    verdict
}
