//! What the entries so far come to: what stands, the values and the program left; what is found of
//! the next entry, and how it is taken in.

ghost use Rattle.std.specs.Prelude.{◌≡◌, ◌<◌, [], ◌∷◌, ◌++◌, length, IfOk, IsTrue, MatchOption, None, Some, true, false, if◌then◌else◌, unwrap_or};
ghost use Rattle.std.specs.Option.{option_copied};
ghost use Rattle.std.specs.Cmp.Lexicographic.{pointwise};
ghost use Rattle.golog_search.specs.Decided.{decision};
ghost use Rattle.golog_search.specs.Laws.{answer_of as answer_by, blocked_answer};
ghost use Rattle.golog_semantics.specs.Answer.{answer_at};
ghost use Rattle.golog_semantics.specs.Journal.{is_full, is_settled};
ghost use Rattle.golog_semantics.specs.Online.{keeps_answer as keeps_answer_in, keeps_place, keeps_step, label_of as label_in, may_end as may_end_in, same_answer};
ghost use Rattle.golog_semantics.specs.Progress.{left_after, values_after};
ghost use Rattle.golog_semantics.specs.Reports.{entry_limit, fits_entry};
ghost use Rattle.golog_semantics.specs.Same.{same_label, same_run};
ghost use Rattle.golog_semantics.specs.Text.{run_at};
ghost use Rattle.golog_semantics.specs.WellFormed.{WellFormed};
ghost use Rattle.golog_text.specs.Named.{AreFrom, IsNamed};
ghost use Rattle.golog_replay.specs.Courses.{BreaksFirst, Follows, IsStep, JudgedIs, KeepsEarly, SteppingIs};

use crate::judged::{Judged, Stepping};
use crate::placed::PlacedEntry;
use crate::standing::Standing;
use golog_base::{List, NoMemory};
use golog_memo::is_same_label;
use golog_progress::{State, start};
use golog_search::{Blocked, Decision, decide_unbounded, heavy};
use golog_semantics::{Answer, Entry, Move, PlacedRun, Why};
use golog_text::run_here;
use golog_tree::{Agent, Label, Prog, copy_prog};
use std::alloc::Global;
use std::mem;

/// What is kept of the entries so far, the values after them and the program left.
#[derive(Drop)]
pub(crate) struct Course {
    pub(crate) standing: Standing,
    pub(crate) state: State,
    pub(crate) left: Prog,
}

/// The label of a step.
fn label_of(entry: Entry) -> Option<Label>
    ensures { result ≡ label_in entry }
{
    match entry {
        Entry::Do { action } => Some(Label::Do(action)),
        Entry::Test => Some(Label::Quiet),
        Entry::Exo { .. }
        | Entry::Sense { .. }
        | Entry::Rest { .. }
        | Entry::Close { .. }
        | Entry::End { .. } => None,
    }
}

/// Whether these are the same labels.
fn are_same_labels(one: &[Label], other: &[Label]) -> bool
    ensures { result ≡ pointwise same_label one.now other.now }
{
    let mut rest = other;
    for label in one {
        let Some((first, later)) = rest.split_first() else {
            return false;
        };
        if !is_same_label(*label, *first) {
            return false;
        }
        rest = later;
    }
    rest.is_empty()
}

/// Whether the run that is printed is the one that is begun, or there is neither.
fn is_same_run(printed: Option<&List<Label>>, begun: &Option<List<Label>>) -> bool
    ensures { result ≡ same_run (option_copied printed.entry) begun.now }
{
    match printed {
        Some(printed) => match begun {
            Some(begun) => are_same_labels(printed.as_slice(), begun.as_slice()),
            None => false,
        },
        None => match begun {
            Some(_) => false,
            None => true,
        },
    }
}

/// Whether the run that is printed at a place, of those from the place on, is the one that begins there.
fn keeps_run(runs: &[PlacedRun], place: usize, begun: &Option<List<Label>>) -> bool
    requires { AreFrom place runs.now }
    ensures { result ≡ same_run (run_at runs.now place) begun.now }
{
    is_same_run(run_here(runs, place), begun)
}

/// The answer of a program that is blocked, where no device may still post, by whether a result is lacking.
fn answer_of_blocked(lacks: bool, blocked: Blocked) -> Option<Answer>
    ensures { result ≡ (if lacks then Some Answer.Unanswered else Some (blocked_answer blocked)) }
{
    if lacks {
        return Some(Answer::Unanswered);
    }
    Some(blocked.answer())
}

/// The answer of a program that does this next, where it waits for no result: by whether one may still come, no
/// device may still post, and one is lacking.
fn answer_of(comes: bool, quiet: bool, lacks: bool, decision: &Decision) -> Option<Answer>
    ensures { result ≡ answer_by comes quiet lacks decision.now }
{
    match decision {
        Decision::Final => { if comes { None } else { Some(Answer::Done) } }
        Decision::Step(_) => None,
        Decision::Blocked(blocked) => {
            if quiet {
                answer_of_blocked(lacks, *blocked)
            } else {
                None
            }
        }
        Decision::Fuel => Some(Answer::Fuel),
        Decision::Deep => Some(Answer::Deep),
    }
}

/// Whether this is the answer.
fn is_answer(found: Option<Answer>, answer: Answer) -> bool
    ensures { result ≡ same_answer found answer }
{
    match found {
        Some(found) => found == answer,
        None => false,
    }
}

/// Whether what the program does next is the step of an entry, which has this label.
fn steps_by(agent: &Agent, before: &[Entry], entry: Entry, label: Label, step: Move) -> Stepping
    requires label { label_in entry ≡ Some label }
    requires room { is_full before.now ≡ false }
    requires settled { is_settled agent.now before.now ≡ true }
    requires decided { Decision.Step step ≡ decision agent.now (values_after agent.now before.now) (left_after agent.now before.now) }
    ensures { SteppingIs agent.now before.now entry result }
{
    if is_same_label(label, step.label) {
        return Stepping::Steps(step);
    }
    drop(step);
    Stepping::Breaks
}

/// A step that the program may take keeps the rules where its run is printed.
fn judge_run(agent: &Agent, here: &PlacedEntry<'_>, step: Move) -> Judged
    requires early { KeepsEarly agent.now here.now.before.now here.now.next }
    requires step { IsStep agent.now here.now.before.now here.now.next step }
    requires in_order { AreFrom (length here.now.before.now) here.now.runs.now }
    ensures { JudgedIs agent.now here.now.before.now here.now.runs.now here.now.next result }
{
    let kept = keeps_run(here.runs, here.before.len(), &step.run);
    let Move { left, run, .. } = step;
    drop(run);
    if kept {
        return Judged::Kept(Some(left));
    }
    drop(left);
    Judged::Broken(Why::Run)
}

/// Puts the new program in the place of the old, if there is one.
fn replace(left: &mut Prog, new: Option<Prog>)
    ensures { left.new ≡ unwrap_or new left.old }
{
    let old = mem::replace(left, Prog::Nil);
    let nil = mem::replace(left, new.unwrap_or(old));
    drop(nil);
}

impl Course {
    /// The course before any entry.
    pub(crate) fn new(alloc: Global, agent: &Agent) -> Result<Course, NoMemory>
        requires { WellFormed agent.now }
        ensures { IfOk result (Follows agent.now []) }
    {
        let standing = Standing::new(alloc, agent)?;
        let state = start(alloc, agent)?;
        let left = copy_prog(alloc, &agent.main)?;
        Ok(Course {
            standing,
            state,
            left,
        })
    }

    /// What the program does next.
    fn decide(&self, alloc: Global, agent: &Agent, before: &[Entry]) -> Result<Decision, NoMemory>
        requires { Follows agent.now before.now self.now }
        ensures { IfOk result (λ d. d ≡ decision agent.now (values_after agent.now before.now) (left_after agent.now before.now)) }
    {
        decide_unbounded(alloc, agent, &self.left, &self.state)
    }

    /// The step of this label that the program may take here, if it is that of an entry.
    fn step_of(
        &self,
        alloc: Global,
        agent: &Agent,
        before: &[Entry],
        entry: Entry,
        label: Label,
    ) -> Result<Stepping, NoMemory>
        requires follows { Follows agent.now before.now self.now }
        requires label { label_in entry ≡ Some label }
        ensures { IfOk result (SteppingIs agent.now before.now entry) }
    {
        if self.standing.is_full(agent, before) {
            return Ok(Stepping::Breaks);
        }
        if !self.standing.is_settled(agent, before) {
            return Ok(Stepping::Breaks);
        }
        let decision = self.decide(alloc, agent, before)?;
        match decision {
            Decision::Step(step) => Ok(steps_by(agent, before, entry, label, step)),
            _ => Ok(Stepping::Breaks),
        }
    }

    /// Whether the entry is a step, and which.
    fn stepping(
        &self,
        alloc: Global,
        agent: &Agent,
        before: &[Entry],
        entry: Entry,
    ) -> Result<Stepping, NoMemory>
        requires { Follows agent.now before.now self.now }
        ensures { IfOk result (SteppingIs agent.now before.now entry) }
    {
        match label_of(entry) {
            Some(label) => self.step_of(alloc, agent, before, entry, label),
            None => Ok(Stepping::NoStep),
        }
    }

    /// The answer of the program, if it may end.
    fn answer(
        &self,
        alloc: Global,
        agent: &Agent,
        before: &[Entry],
    ) -> Result<Option<Answer>, NoMemory>
        requires { Follows agent.now before.now self.now }
        ensures { IfOk result (λ a. a ≡ answer_at agent.now before.now (values_after agent.now before.now) (left_after agent.now before.now)) }
    {
        if self.standing.is_full(agent, before) {
            return Ok(Some(Answer::Full));
        }
        if self.standing.is_unanswered(agent, before) {
            return Ok(Some(Answer::Unanswered));
        }
        if !self.standing.is_settled(agent, before) {
            return Ok(None);
        }
        let decision = self.decide(alloc, agent, before)?;
        let comes = self.standing.may_be_answered(agent, before);
        let quiet = self.standing.is_quiet(agent, before);
        let lacks = self.standing.lacks_results(agent, before);
        let answer = answer_of(comes, quiet, lacks, &decision);
        drop(decision);
        Ok(answer)
    }

    /// Whether the program may end for want of fuel.
    fn may_lack_fuel(
        &self,
        alloc: Global,
        agent: &Agent,
        before: &[Entry],
    ) -> Result<bool, NoMemory>
        requires { Follows agent.now before.now self.now }
        ensures { IfOk result (λ b. b ≡ may_end_in agent.now before.now (values_after agent.now before.now) (left_after agent.now before.now) Answer.Fuel) }
    {
        if self.standing.is_full(agent, before) {
            return Ok(false);
        }
        if self.standing.is_unanswered(agent, before) {
            return Ok(false);
        }
        if !self.standing.is_settled(agent, before) {
            return Ok(false);
        }
        heavy(alloc, agent, &self.left, &self.state)
    }

    /// Whether the program may end with the answer.
    fn may_end(
        &self,
        alloc: Global,
        agent: &Agent,
        before: &[Entry],
        answer: Answer,
    ) -> Result<bool, NoMemory>
        requires { Follows agent.now before.now self.now }
        ensures { IfOk result (λ b. b ≡ may_end_in agent.now before.now (values_after agent.now before.now) (left_after agent.now before.now) answer) }
    {
        match answer {
            Answer::Memory => Ok(true),
            Answer::Fuel => self.may_lack_fuel(alloc, agent, before),
            _ => {
                let found = self.answer(alloc, agent, before)?;
                Ok(is_answer(found, answer))
            }
        }
    }

    /// The end carries an answer that the program may end with.
    fn keeps_answer(
        &self,
        alloc: Global,
        agent: &Agent,
        before: &[Entry],
        entry: Entry,
    ) -> Result<bool, NoMemory>
        requires { Follows agent.now before.now self.now }
        ensures { IfOk result (λ b. b ≡ keeps_answer_in agent.now before.now (values_after agent.now before.now) (left_after agent.now before.now) entry) }
    {
        match entry {
            Entry::End { answer } => self.may_end(alloc, agent, before, answer),
            Entry::Do { .. }
            | Entry::Test
            | Entry::Exo { .. }
            | Entry::Sense { .. }
            | Entry::Rest { .. }
            | Entry::Close { .. } => Ok(true),
        }
    }

    /// The first of the rules of posts that the entry breaks.
    fn breaks_early(&self, agent: &Agent, before: &[Entry], entry: Entry) -> Option<Why>
        requires follows { Follows agent.now before.now self.now }
        requires fits { IsTrue (fits_entry agent.now before.now entry) }
        ensures { MatchOption result (KeepsEarly agent.now before.now entry) (BreaksFirst agent.now before.now entry) }
    {
        if !self.standing.keeps_after(agent, before, entry) {
            return Some(Why::After);
        }
        if !self.standing.keeps_poster(agent, before, entry) {
            return Some(Why::Poster);
        }
        if !self.standing.keeps_place(agent, before, entry) {
            return Some(Why::Place);
        }
        if !self.standing.keeps_taken(agent, before, entry) {
            return Some(Why::Taken);
        }
        None
    }

    /// What is found of an entry that is no step.
    fn judge_other(
        &self,
        alloc: Global,
        agent: &Agent,
        here: &PlacedEntry<'_>,
    ) -> Result<Judged, NoMemory>
        requires follows { Follows agent.now here.now.before.now self.now }
        requires fits { IsTrue (fits_entry agent.now here.now.before.now here.now.next) }
        requires early { KeepsEarly agent.now here.now.before.now here.now.next }
        requires no_step { label_in here.now.next ≡ None }
        requires in_order { AreFrom (length here.now.before.now) here.now.runs.now }
        ensures { IfOk result (JudgedIs agent.now here.now.before.now here.now.runs.now here.now.next) }
    {
        if !keeps_run(here.runs, here.before.len(), &None) {
            return Ok(Judged::Broken(Why::Run));
        }
        let answers = self.keeps_answer(alloc, agent, here.before, here.next)?;
        if !answers {
            return Ok(Judged::Broken(Why::Answer));
        }
        if !self.standing.keeps_close(agent, here.before, here.next) {
            return Ok(Judged::Broken(Why::Close));
        }
        Ok(Judged::Kept(None))
    }

    /// What is found of an entry that keeps the rules of posts.
    fn judge_late(
        &self,
        alloc: Global,
        agent: &Agent,
        here: &PlacedEntry<'_>,
    ) -> Result<Judged, NoMemory>
        requires follows { Follows agent.now here.now.before.now self.now }
        requires fits { IsTrue (fits_entry agent.now here.now.before.now here.now.next) }
        requires early { KeepsEarly agent.now here.now.before.now here.now.next }
        requires in_order { AreFrom (length here.now.before.now) here.now.runs.now }
        ensures { IfOk result (JudgedIs agent.now here.now.before.now here.now.runs.now here.now.next) }
    {
        let stepping = self.stepping(alloc, agent, here.before, here.next)?;
        match stepping {
            Stepping::Breaks => Ok(Judged::Broken(Why::Step)),
            Stepping::NoStep => self.judge_other(alloc, agent, here),
            Stepping::Steps(step) => Ok(judge_run(agent, here, step)),
        }
    }

    /// What is found of the next entry, by all rules but that of its text.
    pub(crate) fn judge(
        &self,
        alloc: Global,
        agent: &Agent,
        here: &PlacedEntry<'_>,
    ) -> Result<Judged, NoMemory>
        requires follows { Follows agent.now here.now.before.now self.now }
        requires fits { IsTrue (fits_entry agent.now here.now.before.now here.now.next) }
        requires in_order { AreFrom (length here.now.before.now) here.now.runs.now }
        ensures { IfOk result (JudgedIs agent.now here.now.before.now here.now.runs.now here.now.next) }
    {
        match self.breaks_early(agent, here.before, here.next) {
            Some(why) => Ok(Judged::Broken(why)),
            None => self.judge_late(alloc, agent, here),
        }
    }

    /// One more entry, which keeps the rules and leaves this program, if another than before.
    pub(crate) fn advance(
        &mut self,
        agent: &Agent,
        before: &[Entry],
        entry: Entry,
        left: Option<Prog>,
    )
        requires follows { Follows agent.now before.now self.old }
        requires fits { IsTrue (fits_entry agent.now before.now entry) }
        requires place { IsTrue (keeps_place agent.now before.now entry) }
        requires step { IsTrue (keeps_step agent.now before.now (values_after agent.now before.now) (left_after agent.now before.now) entry) }
        requires named { IsNamed agent.now entry }
        requires short { length before.now < entry_limit }
        requires left { left_after agent.now (before.now ++ entry ∷ []) ≡ unwrap_or left (left_after agent.now before.now) }
        ensures { Follows agent.now (before.now ++ entry ∷ []) self.new }
    {
        self.standing.note(agent, before, entry);
        self.state.roll(agent, &[entry]);
        replace(&mut self.left, left);
    }
}
