//! `Stepped`, what came of a turn of a program, and the entries of its steps and of its end.
ghost use Rattle.std.specs.Prelude.{◌≡◌};
ghost use Rattle.golog_semantics.specs.Inline.{entry_for};
ghost use Rattle.golog_lead.specs.Keeping.{ended_by};
ghost use Rattle.golog_lead.specs.Seeing.{led_for};

use golog_journal::Led;
use golog_semantics::{Answer, Entry};
use golog_tree::Label;

/// What came of a turn of a program.
#[derive(Clone, Copy, Debug, PartialEq, Eq)]
pub enum Stepped {
    /// It committed an action or a test.
    Step,
    /// It committed nothing: the program waits for a device.
    Waiting,
    /// The program has ended with this answer.
    Ended(Answer),
}

/// Whether the program has ended, by what came of its turn.
pub fn led_by(stepped: Stepped) -> Led
    ensures { result ≡ led_for stepped }
{
    match stepped {
        Stepped::Ended(_) => Led::Ended,
        Stepped::Step | Stepped::Waiting => Led::More,
    }
}

/// The entry of a step.
pub fn entry_of(label: Label) -> Entry
    ensures { result ≡ entry_for label }
{
    match label {
        Label::Do(action) => Entry::Do { action },
        Label::Quiet => Entry::Test,
    }
}

/// How the program ended, after one more entry.
pub fn ended_after(ended: Option<Answer>, entry: Entry) -> Option<Answer>
    ensures { result ≡ ended_by ended entry }
{
    match entry {
        Entry::End { answer } => Some(answer),
        Entry::Do { .. }
        | Entry::Test
        | Entry::Exo { .. }
        | Entry::Sense { .. }
        | Entry::Rest { .. }
        | Entry::Close { .. } => ended,
    }
}
