// The words for answers and for reasons.
ghost use Rattle.std.specs.Prelude.{◌≡◌};
ghost use Rattle.golog_semantics.specs.Text.{answer_text, reason_text};

use golog_semantics::{Answer, Reason};

/// The word for an answer.
pub fn answer_name(answer: Answer) -> &'static [u8]
    ensures { result.now ≡ answer_text answer }
{
    match answer {
        Answer::Done => b"done",
        Answer::Stuck => b"stuck",
        Answer::Unknown => b"unknown",
        Answer::Depth => b"depth",
        Answer::Fuel => b"fuel",
        Answer::Unanswered => b"unanswered",
        Answer::Full => b"full",
        Answer::Deep => b"deep",
        Answer::Memory => b"memory",
    }
}

/// The word for a reason.
pub fn reason_name(reason: Reason) -> &'static [u8]
    ensures { result.now ≡ reason_text reason }
{
    match reason {
        Reason::Ended => b"ended",
        Reason::Bad => b"bad",
        Reason::Full => b"full",
        Reason::Late => b"late",
        Reason::Stopped => b"stopped",
        Reason::Refused => b"refused",
    }
}
