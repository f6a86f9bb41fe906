// What a line of a journal says in words, whatever the agent: names and numbers are left open.
ghost use Rattle.std.specs.Prelude.{◌≡◌, true, bytes_eq, find, option_map};
ghost use Rattle.std.specs.Option.{option_map_or};
ghost use Rattle.golog_base.specs.Names.{is_name as spec_is_name};
ghost use Rattle.golog_semantics.specs.Text.{answer_text, reason_text};
ghost use Rattle.golog_reports.specs.Said.{behind, run_in, device_in, test_in, do_in, exo_in, old_in, value_in, place_in, sense_in, rest_in, reason_in, answer_in, reason_and_taken, close_in, end_in, with_word, body_in, said_in};
ghost use Rattle.golog_reports.specs.Views.{lent, body_of, said_of};

use crate::forms::{cut, is_action, is_constant, is_run};
use golog_base::{is_name, is_natural};
use golog_semantics::{Answer, Reason};
use golog_text::{answer_name, reason_name};

// What stands behind a line's number. Its texts are the words themselves, lent. A run is what stands behind
// the word `run`.
#[derive(Clone, Copy)]
pub(crate) enum Body<'t> {
    Do {
        action: &'t [u8],
        device: Option<&'t [u8]>,
        run: Option<&'t [u8]>,
    },
    Test {
        run: Option<&'t [u8]>,
    },
    Exo {
        device: &'t [u8],
        action: &'t [u8],
    },
    Sense {
        device: &'t [u8],
        place: &'t [u8],
        value: &'t [u8],
        old: Option<&'t [u8]>,
    },
    Rest {
        device: &'t [u8],
        taken: &'t [u8],
    },
    Close {
        device: &'t [u8],
        reason: Reason,
        taken: &'t [u8],
    },
    End {
        answer: Answer,
    },
}

#[derive(Clone, Copy)]
pub(crate) struct Said<'t> {
    pub(crate) number: &'t [u8],
    pub(crate) body: Body<'t>,
}

// What stands behind a prefix, where it stands in front.
#[tactic(auto, unfolding(crate::specs::Said::behind))]
pub(crate) fn behind<'t>(prefix: &[u8], text: &'t [u8]) -> Option<&'t [u8]>
    ensures { lent result ≡ behind prefix.now text.now }
{
    text.strip_prefix(prefix)
}

// The run behind a step, if there is one.
#[tactic(auto, unfolding(crate::specs::Said::run_in))]
fn run_in(text: Option<&[u8]>) -> Option<Option<&[u8]>>
    ensures { option_map lent result ≡ run_in (lent text.entry) }
{
    let Some(text) = text else {
        return Some(None);
    };
    let run = behind(b"run", text)?;
    if !is_run(run) {
        return None;
    }
    Some(Some(run))
}

// The device that a command is sent to, if there is one, and what stands behind it.
#[tactic(auto, unfolding(crate::specs::Said::device_in))]
fn device_in(text: Option<&[u8]>) -> (Option<&[u8]>, Option<&[u8]>)
    ensures device { lent result.0 ≡ (device_in (lent text.entry)).0 }
    ensures rest { lent result.1 ≡ (device_in (lent text.entry)).1 }
{
    let Some(text) = text else {
        return (None, None);
    };
    match behind(b"@", text) {
        Some(word) => {
            let (device, rest) = cut(word, b' ');
            (Some(device), rest)
        }
        None => (None, Some(text)),
    }
}

#[tactic(auto, unfolding(crate::specs::Said::test_in))]
fn test_in(rest: Option<&[u8]>) -> Option<Body<'_>>
    ensures { option_map body_of result ≡ test_in (lent rest.entry) }
{
    let run = run_in(rest)?;
    Some(Body::Test { run })
}

#[tactic(auto, unfolding(crate::specs::Said::do_in))]
fn do_in(text: &[u8]) -> Option<Body<'_>>
    ensures { option_map body_of result ≡ do_in text.now }
{
    let (action, rest) = cut(text, b' ');
    let (device, rest) = device_in(rest);
    if !is_action(action) {
        return None;
    }
    if !is_name_or_none(device) {
        return None;
    }
    let run = run_in(rest)?;
    Some(Body::Do {
        action,
        device,
        run,
    })
}

// Whether the word, if there is one, is a name.
fn is_name_or_none(word: Option<&[u8]>) -> bool
    ensures { result ≡ option_map_or spec_is_name (lent word.entry) true }
{
    match word {
        Some(word) => is_name(word),
        None => true,
    }
}

#[tactic(auto, unfolding(crate::specs::Said::exo_in))]
fn exo_in(text: &[u8]) -> Option<Body<'_>>
    ensures { option_map body_of result ≡ exo_in text.now }
{
    let (device, rest) = cut(text, b' ');
    let action = rest?;
    if !is_name(device) {
        return None;
    }
    if !is_action(action) {
        return None;
    }
    Some(Body::Exo { device, action })
}

// The value known before, if there is one.
#[tactic(auto, unfolding(crate::specs::Said::old_in))]
fn old_in(text: Option<&[u8]>) -> Option<Option<&[u8]>>
    ensures { option_map lent result ≡ old_in (lent text.entry) }
{
    let Some(text) = text else {
        return Some(None);
    };
    let old = behind(b"against ", text)?;
    if !is_constant(old) {
        return None;
    }
    Some(Some(old))
}

// A result of this device at this place.
#[tactic(auto, unfolding(crate::specs::Said::value_in))]
fn value_in<'t>(device: &'t [u8], place: &'t [u8], text: &'t [u8]) -> Option<Body<'t>>
    ensures { option_map body_of result ≡ value_in device.now place.now text.now }
{
    let (value, rest) = cut(text, b' ');
    if !is_constant(value) {
        return None;
    }
    let old = old_in(rest)?;
    Some(Body::Sense {
        device,
        place,
        value,
        old,
    })
}

// A result of this device.
#[tactic(auto, unfolding(crate::specs::Said::place_in))]
fn place_in<'t>(device: &'t [u8], text: &'t [u8]) -> Option<Body<'t>>
    ensures { option_map body_of result ≡ place_in device.now text.now }
{
    let (place, rest) = cut(text, b' ');
    let rest = rest?;
    if !is_natural(place) {
        return None;
    }
    value_in(device, place, rest)
}

#[tactic(auto, unfolding(crate::specs::Said::sense_in))]
fn sense_in(text: &[u8]) -> Option<Body<'_>>
    ensures { option_map body_of result ≡ sense_in text.now }
{
    let (device, rest) = cut(text, b' ');
    let rest = rest?;
    if !is_name(device) {
        return None;
    }
    place_in(device, rest)
}

#[tactic(auto, unfolding(crate::specs::Said::rest_in))]
fn rest_in(text: &[u8]) -> Option<Body<'_>>
    ensures { option_map body_of result ≡ rest_in text.now }
{
    let (device, rest) = cut(text, b' ');
    let taken = rest?;
    if !is_name(device) {
        return None;
    }
    if !is_natural(taken) {
        return None;
    }
    Some(Body::Rest { device, taken })
}

// Whether this is the word for the reason.
fn is_reason_word(reason: Reason, word: &[u8]) -> bool
    ensures { result ≡ bytes_eq (reason_text reason) word.now }
{
    reason_name(reason) == word
}

// The first of these reasons that has this word.
fn first_reason(reasons: &[Reason], word: &[u8]) -> Option<Reason>
    ensures { result ≡ find (λ reason. bytes_eq (reason_text reason) word.now) reasons.now }
{
    reasons
        .iter()
        .copied()
        .find(|reason| is_reason_word(*reason, word))
}

// The reason of this word.
fn reason_in(word: &[u8]) -> Option<Reason>
    ensures { result ≡ reason_in word.now }
{
    let reasons = [
        Reason::Ended,
        Reason::Bad,
        Reason::Full,
        Reason::Late,
        Reason::Stopped,
        Reason::Refused,
    ];
    first_reason(&reasons, word)
}

// Whether this is the word for the answer.
fn is_answer_word(answer: Answer, word: &[u8]) -> bool
    ensures { result ≡ bytes_eq (answer_text answer) word.now }
{
    answer_name(answer) == word
}

// The first of these answers that has this word.
fn first_answer(answers: &[Answer], word: &[u8]) -> Option<Answer>
    ensures { result ≡ find (λ answer. bytes_eq (answer_text answer) word.now) answers.now }
{
    answers
        .iter()
        .copied()
        .find(|answer| is_answer_word(*answer, word))
}

// The answer of this word.
fn answer_in(word: &[u8]) -> Option<Answer>
    ensures { result ≡ answer_in word.now }
{
    let answers = [
        Answer::Done,
        Answer::Stuck,
        Answer::Unknown,
        Answer::Depth,
        Answer::Fuel,
        Answer::Unanswered,
        Answer::Full,
        Answer::Deep,
        Answer::Memory,
    ];
    first_answer(&answers, word)
}

// How this device was closed.
#[tactic(auto, unfolding(crate::specs::Said::reason_and_taken))]
fn reason_and_taken<'t>(device: &'t [u8], text: &'t [u8]) -> Option<Body<'t>>
    ensures { option_map body_of result ≡ reason_and_taken device.now text.now }
{
    let (word, rest) = cut(text, b' ');
    let reason = reason_in(word)?;
    let taken = rest?;
    if !is_natural(taken) {
        return None;
    }
    Some(Body::Close {
        device,
        reason,
        taken,
    })
}

#[tactic(auto, unfolding(crate::specs::Said::close_in))]
fn close_in(text: &[u8]) -> Option<Body<'_>>
    ensures { option_map body_of result ≡ close_in text.now }
{
    let (device, rest) = cut(text, b' ');
    let rest = rest?;
    if !is_name(device) {
        return None;
    }
    reason_and_taken(device, rest)
}

#[tactic(auto, unfolding(crate::specs::Said::end_in))]
fn end_in(text: &[u8]) -> Option<Body<'_>>
    ensures { option_map body_of result ≡ end_in text.now }
{
    let answer = answer_in(text)?;
    Some(Body::End { answer })
}

// The body of this first word, with what stands behind it.
#[tactic(auto, unfolding(crate::specs::Said::with_word))]
fn with_word<'t>(word: &[u8], rest: &'t [u8]) -> Option<Body<'t>>
    ensures { option_map body_of result ≡ with_word word.now rest.now }
{
    if word == b"do".as_slice() {
        do_in(rest)
    } else if word == b"exo".as_slice() {
        exo_in(rest)
    } else if word == b"sense".as_slice() {
        sense_in(rest)
    } else if word == b"rest".as_slice() {
        rest_in(rest)
    } else if word == b"close".as_slice() {
        close_in(rest)
    } else if word == b"end".as_slice() {
        end_in(rest)
    } else {
        None
    }
}

// What stands behind the line's number.
#[tactic(auto, unfolding(crate::specs::Said::body_in))]
fn body_in(text: &[u8]) -> Option<Body<'_>>
    ensures { option_map body_of result ≡ body_in text.now }
{
    let (word, rest) = cut(text, b' ');
    if word == b"test".as_slice() {
        return test_in(rest);
    }
    with_word(word, rest?)
}

// What a line without its line feed says.
#[tactic(auto, unfolding(crate::specs::Said::said_in))]
pub(crate) fn said_in(line: &[u8]) -> Option<Said<'_>>
    ensures { option_map said_of result ≡ said_in line.now }
{
    let (number, rest) = cut(line, b' ');
    let rest = rest?;
    if !is_natural(number) {
        return None;
    }
    let body = body_in(rest)?;
    Some(Said { number, body })
}
