// `Outcome`, what a call of the program comes to, with its text and its exit status; `Input`.
ghost use Rattle.std.specs.Prelude.{◌≡◌};
ghost use Rattle.golog_semantics.specs.Execution.{status_of as answer_status};
ghost use Rattle.golog_commands.specs.Inputs.{input_name, input_limit, fault_text};
ghost use Rattle.golog_commands.specs.Outcome.{outcome_status, outcome_text, truth_line, verdict_status};
ghost use Rattle.golog_commands.specs.Teams.{team_status};

use golog_base::Bytes;
use golog_semantics::{Answer, Verdict};
use golog_tree::Truth;

/// What a command reads.
#[derive(Clone, Copy, Debug, PartialEq, Eq)]
pub enum Input {
    /// The agent file.
    Agent,
    /// The file with the scripts of its devices.
    Devices,
    /// The journal file.
    Journal,
    /// The condition among the words.
    Condition,
    /// The first agent file of a team.
    First,
    /// The second agent file of a team.
    Second,
}

impl Input {
    /// What it is called in a refusal.
    pub fn name(self) -> &'static str
        ensures { result.now ≡ input_name self }
    {
        match self {
            Input::Agent => "agent",
            Input::Devices => "devices",
            Input::Journal => "journal",
            Input::Condition => "condition",
            Input::First => "first",
            Input::Second => "second",
        }
    }

    /// How many bytes it may have.
    pub fn limit(self) -> u32
        ensures { result ≡ input_limit self }
    {
        match self {
            Input::Agent | Input::Devices | Input::Condition => 1_048_576,
            Input::First | Input::Second => 1_048_576,
            Input::Journal => 268_435_456,
        }
    }

    // What is written where it cannot be read.
    fn fault_text(self) -> &'static [u8]
        ensures { result.now ≡ fault_text self }
    {
        match self {
            Input::Agent => b"read fault agent\n",
            Input::Devices => b"read fault devices\n",
            Input::Journal => b"read fault journal\n",
            Input::Condition => b"read fault condition\n",
            Input::First => b"read fault first\n",
            Input::Second => b"read fault second\n",
        }
    }
}

/// What a call of the program comes to, before its text is written.
#[derive(Drop)]
pub enum Outcome {
    /// The words are no command.
    WordsRefused,
    /// The file cannot be read.
    ReadFault(Input),
    /// The input is refused: what is said of it.
    Refused {
        input: Input,
        text: Bytes,
    },
    /// The program ran: the text of its journal, and its answer. It is made nowhere and stands in the contract alone,
    /// since a run writes each line when its entry is seen.
    Ran {
        text: Bytes,
        answer: Answer,
    },
    /// The agent file was checked: how much it has.
    Checked {
        text: Bytes,
    },
    /// The journal was replayed: what was found of it, and the line that tells it.
    Judged {
        verdict: Verdict,
        text: Bytes,
    },
    /// The truth of the condition was asked for.
    Asked(Truth),
    /// The journal was migrated: its text with the start written out.
    Migrated {
        text: Bytes,
    },
    /// The demo ran: what its journal has.
    Demonstrated {
        text: Bytes,
    },
    /// A team ran: the text of both journals, and the answers of their ends.
    Teamed {
        text: Bytes,
        first: Answer,
        second: Answer,
    },
}

impl Outcome {
    /// What is written.
    pub fn text(&self) -> &[u8]
        ensures { result.now ≡ outcome_text self.now }
    {
        match self {
            Outcome::WordsRefused => b"words refused\n",
            Outcome::ReadFault(input) => input.fault_text(),
            Outcome::Refused { text, .. } | Outcome::Ran { text, .. } => text.as_slice(),
            Outcome::Checked { text } | Outcome::Demonstrated { text } => text.as_slice(),
            Outcome::Judged { text, .. } | Outcome::Migrated { text } => text.as_slice(),
            Outcome::Teamed { text, .. } => text.as_slice(),
            Outcome::Asked(truth) => truth_line(*truth),
        }
    }

    /// The exit status: 2, 3 or 4 for a refusal, that of the answer for a run, of the first answer that isn't done for
    /// a team, 17 for a journal that is not online, and else 0.
    pub fn status(&self) -> u8
        ensures { result ≡ outcome_status self.now }
    {
        match self {
            Outcome::WordsRefused => 2,
            Outcome::ReadFault(_) => 4,
            Outcome::Refused { .. } => 3,
            Outcome::Ran { answer, .. } => exit_status(*answer),
            Outcome::Judged { verdict, .. } => verdict_status(*verdict),
            Outcome::Checked { .. } | Outcome::Asked(_) => 0,
            Outcome::Migrated { .. } | Outcome::Demonstrated { .. } => 0,
            Outcome::Teamed { first, second, .. } => team_status(*first, *second),
        }
    }
}

// The line that tells a truth.
fn truth_line(truth: Truth) -> &'static [u8]
    ensures { result.now ≡ truth_line truth }
{
    match truth {
        Truth::Yes => b"true\n",
        Truth::No => b"false\n",
        Truth::Unknown => b"unknown\n",
    }
}

// The exit status of a replay that finds this.
fn verdict_status(verdict: Verdict) -> u8
    ensures { result ≡ verdict_status verdict }
{
    match verdict {
        Verdict::Online(_) => 0,
        Verdict::Not { .. } => 17,
    }
}

// The exit status of a team whose programs end with these answers.
fn team_status(first: Answer, second: Answer) -> u8
    ensures { result ≡ team_status first second }
{
    let status = exit_status(first);
    if status == 0 {
        exit_status(second)
    } else {
        status
    }
}

/// The exit status of a run that ends with this answer.
pub fn exit_status(answer: Answer) -> u8
    ensures { result ≡ answer_status answer }
{
    match answer {
        Answer::Done => 0,
        Answer::Stuck => 10,
        Answer::Unknown => 11,
        Answer::Depth => 12,
        Answer::Fuel => 13,
        Answer::Unanswered => 14,
        Answer::Full => 15,
        Answer::Deep => 16,
        Answer::Memory => 6,
    }
}
