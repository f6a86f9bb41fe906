// `TextFault`, the refusals of a text, with their codes 50 to 54.
ghost use Rattle.golog_reports.specs.declared.fault.TextFault.TheVariants.{Refused, Memory};
ghost use Rattle.std.specs.Prelude.{◌≡◌, ◌+◌, ◌≤◌, true, false, MatchResult, option_map};
ghost use Rattle.golog_rows.specs.Answers.{IfRefused};
ghost use Rattle.golog_semantics.specs.Reports.{entry_limit};
ghost use Rattle.golog_reports.specs.Answers.{code_at};
ghost use Rattle.golog_reports.specs.Moved.{moved_place};

use golog_base::NoMemory;
use thiserror::Error;

/// The line has no body of the table, names and numbers left open, or lacks its line feed.
pub const NO_BODY: u8 = 50;

/// The line's number isn't its place, or a number in it is above 2,097,151.
pub const MISPLACED: u8 = 51;

/// An action, a device or a constant isn't the agent's, or not one for its place.
pub const NOT_OWN: u8 = 52;

/// A result is of no earlier command of its device, or a value isn't of the fluent's sort.
pub const NO_RESULT: u8 = 53;

/// A line of the head is missing, lacks its line feed, or isn't the one that stands there.
pub const HEAD: u8 = 54;

/// Why bytes were not read as a report.
#[derive(Debug, Drop, Error)]
pub enum TextFault {
    /// The bytes are refused, at a line, counted from 0, and with the code, 50 to 54.
    #[error("refused {why} at {line}")]
    Refused { line: u32, why: u8 },
    /// Memory ran out.
    #[error("memory ran out")]
    Memory,
}

impl TextFault {
    // The same where the lines stand so many lines further on.
    pub(crate) fn moved(self, lines: u32) -> TextFault
        requires few { lines ≤ 4098 }
        requires within { IfRefused (code_at self) (λ code at. at ≤ entry_limit) }
        ensures { code_at result ≡ moved_place lines (code_at self) }
    {
        match self {
            TextFault::Refused { line, why } => TextFault::Refused {
                line: lines + line,
                why,
            },
            TextFault::Memory => TextFault::Memory,
        }
    }
}

impl From<NoMemory> for TextFault {
    ghost from_gives = { λ _ e. e ≡ Memory };

    fn from(_error: NoMemory) -> TextFault {
        TextFault::Memory
    }
}
