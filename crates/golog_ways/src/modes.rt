// Which truths hold in which mode, and the mode in which the higher part of a `prio` is asked.
ghost use Rattle.std.specs.Prelude.{◌≡◌};
ghost use Rattle.golog_semantics.specs.Modes.{holds as holds_in, flip as flipped};

use golog_semantics::Mode;
use golog_tree::Truth;

/// Whether what has this truth holds in the mode: in `Must` where it is true, in `May` and `Near` where it is
/// not false.
pub fn holds(mode: Mode, truth: Truth) -> bool
    ensures { result ≡ holds_in mode truth }
{
    match (mode, truth) {
        (_, Truth::Yes) => true,
        (_, Truth::No) => false,
        (Mode::Must, Truth::Unknown) => false,
        (Mode::May | Mode::Near, Truth::Unknown) => true,
    }
}

/// The mode in which the higher part of a `prio` is asked for a step.
pub fn flip(mode: Mode) -> Mode
    ensures { result ≡ flipped mode }
{
    match mode {
        Mode::Must => Mode::May,
        Mode::May | Mode::Near => Mode::Must,
    }
}
