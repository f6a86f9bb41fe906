//! What the value of one ground fluent says, where what is unknown holds or not.
ghost use Rattle.std.specs.Prelude.{◌≡◌, ◌==◌, nat_lt};
ghost use Rattle.golog_semantics.specs.Modes.{holds};
ghost use Rattle.golog_semantics.specs.Truth.{comparison_of, not_of};
ghost use Rattle.golog_tree.specs.declared.cond.Truth.TheVariants.{Unknown};
ghost use Rattle.golog_flat.specs.Checks.{holds_by, ordered, turned};

use golog_known::UNKNOWN;
use golog_semantics::Mode;
use golog_tree::Truth;

/// Whether what is unknown holds in the mode.
pub fn unknown_holds(mode: Mode) -> bool
    ensures { result ≡ holds mode Unknown }
{
    match mode {
        Mode::Must => false,
        Mode::May | Mode::Near => true,
    }
}

/// Whether what has this truth holds.
pub fn truth_holds(truth: Truth, lenient: bool) -> bool
    ensures { result ≡ holds_by lenient truth }
{
    match truth {
        Truth::Yes => true,
        Truth::No => false,
        Truth::Unknown => lenient,
    }
}

/// Whether a fluent of this value is true.
pub fn is_true(value: u8, lenient: bool) -> bool
    ensures { result ≡ holds_by lenient (comparison_of nat_lt 0 value) }
{
    if value == UNKNOWN {
        lenient
    } else {
        value != 0
    }
}

/// Whether a fluent of this value is not true.
pub fn is_not_true(value: u8, lenient: bool) -> bool
    ensures { result ≡ holds_by lenient (not_of (comparison_of nat_lt 0 value)) }
{
    value == 0 || (value == UNKNOWN && lenient)
}

/// Whether the two values are equal.
pub fn is_equal(one: u8, other: u8, lenient: bool) -> bool
    ensures { result ≡ holds_by lenient (comparison_of (λ a b. a == b) one other) }
{
    if one == UNKNOWN || other == UNKNOWN {
        lenient
    } else {
        one == other
    }
}

/// Whether the two values differ.
pub fn is_other(one: u8, other: u8, lenient: bool) -> bool
    ensures { result ≡ holds_by lenient (not_of (comparison_of (λ a b. a == b) one other)) }
{
    if one == UNKNOWN || other == UNKNOWN {
        lenient
    } else {
        one != other
    }
}

/// Whether the one value is below the other, or is not.
pub fn is_below(one: u8, other: u8, negated: bool, lenient: bool) -> bool
    ensures { result ≡ holds_by lenient (turned negated (comparison_of nat_lt one other)) }
{
    if one == UNKNOWN || other == UNKNOWN {
        lenient
    } else if negated {
        !(one < other)
    } else {
        one < other
    }
}

/// Whether the one value is below the other, or above it, or is not.
pub fn is_ordered(one: u8, other: u8, above: bool, negated: bool, lenient: bool) -> bool
    ensures { result ≡ holds_by lenient (turned negated (ordered above one other)) }
{
    if above {
        is_below(other, one, negated, lenient)
    } else {
        is_below(one, other, negated, lenient)
    }
}
