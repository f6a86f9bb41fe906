// The strong Kleene tables, and the comparisons of values that may be unknown.
ghost use Rattle.std.specs.Prelude.{◌≡◌, ◌==◌, ◌&&◌, nat_lt, nat_le};
ghost use Rattle.golog_semantics.specs.Truth.{truth as truth_of_bool, both as both_of, either as either_of, not_of, is_known, chosen as chosen_of, comparison_of};

use golog_tree::Truth;

/// The value of a fluent or a term of which no value is known.
pub const UNKNOWN: u8 = 255;

/// What is plainly true or false.
pub fn truth(plain: bool) -> Truth
    ensures { result ≡ truth_of_bool plain }
{
    if plain { Truth::Yes } else { Truth::No }
}

/// True of what is false, false of what is true, and else unknown.
pub fn negation(truth: Truth) -> Truth
    ensures { result ≡ not_of truth }
{
    match truth {
        Truth::Yes => Truth::No,
        Truth::No => Truth::Yes,
        Truth::Unknown => Truth::Unknown,
    }
}

/// False where one of the two is, true where both are, and else unknown.
pub fn both(one: Truth, other: Truth) -> Truth
    ensures { result ≡ both_of one other }
{
    match (one, other) {
        (Truth::No, _) | (_, Truth::No) => Truth::No,
        (Truth::Yes, Truth::Yes) => Truth::Yes,
        _ => Truth::Unknown,
    }
}

/// True where one of the two is, false where both are, and else unknown.
pub fn either(one: Truth, other: Truth) -> Truth
    ensures { result ≡ either_of one other }
{
    match (one, other) {
        (Truth::Yes, _) | (_, Truth::Yes) => Truth::Yes,
        (Truth::No, Truth::No) => Truth::No,
        _ => Truth::Unknown,
    }
}

/// The one value where it is true, the other where it is false; where it is unknown, the constant that
/// both are, else unknown.
pub fn chosen(truth: Truth, one: u8, other: u8) -> u8
    ensures { result ≡ chosen_of truth one other }
{
    match truth {
        Truth::Yes => one,
        Truth::No => other,
        Truth::Unknown if one == other => one,
        Truth::Unknown => UNKNOWN,
    }
}

/// Whether both values are known.
fn are_known(one: u8, other: u8) -> bool
    ensures { result ≡ (is_known one && is_known other) }
{
    one != UNKNOWN && other != UNKNOWN
}

/// Whether the values are equal: unknown where one of them is.
pub fn equal(one: u8, other: u8) -> Truth
    ensures { result ≡ comparison_of (λ a b. a == b) one other }
{
    if are_known(one, other) {
        truth(one == other)
    } else {
        Truth::Unknown
    }
}

/// Whether the one value is below the other: unknown where one of them is.
pub fn less(one: u8, other: u8) -> Truth
    ensures { result ≡ comparison_of nat_lt one other }
{
    if are_known(one, other) {
        truth(one < other)
    } else {
        Truth::Unknown
    }
}

/// Whether the one value is at most the other: unknown where one of them is.
pub fn at_most(one: u8, other: u8) -> Truth
    ensures { result ≡ comparison_of nat_le one other }
{
    if are_known(one, other) {
        truth(one <= other)
    } else {
        Truth::Unknown
    }
}
