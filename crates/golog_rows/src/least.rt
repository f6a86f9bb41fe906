// `Refusal`, and the lesser of refusals that are gathered one after another.
ghost use Rattle.std.specs.Prelude.{◌≡◌, ◌++◌, ◌∷◌, [], List, Some, IsTrue, IsFalse};
ghost use Rattle.golog_rows.specs.Order.{IsNoLater};
ghost use Rattle.golog_rows.specs.Least.{CodeAt, IsLeastOf};

/// A refusal: its code and its place.
#[derive(Clone, Copy, Debug)]
pub struct Refusal {
    pub code: u8,
    pub at: u32,
}

/// Whether the place of the first is less, or the same and its code at most that of the other.
fn is_no_later(one: Refusal, other: Refusal) -> bool
    ensures yes { IsTrue result → IsNoLater one.code one.at other.code other.at }
    ensures no { IsFalse result → IsNoLater other.code other.at one.code one.at }
{
    one.at < other.at || (one.at == other.at && one.code <= other.code)
}

/// The lesser of the least of some refusals and one more.
pub fn lesser(least: Option<Refusal>, other: Refusal) -> Option<Refusal>
    ensures { (before : List CodeAt) → IsLeastOf least before
        → IsLeastOf result (before ++ (other.code, other.at) ∷ []) }
{
    match least {
        Some(refusal) if is_no_later(refusal, other) => Some(refusal),
        _ => Some(other),
    }
}

/// The lesser of the least of some refusals and the least of others.
pub fn least_of(one: Option<Refusal>, other: Option<Refusal>) -> Option<Refusal>
    ensures { (before after : List CodeAt) → IsLeastOf one before → IsLeastOf other after
        → IsLeastOf result (before ++ after) }
{
    match (one, other) {
        (Some(one), Some(other)) if is_no_later(one, other) => Some(one),
        (one, None) => one,
        (_, other) => other,
    }
}
