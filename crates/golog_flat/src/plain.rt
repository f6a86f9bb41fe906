//! Causes that give a fluent a constant, or the value of a variable of their head, under no condition.
ghost use Rattle.std.specs.Prelude.{◌≡◌};
ghost use Rattle.golog_flat.specs.Effects.{are_plain as causes_are_plain, is_always as cond_is_always, is_argument as term_is_argument, is_plain as cause_is_plain, is_plain_for as cause_is_plain_for};

use golog_tree::{CauseItem, Cond, Term};

/// Whether the condition is `true` as it stands.
fn is_always(cond: &Cond) -> bool
    ensures { result ≡ cond_is_always cond.now }
{
    match cond {
        Cond::Truth(plain) => *plain,
        _ => false,
    }
}

/// Whether the term is a constant or a variable.
fn is_argument(term: &Term) -> bool
    ensures { result ≡ term_is_argument term.now }
{
    match term {
        Term::Arg(_) => true,
        _ => false,
    }
}

/// Whether the cause has no condition, and a constant or a variable as its term.
fn is_plain(cause: &CauseItem) -> bool
    ensures { result ≡ cause_is_plain cause.now }
{
    is_always(&cause.cond) && is_argument(&cause.term)
}

/// Whether the cause is such a one, or of another action.
fn is_plain_for(cause: &CauseItem, action: u32) -> bool
    ensures { result ≡ cause_is_plain_for action cause.now }
{
    cause.action != action || is_plain(cause)
}

/// Whether all causes of the action are such.
pub fn are_plain(causes: &[CauseItem], action: u32) -> bool
    ensures { result ≡ causes_are_plain causes.now action }
{
    for cause in causes {
        if !is_plain_for(cause, action) {
            return false;
        }
    }
    true
}
