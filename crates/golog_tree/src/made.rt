//! Terms and conditions made of parts, where there was memory for each part.
ghost use Rattle.std.specs.Prelude.{◌≡◌, IfOk};
ghost use Rattle.golog_tree.specs.Made.{IsMade, IsMadeOfTwo, IsMadeOfThree, compared as spec_compared};

use crate::cond::{Arg, Cond, Term};
use golog_base::{Boxed, List, NoMemory, both};

/// What compares two terms.
#[derive(Clone, Copy)]
pub enum Comparison {
    Equal,
    Less,
    AtMost,
}

/// The value of the fluent at the arguments.
pub fn fluent_term(fluent: u32, args: Result<List<Arg>, NoMemory>) -> Result<Term, NoMemory>
    ensures { IfOk result (IsMade (Term.Fluent fluent) args) }
{
    let args = args?;
    Ok(Term::Fluent { fluent, args })
}

/// The term plus the number.
pub fn shift_term(sort: u32, term: Result<Boxed<Term>, NoMemory>, by: i32) -> Result<Term, NoMemory>
    ensures { IfOk result (IsMade (λ t. Term.Shift sort t by) term) }
{
    let term = term?;
    Ok(Term::Shift { sort, term, by })
}

/// One term where the condition holds, and another where it doesn't.
pub fn ite_term(
    cond: Result<Boxed<Cond>, NoMemory>,
    yes: Result<Boxed<Term>, NoMemory>,
    no: Result<Boxed<Term>, NoMemory>,
) -> Result<Term, NoMemory>
    ensures { IfOk result (IsMadeOfThree Term.Ite cond yes no) }
{
    let (cond, (yes, no)) = both(cond, both(yes, no))?;
    Ok(Term::Ite { cond, yes, no })
}

/// The fluent into `bool` at the arguments.
pub fn fluent_cond(fluent: u32, args: Result<List<Arg>, NoMemory>) -> Result<Cond, NoMemory>
    ensures { IfOk result (IsMade (Cond.Is fluent) args) }
{
    let args = args?;
    Ok(Cond::Is { fluent, args })
}

fn compared(comparison: Comparison, sort: u32, one: Term, other: Term) -> Cond
    ensures { result ≡ spec_compared comparison sort one other }
{
    match comparison {
        Comparison::Equal => Cond::Equal { sort, one, other },
        Comparison::Less => Cond::Less { sort, one, other },
        Comparison::AtMost => Cond::AtMost { sort, one, other },
    }
}

/// The comparison of both terms.
pub fn compared_terms(
    comparison: Comparison,
    sort: u32,
    one: Result<Term, NoMemory>,
    other: Result<Term, NoMemory>,
) -> Result<Cond, NoMemory>
    ensures { IfOk result (IsMadeOfTwo (spec_compared comparison sort) one other) }
{
    let (one, other) = both(one, other)?;
    Ok(compared(comparison, sort, one, other))
}

/// Some value of the sort has the body hold.
pub fn some_cond(var: u8, sort: u32, body: Result<Boxed<Cond>, NoMemory>) -> Result<Cond, NoMemory>
    ensures { IfOk result (IsMade (Cond.ForSome var sort) body) }
{
    let body = body?;
    Ok(Cond::ForSome { var, sort, body })
}

/// Each value of the sort has the body hold.
pub fn all_cond(var: u8, sort: u32, body: Result<Boxed<Cond>, NoMemory>) -> Result<Cond, NoMemory>
    ensures { IfOk result (IsMade (Cond.ForAll var sort) body) }
{
    let body = body?;
    Ok(Cond::ForAll { var, sort, body })
}
