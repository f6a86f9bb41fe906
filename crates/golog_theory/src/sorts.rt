// The item `sort`.
ghost use Rattle.std.specs.Prelude.{◌≡◌, [], ◌∷◌};
ghost use Rattle.golog_theory.specs.Reading.{Answers, each};
ghost use Rattle.golog_theory.specs.Sorts.{bound, is_above, is_too_wide, range_of, is_taken_beside, constant_of, listed_of, sort_item};

use crate::fault::{
    COUNT, DUPLICATE, NUMBER_RANGE, TheoryFault, UNKNOWN_FORM, refuse_where, unknown_form,
};
use crate::indexed::Indexed;
use crate::limits::{CONSTANTS, SORTS};
use crate::names::is_among;
use crate::parts::{new_name, number_of, short_name, word};
use golog_base::{List, Word, is_name, is_number, value};
use golog_form::Form;
use golog_tree::{DraftSort, Place};
use std::alloc::Global;

/// The number that the form spells, where it spells one.
fn bound(form: &Form) -> Option<i32>
    ensures { result ≡ bound form.now }
{
    if is_number(word(form)) {
        value(word(form))
    } else {
        None
    }
}

fn is_above(low: Option<i32>, high: Option<i32>) -> bool
    ensures { result ≡ is_above low high }
{
    match (low, high) {
        (Some(low), Some(high)) => high < low,
        _ => false,
    }
}

/// Whether there are more numbers from the first to the second than a sort has constants.
fn is_too_wide(low: Option<i32>, high: Option<i32>) -> bool
    ensures { result ≡ is_too_wide low high }
{
    match (low, high) {
        (Some(low), Some(high)) => i64::from(high) >= i64::from(low) + CONSTANTS as i64,
        _ => false,
    }
}

/// `(sort NAME LOW HIGH)`
#[tactic(auto, unfolding(crate::specs::Sorts::range_of))]
fn range_of(
    theory: &Indexed<'_>,
    at: Place,
    name: &Form,
    low: &Form,
    high: &Form,
) -> Result<DraftSort, TheoryFault>
    ensures { Answers result (range_of theory.now at name.now low.now high.now) }
{
    let lowest = bound(low);
    let highest = bound(high);
    refuse_where(
        theory.sorts().len() >= SORTS || is_too_wide(lowest, highest),
        COUNT,
        at,
    )?;
    refuse_where(is_above(lowest, highest), NUMBER_RANGE, at)?;
    let name = new_name(theory, name)?;
    let low = number_of(low)?;
    let high = number_of(high)?;
    Ok(DraftSort::Range {
        name,
        low,
        high,
        at,
    })
}

/// Whether the name is taken, or is that of the sort itself or of an earlier constant in its list.
#[tactic(auto, unfolding(crate::specs::Sorts::is_taken_beside))]
fn is_taken_beside(theory: &Indexed<'_>, own: &[u8], before: &[Word], name: &[u8]) -> bool
    ensures { result ≡ is_taken_beside theory.now own.now before.now name.now }
{
    theory.is_taken(name) || name == own || is_among(name, before)
}

/// A constant of a listed sort, behind the sort's own name and the constants before it.
#[tactic(auto, unfolding(crate::specs::Sorts::constant_of))]
fn constant_of(
    theory: &Indexed<'_>,
    own: &[u8],
    before: &[Word],
    form: &Form,
) -> Result<Word, TheoryFault>
    ensures { Answers result (constant_of theory.now own.now before.now form.now) }
{
    let name = word(form);
    refuse_where(!is_name(name), UNKNOWN_FORM, form.at())?;
    refuse_where(
        is_taken_beside(theory, own, before, name),
        DUPLICATE,
        form.at(),
    )?;
    short_name(form)
}

#[tactic(auto, using(crate::proofs::Each::laws))]
fn constants_of(
    alloc: Global,
    theory: &Indexed<'_>,
    own: &[u8],
    forms: &[Form],
) -> Result<List<Word>, TheoryFault>
    ensures { Answers result (each (constant_of theory.now own.now) [] forms.now) }
{
    let mut names = List::new(alloc);
    for form in forms {
        let name = constant_of(theory, own, names.as_slice(), form)?;
        names.push(name)?;
    }
    Ok(names)
}

/// `(sort NAME C1 C2)`
#[tactic(auto, unfolding(crate::specs::Sorts::listed_of))]
fn listed_of(
    alloc: Global,
    theory: &Indexed<'_>,
    at: Place,
    name: &Form,
    constants: &[Form],
) -> Result<DraftSort, TheoryFault>
    ensures { Answers result (listed_of theory.now at name.now constants.now) }
{
    refuse_where(
        theory.sorts().len() >= SORTS || constants.len() > CONSTANTS,
        COUNT,
        at,
    )?;
    let name = new_name(theory, name)?;
    let constants = constants_of(alloc, theory, name.as_bytes(), constants)?;
    Ok(DraftSort::Listed {
        name,
        constants,
        at,
    })
}

/// A `sort` item: a range where a number stands behind the name, and a list of constants else.
#[tactic(auto, unfolding(crate::specs::Sorts::sort_item))]
pub fn sort_item(
    alloc: Global,
    theory: &Indexed<'_>,
    at: Place,
    parts: &[Form],
) -> Result<DraftSort, TheoryFault>
    ensures { Answers result (sort_item theory.now at parts.now) }
{
    match parts {
        [name, low, high] if is_number(word(low)) => range_of(theory, at, name, low, high),
        [_, low, ..] if is_number(word(low)) => Err(unknown_form(at)),
        [name, constants @ ..] if !constants.is_empty() => {
            listed_of(alloc, theory, at, name, constants)
        }
        _ => Err(unknown_form(at)),
    }
}
