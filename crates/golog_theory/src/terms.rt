// Terms, by recursion over forms.
ghost use Rattle.std.specs.Prelude.{◌≡◌, ◌≤ℤ◌, pos, IfOk};
ghost use Rattle.golog_theory.specs.Reading.{Answers};
ghost use Rattle.golog_theory.specs.Terms.{step_of, plus_of, minus_of, fluent_term, atom_term, term_list, term_of, term_parts};

use crate::fault::{NUMBER_RANGE, TheoryFault, UNKNOWN_FORM, refuse_where, unknown_form};
use crate::heads::{Called, fluent_called};
use crate::indexed::Indexed;
use crate::parts::{arg_of, split_list, word};
use golog_base::{Boxed, both, has_sign, is_number, value};
use golog_form::Form;
use golog_tree::{DraftTerm, Place};
use std::alloc::Global;

/// The number of a `+` or `-`, which is at least 0.
#[tactic(auto, unfolding(crate::specs::Terms::step_of))]
fn step_of(form: &Form) -> Result<i32, TheoryFault>
    ensures read { Answers result (step_of form.now) }
    ensures least { IfOk result (λ step. pos 0 ≤ℤ step) }
{
    let text = word(form);
    refuse_where(!is_number(text) || has_sign(text), UNKNOWN_FORM, form.at())?;
    value(text).ok_or(TheoryFault::Refused {
        code: NUMBER_RANGE,
        at: form.at(),
    })
}

/// A word or a number as a term.
#[tactic(auto, unfolding(crate::specs::Terms::atom_term))]
fn atom_term(form: &Form) -> Result<DraftTerm, TheoryFault>
    ensures { Answers result (atom_term form.now) }
{
    let arg = arg_of(form)?;
    Ok(DraftTerm::Arg(arg))
}

/// The term that a form spells: a word or a number, `(+ TERM NUMBER)`, `(- TERM NUMBER)` or `(FLUENT ARGS)`.
#[cycle(terms)]
#[tactic(auto, using(crate::proofs::Descent::laws))]
pub fn term_of(alloc: Global, theory: &Indexed<'_>, form: &Form) -> Result<DraftTerm, TheoryFault>
    ensures { Answers result (term_of theory.now form.now) }
{
    match split_list(form) {
        Some((head, parts)) => term_list(alloc, theory, form, word(head), parts),
        None => atom_term(form),
    }
}

#[cycle(terms)]
#[tactic(auto, using(crate::proofs::Descent::laws), unfolding(crate::specs::Terms::term_list))]
fn term_list(
    alloc: Global,
    theory: &Indexed<'_>,
    form: &Form,
    keyword: &[u8],
    parts: &[Form],
) -> Result<DraftTerm, TheoryFault>
    ensures { Answers result (term_list theory.now form.now keyword.now (term_parts theory.now parts.now)) }
{
    if keyword == b"+".as_slice() {
        plus_of(alloc, theory, form.at(), parts)
    } else if keyword == b"-".as_slice() {
        minus_of(alloc, theory, form.at(), parts)
    } else {
        fluent_term(alloc, theory, form)
    }
}

/// A term in memory of its own.
#[cycle(terms)]
#[tactic(auto, using(crate::proofs::Descent::laws))]
fn boxed_of(
    alloc: Global,
    theory: &Indexed<'_>,
    form: &Form,
) -> Result<Boxed<DraftTerm>, TheoryFault>
    ensures { Answers result (term_of theory.now form.now) }
{
    let term = term_of(alloc, theory, form)?;
    Ok(Boxed::new(alloc, term)?)
}

/// `(+ TERM NUMBER)`
#[cycle(terms)]
#[tactic(auto, using(crate::proofs::Descent::laws), unfolding(crate::specs::Terms::plus_of))]
fn plus_of(
    alloc: Global,
    theory: &Indexed<'_>,
    at: Place,
    parts: &[Form],
) -> Result<DraftTerm, TheoryFault>
    ensures { Answers result (plus_of at (term_parts theory.now parts.now)) }
{
    let [one, step] = parts else {
        return Err(unknown_form(at));
    };
    let (term, by) = both(boxed_of(alloc, theory, one), step_of(step))?;
    Ok(DraftTerm::Shift { term, by, at })
}

/// `(- TERM NUMBER)`
#[cycle(terms)]
#[tactic(auto, using(crate::proofs::Descent::laws), unfolding(crate::specs::Terms::minus_of))]
fn minus_of(
    alloc: Global,
    theory: &Indexed<'_>,
    at: Place,
    parts: &[Form],
) -> Result<DraftTerm, TheoryFault>
    ensures { Answers result (minus_of at (term_parts theory.now parts.now)) }
{
    let [one, step] = parts else {
        return Err(unknown_form(at));
    };
    let (term, by) = both(boxed_of(alloc, theory, one), step_of(step))?;
    Ok(DraftTerm::Shift { term, by: -by, at })
}

/// `(FLUENT ARGS)` as a term.
#[tactic(auto, unfolding(crate::specs::Terms::fluent_term))]
fn fluent_term(alloc: Global, theory: &Indexed<'_>, form: &Form) -> Result<DraftTerm, TheoryFault>
    ensures { Answers result (fluent_term theory.now form.now) }
{
    let Called { item, args } = fluent_called(alloc, theory, form)?;
    Ok(DraftTerm::Fluent {
        fluent: item,
        args,
        at: form.at(),
    })
}
