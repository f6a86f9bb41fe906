// Conditions, by recursion over forms.
ghost use Rattle.std.specs.Prelude.{◌≡◌};
ghost use Rattle.golog_theory.specs.Reading.{Answers};
ghost use Rattle.golog_theory.specs.Conditions.{truth_of, fluent_cond, sides_of, not_of, conds_of, binder_of, bound_of, keyword_cond, cond_of, cond_parts};

use crate::fault::{COUNT, TheoryFault, UNKNOWN_FORM, refuse_where, unknown_form};
use crate::heads::{Called, fluent_called};
use crate::indexed::Indexed;
use crate::keyword::{CondKeyword, cond_keyword};
use crate::limits::VARIABLES;
use crate::parts::{parts, short_name, sort_of, split_list, word};
use crate::terms::term_of;
use golog_base::{Boxed, List, Word, both, is_name};
use golog_form::Form;
use golog_tree::{DraftCond, DraftTerm, Place};
use std::alloc::Global;

/// `true` or `false`
#[tactic(auto, unfolding(crate::specs::Conditions::truth_of))]
fn truth_of(form: &Form) -> Result<DraftCond, TheoryFault>
    ensures { Answers result (truth_of form.now) }
{
    let at = form.at();
    if word(form) == b"true".as_slice() {
        Ok(DraftCond::Truth { truth: true, at })
    } else if word(form) == b"false".as_slice() {
        Ok(DraftCond::Truth { truth: false, at })
    } else {
        Err(unknown_form(at))
    }
}

/// `(FLUENT ARGS)` as a condition.
#[tactic(auto, unfolding(crate::specs::Conditions::fluent_cond))]
fn fluent_cond(alloc: Global, theory: &Indexed<'_>, form: &Form) -> Result<DraftCond, TheoryFault>
    ensures { Answers result (fluent_cond theory.now form.now) }
{
    let Called { item, args } = fluent_called(alloc, theory, form)?;
    Ok(DraftCond::Is {
        fluent: item,
        args,
        at: form.at(),
    })
}

/// The two sides of a comparison.
#[derive(Drop)]
pub struct Sides {
    pub one: DraftTerm,
    pub other: DraftTerm,
}

#[tactic(auto, unfolding(crate::specs::Conditions::sides_of))]
fn sides_of(
    alloc: Global,
    theory: &Indexed<'_>,
    at: Place,
    parts: &[Form],
) -> Result<Sides, TheoryFault>
    ensures { Answers result (sides_of theory.now at (cond_parts theory.now parts.now)) }
{
    let [one, other] = parts else {
        return Err(unknown_form(at));
    };
    let (one, other) = both(term_of(alloc, theory, one), term_of(alloc, theory, other))?;
    Ok(Sides { one, other })
}

/// The variable and the sort of a binder.
#[derive(Drop)]
pub struct Binder {
    pub var: Word,
    pub sort: u32,
}

/// `(VAR SORT)`
#[tactic(auto, unfolding(crate::specs::Conditions::binder_of))]
pub fn binder_of(theory: &Indexed<'_>, form: &Form) -> Result<Binder, TheoryFault>
    ensures { Answers result (binder_of theory.now form.now) }
{
    let [var, sort] = parts(form) else {
        return Err(unknown_form(form.at()));
    };
    refuse_where(!is_name(word(var)), UNKNOWN_FORM, var.at())?;
    let var = short_name(var)?;
    let sort = sort_of(theory, sort)?;
    Ok(Binder { var, sort })
}

/// The condition that a form spells within so many variables.
#[cycle(conditions)]
#[tactic(auto, using(crate::proofs::Conds::laws))]
pub fn cond_of(
    alloc: Global,
    theory: &Indexed<'_>,
    form: &Form,
    scope: usize,
) -> Result<DraftCond, TheoryFault>
    ensures { Answers result (cond_of theory.now form.now scope) }
{
    let Some((head, parts)) = split_list(form) else {
        return truth_of(form);
    };
    match cond_keyword(word(head)) {
        Some(keyword) => keyword_cond(alloc, theory, form.at(), scope, keyword, parts),
        None => fluent_cond(alloc, theory, form),
    }
}

/// The condition of a list that begins with the keyword: `(= TERM TERM)`, `(not COND)`, `(and CONDS)`,
/// `(some (VAR SORT) COND)` and their like.
#[cycle(conditions)]
#[tactic(auto, using(crate::proofs::Conds::laws), unfolding(crate::specs::Conditions::keyword_cond, crate::specs::Conditions::equal_of, crate::specs::Conditions::less_of, crate::specs::Conditions::at_most_of, crate::specs::Conditions::and_of, crate::specs::Conditions::or_of, crate::specs::Conditions::some_of, crate::specs::Conditions::all_of))]
fn keyword_cond(
    alloc: Global,
    theory: &Indexed<'_>,
    at: Place,
    scope: usize,
    keyword: CondKeyword,
    parts: &[Form],
) -> Result<DraftCond, TheoryFault>
    ensures { Answers result
        (keyword_cond theory.now at scope keyword (cond_parts theory.now parts.now)) }
{
    match keyword {
        CondKeyword::Equal => sides_of(alloc, theory, at, parts).map(|sides| DraftCond::Equal {
            one: sides.one,
            other: sides.other,
            at,
        }),
        CondKeyword::Less => sides_of(alloc, theory, at, parts).map(|sides| DraftCond::Less {
            one: sides.one,
            other: sides.other,
            at,
        }),
        CondKeyword::AtMost => sides_of(alloc, theory, at, parts).map(|sides| DraftCond::AtMost {
            one: sides.one,
            other: sides.other,
            at,
        }),
        CondKeyword::Not => not_of(alloc, theory, scope, at, parts),
        CondKeyword::And => {
            conds_of(alloc, theory, scope, parts).map(|conds| DraftCond::And { conds, at })
        }
        CondKeyword::Or => {
            conds_of(alloc, theory, scope, parts).map(|conds| DraftCond::Or { conds, at })
        }
        CondKeyword::ForSome => {
            let Bound { binder, body } = bound_of(alloc, theory, scope, at, parts)?;
            Ok(DraftCond::ForSome {
                var: binder.var,
                sort: binder.sort,
                body,
                at,
            })
        }
        CondKeyword::ForAll => {
            let Bound { binder, body } = bound_of(alloc, theory, scope, at, parts)?;
            Ok(DraftCond::ForAll {
                var: binder.var,
                sort: binder.sort,
                body,
                at,
            })
        }
    }
}

/// `(not COND)`
#[cycle(conditions)]
#[tactic(auto, using(crate::proofs::Conds::laws), unfolding(crate::specs::Conditions::not_of))]
fn not_of(
    alloc: Global,
    theory: &Indexed<'_>,
    scope: usize,
    at: Place,
    parts: &[Form],
) -> Result<DraftCond, TheoryFault>
    ensures { Answers result (not_of scope at (cond_parts theory.now parts.now)) }
{
    let [part] = parts else {
        return Err(unknown_form(at));
    };
    let cond = boxed_of(alloc, theory, part, scope)?;
    Ok(DraftCond::Not { cond, at })
}

/// A condition in memory of its own.
#[cycle(conditions)]
#[tactic(auto, using(crate::proofs::Conds::laws))]
fn boxed_of(
    alloc: Global,
    theory: &Indexed<'_>,
    form: &Form,
    scope: usize,
) -> Result<Boxed<DraftCond>, TheoryFault>
    ensures { Answers result (cond_of theory.now form.now scope) }
{
    let cond = cond_of(alloc, theory, form, scope)?;
    Ok(Boxed::new(alloc, cond)?)
}

#[cycle(conditions)]
#[tactic(auto, using(crate::proofs::Conds::laws), unfolding(crate::specs::Conditions::conds_of))]
fn conds_of(
    alloc: Global,
    theory: &Indexed<'_>,
    scope: usize,
    forms: &[Form],
) -> Result<List<DraftCond>, TheoryFault>
    ensures { Answers result (conds_of scope (cond_parts theory.now forms.now)) }
{
    let mut conds = List::new(alloc);
    for form in forms {
        conds.push(cond_of(alloc, theory, form, scope)?)?;
    }
    Ok(conds)
}

/// A variable with its sort, and the condition in which it stands.
#[derive(Drop)]
pub struct Bound {
    pub binder: Binder,
    pub body: Boxed<DraftCond>,
}

/// `(VAR SORT)` and a COND, where the variable is not one too many.
#[cycle(conditions)]
#[tactic(auto, using(crate::proofs::Conds::laws), unfolding(crate::specs::Conditions::bound_of))]
fn bound_of(
    alloc: Global,
    theory: &Indexed<'_>,
    scope: usize,
    at: Place,
    parts: &[Form],
) -> Result<Bound, TheoryFault>
    ensures { Answers result (bound_of theory.now scope at (cond_parts theory.now parts.now)) }
{
    let [binder, body] = parts else {
        return Err(unknown_form(at));
    };
    refuse_where(scope >= VARIABLES, COUNT, at)?;
    let binder = binder_of(theory, binder)?;
    let body = boxed_of(alloc, theory, body, scope + 1)?;
    Ok(Bound { binder, body })
}
