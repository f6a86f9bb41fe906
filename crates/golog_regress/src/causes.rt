// What the causes of an action make of a fluent at given arguments, as a term over the values
// before it.
ghost use Rattle.std.specs.Prelude.{◌≡◌, [], ◌++◌, IfOk, Some};
ghost use Rattle.golog_regress.specs.Causes.{matching as spec_matching, guarded as spec_guarded, is_plainly_true as spec_is_plainly_true, choice as spec_choice, layer as spec_layer, layered as spec_layered, sorts_of as spec_sorts_of, chain as spec_chain};
ghost use Rattle.golog_regress.specs.Images.{cond_image, term_image};

use crate::change::Change;
use crate::happened::Happened;
use crate::matching::{Matched, matching};
use crate::substitute::{cond_with, term_with};
use golog_base::{Boxed, List, NoMemory, both};
use golog_tree::{Agent, Arg, CauseItem, Cond, Term};
use std::alloc::Global;

/// The condition, where the tests hold.
fn guarded(tests: List<Cond>, cond: Cond) -> Result<Cond, NoMemory>
    ensures { IfOk result (λ c. c ≡ spec_guarded tests cond) }
{
    if tests.is_empty() {
        drop(tests);
        Ok(cond)
    } else {
        let mut tests = tests;
        tests.push(cond)?;
        Ok(Cond::And(tests))
    }
}

/// Whether the condition is `true` as it stands.
fn is_plainly_true(cond: &Cond) -> bool
    ensures { result ≡ spec_is_plainly_true cond.now }
{
    match cond {
        Cond::Truth(truth) => *truth,
        _ => false,
    }
}

/// The one term where the condition is true, the other where it is false.
fn choice(alloc: Global, cond: Cond, one: Term, other: Term) -> Result<Term, NoMemory>
    ensures { IfOk result (λ t. t ≡ spec_choice cond one other) }
{
    if is_plainly_true(&cond) {
        drop(cond);
        drop(other);
        Ok(one)
    } else {
        let parts = both(Boxed::new(alloc, one), Boxed::new(alloc, other));
        let (cond, (yes, no)) = both(Boxed::new(alloc, cond), parts)?;
        Ok(Term::Ite { cond, yes, no })
    }
}

/// The arguments in the head of a cause: those of the action, and then those of the fluent.
fn head_of(alloc: Global, cause: &CauseItem) -> Result<List<Arg>, NoMemory>
    ensures { IfOk result (λ head. head ≡ cause.now.action_args ++ cause.now.fluent_args) }
{
    let mut head = List::copy_of(alloc, cause.action_args.as_slice())?;
    head.extend(cause.fluent_args.as_slice())?;
    Ok(head)
}

/// The images and the tests under which the head of a cause is the given arguments: `None` exactly where it never is.
fn matched_head(
    alloc: Global,
    cause: &CauseItem,
    sorts: &[u32],
    given: &[Arg],
) -> Result<Option<Matched>, NoMemory>
    ensures { IfOk result (λ matched. matched
        ≡ spec_matching sorts.now (cause.now.action_args ++ cause.now.fluent_args) given.now [] []) }
{
    let head = head_of(alloc, cause)?;
    let (found, tests) = (List::new(alloc), List::new(alloc));
    let matched = matching(sorts, head.as_slice(), given, found, tests);
    drop(head);
    matched
}

/// The condition and the term of a cause, where its head is matched.
fn effect_of(alloc: Global, cause: &CauseItem, matched: Matched) -> Result<(Cond, Term), NoMemory>
    ensures { IfOk result (λ effect.
        (effect.0 ≡ spec_guarded matched.tests (cond_image cause.now.cond matched.found))
        × (effect.1 ≡ term_image cause.now.term matched.found)) }
{
    let Matched { found, tests } = matched;
    let images = found.as_slice();
    let parts = both(
        cond_with(alloc, &cause.cond, images),
        term_with(alloc, &cause.term, images),
    );
    drop(found);
    match parts {
        Ok((cond, term)) => both(guarded(tests, cond), Ok(term)),
        Err(refused) => {
            drop(tests);
            Err(refused)
        }
    }
}

/// What a cause makes of a fluent where its head is matched, and the causes after it make the later term of it.
fn layer_of(
    alloc: Global,
    cause: &CauseItem,
    matched: Matched,
    later: Term,
) -> Result<Term, NoMemory>
    ensures { IfOk result (λ t. t ≡ spec_layered cause.now (Some matched) later) }
{
    match effect_of(alloc, cause, matched) {
        Ok((cond, term)) => choice(alloc, cond, term, later),
        Err(refused) => {
            drop(later);
            Err(refused)
        }
    }
}

/// What a cause makes of a fluent at the given arguments, where the causes after it make the later term
/// of it.
fn layer(
    alloc: Global,
    cause: &CauseItem,
    sorts: &[u32],
    given: &[Arg],
    later: Term,
) -> Result<Term, NoMemory>
    ensures { IfOk result (λ t. t ≡ spec_layer cause.now sorts.now given.now later) }
{
    match matched_head(alloc, cause, sorts, given) {
        Ok(Some(matched)) => layer_of(alloc, cause, matched, later),
        Ok(None) => Ok(later),
        Err(refused) => {
            drop(later);
            Err(refused)
        }
    }
}

/// The sorts of the arguments of the action, and then of the fluent.
fn sorts_of(
    alloc: Global,
    agent: &Agent,
    happened: &Happened,
    fluent: u32,
) -> Result<List<u32>, NoMemory>
    ensures { IfOk result (λ sorts. sorts ≡ spec_sorts_of agent.now happened.now fluent) }
{
    let mut sorts = List::copy_of(alloc, happened.sorts.as_slice())?;
    match agent.fluents.as_slice().get(fluent as usize) {
        Some(item) => sorts.extend(item.args.as_slice())?,
        None => {}
    }
    Ok(sorts)
}

/// The arguments of the action, and then those of the fluent.
fn given_of(alloc: Global, happened: &Happened, args: &[Arg]) -> Result<List<Arg>, NoMemory>
    ensures { IfOk result (λ given. given ≡ happened.now.args ++ args.now) }
{
    let mut given = List::copy_of(alloc, happened.args.as_slice())?;
    given.extend(args)?;
    Ok(given)
}

/// What the causes make of a fluent at these arguments: a term over the situation before the action.
pub(crate) fn chain(
    alloc: Global,
    change: &Change<'_>,
    fluent: u32,
    args: &[Arg],
) -> Result<Term, NoMemory>
    ensures { IfOk result (λ t. t
        ≡ spec_chain change.now.agent.now change.now.happened.now change.now.causes.now fluent args.now) }
{
    let sorts = sorts_of(alloc, change.agent, change.happened, fluent)?;
    let given = given_of(alloc, change.happened, args)?;
    let mut term = Term::Fluent {
        fluent,
        args: List::copy_of(alloc, args)?,
    };
    for index in (0..change.causes.len()).rev() {
        let cause = &change.causes[index];
        if cause.action == change.happened.action && cause.fluent == fluent {
            term = layer(alloc, cause, sorts.as_slice(), given.as_slice(), term)?;
        }
    }
    Ok(term)
}
