// Terms and conditions whose fluents become what the causes of an action make of them.
ghost use Rattle.std.specs.Prelude.{◌≡◌, map, IfOk};
ghost use Rattle.golog_regress.specs.Causes.{chain as spec_chain};
ghost use Rattle.golog_regress.specs.Regressed.{is_true as spec_is_true, cond_back as spec_cond_back, term_back as spec_term_back};

use crate::causes::chain;
use crate::change::Change;
use golog_base::{Boxed, List, NoMemory};
use golog_tree::{
    Arg, Comparison, Cond, Term, all_cond, compared_terms, ite_term, shift_term, some_cond,
};
use std::alloc::Global;

/// The condition that a term of sort `bool` is true.
fn is_true(alloc: Global, term: Term) -> Result<Cond, NoMemory>
    ensures { IfOk result (λ c. c ≡ spec_is_true term) }
{
    match term {
        Term::Arg(Arg::Const(value)) => Ok(Cond::Truth(value > 0)),
        Term::Fluent { fluent, args } => Ok(Cond::Is { fluent, args }),
        term => {
            let is_false = Cond::Equal {
                sort: 0,
                one: term,
                other: Term::Arg(Arg::Const(0)),
            };
            Ok(Cond::Not(Boxed::new(alloc, is_false)?))
        }
    }
}

/// The condition that what the causes make of a fluent of sort `bool` is true.
fn fluent_back(
    alloc: Global,
    change: &Change<'_>,
    fluent: u32,
    args: &[Arg],
) -> Result<Cond, NoMemory>
    ensures { IfOk result (λ c. c ≡ spec_is_true
        (spec_chain change.now.agent.now change.now.happened.now change.now.causes.now fluent args.now)) }
{
    let term = chain(alloc, change, fluent, args)?;
    is_true(alloc, term)
}

#[cycle(cond_back)]
fn part_back(
    alloc: Global,
    change: &Change<'_>,
    part: &Boxed<Term>,
) -> Result<Boxed<Term>, NoMemory>
    ensures { IfOk result (λ t. t
        ≡ spec_term_back change.now.agent.now change.now.happened.now change.now.causes.now part.now) }
{
    Boxed::new(alloc, term_back(alloc, change, part.get())?)
}

#[cycle(cond_back)]
fn body_back(
    alloc: Global,
    change: &Change<'_>,
    body: &Boxed<Cond>,
) -> Result<Boxed<Cond>, NoMemory>
    ensures { IfOk result (λ c. c
        ≡ spec_cond_back change.now.agent.now change.now.happened.now change.now.causes.now body.now) }
{
    Boxed::new(alloc, cond_back(alloc, change, body.get())?)
}

/// The term, whose fluents become what the causes make of them.
#[cycle(cond_back)]
fn term_back(alloc: Global, change: &Change<'_>, term: &Term) -> Result<Term, NoMemory>
    ensures { IfOk result (λ t. t
        ≡ spec_term_back change.now.agent.now change.now.happened.now change.now.causes.now term.now) }
{
    match term {
        Term::Arg(arg) => Ok(Term::Arg(*arg)),
        Term::Fluent { fluent, args } => chain(alloc, change, *fluent, args.as_slice()),
        Term::Shift { sort, term, by } => shift_term(*sort, part_back(alloc, change, term), *by),
        Term::Ite { cond, yes, no } => {
            let (yes, no) = (part_back(alloc, change, yes), part_back(alloc, change, no));
            ite_term(body_back(alloc, change, cond), yes, no)
        }
    }
}

#[cycle(cond_back)]
fn conds_back(alloc: Global, change: &Change<'_>, conds: &[Cond]) -> Result<List<Cond>, NoMemory>
    ensures { IfOk result (λ list. list
        ≡ map (spec_cond_back change.now.agent.now change.now.happened.now change.now.causes.now) conds.now) }
{
    let mut list = List::new(alloc);
    for cond in conds {
        list.push(cond_back(alloc, change, cond)?)?;
    }
    Ok(list)
}

/// The condition, whose fluents become what the causes make of them. Its variables keep their numbers.
#[cycle(cond_back)]
pub(crate) fn cond_back(alloc: Global, change: &Change<'_>, cond: &Cond) -> Result<Cond, NoMemory>
    ensures { IfOk result (λ c. c
        ≡ spec_cond_back change.now.agent.now change.now.happened.now change.now.causes.now cond.now) }
{
    match cond {
        Cond::Truth(truth) => Ok(Cond::Truth(*truth)),
        Cond::Is { fluent, args } => fluent_back(alloc, change, *fluent, args.as_slice()),
        Cond::Equal { sort, one, other } => {
            let (one, other) = (
                term_back(alloc, change, one),
                term_back(alloc, change, other),
            );
            compared_terms(Comparison::Equal, *sort, one, other)
        }
        Cond::Less { sort, one, other } => {
            let (one, other) = (
                term_back(alloc, change, one),
                term_back(alloc, change, other),
            );
            compared_terms(Comparison::Less, *sort, one, other)
        }
        Cond::AtMost { sort, one, other } => {
            let (one, other) = (
                term_back(alloc, change, one),
                term_back(alloc, change, other),
            );
            compared_terms(Comparison::AtMost, *sort, one, other)
        }
        Cond::Not(body) => body_back(alloc, change, body).map(Cond::Not),
        Cond::And(conds) => Ok(Cond::And(conds_back(alloc, change, conds.as_slice())?)),
        Cond::Or(conds) => Ok(Cond::Or(conds_back(alloc, change, conds.as_slice())?)),
        Cond::ForSome { var, sort, body } => some_cond(*var, *sort, body_back(alloc, change, body)),
        Cond::ForAll { var, sort, body } => all_cond(*var, *sort, body_back(alloc, change, body)),
    }
}
