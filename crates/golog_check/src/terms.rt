// The terms of a draft: the sort that each shows, what it is in a scope, and the two sides of
// comparisons.
ghost use Rattle.std.specs.Prelude.{◌≡◌};
ghost use Rattle.golog_check.specs.Faults.{Answers};
ghost use Rattle.golog_check.specs.Terms.{term_place, term_sort, term_as, term_in, common, is_by_order, sides_in};

use crate::args::{arg_as, arg_place, arg_sort, args_in, is_other};
use crate::fault::{CheckFault, SORT_CLASH, refuse_where};
use crate::names::Names;
use crate::scope::Variable;
use golog_base::{Boxed, both};
use golog_tree::{DraftTerm, Place, Term};
use std::alloc::Global;

/// Where a term begins.
pub fn term_place(term: &DraftTerm) -> Place
    ensures { result ≡ term_place term.now }
{
    match term {
        DraftTerm::Arg(arg) => arg_place(arg),
        DraftTerm::Fluent { at, .. } | DraftTerm::Shift { at, .. } => *at,
    }
}

/// The sort that a term shows: that of the fluent, the variable or the listed constant that it holds.
pub fn term_sort(names: &Names<'_>, scope: &[Variable], term: &DraftTerm) -> Option<u32>
    ensures { result ≡ term_sort names.now scope.now term.now }
{
    match term {
        DraftTerm::Arg(arg) => arg_sort(names, scope, arg),
        DraftTerm::Fluent { fluent, .. } => names.fluent_sort(*fluent),
        DraftTerm::Shift { term, .. } => term_sort(names, scope, term.get()),
    }
}

/// A term that takes the sort: it shows this sort or none.
pub fn term_as(
    alloc: Global,
    names: &Names<'_>,
    scope: &[Variable],
    sort: u32,
    term: &DraftTerm,
) -> Result<Term, CheckFault>
    ensures { Answers result (term_as names.now scope.now term.now sort) }
{
    match term {
        DraftTerm::Arg(arg) => arg_as(names, scope, sort, arg).map(Term::Arg),
        DraftTerm::Fluent { fluent, args, .. } => {
            let sorts = names.fluent_sorts(*fluent);
            args_in(alloc, names, scope, sorts, args.as_slice()).map(|args| Term::Fluent {
                fluent: *fluent,
                args,
            })
        }
        DraftTerm::Shift { term, by, at } => {
            refuse_where(!names.is_range(sort), SORT_CLASH, *at)?;
            let term = term_as(alloc, names, scope, sort, term.get())?;
            Ok(Term::Shift {
                sort,
                term: Boxed::new(alloc, term)?,
                by: *by,
            })
        }
    }
}

/// A term in a place of the sort.
#[tactic(auto, unfolding(crate::specs::Terms::term_in))]
pub fn term_in(
    alloc: Global,
    names: &Names<'_>,
    scope: &[Variable],
    sort: u32,
    term: &DraftTerm,
) -> Result<Term, CheckFault>
    ensures { Answers result (term_in names.now scope.now sort term.now) }
{
    refuse_where(
        is_other(term_sort(names, scope, term), sort),
        SORT_CLASH,
        term_place(term),
    )?;
    term_as(alloc, names, scope, sort, term)
}

/// The two sides of a comparison, and their sort.
#[derive(Drop)]
pub struct Sides {
    pub sort: u32,
    pub one: Term,
    pub other: Term,
}

/// The sort that two terms show, where one does, and the other the same or none.
fn common(one: Option<u32>, other: Option<u32>) -> Option<u32>
    ensures { result ≡ common one other }
{
    match (one, other) {
        (None, other) => other,
        (one, None) => one,
        (Some(one), Some(other)) => { if one == other { Some(one) } else { None } }
    }
}

/// How the two sides of a comparison are compared: whether they are equal, or by the order of whole numbers.
#[derive(Clone, Copy)]
pub enum Comparison {
    Equal,
    Order,
}

impl Comparison {
    /// Whether it is by the order of whole numbers.
    fn is_by_order(self) -> bool
        ensures { result ≡ is_by_order self }
    {
        match self {
            Comparison::Equal => false,
            Comparison::Order => true,
        }
    }
}

/// The two sides of a comparison, which is of their sort. An order is one of whole numbers.
#[tactic(auto, unfolding(crate::specs::Terms::sides_in))]
pub fn sides_in(
    alloc: Global,
    names: &Names<'_>,
    scope: &[Variable],
    comparison: Comparison,
    one: &DraftTerm,
    other: &DraftTerm,
) -> Result<Sides, CheckFault>
    ensures { Answers result (sides_in names.now scope.now (is_by_order comparison) one.now other.now) }
{
    let at = term_place(one);
    let shown = common(term_sort(names, scope, one), term_sort(names, scope, other));
    let Some(sort) = shown else {
        return Err(CheckFault::Refused {
            code: SORT_CLASH,
            at,
        });
    };
    refuse_where(
        comparison.is_by_order() && !names.is_range(sort),
        SORT_CLASH,
        at,
    )?;
    let one = term_as(alloc, names, scope, sort, one);
    let (one, other) = both(one, term_as(alloc, names, scope, sort, other))?;
    Ok(Sides { sort, one, other })
}
