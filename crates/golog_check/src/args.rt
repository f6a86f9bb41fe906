// Words and numbers of a draft in the places of arguments: the sort that each shows, and what it
// is.
ghost use Rattle.std.specs.Prelude.{◌≡◌, option_map};
ghost use Rattle.golog_tree.specs.declared.cond.Arg.TheVariants.{Const};
ghost use Rattle.golog_draft.specs.DraftPlaces.{arg_place};
ghost use Rattle.golog_rows.specs.Reading.{found};
ghost use Rattle.golog_check.specs.declared.scope.Meant.{Meant};
ghost use Rattle.golog_check.specs.Codes.{SORT_CLASH, UNBOUND};
ghost use Rattle.golog_check.specs.Sorts.{number_in};
ghost use Rattle.golog_check.specs.Scope.{meaning};
ghost use Rattle.golog_check.specs.Faults.{Answers};
ghost use Rattle.golog_check.specs.Terms.{is_other, arg_sort, arg_as, arg_in, next_arg, args_in};

use crate::fault::{CheckFault, SORT_CLASH, UNBOUND, refuse_where};
use crate::names::Names;
use crate::scope::{Variable, meaning};
use golog_base::List;
use golog_tree::{Arg, DraftArg, Place};
use std::alloc::Global;

/// Where a word or a number stands.
pub fn arg_place(arg: &DraftArg) -> Place
    ensures { result ≡ arg_place arg.now }
{
    match arg {
        DraftArg::Word { at, .. } | DraftArg::Number { at, .. } => *at,
    }
}

/// Whether a sort is shown, and it is another.
pub fn is_other(own: Option<u32>, sort: u32) -> bool
    ensures { result ≡ is_other own sort }
{
    match own {
        Some(own) => own != sort,
        None => false,
    }
}

/// The sort that an argument shows: that of a variable or a listed constant.
pub fn arg_sort(names: &Names<'_>, scope: &[Variable], arg: &DraftArg) -> Option<u32>
    ensures { result ≡ arg_sort names.now scope.now arg.now }
{
    match arg {
        DraftArg::Word { word, at } => match meaning(names, scope, word.as_bytes(), *at) {
            Some(meant) => Some(meant.sort),
            None => None,
        },
        DraftArg::Number { .. } => None,
    }
}

fn word_as(names: &Names<'_>, scope: &[Variable], word: &[u8], at: Place) -> Result<Arg, CheckFault>
    ensures { Answers result (found UNBOUND at (option_map (λ (meant : Meant). meant.arg) (meaning names.now scope.now word.now at))) }
{
    match meaning(names, scope, word, at) {
        Some(meant) => Ok(meant.arg),
        None => Err(CheckFault::Refused { code: UNBOUND, at }),
    }
}

fn number_as(names: &Names<'_>, sort: u32, number: i32, at: Place) -> Result<Arg, CheckFault>
    ensures { Answers result (found SORT_CLASH at (option_map Const (number_in names.now sort number))) }
{
    match names.number_in(sort, number) {
        Some(place) => Ok(Arg::Const(place)),
        None => Err(CheckFault::Refused {
            code: SORT_CLASH,
            at,
        }),
    }
}

/// A word or a number, which takes the sort.
pub fn arg_as(
    names: &Names<'_>,
    scope: &[Variable],
    sort: u32,
    arg: &DraftArg,
) -> Result<Arg, CheckFault>
    ensures { Answers result (arg_as names.now scope.now sort arg.now) }
{
    match arg {
        DraftArg::Word { word, at } => word_as(names, scope, word.as_bytes(), *at),
        DraftArg::Number { number, at } => number_as(names, sort, *number, *at),
    }
}

/// An argument in a place of the sort.
#[tactic(auto, unfolding(crate::specs::Terms::arg_in))]
pub fn arg_in(
    names: &Names<'_>,
    scope: &[Variable],
    sort: u32,
    arg: &DraftArg,
) -> Result<Arg, CheckFault>
    ensures { Answers result (arg_in names.now scope.now sort arg.now) }
{
    refuse_where(
        is_other(arg_sort(names, scope, arg), sort),
        SORT_CLASH,
        arg_place(arg),
    )?;
    arg_as(names, scope, sort, arg)
}

/// The argument behind so many others, which is in the place of the next sort.
#[tactic(auto, unfolding(crate::specs::Terms::next_arg))]
fn next_arg(
    names: &Names<'_>,
    scope: &[Variable],
    sorts: &[u32],
    before: &[Arg],
    arg: &DraftArg,
) -> Result<Arg, CheckFault>
    ensures { Answers result (next_arg names.now scope.now sorts.now before.now arg.now) }
{
    match sorts.get(before.len()) {
        Some(sort) => arg_in(names, scope, *sort, arg),
        None => Err(CheckFault::Refused {
            code: SORT_CLASH,
            at: arg_place(arg),
        }),
    }
}

/// The arguments in places of these sorts.
#[tactic(auto, using(crate::proofs::Each::laws))]
pub fn args_in(
    alloc: Global,
    names: &Names<'_>,
    scope: &[Variable],
    sorts: &[u32],
    args: &[DraftArg],
) -> Result<List<Arg>, CheckFault>
    ensures { Answers result (args_in names.now scope.now sorts.now args.now) }
{
    let mut list = List::new(alloc);
    for arg in args {
        let next = next_arg(names, scope, sorts, list.as_slice(), arg)?;
        list.push(next)?;
    }
    Ok(list)
}
