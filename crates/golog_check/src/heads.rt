// The variables that heads bind: the words of a `poss` or `senses` head, and the arguments of an
// effect.
ghost use Rattle.std.specs.Prelude.{◌≡◌, [], ◌∷◌, ◌++◌, IfOk};
ghost use Rattle.golog_check.specs.Faults.{Answers};
ghost use Rattle.golog_check.specs.Scope.{scope_on as spec_scope_on, scope_of_vars};
ghost use Rattle.golog_check.specs.Heads.{binds as spec_binds, binding, head_after as spec_head_after, head_from as spec_head_from};

use crate::args::arg_in;
use crate::fault::CheckFault;
use crate::names::Names;
use crate::scope::{Variable, meaning, variable_no, within};
use golog_base::{List, NoMemory, Word, both};
use golog_tree::{Arg, DraftArg};
use std::alloc::Global;

/// The arguments of an effect so far, and the variables that they bind, the last of them first.
#[derive(Drop)]
pub struct Head {
    pub args: List<Arg>,
    pub scope: List<Variable>,
}

fn scope_on(
    alloc: Global,
    outer: List<Variable>,
    sorts: &[u32],
    words: &[Word],
) -> Result<List<Variable>, NoMemory>
    ensures { IfOk result (λ scope. scope ≡ spec_scope_on outer sorts.now words.now) }
{
    match (sorts.split_first(), words.split_first()) {
        (Some((sort, sorts)), Some((word, words))) => {
            let scope = within(alloc, *word, *sort, outer.as_slice());
            drop(outer);
            scope_on(alloc, scope?, sorts, words)
        }
        _ => Ok(outer),
    }
}

/// The words of a head in scope, each with its sort. The last stands first.
pub fn scope_of(alloc: Global, words: &[Word], sorts: &[u32]) -> Result<List<Variable>, NoMemory>
    ensures { IfOk result (λ scope. scope ≡ scope_of_vars words.now sorts.now) }
{
    scope_on(alloc, List::new(alloc), sorts, words)
}

/// Whether the argument binds a variable: it is a word that means nothing there.
fn binds(names: &Names<'_>, scope: &[Variable], arg: &DraftArg) -> bool
    ensures { result ≡ spec_binds names.now scope.now arg.now }
{
    match arg {
        DraftArg::Word { word, at } => meaning(names, scope, word.as_bytes(), *at).is_none(),
        DraftArg::Number { .. } => false,
    }
}

/// The head with one more argument.
fn with_arg(head: Head, arg: Arg) -> Result<Head, NoMemory>
    ensures { IfOk result (λ after. after ≡ record head { args = head.args ++ arg ∷ [] }) }
{
    let mut head = head;
    match head.args.push(arg) {
        Ok(()) => Ok(head),
        Err(NoMemory) => {
            drop(head);
            Err(NoMemory)
        }
    }
}

/// The head with one more variable, of the sort of the place.
fn bind(alloc: Global, head: Head, sort: u32, arg: &DraftArg) -> Result<Head, NoMemory>
    ensures { IfOk result (λ after. after ≡ binding head sort arg.now) }
{
    match arg {
        DraftArg::Word { word, .. } => {
            let number = variable_no(head.scope.as_slice());
            let scope = within(alloc, *word, sort, head.scope.as_slice());
            let (head, scope) = both(with_arg(head, Arg::Var(number)), scope)?;
            let Head { args, scope: outer } = head;
            drop(outer);
            Ok(Head { args, scope })
        }
        DraftArg::Number { .. } => Ok(head),
    }
}

/// The head with one more argument, in a place of the sort.
#[tactic(auto, unfolding(crate::specs::Heads::head_after))]
fn head_after(
    alloc: Global,
    names: &Names<'_>,
    head: Head,
    sort: u32,
    arg: &DraftArg,
) -> Result<Head, CheckFault>
    ensures { Answers result (spec_head_after names.now head sort arg.now) }
{
    if binds(names, head.scope.as_slice(), arg) {
        return Ok(bind(alloc, head, sort, arg)?);
    }
    match arg_in(names, head.scope.as_slice(), sort, arg) {
        Ok(arg) => Ok(with_arg(head, arg)?),
        Err(fault) => {
            drop(head);
            Err(fault)
        }
    }
}

/// The head with more arguments, in places of these sorts. A word that is no constant is a variable, which
/// has the sort of the place where it first stands.
pub fn head_from(
    alloc: Global,
    names: &Names<'_>,
    head: Head,
    sorts: &[u32],
    args: &[DraftArg],
) -> Result<Head, CheckFault>
    ensures { Answers result (spec_head_from names.now head sorts.now args.now) }
{
    match (sorts.split_first(), args.split_first()) {
        (Some((sort, sorts)), Some((arg, args))) => {
            let head = head_after(alloc, names, head, *sort, arg)?;
            head_from(alloc, names, head, sorts, args)
        }
        _ => Ok(head),
    }
}
