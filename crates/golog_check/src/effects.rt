// `poss` and `causes` items: preconditions, and effects in view of the variables that their heads
// bind.
ghost use Rattle.std.specs.Prelude.{◌≡◌, [], map, IfOk};
ghost use Rattle.golog_check.specs.Faults.{Answers};
ghost use Rattle.golog_check.specs.Checked.{IsChecked};
ghost use Rattle.golog_check.specs.Effects.{poss_in as spec_poss_in, cause_in as spec_cause_in, head_within as spec_head_within};
ghost use Rattle.golog_check.specs.Effects.{effect_in};

use crate::checked::Checked;
use crate::conditions::cond_in;
use crate::fault::CheckFault;
use crate::heads::{Head, head_from, scope_of};
use crate::names::Names;
use crate::scope::Variable;
use crate::terms::term_in;
use golog_base::{List, NoMemory, both};
use golog_tree::{Arg, CauseItem, DraftCause, DraftPoss, PossItem};
use std::alloc::Global;

/// The precondition of an action, whose arguments are its variables.
#[tactic(auto, unfolding(crate::specs::Effects::poss_in))]
fn poss_in(alloc: Global, names: &Names<'_>, item: &DraftPoss) -> Result<PossItem, CheckFault>
    ensures { Answers result (spec_poss_in names.now item.now) }
{
    let sorts = names.action_sorts(item.action);
    let scope = scope_of(alloc, item.vars.as_slice(), sorts)?;
    let cond = cond_in(alloc, names, scope.as_slice(), &item.cond);
    drop(scope);
    Ok(PossItem {
        action: item.action,
        cond: cond?,
    })
}

/// Preconditions, one after another.
pub fn poss_items_in(
    alloc: Global,
    names: &Names<'_>,
    items: &[DraftPoss],
) -> Result<Checked<PossItem>, NoMemory>
    ensures { IfOk result (λ checked. IsChecked checked (map (spec_poss_in names.now) items.now)) }
{
    let mut checked = Checked::new(alloc);
    for item in items {
        checked.add(poss_in(alloc, names, item))?;
    }
    Ok(checked)
}

/// A head with no argument yet, within these variables.
fn head_within(alloc: Global, scope: List<Variable>) -> Head
    ensures { result ≡ spec_head_within scope }
{
    Head {
        args: List::new(alloc),
        scope,
    }
}

/// An effect behind its heads, in view of these variables.
fn effect_in(
    alloc: Global,
    names: &Names<'_>,
    scope: &[Variable],
    item: &DraftCause,
    action_args: List<Arg>,
    fluent_args: List<Arg>,
) -> Result<CauseItem, CheckFault>
    ensures { Answers result (effect_in names.now item.now action_args fluent_args scope.now) }
{
    let sort = names.fluent_sort(item.fluent).unwrap_or(0);
    let term = term_in(alloc, names, scope, sort, &item.term);
    match both(term, cond_in(alloc, names, scope, &item.cond)) {
        Ok((term, cond)) => Ok(CauseItem {
            action: item.action,
            action_args,
            fluent: item.fluent,
            fluent_args,
            term,
            cond,
        }),
        Err(fault) => {
            drop(fluent_args);
            drop(action_args);
            Err(fault)
        }
    }
}

/// An effect behind its heads.
fn behind_heads(
    alloc: Global,
    names: &Names<'_>,
    item: &DraftCause,
    action_args: List<Arg>,
    fluent: Head,
) -> Result<CauseItem, CheckFault>
    ensures { Answers result (effect_in names.now item.now action_args fluent.args fluent.scope) }
{
    let Head { args, scope } = fluent;
    let effect = effect_in(alloc, names, scope.as_slice(), item, action_args, args);
    drop(scope);
    effect
}

/// An effect: the arguments of its action bind its variables, and those of its fluent bind more.
#[tactic(auto, unfolding(crate::specs::Effects::cause_in))]
fn cause_in(alloc: Global, names: &Names<'_>, item: &DraftCause) -> Result<CauseItem, CheckFault>
    ensures { Answers result (spec_cause_in names.now item.now) }
{
    let head = head_within(alloc, List::new(alloc));
    let sorts = names.action_sorts(item.action);
    let action = head_from(alloc, names, head, sorts, item.action_args.as_slice())?;
    let Head { args, scope } = action;
    let head = head_within(alloc, scope);
    let sorts = names.fluent_sorts(item.fluent);
    match head_from(alloc, names, head, sorts, item.fluent_args.as_slice()) {
        Ok(fluent) => behind_heads(alloc, names, item, args, fluent),
        Err(fault) => {
            drop(args);
            Err(fault)
        }
    }
}

/// Effects, one after another.
pub fn cause_items_in(
    alloc: Global,
    names: &Names<'_>,
    items: &[DraftCause],
) -> Result<Checked<CauseItem>, NoMemory>
    ensures { IfOk result (λ checked. IsChecked checked (map (spec_cause_in names.now) items.now)) }
{
    let mut checked = Checked::new(alloc);
    for item in items {
        checked.add(cause_in(alloc, names, item))?;
    }
    Ok(checked)
}
