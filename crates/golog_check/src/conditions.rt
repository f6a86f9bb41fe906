// The conditions of a draft in a scope, and `check_condition`, which checks one over an agent.
ghost use Rattle.std.specs.Prelude.{◌≡◌, [], map, IfOk};
ghost use Rattle.golog_draft.specs.Drafts.{AgentCondKeeps};
ghost use Rattle.golog_draft.specs.DraftOrder.{IsAscending};
ghost use Rattle.golog_draft.specs.DraftPlaces.{cond_places};
ghost use Rattle.golog_semantics.specs.Fits.{nothing_bound};
ghost use Rattle.golog_semantics.specs.WellFormed.{WellFormed};
ghost use Rattle.golog_check.specs.CheckLaws.{IsCondOf};
ghost use Rattle.golog_check.specs.DeclaredItems.{HasFewSorts, declared_in};
ghost use Rattle.golog_check.specs.Faults.{Answers, Leaves};
ghost use Rattle.golog_check.specs.Scope.{within};
ghost use Rattle.golog_check.specs.Conditions.{is_in, cond_in, conds_after, conds_in};
ghost use Rattle.golog_check.specs.Order.{IsLeastRow};

use crate::args::{args_in, is_other};
use crate::fault::{CheckFault, SORT_CLASH, refuse_where};
use crate::names::Names;
use crate::scope::{Variable, variable_no, within};
use crate::terms::{Comparison, sides_in};
use golog_base::{Boxed, List, Word};
use golog_tree::{Agent, Arg, Cond, DraftArg, DraftCond, Place};
use std::alloc::Global;

/// The sort `bool` is the first.
const BOOL: u32 = 0;

/// The arguments of a fluent that stands as a condition, and so in a place of the sort `bool`.
#[tactic(auto, unfolding(crate::specs::Conditions::is_in))]
fn is_in(
    alloc: Global,
    names: &Names<'_>,
    scope: &[Variable],
    fluent: u32,
    args: &[DraftArg],
    at: Place,
) -> Result<List<Arg>, CheckFault>
    ensures { Answers result (is_in names.now scope.now fluent args.now at) }
{
    let is_no_bool = is_other(names.fluent_sort(fluent), BOOL);
    refuse_where(is_no_bool, SORT_CLASH, at)?;
    args_in(alloc, names, scope, names.fluent_sorts(fluent), args)
}

/// Adds conditions in a scope, one after another.
#[cycle(conditions)]
#[tactic(auto, using(crate::proofs::Conds::laws))]
fn add_conds(
    alloc: Global,
    names: &Names<'_>,
    scope: &[Variable],
    drafts: &[DraftCond],
    conds: &mut List<Cond>,
) -> Result<(), CheckFault>
    ensures { Leaves result conds.new (conds_after conds.old scope.now (map (cond_in names.now) drafts.now)) }
{
    for draft in drafts {
        conds.push(cond_in(alloc, names, scope, draft)?)?;
    }
    Ok(())
}

/// Conditions in a scope, one after another.
#[cycle(conditions)]
fn conds_in(
    alloc: Global,
    names: &Names<'_>,
    scope: &[Variable],
    drafts: &[DraftCond],
) -> Result<List<Cond>, CheckFault>
    ensures { Answers result (conds_in scope.now (map (cond_in names.now) drafts.now)) }
{
    let mut conds = List::new(alloc);
    match add_conds(alloc, names, scope, drafts, &mut conds) {
        Ok(()) => Ok(conds),
        Err(fault) => {
            drop(conds);
            Err(fault)
        }
    }
}

/// A condition that stands in a list of its own.
#[cycle(conditions)]
fn boxed_in(
    alloc: Global,
    names: &Names<'_>,
    scope: &[Variable],
    draft: &DraftCond,
) -> Result<Boxed<Cond>, CheckFault>
    ensures { Answers result (cond_in names.now draft.now scope.now) }
{
    let cond = cond_in(alloc, names, scope, draft)?;
    Ok(Boxed::new(alloc, cond)?)
}

/// A condition in which one more variable is in scope.
#[cycle(conditions)]
fn body_in(
    alloc: Global,
    names: &Names<'_>,
    scope: &[Variable],
    var: &Word,
    sort: u32,
    draft: &DraftCond,
) -> Result<Boxed<Cond>, CheckFault>
    ensures { Answers result (cond_in names.now draft.now (within var.now sort scope.now)) }
{
    let inner = within(alloc, *var, sort, scope)?;
    let body = boxed_in(alloc, names, inner.as_slice(), draft);
    drop(inner);
    body
}

/// What a condition of a draft is in a scope, or the first term that is no term of its sort, or word that is unbound.
#[cycle(conditions)]
#[tactic(auto, using(crate::proofs::Conds::laws))]
pub fn cond_in(
    alloc: Global,
    names: &Names<'_>,
    scope: &[Variable],
    draft: &DraftCond,
) -> Result<Cond, CheckFault>
    ensures { Answers result (cond_in names.now draft.now scope.now) }
{
    match draft {
        DraftCond::Truth { truth, .. } => Ok(Cond::Truth(*truth)),
        DraftCond::Is { fluent, args, at } => {
            is_in(alloc, names, scope, *fluent, args.as_slice(), *at).map(|args| Cond::Is {
                fluent: *fluent,
                args,
            })
        }
        DraftCond::Equal { one, other, .. } => {
            sides_in(alloc, names, scope, Comparison::Equal, one, other).map(|sides| Cond::Equal {
                sort: sides.sort,
                one: sides.one,
                other: sides.other,
            })
        }
        DraftCond::Less { one, other, .. } => {
            sides_in(alloc, names, scope, Comparison::Order, one, other).map(|sides| Cond::Less {
                sort: sides.sort,
                one: sides.one,
                other: sides.other,
            })
        }
        DraftCond::AtMost { one, other, .. } => {
            sides_in(alloc, names, scope, Comparison::Order, one, other).map(|sides| Cond::AtMost {
                sort: sides.sort,
                one: sides.one,
                other: sides.other,
            })
        }
        DraftCond::Not { cond, .. } => boxed_in(alloc, names, scope, cond.get()).map(Cond::Not),
        DraftCond::And { conds, .. } => {
            conds_in(alloc, names, scope, conds.as_slice()).map(Cond::And)
        }
        DraftCond::Or { conds, .. } => {
            conds_in(alloc, names, scope, conds.as_slice()).map(Cond::Or)
        }
        DraftCond::ForSome {
            var: word,
            sort,
            body,
            ..
        } => {
            let var = variable_no(scope);
            body_in(alloc, names, scope, word, *sort, body.get()).map(|body| Cond::ForSome {
                var,
                sort: *sort,
                body,
            })
        }
        DraftCond::ForAll {
            var: word,
            sort,
            body,
            ..
        } => {
            let var = variable_no(scope);
            body_in(alloc, names, scope, word, *sort, body.get()).map(|body| Cond::ForAll {
                var,
                sort: *sort,
                body,
            })
        }
    }
}

/// What a condition of a draft is over an agent, or the first term that is no term of its sort, or word that is
/// unbound: code 30 or 31, and its place. The draft was read with the agent's names, so that its numbers are in range.
/// What it is fits the agent, and can stand in its file.
#[tactic(auto, using(crate::proofs::Asked::laws))]
pub fn check_condition(alloc: Global, agent: &Agent, cond: &DraftCond) -> Result<Cond, CheckFault>
    requires formed { WellFormed agent.now }
    requires kept { AgentCondKeeps agent.now cond.now }
    ensures answer { Answers result (cond_in (declared_in agent.now) cond.now []) }
    ensures least { IsAscending (cond_places cond.now) → IsLeastRow result (cond_in (declared_in agent.now) cond.now []).rows }
    ensures fits { IfOk result (λ c. IsCondOf agent.now nothing_bound 0 c) }
{
    cond_in(alloc, &Names::of_agent(agent), &[], cond)
}
