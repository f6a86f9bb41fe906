// The programs of a draft in a scope.
ghost use Rattle.std.specs.Prelude.{map};
ghost use Rattle.golog_check.specs.Faults.{Answers, Leaves};
ghost use Rattle.golog_check.specs.Scope.{within};
ghost use Rattle.golog_check.specs.Programs.{prog_in, progs_after, progs_in, parts_in};

use crate::args::args_in;
use crate::conditions::cond_in;
use crate::fault::CheckFault;
use crate::names::Names;
use crate::scope::{Variable, variable_no, within};
use golog_base::{Boxed, List, Word, both};
use golog_shapes::{count_of, nested};
use golog_tree::{DraftProg, Join, Prog};
use std::alloc::Global;

/// Adds programs in a scope, one after another.
#[cycle(programs)]
#[tactic(auto, using(crate::proofs::Progs::laws))]
fn add_progs(
    alloc: Global,
    names: &Names<'_>,
    scope: &[Variable],
    drafts: &[DraftProg],
    progs: &mut List<Prog>,
) -> Result<(), CheckFault>
    ensures { Leaves result progs.new (progs_after progs.old scope.now (map (prog_in names.now) drafts.now)) }
{
    for draft in drafts {
        progs.push(prog_in(alloc, names, scope, draft)?)?;
    }
    Ok(())
}

/// Programs in a scope, one after another.
#[cycle(programs)]
fn progs_in(
    alloc: Global,
    names: &Names<'_>,
    scope: &[Variable],
    drafts: &[DraftProg],
) -> Result<List<Prog>, CheckFault>
    ensures { Answers result (progs_in scope.now (map (prog_in names.now) drafts.now)) }
{
    let mut progs = List::new(alloc);
    match add_progs(alloc, names, scope, drafts, &mut progs) {
        Ok(()) => Ok(progs),
        Err(fault) => {
            drop(progs);
            Err(fault)
        }
    }
}

/// Programs in a scope, nested to the right.
#[cycle(programs)]
fn parts_in(
    alloc: Global,
    names: &Names<'_>,
    scope: &[Variable],
    join: Join,
    drafts: &[DraftProg],
) -> Result<Prog, CheckFault>
    ensures { Answers result (parts_in join scope.now (map (prog_in names.now) drafts.now)) }
{
    let parts = progs_in(alloc, names, scope, drafts)?;
    Ok(nested(alloc, join, parts)?)
}

/// A program in memory of its own.
#[cycle(programs)]
fn boxed_in(
    alloc: Global,
    names: &Names<'_>,
    scope: &[Variable],
    draft: &DraftProg,
) -> Result<Boxed<Prog>, CheckFault>
    ensures { Answers result (prog_in names.now draft.now scope.now) }
{
    let prog = prog_in(alloc, names, scope, draft)?;
    Ok(Boxed::new(alloc, prog)?)
}

/// A program in which one more variable is in scope.
#[cycle(programs)]
fn body_in(
    alloc: Global,
    names: &Names<'_>,
    scope: &[Variable],
    var: &Word,
    sort: u32,
    draft: &DraftProg,
) -> Result<Boxed<Prog>, CheckFault>
    ensures { Answers result (prog_in names.now draft.now (within var.now sort scope.now)) }
{
    let inner = within(alloc, *var, sort, scope)?;
    let body = boxed_in(alloc, names, inner.as_slice(), draft);
    drop(inner);
    body
}

/// What a program of a draft is in a scope, or the first term that is no term of its sort, or word that is unbound.
#[cycle(programs)]
#[tactic(auto, using(crate::proofs::Progs::laws))]
pub fn prog_in(
    alloc: Global,
    names: &Names<'_>,
    scope: &[Variable],
    draft: &DraftProg,
) -> Result<Prog, CheckFault>
    ensures { Answers result (prog_in names.now draft.now scope.now) }
{
    match draft {
        DraftProg::Nil { .. } => Ok(Prog::Nil),
        DraftProg::Act { action, args, .. } => {
            let sorts = names.action_sorts(*action);
            args_in(alloc, names, scope, sorts, args.as_slice()).map(|args| Prog::Act {
                action: *action,
                args,
            })
        }
        DraftProg::Test { cond, .. } => cond_in(alloc, names, scope, cond).map(Prog::Test),
        DraftProg::Seq { parts, .. } => {
            parts_in(alloc, names, scope, Join::Seq, parts.as_slice())
        }
        DraftProg::Choice { parts, .. } => {
            parts_in(alloc, names, scope, Join::Choice, parts.as_slice())
        }
        DraftProg::Pick {
            var: word,
            sort,
            body,
            ..
        } => {
            let var = variable_no(scope);
            body_in(alloc, names, scope, word, *sort, body.get()).map(|body| Prog::Pick {
                var,
                sort: *sort,
                body,
            })
        }
        DraftProg::Star { body, .. } => boxed_in(alloc, names, scope, body.get()).map(Prog::Star),
        DraftProg::If { cond, yes, no, .. } => {
            let cond = cond_in(alloc, names, scope, cond);
            let yes = boxed_in(alloc, names, scope, yes.get());
            let no = boxed_in(alloc, names, scope, no.get());
            both(cond, both(yes, no)).map(|(cond, (yes, no))| Prog::If { cond, yes, no })
        }
        DraftProg::While { cond, body, .. } => {
            let cond = cond_in(alloc, names, scope, cond);
            let body = boxed_in(alloc, names, scope, body.get());
            both(cond, body).map(|(cond, body)| Prog::While { cond, body })
        }
        DraftProg::Conc { parts, .. } => {
            parts_in(alloc, names, scope, Join::Conc, parts.as_slice())
        }
        DraftProg::Prio { parts, .. } => {
            parts_in(alloc, names, scope, Join::Prio, parts.as_slice())
        }
        DraftProg::Cstar { body, .. } => boxed_in(alloc, names, scope, body.get()).map(Prog::Cstar),
        DraftProg::Call { item, args, .. } => {
            let sorts = names.param_sorts(*item);
            args_in(alloc, names, scope, sorts, args.as_slice()).map(|args| Prog::Call {
                item: *item,
                args,
            })
        }
        DraftProg::Search {
            depth,
            fuel,
            body,
            ..
        } => {
            let (depth, fuel) = (count_of(*depth), count_of(*fuel));
            boxed_in(alloc, names, scope, body.get()).map(|body| Prog::Search { depth, fuel, body })
        }
    }
}
