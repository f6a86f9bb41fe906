// Procedures, each with its parameters in scope.
ghost use Rattle.std.specs.Prelude.{◌≡◌, map, IfOk};
ghost use Rattle.golog_draft.specs.Drafts.{param_words as spec_param_words};
ghost use Rattle.golog_check.specs.DeclaredItems.{param_sorts as spec_param_sorts};
ghost use Rattle.golog_check.specs.Faults.{Answers};
ghost use Rattle.golog_check.specs.Checked.{IsChecked};
ghost use Rattle.golog_check.specs.Procs.{proc_in as spec_proc_in};
ghost use Rattle.golog_check.specs.Scope.{scope_of_vars};

use crate::checked::Checked;
use crate::fault::CheckFault;
use crate::heads::scope_of;
use crate::names::Names;
use crate::programs::prog_in;
use crate::scope::Variable;
use golog_base::{List, NoMemory, Word, both};
use golog_tree::{DraftProc, ProcItem};
use std::alloc::Global;

/// The sorts of a procedure's parameters, in order.
pub fn param_sorts(alloc: Global, item: &DraftProc) -> Result<List<u32>, NoMemory>
    ensures { IfOk result (λ sorts. sorts ≡ spec_param_sorts item.now) }
{
    let mut sorts = List::new(alloc);
    for param in item.params.as_slice() {
        sorts.push(param.sort)?;
    }
    Ok(sorts)
}

/// The words of a procedure's parameters, in order.
fn param_words(alloc: Global, item: &DraftProc) -> Result<List<Word>, NoMemory>
    ensures { IfOk result (λ words. words ≡ spec_param_words item.now) }
{
    let mut words = List::new(alloc);
    for param in item.params.as_slice() {
        words.push(param.var)?;
    }
    Ok(words)
}

/// The sorts of the parameters of each procedure.
pub fn params_of_each(alloc: Global, items: &[DraftProc]) -> Result<List<List<u32>>, NoMemory>
    ensures { IfOk result (λ params. params ≡ map spec_param_sorts items.now) }
{
    let mut params = List::new(alloc);
    for item in items {
        params.push(param_sorts(alloc, item)?)?;
    }
    Ok(params)
}

/// The sorts of a procedure's parameters, and the parameters in scope.
fn params_of(alloc: Global, item: &DraftProc) -> Result<(List<u32>, List<Variable>), NoMemory>
    ensures { IfOk result (λ params. (params.0 ≡ spec_param_sorts item.now)
        × (params.1 ≡ scope_of_vars (spec_param_words item.now) (spec_param_sorts item.now))) }
{
    let (words, sorts) = both(param_words(alloc, item), param_sorts(alloc, item))?;
    let scope = scope_of(alloc, words.as_slice(), sorts.as_slice());
    drop(words);
    both(Ok(sorts), scope)
}

/// A procedure, whose parameters are the variables of its body.
#[tactic(auto, unfolding(crate::specs::Procs::proc_in))]
fn proc_in(alloc: Global, names: &Names<'_>, item: &DraftProc) -> Result<ProcItem, CheckFault>
    ensures { Answers result (spec_proc_in names.now item.now) }
{
    let (params, scope) = params_of(alloc, item)?;
    let body = prog_in(alloc, names, scope.as_slice(), &item.body);
    drop(scope);
    let (params, body) = both(Ok(params), body)?;
    Ok(ProcItem {
        name: item.name,
        params,
        body,
    })
}

/// Procedures, one after another.
pub fn proc_items_in(
    alloc: Global,
    names: &Names<'_>,
    items: &[DraftProc],
) -> Result<Checked<ProcItem>, NoMemory>
    ensures { IfOk result (λ checked. IsChecked checked (map (spec_proc_in names.now) items.now)) }
{
    let mut checked = Checked::new(alloc);
    for item in items {
        checked.add(proc_in(alloc, names, item))?;
    }
    Ok(checked)
}
