// `senses` items, with one flag for each action that was sensed.
ghost use Rattle.std.specs.Prelude.{◌≡◌, ◌++◌, ◌∷◌, [], ◌<◌, length, IfOk, List, All};
ghost use Rattle.golog_tree.specs.declared.draft.DraftSense.{DraftSense};
ghost use Rattle.golog_check.specs.Faults.{Answers};
ghost use Rattle.golog_check.specs.Checked.{IsChecked};
ghost use Rattle.golog_check.specs.Effects.{is_sensed as spec_is_sensed, sense_by as spec_sense_by, senses_in};
ghost use Rattle.golog_check.specs.Sensed.{TellsSensed};

use crate::args::args_in;
use crate::checked::Checked;
use crate::fault::{CheckFault, SENSE_CLASH, refuse_where};
use crate::heads::scope_of;
use crate::names::Names;
use golog_base::NoMemory;
use golog_tree::{DraftSense, SenseItem};
use std::alloc::Global;

/// No action is sensed yet, of so many.
fn none_sensed(alloc: Global, actions: usize) -> Result<Vec<bool>, NoMemory>
    ensures sensed { IfOk result (λ sensed. TellsSensed sensed.items []) }
    ensures all { IfOk result (λ sensed. length sensed.items ≡ actions) }
{
    let mut sensed = Vec::new(alloc);
    for _ in 0..actions {
        sensed.push(false)?;
    }
    Ok(sensed)
}

/// Notes that an item tells what the action senses.
fn note(sensed: &mut Vec<bool>, action: u32)
    ensures noted { (items : List DraftSense) (item : DraftSense) → item.action ≡ action → TellsSensed sensed.old.items items
        → TellsSensed sensed.new.items (items ++ item ∷ []) }
    ensures all { length sensed.new.items ≡ length sensed.old.items }
{
    let index = action as usize;
    if index < sensed.len() {
        sensed[index] = true;
    }
}

/// Whether an item before tells what the action senses.
fn is_sensed(sensed: &[bool], action: u32) -> bool
    requires { action < length sensed.now }
    ensures { (items : List DraftSense) → TellsSensed sensed.now items → result ≡ spec_is_sensed items action }
{
    sensed[action as usize]
}

/// What an action senses, where it has a device and is not exogenous, and no item before tells it. The result may come
/// later where the item says so.
#[tactic(auto, unfolding(crate::specs::Effects::sense_by))]
fn sense_by(
    alloc: Global,
    names: &Names<'_>,
    again: bool,
    item: &DraftSense,
) -> Result<SenseItem, CheckFault>
    ensures { Answers result (spec_sense_by names.now again item.now) }
{
    let clashes = again || !names.may_sense(item.action);
    refuse_where(clashes, SENSE_CLASH, item.at)?;
    let sorts = names.action_sorts(item.action);
    let scope = scope_of(alloc, item.vars.as_slice(), sorts)?;
    let sorts = names.fluent_sorts(item.fluent);
    let args = args_in(alloc, names, scope.as_slice(), sorts, item.args.as_slice());
    drop(scope);
    Ok(SenseItem {
        action: item.action,
        fluent: item.fluent,
        args: args?,
        later: item.later,
    })
}

/// What actions sense, item by item. The items speak of declared actions.
pub fn sense_items_in(
    alloc: Global,
    names: &Names<'_>,
    items: &[DraftSense],
) -> Result<Checked<SenseItem>, NoMemory>
    requires { All (λ (item : DraftSense). item.action < length names.now.actions) items.now }
    ensures { IfOk result (λ checked. IsChecked checked (senses_in names.now [] items.now)) }
{
    let mut sensed = none_sensed(alloc, names.action_count())?;
    let mut checked = Checked::new(alloc);
    for item in items {
        let again = is_sensed(&sensed, item.action);
        checked.add(sense_by(alloc, names, again, item))?;
        note(&mut sensed, item.action);
    }
    Ok(checked)
}
