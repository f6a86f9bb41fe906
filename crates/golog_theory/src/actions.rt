// The items `device`, `action` and `exo`.
ghost use Rattle.std.specs.Prelude.{◌≡◌, []};
ghost use Rattle.golog_theory.specs.Reading.{Answers, each};
ghost use Rattle.golog_theory.specs.Actions.{device_item, device_of, action_of, action_item, exo_item};

use crate::fault::{COUNT, TheoryFault, UNKNOWN_FORM, refuse_where, unknown_form, unknown_name};
use crate::fluents::sorts_of;
use crate::indexed::Indexed;
use crate::limits::DEVICES;
use crate::parts::{item_no, new_name, word};
use golog_base::{List, both, is_name};
use golog_form::Form;
use golog_tree::{DraftAction, DraftDevice, Place};
use std::alloc::Global;

/// `(device NAME)`
#[tactic(auto, unfolding(crate::specs::Actions::device_item))]
pub fn device_item(
    theory: &Indexed<'_>,
    at: Place,
    parts: &[Form],
) -> Result<DraftDevice, TheoryFault>
    ensures { Answers result (device_item theory.now at parts.now) }
{
    let [name] = parts else {
        return Err(unknown_form(at));
    };
    refuse_where(theory.devices().len() >= DEVICES, COUNT, at)?;
    let name = new_name(theory, name)?;
    Ok(DraftDevice { name, at })
}

/// The number of a device.
#[tactic(auto, unfolding(crate::specs::Actions::device_of))]
fn device_of(theory: &Indexed<'_>, form: &Form) -> Result<u32, TheoryFault>
    ensures { Answers result (device_of theory.now form.now) }
{
    refuse_where(!is_name(word(form)), UNKNOWN_FORM, form.at())?;
    match theory.device_no(word(form)) {
        Some(device) => item_no(device),
        None => Err(unknown_name(form.at())),
    }
}

#[tactic(auto, using(crate::proofs::Each::laws))]
fn devices_of(alloc: Global, theory: &Indexed<'_>, forms: &[Form]) -> Result<List<u32>, TheoryFault>
    ensures { Answers result (each (λ _. device_of theory.now) [] forms.now) }
{
    let mut devices = List::new(alloc);
    for form in forms {
        devices.push(device_of(theory, form)?)?;
    }
    Ok(devices)
}

/// An action's name and the sorts of its arguments.
#[tactic(auto, unfolding(crate::specs::Actions::action_of))]
fn action_of(
    alloc: Global,
    theory: &Indexed<'_>,
    at: Place,
    name: &Form,
    sorts: &Form,
) -> Result<DraftAction, TheoryFault>
    ensures { Answers result (action_of theory.now at name.now sorts.now) }
{
    let name = new_name(theory, name)?;
    let args = sorts_of(alloc, theory, sorts)?;
    Ok(DraftAction {
        name,
        args,
        device: None,
        posters: List::new(alloc),
        at,
    })
}

/// `(action NAME (SORTS))`, or with a DEVICE last.
#[tactic(auto, unfolding(crate::specs::Actions::action_item))]
pub fn action_item(
    alloc: Global,
    theory: &Indexed<'_>,
    at: Place,
    parts: &[Form],
) -> Result<DraftAction, TheoryFault>
    ensures { Answers result (action_item theory.now at parts.now) }
{
    match parts {
        [name, sorts] => action_of(alloc, theory, at, name, sorts),
        [name, sorts, device] => {
            let action = action_of(alloc, theory, at, name, sorts);
            let (mut action, device) = both(action, device_of(theory, device))?;
            action.device = Some(device);
            Ok(action)
        }
        _ => Err(unknown_form(at)),
    }
}

/// `(exo NAME (SORTS) DEVICE)`, one or more devices.
#[tactic(auto, unfolding(crate::specs::Actions::exo_item))]
pub fn exo_item(
    alloc: Global,
    theory: &Indexed<'_>,
    at: Place,
    parts: &[Form],
) -> Result<DraftAction, TheoryFault>
    ensures { Answers result (exo_item theory.now at parts.now) }
{
    match parts {
        [name, sorts, devices @ ..] if !devices.is_empty() => {
            let action = action_of(alloc, theory, at, name, sorts);
            let (mut action, posters) = both(action, devices_of(alloc, theory, devices))?;
            action.posters = posters;
            Ok(action)
        }
        _ => Err(unknown_form(at)),
    }
}
