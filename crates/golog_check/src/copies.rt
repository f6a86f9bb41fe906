// The sorts, fluents, actions and devices of a draft, without their places.
ghost use Rattle.std.specs.Prelude.{◌≡◌, map, IfOk};
ghost use Rattle.golog_draft.specs.DraftPlaces.{sort_place as spec_sort_place};
ghost use Rattle.golog_check.specs.DeclaredItems.{sort_item, fluent_item, action_item};

use golog_base::{List, NoMemory, Word, both};
use golog_tree::{
    ActionItem, DraftAction, DraftDevice, DraftFluent, DraftSort, FluentItem, Place, SortItem,
};
use std::alloc::Global;

fn copy_sort(alloc: Global, sort: &DraftSort) -> Result<SortItem, NoMemory>
    ensures { IfOk result (λ item. item ≡ sort_item sort.now) }
{
    match sort {
        DraftSort::Range {
            name,
            low,
            high,
            ..
        } => Ok(SortItem::Range {
            name: *name,
            low: *low,
            high: *high,
        }),
        DraftSort::Listed {
            name,
            constants,
            ..
        } => Ok(SortItem::Listed {
            name: *name,
            constants: List::copy_of(alloc, constants.as_slice())?,
        }),
    }
}

/// The sorts, without their places.
pub fn copy_sorts(alloc: Global, sorts: &[DraftSort]) -> Result<List<SortItem>, NoMemory>
    ensures { IfOk result (λ items. items ≡ map sort_item sorts.now) }
{
    let mut items = List::new(alloc);
    for sort in sorts {
        items.push(copy_sort(alloc, sort)?)?;
    }
    Ok(items)
}

fn sort_place(sort: &DraftSort) -> Place
    ensures { result ≡ spec_sort_place sort.now }
{
    match sort {
        DraftSort::Range { at, .. } | DraftSort::Listed { at, .. } => *at,
    }
}

/// Where the sorts are declared.
pub fn sort_places(alloc: Global, sorts: &[DraftSort]) -> Result<List<Place>, NoMemory>
    ensures { IfOk result (λ places. places ≡ map spec_sort_place sorts.now) }
{
    let mut places = List::new(alloc);
    for sort in sorts {
        places.push(sort_place(sort))?;
    }
    Ok(places)
}

fn copy_fluent(alloc: Global, fluent: &DraftFluent) -> Result<FluentItem, NoMemory>
    ensures { IfOk result (λ item. item ≡ fluent_item fluent.now) }
{
    Ok(FluentItem {
        name: fluent.name,
        args: List::copy_of(alloc, fluent.args.as_slice())?,
        sort: fluent.sort,
    })
}

/// The fluents, without their places.
pub fn copy_fluents(alloc: Global, fluents: &[DraftFluent]) -> Result<List<FluentItem>, NoMemory>
    ensures { IfOk result (λ items. items ≡ map fluent_item fluents.now) }
{
    let mut items = List::new(alloc);
    for fluent in fluents {
        items.push(copy_fluent(alloc, fluent)?)?;
    }
    Ok(items)
}

fn copy_action(alloc: Global, action: &DraftAction) -> Result<ActionItem, NoMemory>
    ensures { IfOk result (λ item. item ≡ action_item action.now) }
{
    let args = List::copy_of(alloc, action.args.as_slice());
    let (args, posters) = both(args, List::copy_of(alloc, action.posters.as_slice()))?;
    Ok(ActionItem {
        name: action.name,
        args,
        device: action.device,
        posters,
    })
}

/// The actions, without their places.
pub fn copy_actions(alloc: Global, actions: &[DraftAction]) -> Result<List<ActionItem>, NoMemory>
    ensures { IfOk result (λ items. items ≡ map action_item actions.now) }
{
    let mut items = List::new(alloc);
    for action in actions {
        items.push(copy_action(alloc, action)?)?;
    }
    Ok(items)
}

/// The devices, which are named by their words.
pub fn copy_devices(alloc: Global, devices: &[DraftDevice]) -> Result<List<Word>, NoMemory>
    ensures { IfOk result (λ words. words ≡ map (λ device. device.name) devices.now) }
{
    let mut words = List::new(alloc);
    for device in devices {
        words.push(device.name)?;
    }
    Ok(words)
}
