// `Source`, a state from which a search looks one step further, and `Told`, what it is told of those
// of a batch.
ghost use Rattle.std.specs.Prelude.{◌≡◌, ◌<◌, ◌≤◌, Some, if◌then◌else◌, is_none, length, slice_get};
ghost use Rattle.golog_find.specs.Batches.{fronts_of};

use crate::states::NumberedRef;
use crate::visits::Opened;
use golog_base::List;
use golog_tree::Way;
use golog_ways::Asked;

/// A state from which a search looks one step further, and what is kept of its program.
#[derive(Clone, Copy)]
pub struct Source<'v> {
    pub reached: NumberedRef<'v>,
    pub opened: Option<&'v Opened>,
}

/// What is told of the states of a batch: the steps of those of whose programs nothing is kept, one after another, and
/// for each the places of the kept steps that may be taken.
#[derive(Drop)]
pub struct Told {
    pub listed: List<List<Way>>,
    pub places: List<List<usize>>,
}

/// Where what is told of a state stands: its place in its level and in the batch, and how many lists of steps are used
/// before it.
#[derive(Clone, Copy)]
pub struct Turn {
    pub place: usize,
    pub at: usize,
    pub used: usize,
}

/// The one at a place.
pub fn source_at<'s, 'v>(sources: &'s [Source<'v>], at: usize) -> &'s Source<'v>
    requires { at < length sources.now }
    ensures { slice_get sources.now at ≡ Some result.now }
{
    &sources[at]
}

/// How many lists of steps are used of a state: one where nothing is kept of its program.
pub fn lists_of(source: &Source<'_>) -> usize
    ensures lists { result ≡ (if is_none source.now.opened then 1 else 0) }
    ensures few { result ≤ 1 }
{
    match source.opened {
        Some(_) => 0,
        None => 1,
    }
}

/// What is asked of a state: which of the kept steps may be taken. Where nothing is kept, there is none.
pub fn asked_of<'v>(source: &Source<'v>) -> Asked<'v>
    ensures values { result.values.now ≡ source.now.reached.values.now }
    ensures fronts { result.fronts.now ≡ fronts_of source.now }
{
    let values = source.reached.values;
    match source.opened {
        Some(opened) => Asked {
            values,
            fronts: opened.fronts.as_slice(),
            weight: opened.weight,
        },
        None => Asked {
            values,
            fronts: &[],
            weight: 0,
        },
    }
}

/// The list at a place.
pub fn list_at<T>(lists: &List<List<T>>, place: usize) -> &[T]
    requires { place < length lists.now }
    ensures { slice_get lists.now place ≡ Some result.now }
{
    lists.as_slice()[place].as_slice()
}
