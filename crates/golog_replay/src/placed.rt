// The next entry of a report at its place, with the entries before it and the runs from there on.
use golog_semantics::{Entry, PlacedRun};

/// The next entry of a report at its place: the entries before it, and the runs from there on.
#[derive(Clone, Copy)]
pub(crate) struct PlacedEntry<'a> {
    pub(crate) before: &'a [Entry],
    pub(crate) next: Entry,
    pub(crate) runs: &'a [PlacedRun],
}
