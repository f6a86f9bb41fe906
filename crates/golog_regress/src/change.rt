// An action that happened, with the causes that say what it changed.
use crate::happened::Happened;
use golog_tree::{Agent, CauseItem};

/// An action that happened, and the causes that say what it changed.
#[derive(Clone, Copy)]
pub(crate) struct Change<'a> {
    pub(crate) agent: &'a Agent,
    pub(crate) happened: &'a Happened,
    pub(crate) causes: &'a [CauseItem],
}
