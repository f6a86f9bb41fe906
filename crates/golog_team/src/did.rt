//! What a step of a side came to.

/// What a step did.
#[derive(Clone, Copy, Debug, PartialEq, Eq)]
pub enum Did {
    /// Something, or it was overtaken.
    Busy,
    /// Nothing, until the other side puts a note.
    Idle,
    /// It has ended.
    Over,
}
