//! `Op` and `Reply`, the calls of a board as ops of the object that lies in a lock.
use golog_journal::{Batch, Commit, Entry, Item, Next, Posted};

/// A call of a board, with what it is given.
#[derive(Clone, Copy)]
pub enum Op {
    /// `Board::post`.
    Post { poster: u8, item: Item, taken: u32 },
    /// `Board::next_command`.
    NextCommand { poster: u8, taken: u32 },
    /// `Board::has_more`.
    HasMore { since: u32 },
    /// `Board::copy_since`.
    CopySince { since: u32 },
    /// `Board::commit`.
    Commit { at: u32, entry: Entry },
}

/// What a call of a board answers.
#[derive(Clone, Copy)]
pub enum Reply {
    /// That of `Board::post`.
    OfPost(Posted),
    /// That of `Board::next_command`.
    OfNext(Next),
    /// That of `Board::has_more`.
    OfMore(bool),
    /// That of `Board::copy_since`.
    OfCopy(Batch),
    /// That of `Board::commit`.
    OfCommit(Commit),
}
