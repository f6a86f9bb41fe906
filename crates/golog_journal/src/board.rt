//! `Board`, the trait of a journal that may be shared, and its answers `Next`, `Posted`, `Commit`,
//! `Batch`; `LIMIT`.
ghost use Rattle.std.specs.Prelude.{◌≡◌, ◌≤◌, ℕ, true, length};
ghost use Rattle.golog_journal.specs.Taken.{IsReady};
ghost use Rattle.golog_journal.specs.Posting.{MayPost, PostIs};
ghost use Rattle.golog_journal.specs.Commands.{NextIs};
ghost use Rattle.golog_journal.specs.Copies.{CopyIs, MoreIs};
ghost use Rattle.golog_journal.specs.Commits.{MayCommit, CommitIs};
ghost use Rattle.golog_journal.specs.Growing.{Sight, Called, program};

use golog_semantics::{Entry, Item, Reason};

/// The most counted entries: all but those that close a device or end the program.
pub const LIMIT: u32 = 1_048_576;

/// The most entries: the counted ones, one end, and a Close of each of 16 devices.
pub const LONGEST: u32 = LIMIT + 17;

/// The most entries of one copy.
pub const BATCH: usize = 64;

/// What a device is to do.
#[derive(Clone, Copy, Debug, PartialEq, Eq)]
pub enum Next {
    /// Its next command: the place and the action, and whether an answer is asked for.
    Command {
        place: u32,
        action: u32,
        asked: bool,
    },
    /// It has no command. It is resting where its last entry is a Rest with as many commands taken.
    Nothing {
        resting: bool,
    },
    /// It has no command, and the program has ended.
    Ended,
}

/// What came of an item.
#[derive(Clone, Copy, Debug, PartialEq, Eq)]
pub enum Posted {
    /// Its entry stands at this place.
    At(u32),
    /// The device was closed in its place.
    Closed { place: u32, reason: Reason },
}

/// What came of a decision.
#[derive(Clone, Copy, Debug, PartialEq, Eq)]
pub enum Commit {
    /// Its entry stands at the place for which it was decided.
    Taken,
    /// The journal is longer than that, and nothing was added.
    Moved { longer: u32 },
}

/// The entries from a place on: the first `count` of `entries`. `length` is the length of the journal.
#[derive(Clone, Copy)]
pub struct Batch {
    pub count: u32,
    pub entries: [Entry; BATCH],
    pub length: u32,
}

/// A journal that may be shared with others. Each call adds one entry at most, changes no earlier one, and
/// takes no memory. Before a call others may have added entries, but none of a party that this board holds.
pub trait Board {
    // The agent, the entries that were seen, whether no one else adds any, and the parties that are held.
    ghost sight: { Self → Sight };

    /// Posts what an open device has for the journal, `taken` being the number of commands that the device
    /// has taken. The device is closed in place of the item, for the first reason that fits: `Stopped` for
    /// the item `Stop`, `Refused` for `Refused`, `Ended` for `Close`; `Late` after the end; `Full` where
    /// 1,048,576 counted entries stand; `Bad` where the device may not post the item now.
    fn post(&mut self, poster: u8, item: Item, taken: u32) -> Posted
        requires held { (sight self.old).holds poster ≡ true }
        requires allowed { MayPost (sight self.old).agent (sight self.old).seen poster taken item }
        requires alone { item ≡ Item.Refused → (sight self.old).alone ≡ true }
        ensures { let answers = PostIs (sight self.old).agent in
            Called (λ point. answers point poster taken item result) (sight self.old) (sight self.new) };

    /// What an open device is to do that has taken so many commands, none of which awaits its result.
    fn next_command(&mut self, poster: u8, taken: u32) -> Next
        requires held { (sight self.old).holds poster ≡ true }
        requires ready { IsReady (sight self.old).agent (sight self.old).seen poster taken }
        ensures { let answers = NextIs (sight self.old).agent in
            Called (λ point. answers point poster taken result) (sight self.old) (sight self.new) };

    /// Whether entries stand from a place on.
    fn has_more(&mut self, since: u32) -> bool
        ensures { Called (λ point. MoreIs point since result) (sight self.old) (sight self.new) };

    /// The entries from a place on, 64 at most.
    fn copy_since(&mut self, since: u32) -> Batch
        requires { since ≤ length (sight self.old).seen }
        ensures { Called (λ point. CopyIs point since result) (sight self.old) (sight self.new) };

    /// Adds what the program decided for the first `at` entries: exactly where there are no more of them.
    fn commit(&mut self, at: u32, entry: Entry) -> Commit
        requires held { (sight self.old).holds program ≡ true }
        requires allowed { MayCommit (sight self.old).agent (sight self.old).seen at entry }
        ensures { let answers = CommitIs (sight self.old).agent in
            Called (λ point. answers point at entry result) (sight self.old) (sight self.new) };

    // Where no one else adds entries, all parties are held.
    ghost holds_all: { (board : Self) → (sight board).alone ≡ true → (party : ℕ) → party ≤ program → (sight board).holds party ≡ true };
}
