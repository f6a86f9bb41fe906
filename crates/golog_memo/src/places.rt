// Places of things by their hashes, for whoever keeps the things.
ghost use Rattle.std.specs.Prelude.{◌≡◌, ℕ, true, false, ◌||◌, ◌&&◌, ◌==◌, MatchOption, OnOk, OnErr};
ghost use Rattle.golog_memo.specs.Placed.{is_among, is_placed};

use golog_base::{List, NoMemory};
use std::alloc::Global;
use std::collections::HashMap;

/// A place whose hash an earlier one has.
#[derive(Clone, Copy, Drop)]
pub struct Other {
    hash: u64,
    place: usize,
}

/// Places by the hashes of what stands there, which is kept elsewhere.
#[derive(Drop)]
pub struct Places {
    firsts: HashMap<u64, usize>,
    others: List<Other>,
}

impl Places {
    /// No place. Takes no memory.
    pub fn new(alloc: Global) -> Places
        ensures { (hash place : ℕ) → is_placed result hash place ≡ false }
    {
        Places {
            firsts: HashMap::new(alloc),
            others: List::new(alloc),
        }
    }

    /// A place of this hash that passes the test: `None` exactly where none does. Takes no memory.
    pub fn find<F: Fn(usize) -> bool>(&self, hash: u64, is_same: F) -> Option<usize>
        requires { F.IsAlwaysCallable is_same }
        ensures { MatchOption result ((place : ℕ) → is_placed self.now hash place ≡ true → F.post is_same place false)
            (λ place. (is_placed self.now hash place ≡ true) × F.post is_same place true) }
    {
        match self.firsts.get(&hash) {
            Some(first) if is_same(*first) => Some(*first),
            _ => find_among(self.others.as_slice(), hash, is_same),
        }
    }

    /// Adds a place, behind those of the same hash. After `NoMemory` the places are as before.
    pub fn add(&mut self, hash: u64, place: usize) -> Result<(), NoMemory>
        ensures ok { OnOk result ((other at : ℕ) → is_placed self.new other at
            ≡ (is_placed self.old other at || (other == hash && at == place))) }
        ensures err { OnErr result ((other at : ℕ) → is_placed self.new other at ≡ is_placed self.old other at) }
    {
        if self.firsts.contains_key(&hash) {
            self.others.push(Other { hash, place })
        } else {
            self.firsts.insert(hash, place)?;
            Ok(())
        }
    }
}

/// The first of these places that has the hash and passes the test.
fn find_among<F: Fn(usize) -> bool>(others: &[Other], hash: u64, is_same: F) -> Option<usize>
    requires { F.IsAlwaysCallable is_same }
    ensures { MatchOption result ((place : ℕ) → is_among others.now hash place ≡ true → F.post is_same place false)
        (λ place. (is_among others.now hash place ≡ true) × F.post is_same place true) }
{
    for other in others {
        if other.hash == hash && is_same(other.place) {
            return Some(other.place);
        }
    }
    None
}
