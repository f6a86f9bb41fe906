// A list cut into parts of one length, the work on each on a thread, and what came of them joined.
ghost use Rattle.std.specs.Prelude.{◌≡◌, ◌<◌, ℕ, IfOk, drop, length, map, take};
ghost use Rattle.std.specs.Thread.{IsSend, IsSync};
ghost use Rattle.golog_par.specs.Parts.{IsJoined};

use golog_base::{List, NoMemory};
use std::thread::{Threads, join};

/// What two parts have, one behind the other, or the refusal of one that was refused.
fn joined<Y: Drop>(
    first: Result<List<Y>, NoMemory>,
    rest: Result<List<Y>, NoMemory>,
) -> Result<List<Y>, NoMemory>
    ensures { IfOk result (IsJoined first rest) }
{
    let mut all = first?.into_vec();
    let mut behind = rest?.into_vec();
    all.append(&mut behind)?;
    Ok(List::from_vec(all))
}

// A thread is started on the caller's thread alone, so threads need not share what starts them.
/// What the work gives of the items, done in parts of this size: the last one on the caller's thread, and each other on
/// one of its own, where one can be started.
fn in_parts<R: Threads, T: Sync, Y: Send + Drop, F: Fn(&[T]) -> Result<List<Y>, NoMemory> + Sync>(
    rt: &R,
    size: usize,
    items: &[T],
    work: &F,
) -> Result<List<Y>, NoMemory>
    requires size { 0 < size }
    requires accepts { (part : _) (from many : ℕ) → part.now ≡ take many (drop from items.now) → F.pre work.now part }
    ensures { (g : _) → ((part r : _) → F.post work.now part r → IfOk r (λ ys. ys ≡ map g part.now))
        → IfOk result (λ all. all ≡ map g items.now) }
{
    if items.len() <= size {
        return work(items);
    }
    let (first, rest) = items.split_at(size);
    let (done, others) = join(
        rt,
        || -> Result<List<Y>, NoMemory>
            requires { F.pre work.now first }
            ensures { F.post work.entry.now first.entry result }
        { work(first) },
        || -> Result<List<Y>, NoMemory>
            requires { IsSync F.row × IsSync T.row × IsSend Y.row × (0 < size)
                × ((part : _) (from many : ℕ) → part.now ≡ take many (drop from rest.now) → F.pre work.now part) }
            ensures { (g : _) → ((part r : _) → F.post work.entry.now part r → IfOk r (λ ys. ys ≡ map g part.now))
                → IfOk result (λ all. all ≡ map g rest.entry.now) }
        { in_parts(rt, size, rest, work) },
    );
    joined(done, others)
}

/// What the work gives of the items, of which threads do a part each: so many parts at most, all of one length but the
/// last. One part is done on the caller's thread.
pub fn in_chunks<
    R: Threads,
    T: Sync,
    Y: Send + Drop,
    F: Fn(&[T]) -> Result<List<Y>, NoMemory> + Sync,
>(rt: &R, parts: usize, items: &[T], work: &F) -> Result<List<Y>, NoMemory>
    requires parts { 0 < parts }
    requires accepts { (part : _) (from many : ℕ) → part.now ≡ take many (drop from items.now) → F.pre work.now part }
    ensures { (g : _) → ((part r : _) → F.post work.now part r → IfOk r (λ ys. ys ≡ map g part.now))
        → IfOk result (λ all. all ≡ map g items.now) }
{
    let size = items.len().div_ceil(parts).max(1);
    in_parts(rt, size, items, work)
}
