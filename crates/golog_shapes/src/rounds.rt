// What is said of procedures round by round, until a round changes nothing.
ghost use Rattle.std.specs.Prelude.{◌≡◌, false, replicate, IfOk};
ghost use Rattle.golog_shapes.specs.Settled.{rounds_of};

use golog_base::{List, NoMemory};
use std::alloc::Global;

/// What is said of each of some procedures, by what was said of them in the round before.
pub trait Round {
    ghost use Rattle.std.specs.Prelude.{ℕ, Bool, List, IfOk};

    ghost count: { Self → ℕ };

    ghost round: { Self → List Bool → List Bool };

    /// How many procedures there are.
    fn count(&self) -> usize
        ensures { result ≡ count self.now };

    /// What the next round says of each.
    fn next(&self, alloc: Global, before: &[bool]) -> Result<List<bool>, NoMemory>
        ensures { IfOk result (λ after. after ≡ round self.now before.now) };
}

/// What is said after as many rounds as there are procedures, where it is said of none first. It ends with the
/// first round that changes nothing.
pub fn rounds_of<R: Round>(alloc: Global, by: &R) -> Result<List<bool>, NoMemory>
    ensures { IfOk result
        (λ said. said ≡ rounds_of (R.round by.now) (R.count by.now) (replicate (R.count by.now) false)) }
{
    let count = by.count();
    let mut said = List::from_vec(vec![in alloc; false; count]?);
    for _ in 0..count {
        let next = by.next(alloc, said.as_slice())?;
        if next.as_slice() == said.as_slice() {
            return Ok(said);
        }
        said = next;
    }
    Ok(said)
}
