// What a step leaves, put at its place beside another program.
ghost use Rattle.std.specs.Prelude.{◌≡◌, IfOk, IfErr};
ghost use Rattle.golog_tree.specs.Tidy.{tidy_seq, tidy_conc, tidy_prio};
ghost use Rattle.golog_fronts.specs.Context.{placed};
ghost use Rattle.golog_ways.specs.FirstMove.{moved_in};

use crate::answering::Stop;
use golog_fronts::{Place, put_at};
use golog_semantics::Move;
use golog_tree::Prog;
use std::alloc::Global;

/// The step, with what it leaves at its place beside the other program.
fn at_place(
    alloc: Global,
    place: Place,
    found: Option<Move>,
    other: &Prog,
) -> Result<Option<Move>, Stop>
    ensures left { IfOk result (λ m. m ≡ moved_in (λ l. placed place l other.now) found) }
    ensures memory { IfErr result (λ stop. stop ≡ Stop.Memory) }
{
    match found {
        None => Ok(None),
        Some(Move { label, left, run }) => {
            let left = put_at(alloc, place, left, other)?;
            Ok(Some(Move { label, left, run }))
        }
    }
}

/// The step, with the rest to be done after what it leaves.
pub fn before(alloc: Global, found: Option<Move>, rest: &Prog) -> Result<Option<Move>, Stop>
    ensures left { IfOk result (λ m. m ≡ moved_in (λ l. tidy_seq l rest.now) found) }
    ensures memory { IfErr result (λ stop. stop ≡ Stop.Memory) }
{
    at_place(alloc, Place::Before, found, rest)
}

/// The step of a first part, with what it leaves beside the second part.
pub fn first_beside(alloc: Global, found: Option<Move>, other: &Prog) -> Result<Option<Move>, Stop>
    ensures left { IfOk result (λ m. m ≡ moved_in (λ l. tidy_conc l other.now) found) }
    ensures memory { IfErr result (λ stop. stop ≡ Stop.Memory) }
{
    at_place(alloc, Place::FirstBeside, found, other)
}

/// The step of a second part, with what it leaves beside the first part.
pub fn second_beside(alloc: Global, one: &Prog, found: Option<Move>) -> Result<Option<Move>, Stop>
    ensures left { IfOk result (λ m. m ≡ moved_in (λ l. tidy_conc one.now l) found) }
    ensures memory { IfErr result (λ stop. stop ≡ Stop.Memory) }
{
    at_place(alloc, Place::SecondBeside, found, one)
}

/// The step of a higher part, with what it leaves over the lower part.
pub fn over(alloc: Global, found: Option<Move>, low: &Prog) -> Result<Option<Move>, Stop>
    ensures left { IfOk result (λ m. m ≡ moved_in (λ l. tidy_prio l low.now) found) }
    ensures memory { IfErr result (λ stop. stop ≡ Stop.Memory) }
{
    at_place(alloc, Place::Over, found, low)
}

/// The step of a lower part, with what it leaves under the higher part.
pub fn under(alloc: Global, high: &Prog, found: Option<Move>) -> Result<Option<Move>, Stop>
    ensures left { IfOk result (λ m. m ≡ moved_in (λ l. tidy_prio high.now l) found) }
    ensures memory { IfErr result (λ stop. stop ≡ Stop.Memory) }
{
    at_place(alloc, Place::Under, found, high)
}
