// Two parts of a program joined by a construct that `Join` names, as they are.
ghost use Rattle.std.specs.Prelude.{◌≡◌, IfOk};
ghost use Rattle.golog_tree.specs.Joined.{IsJoined, joined};

use crate::prog::Prog;
use golog_base::{Boxed, NoMemory, both};
use std::alloc::Global;

/// What joins two parts of a program.
#[derive(Clone, Copy)]
pub enum Join {
    Seq,
    Choice,
    Conc,
    Prio,
}

fn joined(join: Join, first: Boxed<Prog>, second: Boxed<Prog>) -> Prog
    ensures { result ≡ joined join first second }
{
    match join {
        Join::Seq => Prog::Seq(first, second),
        Join::Choice => Prog::Choice(first, second),
        Join::Conc => Prog::Conc(first, second),
        Join::Prio => Prog::Prio(first, second),
    }
}

/// Both parts joined, where there was memory for each.
pub(crate) fn join_parts(
    join: Join,
    first: Result<Boxed<Prog>, NoMemory>,
    second: Result<Boxed<Prog>, NoMemory>,
) -> Result<Prog, NoMemory>
    ensures { IfOk result (IsJoined join first second) }
{
    let (first, second) = both(first, second)?;
    Ok(joined(join, first, second))
}

/// Both programs joined, each in memory of its own.
pub fn join_two(alloc: Global, join: Join, first: Prog, second: Prog) -> Result<Prog, NoMemory>
    ensures { IfOk result (λ prog. prog ≡ joined join first second) }
{
    join_parts(join, Boxed::new(alloc, first), Boxed::new(alloc, second))
}
