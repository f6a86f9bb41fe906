// What a step leaves, put at its place beside another program.
ghost use Rattle.std.specs.Prelude.{◌≡◌, IfOk};
ghost use Rattle.golog_fronts.specs.Context.{placed};

use golog_base::NoMemory;
use golog_tree::{Prog, copy_prog, tidy_conc, tidy_prio, tidy_seq};
use std::alloc::Global;

/// Where a program stands beside another one; in a `conc` it is the first part or the second.
#[derive(Clone, Copy, Debug)]
pub enum Place {
    Before,
    FirstBeside,
    SecondBeside,
    Over,
    Under,
}

/// The program at its place beside the other one.
fn placed(alloc: Global, place: Place, left: Prog, other: Prog) -> Result<Prog, NoMemory>
    ensures { IfOk result (λ p. p ≡ placed place left other) }
{
    match place {
        Place::Before => tidy_seq(alloc, left, other),
        Place::FirstBeside => tidy_conc(alloc, left, other),
        Place::SecondBeside => tidy_conc(alloc, other, left),
        Place::Over => tidy_prio(alloc, left, other),
        Place::Under => tidy_prio(alloc, other, left),
    }
}

/// The program at its place beside a copy of the other one.
pub fn put_at(alloc: Global, place: Place, left: Prog, other: &Prog) -> Result<Prog, NoMemory>
    ensures { IfOk result (λ p. p ≡ placed place left other.now) }
{
    match copy_prog(alloc, other) {
        Ok(other) => placed(alloc, place, left, other),
        Err(refused) => {
            drop(left);
            Err(refused)
        }
    }
}
