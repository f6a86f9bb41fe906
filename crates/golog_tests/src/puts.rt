// A test of `copy_cond` and `put_cond`.
use crate::asserting::same;
use golog_base::{List, NoMemory};
use golog_tree::{Arg, Cond, copy_cond, put_cond};
use std::alloc::Global;

/// That the fluent 2 holds at the variable 1.
fn at_variable(alloc: Global) -> Result<Cond, NoMemory> {
    Ok(Cond::Is {
        fluent: 2,
        args: List::copy_of(alloc, &[Arg::Var(1)])?,
    })
}

/// Whether the condition is that the fluent 2 holds at this argument.
fn is_at(cond: &Cond, wanted: Arg) -> bool {
    match cond {
        Cond::Is { fluent, args } => *fluent == 2 && args.as_slice() == [wanted].as_slice(),
        _ => false,
    }
}

/// Whether such a condition was made.
fn is_made_at(made: &Result<Cond, NoMemory>, wanted: Arg) -> bool {
    match made {
        Ok(cond) => is_at(cond, wanted),
        Err(_fault) => false,
    }
}

/// Whether a copy of a condition at the variable 1 is at that too.
fn copies(alloc: Global, cond: &Cond) -> bool {
    let made = copy_cond(alloc, cond);
    let answer = is_made_at(&made, Arg::Var(1));
    drop(made);
    answer
}

/// Whether the condition is at this argument when the constant 9 is put in for this variable.
fn puts(alloc: Global, cond: &Cond, variable: u8, wanted: Arg) -> bool {
    let made = put_cond(alloc, cond, variable, 9);
    let answer = is_made_at(&made, wanted);
    drop(made);
    answer
}

/// Whether a condition at the variable 1 is copied, and whether 9 is put in for that variable and no other.
fn answers(alloc: Global) -> [bool; 3] {
    let made = at_variable(alloc);
    let answers = match &made {
        Ok(cond) => [
            copies(alloc, cond),
            puts(alloc, cond, 1, Arg::Const(9)),
            puts(alloc, cond, 0, Arg::Var(1)),
        ],
        Err(_fault) => [false; 3],
    };
    drop(made);
    answers
}

#[test]
fn constants_are_put_into_conditions(rt: HostRuntime) {
    same(&rt, "puts", answers(rt.alloc()), [true; 3]);
}
