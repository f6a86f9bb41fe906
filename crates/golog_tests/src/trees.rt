// Tests of `copy_prog`, `put_arg`, `tidy_seq` and its like, and `nest`.
use crate::asserting::same;
use golog_base::{Boxed, List, NoMemory, Word};
use golog_progress::State;
use golog_tree::{
    ActionItem, Arg, CauseItem, Firsts, FluentItem, PossItem, ProcItem, Prog, SenseItem, SortItem,
    copy_prog, nest, put_arg, tidy_conc, tidy_prio, tidy_seq,
};
use std::alloc::Global;

/// `(act 7 ARG)`.
fn act(alloc: Global, arg: Arg) -> Result<Prog, NoMemory> {
    Ok(Prog::Act {
        action: 7,
        args: List::copy_of(alloc, &[arg])?,
    })
}

/// `(pick (1 sort) (act 7 1))`, where the variable 1 is bound.
fn pick(alloc: Global) -> Result<Prog, NoMemory> {
    Ok(Prog::Pick {
        var: 1,
        sort: 0,
        body: Boxed::new(alloc, act(alloc, Arg::Var(1))?)?,
    })
}

fn is_act(prog: &Prog, wanted: Arg) -> bool {
    match prog {
        Prog::Act { action, args } => *action == 7 && args.as_slice() == [wanted].as_slice(),
        _ => false,
    }
}

/// Whether such a program was made.
fn is_made(made: &Result<Prog, NoMemory>, wanted: Arg) -> bool {
    match made {
        Ok(prog) => is_act(prog, wanted),
        Err(NoMemory) => false,
    }
}

/// Whether the bound variable of a `pick` that was made is still there.
fn is_bound(made: &Result<Prog, NoMemory>) -> bool {
    match made {
        Ok(Prog::Pick { var, body, .. }) => *var == 1 && is_act(body.get(), Arg::Var(1)),
        _ => false,
    }
}

/// Whether this is left of the action at the variable 1 when 9 is put in for a variable.
fn puts(alloc: Global, prog: &Prog, variable: u8, wanted: Arg) -> bool {
    let made = put_arg(alloc, prog, variable, 9);
    let answer = is_made(&made, wanted);
    drop(made);
    answer
}

fn copies(alloc: Global, prog: &Prog) -> bool {
    let made = copy_prog(alloc, prog);
    let answer = is_made(&made, Arg::Var(1));
    drop(made);
    answer
}

/// Whether 9 is put in for the variable 1 and no other, and whether a copy is the same.
fn puts_and_copies(alloc: Global) -> [bool; 3] {
    let made = act(alloc, Arg::Var(1));
    let answers = match &made {
        Ok(prog) => [
            puts(alloc, prog, 1, Arg::Const(9)),
            puts(alloc, prog, 0, Arg::Var(1)),
            copies(alloc, prog),
        ],
        Err(NoMemory) => [false; 3],
    };
    drop(made);
    answers
}

#[test]
fn constants_are_put_in(rt: HostRuntime) {
    same(&rt, "puts", puts_and_copies(rt.alloc()), [true; 3]);
}

/// Whether a `pick` is as it was when 9 is put in for its variable.
fn keeps_bound(alloc: Global, pick: &Prog) -> bool {
    let made = put_arg(alloc, pick, 1, 9);
    let answer = is_bound(&made);
    drop(made);
    answer
}

fn binder_keeps(alloc: Global) -> bool {
    let made = pick(alloc);
    let answer = match &made {
        Ok(pick) => keeps_bound(alloc, pick),
        Err(NoMemory) => false,
    };
    drop(made);
    answer
}

#[test]
fn binders_keep_their_variable(rt: HostRuntime) {
    same(&rt, "binder", binder_keeps(rt.alloc()), true);
}

fn after_nothing(alloc: Global) -> Result<Prog, NoMemory> {
    let prog = act(alloc, Arg::Const(1))?;
    tidy_seq(alloc, Prog::Nil, prog)
}

fn beside_nothing(alloc: Global) -> Result<Prog, NoMemory> {
    let prog = act(alloc, Arg::Const(1))?;
    tidy_conc(alloc, prog, Prog::Nil)
}

fn under_nothing(alloc: Global) -> Result<Prog, NoMemory> {
    let prog = act(alloc, Arg::Const(1))?;
    tidy_prio(alloc, Prog::Nil, prog)
}

fn before_nothing(alloc: Global) -> Result<Prog, NoMemory> {
    let prog = act(alloc, Arg::Const(1))?;
    tidy_seq(alloc, prog, Prog::Nil)
}

/// Whether the action alone was made.
fn is_alone(made: Result<Prog, NoMemory>) -> bool {
    let answer = is_made(&made, Arg::Const(1));
    drop(made);
    answer
}

/// How deep what was made nests, 0 where memory ran out.
fn nest_of(made: Result<Prog, NoMemory>) -> u32 {
    let nest = match &made {
        Ok(prog) => nest(prog),
        Err(NoMemory) => 0,
    };
    drop(made);
    nest
}

#[test]
fn empty_parts_are_left_out(rt: HostRuntime) {
    let alloc = rt.alloc();
    let alone = [
        is_alone(after_nothing(alloc)),
        is_alone(beside_nothing(alloc)),
        is_alone(under_nothing(alloc)),
    ];
    same(&rt, "alone", alone, [true; 3]);
    same(
        &rt,
        "an empty second part stays",
        nest_of(before_nothing(alloc)),
        2,
    );
}

/// Takes a type that threads share and take.
fn may_be_shared<T: Send + Sync>() {}

// Threads share agents and states: an agent is a record of these lists and of a program.
fn cross_threads() {
    may_be_shared::<List<SortItem>>();
    may_be_shared::<List<FluentItem>>();
    may_be_shared::<List<ActionItem>>();
    may_be_shared::<Firsts>();
    may_be_shared::<List<Word>>();
    may_be_shared::<List<u8>>();
    may_be_shared::<List<PossItem>>();
    may_be_shared::<List<CauseItem>>();
    may_be_shared::<List<SenseItem>>();
    may_be_shared::<List<ProcItem>>();
    may_be_shared::<Prog>();
    may_be_shared::<State>();
}
