// A test of what a program holds that was read: interrupts are written out.
use crate::asserting::same;
use crate::reading::program_in;
use golog_tree::{DraftCond, DraftProg};
use std::alloc::Global;

/// Whether a program is what `(interrupt COND PROG)` stands for, at the place.
fn is_interrupt(prog: &DraftProg, place: u32) -> bool {
    let DraftProg::While { cond, body, at } = prog else {
        return false;
    };
    let DraftCond::Is { fluent, args, .. } = cond else {
        return false;
    };
    *at == place && *fluent == 0 && args.is_empty() && is_guarded(body.get())
}

/// Whether a program is an `if` whose other part is `(test false)`.
fn is_guarded(prog: &DraftProg) -> bool {
    let DraftProg::If { no, .. } = prog else {
        return false;
    };
    let DraftProg::Test { cond, .. } = no.get() else {
        return false;
    };
    matches!(cond, DraftCond::Truth { truth: false, .. })
}

/// Whether the program of this file is an interrupt at the place.
fn spells_interrupt(alloc: Global, file: &[u8], place: u32) -> bool {
    let read = program_in(alloc, file);
    let answer = match &read {
        Ok(program) => is_interrupt(&program.main.body, place),
        Err(_fault) => false,
    };
    drop(read);
    answer
}

#[test]
fn interrupts_are_written_out(rt: HostRuntime) {
    let file = b"(agent (main (interrupt true nil)))";
    same(
        &rt,
        "interrupt",
        spells_interrupt(rt.alloc(), file, 13),
        true,
    );
}
