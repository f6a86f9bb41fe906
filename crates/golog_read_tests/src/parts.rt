// Tests of what a theory and a condition hold that were read.
use crate::asserting::same;
use crate::reading::{condition_in, theory_in};
use golog_base::Word;
use golog_tree::{DraftArg, DraftCond, DraftStart, DraftTheory};
use std::alloc::Global;

const WORLD: &[u8] =
    b"(agent (device world) (sort place a b c) (sort level -1 4) (fluent blocked (place) bool false)
  (fluent floor () level) (start (floor) 2) (action go (place) world) (exo block (place) world)
  (poss (go x) (not (blocked x))) (causes (block x) (blocked x) true)
  (causes (block a) (floor) (- (floor) 1) (blocked y))
  (senses (go x) (blocked x)) (proc p) (main nil))";

fn is_word(word: Option<&Word>, text: &[u8]) -> bool {
    match word {
        Some(word) => word.as_bytes() == text,
        None => false,
    }
}

fn is_arg(arg: Option<&DraftArg>, text: &[u8]) -> bool {
    match arg {
        Some(DraftArg::Word { word, .. }) => is_word(Some(word), text),
        _ => false,
    }
}

/// How many sorts, devices, fluents, actions, preconditions, effects, sensings and starts it has.
fn sizes(theory: &DraftTheory) -> [usize; 8] {
    [
        theory.sorts.len(),
        theory.devices.len(),
        theory.fluents.len(),
        theory.actions.len(),
        theory.poss.len(),
        theory.causes.len(),
        theory.senses.len(),
        theory.starts.len(),
    ]
}

fn has_blocked(theory: &DraftTheory) -> bool {
    match theory.fluents.as_slice() {
        [_running, blocked, _floor] => {
            is_word(Some(&blocked.name), b"blocked")
                && blocked.args.as_slice() == [1].as_slice()
                && blocked.sort == 0
        }
        _ => false,
    }
}

fn has_actions(theory: &DraftTheory) -> bool {
    match theory.actions.as_slice() {
        [_start, _stop, go, block] => {
            go.device == Some(0)
                && go.posters.is_empty()
                && block.device == None
                && block.posters.as_slice() == [0].as_slice()
        }
        _ => false,
    }
}

fn has_precondition(theory: &DraftTheory) -> bool {
    match theory.poss.as_slice() {
        [poss] => {
            poss.action == 2
                && is_word(poss.vars.as_slice().first(), b"x")
                && matches!(poss.cond, DraftCond::Not { .. })
        }
        _ => false,
    }
}

fn has_starts(theory: &DraftTheory) -> bool {
    match theory.starts.as_slice() {
        [
            _running,
            DraftStart::Each {
                fluent: 1,
                value,
                ..
            },
            DraftStart::Each {
                fluent: 2,
                value: None,
                ..
            },
            DraftStart::One { fluent: 2, .. },
        ] => is_arg(value.as_ref(), b"false"),
        _ => false,
    }
}

fn has_effects(theory: &DraftTheory) -> bool {
    match theory.causes.as_slice() {
        [_start, _stop, block, _floor] => {
            block.action == 3
                && block.fluent == 1
                && is_arg(block.action_args.as_slice().first(), b"x")
                && is_arg(block.fluent_args.as_slice().first(), b"x")
                && matches!(block.cond, DraftCond::Truth { truth: true, .. })
        }
        _ => false,
    }
}

/// What is looked for in a theory.
fn parts(theory: &DraftTheory) -> [bool; 5] {
    [
        has_blocked(theory),
        has_actions(theory),
        has_precondition(theory),
        has_starts(theory),
        has_effects(theory),
    ]
}

/// The sizes and the parts of the theory that a file spells.
fn world(alloc: Global, file: &[u8]) -> ([usize; 8], [bool; 5]) {
    let read = theory_in(alloc, file);
    let answer = match &read {
        Ok(theory) => (sizes(theory), parts(theory)),
        Err(_fault) => ([0; 8], [false; 5]),
    };
    drop(read);
    answer
}

#[test]
fn a_theory_is_read_whole(rt: HostRuntime) {
    let (sizes, parts) = world(rt.alloc(), WORLD);
    same(&rt, "sizes", sizes, [3, 1, 3, 4, 1, 4, 1, 4]);
    same(&rt, "parts", parts, [true; 5]);
}

/// Whether a condition over a theory is `some`, over its second sort, at the place 0.
fn is_some_over(alloc: Global, theory: &DraftTheory) -> bool {
    let text = b"(some (x place) (and (blocked x) (< (floor) 3)))";
    let read = condition_in(alloc, theory, text);
    let answer = matches!(&read, Ok(DraftCond::ForSome { sort: 1, at: 0, .. }));
    drop(read);
    answer
}

/// The same over the theory of this file.
fn spells_some(alloc: Global, file: &[u8]) -> bool {
    let read = theory_in(alloc, file);
    let answer = match &read {
        Ok(theory) => is_some_over(alloc, theory),
        Err(_fault) => false,
    };
    drop(read);
    answer
}

#[test]
fn a_condition_has_its_sort_and_place(rt: HostRuntime) {
    same(&rt, "some", spells_some(rt.alloc(), WORLD), true);
}

/// Whether the result of the one action that senses may come later.
fn is_later(theory: &DraftTheory) -> bool {
    match theory.senses.as_slice() {
        [sense] => sense.later,
        _ => false,
    }
}

/// The same over the theory of a file.
fn is_sensed_later(alloc: Global, file: &[u8]) -> Option<bool> {
    let read = theory_in(alloc, file);
    let answer = match &read {
        Ok(theory) => Some(is_later(theory)),
        Err(_fault) => None,
    };
    drop(read);
    answer
}

#[test]
fn a_result_may_come_later_where_the_item_says_so(rt: HostRuntime) {
    let files: [(&[u8], bool); 2] = [
        (
            b"(agent (device d) (fluent p () bool) (action look () d) (senses (look) (p)) (main nil))",
            false,
        ),
        (
            b"(agent (device d) (fluent p () bool) (action look () d) (senses (look) (p) later) (main nil))",
            true,
        ),
    ];
    for (file, wanted) in files {
        same(&rt, file, is_sensed_later(rt.alloc(), file), Some(wanted));
    }
}
