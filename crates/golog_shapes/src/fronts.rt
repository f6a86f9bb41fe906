// Whether a program may be final without a step, and what it calls without one; which procedures
// may be skipped.
ghost use Rattle.std.specs.Prelude.{◌≡◌, map, IfOk};
ghost use Rattle.golog_shapes.specs.Told.{nesting, nesting_by, nestings_in};
ghost use Rattle.golog_shapes.specs.Fronts.{IsFront, skip_at, in_row, chosen, beside, draft_fore};

use crate::nesting::{PROC_NEST, nest_to};
use crate::rounds::{Round, rounds_of};
use golog_base::{List, NoMemory};
use golog_tree::{DraftProc, DraftProg};
use std::alloc::Global;

/// Nests are told up to this one, which is too deep.
pub const TOO_DEEP: u32 = PROC_NEST + 1;

/// Whether a procedure may be final without a step, by what is said of each; one that there is not has nothing
/// to do.
fn is_skipped(skips: &[bool], item: u32) -> bool
    ensures { result ≡ skip_at skips.now item }
{
    match skips.get(item as usize) {
        Some(skip) => *skip,
        None => true,
    }
}

/// Whether a program may be final without a step. The procedures that it may call without one go to the list.
#[cycle(fronts)]
fn front_of(skips: &[bool], prog: &DraftProg, calls: &mut List<u32>) -> Result<bool, NoMemory>
    ensures { IfOk result (λ skip. IsFront (draft_fore skips.now prog.now) skip calls.old calls.new) }
{
    match prog {
        DraftProg::Nil { .. } => Ok(true),
        DraftProg::Act { .. } | DraftProg::Test { .. } => Ok(false),
        DraftProg::Seq { parts, .. } => front_of_seq(skips, parts.as_slice(), calls),
        DraftProg::Choice { parts, .. } => front_of_choice(skips, parts.as_slice(), calls),
        DraftProg::Conc { parts, .. } | DraftProg::Prio { parts, .. } => {
            front_of_all(skips, parts.as_slice(), calls)
        }
        DraftProg::Pick { body, .. } | DraftProg::Search { body, .. } => {
            front_of(skips, body.get(), calls)
        }
        DraftProg::Star { body, .. }
        | DraftProg::While { body, .. }
        | DraftProg::Cstar { body, .. } => {
            front_of(skips, body.get(), calls)?;
            Ok(true)
        }
        DraftProg::If { yes, no, .. } => {
            let one = front_of(skips, yes.get(), calls)?;
            let other = front_of(skips, no.get(), calls)?;
            Ok(one || other)
        }
        DraftProg::Call { item, .. } => {
            calls.push(*item)?;
            Ok(is_skipped(skips, *item))
        }
    }
}

/// Parts in a row: a part counts where all before it may be skipped.
#[cycle(fronts)]
fn front_of_seq(
    skips: &[bool],
    parts: &[DraftProg],
    calls: &mut List<u32>,
) -> Result<bool, NoMemory>
    ensures { IfOk result
        (λ skip. IsFront (in_row (map (draft_fore skips.now) parts.now)) skip calls.old calls.new) }
{
    for part in parts {
        let skip = front_of(skips, part, calls)?;
        if !skip {
            return Ok(false);
        }
    }
    Ok(true)
}

/// Parts of which one is chosen; none is the empty program.
#[cycle(fronts)]
fn front_of_choice(
    skips: &[bool],
    parts: &[DraftProg],
    calls: &mut List<u32>,
) -> Result<bool, NoMemory>
    ensures { IfOk result
        (λ skip. IsFront (chosen (map (draft_fore skips.now) parts.now)) skip calls.old calls.new) }
{
    let mut skip = parts.is_empty();
    for part in parts {
        let one = front_of(skips, part, calls)?;
        skip = skip || one;
    }
    Ok(skip)
}

/// Parts side by side.
#[cycle(fronts)]
fn front_of_all(
    skips: &[bool],
    parts: &[DraftProg],
    calls: &mut List<u32>,
) -> Result<bool, NoMemory>
    ensures { IfOk result
        (λ skip. IsFront (beside (map (draft_fore skips.now) parts.now)) skip calls.old calls.new) }
{
    let mut skip = true;
    for part in parts {
        let one = front_of(skips, part, calls)?;
        skip = skip && one;
    }
    Ok(skip)
}

/// Whether a program may be final without a step.
fn skip_of(alloc: Global, skips: &[bool], prog: &DraftProg) -> Result<bool, NoMemory>
    ensures { IfOk result (λ skip. skip ≡ (draft_fore skips.now prog.now).skip) }
{
    let mut calls = List::new(alloc);
    let skip = front_of(skips, prog, &mut calls);
    drop(calls);
    skip
}

/// Which procedures may be final without a step, round by round.
#[derive(Clone, Copy)]
struct Skips<'a> {
    procs: &'a [DraftProc],
}

impl<'a> Round for Skips<'a> {
    ghost use Rattle.std.specs.Prelude.{length};
    ghost use Rattle.golog_shapes.specs.Fronts.{skip_round};

    ghost count = { λ by. length by.procs.now };

    ghost round = { λ by. skip_round by.procs.now };

    fn count(&self) -> usize {
        self.procs.len()
    }

    fn next(&self, alloc: Global, before: &[bool]) -> Result<List<bool>, NoMemory> {
        let mut after = List::new(alloc);
        for item in self.procs {
            after.push(skip_of(alloc, before, &item.body)?)?;
        }
        Ok(after)
    }
}

/// How deep a procedure nests by itself, up to the nest that is too deep, and what it calls without a step.
#[derive(Drop)]
pub struct Nesting {
    pub own: u32,
    pub calls: List<u32>,
}

fn nesting_of(alloc: Global, skips: &[bool], prog: &DraftProg) -> Result<Nesting, NoMemory>
    ensures { IfOk result (λ item. nesting item ≡ nesting_by skips.now prog.now) }
{
    let mut calls = List::new(alloc);
    front_of(skips, prog, &mut calls)?;
    Ok(Nesting {
        own: nest_to(prog, TOO_DEEP),
        calls,
    })
}

/// How deep each procedure nests by itself, and what it calls without a step.
pub fn nestings_of(alloc: Global, procs: &[DraftProc]) -> Result<List<Nesting>, NoMemory>
    ensures { IfOk result (λ items. map nesting items ≡ nestings_in procs.now) }
{
    let settled = rounds_of(alloc, &Skips { procs })?;
    let skips = settled.as_slice();
    let mut items = List::new(alloc);
    for item in procs {
        let told = nesting_of(alloc, skips, &item.body)?;
        items.push(told)?;
    }
    Ok(items)
}
