// Search blocks: which procedures have one, and the codes 33 and 37.
ghost use Rattle.std.specs.Prelude.{◌≡◌, List, ◌++◌, map, IfOk};
ghost use Rattle.std.specs.List.{list_any};
ghost use Rattle.golog_tree.specs.Ground.{to_count};
ghost use Rattle.golog_rows.specs.Least.{CodeAt, IsLeastOf};
ghost use Rattle.golog_shapes.specs.Fronts.{draft_has};
ghost use Rattle.golog_shapes.specs.Unguarded.{refused_where, said as spec_said};
ghost use Rattle.golog_shapes.specs.DraftBlocks.{numbers_fit as spec_numbers_fit, blocks_of, of_each, block_refusals, all_block_refusals};

use crate::codes::{NESTED_SEARCH, SEARCH_NUMBERS};
use crate::rounds::{Round, rounds_of};
use golog_base::{List, NoMemory};
use golog_rows::{Refusal, least_of, lesser};
use golog_tree::{DraftProc, DraftProg, Place};
use std::alloc::Global;

/// The greatest depth of a search block.
const DEPTHS: u32 = 64;

/// The greatest fuel of a search block.
const FUELS: u32 = 100_000;

/// A depth or a fuel, where one below 0 counts as none.
pub fn count_of(number: i32) -> u32
    ensures { result ≡ to_count number }
{
    if number < 0 { 0 } else { number as u32 }
}

fn numbers_fit(depth: i32, fuel: i32) -> bool
    ensures { result ≡ spec_numbers_fit depth fuel }
{
    let depth = count_of(depth);
    let fuel = count_of(fuel);
    1 <= depth && depth <= DEPTHS && 1 <= fuel && fuel <= FUELS
}

/// The lesser of the least of some refusals and one more, where its row fits.
pub fn lesser_where(least: Option<Refusal>, fits: bool, code: u8, at: Place) -> Option<Refusal>
    ensures { (before : List CodeAt) → IsLeastOf least before
        → IsLeastOf result (before ++ refused_where fits (code, at)) }
{
    if fits {
        return lesser(least, Refusal { code, at });
    }
    least
}

/// Whether a procedure has a block, by what is said of each.
pub fn is_said(said: &[bool], item: usize) -> bool
    ensures { result ≡ spec_said said.now item }
{
    match said.get(item) {
        Some(is) => *is,
        None => false,
    }
}

/// Whether a program has a block, or calls a procedure of which it is said; and the least refusal, also of its
/// blocks.
#[cycle(blocks)]
fn blocks_in(said: &[bool], prog: &DraftProg, least: &mut Option<Refusal>) -> bool
    ensures has { result ≡ draft_has said.now prog.now }
    ensures least { (before : List CodeAt) → IsLeastOf least.old before
        → IsLeastOf least.new (before ++ block_refusals said.now prog.now) }
{
    match prog {
        DraftProg::Nil { .. } | DraftProg::Act { .. } | DraftProg::Test { .. } => false,
        DraftProg::Call { item, .. } => is_said(said, *item as usize),
        DraftProg::Seq { parts, .. }
        | DraftProg::Choice { parts, .. }
        | DraftProg::Conc { parts, .. }
        | DraftProg::Prio { parts, .. } => blocks_in_each(said, parts.as_slice(), least),
        DraftProg::Pick { body, .. }
        | DraftProg::Star { body, .. }
        | DraftProg::While { body, .. }
        | DraftProg::Cstar { body, .. } => blocks_in(said, body.get(), least),
        DraftProg::If { yes, no, .. } => {
            let one = blocks_in(said, yes.get(), least);
            let other = blocks_in(said, no.get(), least);
            one || other
        }
        DraftProg::Search {
            depth,
            fuel,
            body,
            at,
        } => {
            let mut inner = None;
            let nested = blocks_in(said, body.get(), &mut inner);
            let outer = lesser_where(*least, nested, NESTED_SEARCH, *at);
            let outer = lesser_where(outer, !numbers_fit(*depth, *fuel), SEARCH_NUMBERS, *at);
            *least = least_of(outer, inner);
            true
        }
    }
}

/// Whether one of these has a block.
#[cycle(blocks)]
fn blocks_in_each(said: &[bool], parts: &[DraftProg], least: &mut Option<Refusal>) -> bool
    ensures has { result ≡ list_any (λ has. has) (map (draft_has said.now) parts.now) }
    ensures least { (before : List CodeAt) → IsLeastOf least.old before
        → IsLeastOf least.new (before ++ of_each (map (blocks_of said.now) parts.now)) }
{
    let mut has = false;
    for part in parts {
        let one = blocks_in(said, part, least);
        has = has || one;
    }
    has
}

/// Which procedures have a block or call one that has one, round by round.
#[derive(Clone, Copy)]
struct Blocks<'a> {
    procs: &'a [DraftProc],
}

impl<'a> Round for Blocks<'a> {
    ghost use Rattle.std.specs.Prelude.{length};
    ghost use Rattle.golog_shapes.specs.Fronts.{block_round};

    ghost count = { λ by. length by.procs.now };

    ghost round = { λ by. block_round by.procs.now };

    fn count(&self) -> usize {
        self.procs.len()
    }

    fn next(&self, alloc: Global, before: &[bool]) -> Result<List<bool>, NoMemory> {
        let mut after = List::new(alloc);
        for item in self.procs {
            let mut least = None;
            let has = blocks_in(before, &item.body, &mut least);
            after.push(has)?;
        }
        Ok(after)
    }
}

/// The least refusal of the search blocks of procedures and of the program of `main`.
pub fn blocks_refused(
    alloc: Global,
    procs: &[DraftProc],
    main: &DraftProg,
) -> Result<Option<Refusal>, NoMemory>
    ensures { IfOk result (λ least. IsLeastOf least (all_block_refusals procs.now main.now)) }
{
    let settled = rounds_of(alloc, &Blocks { procs })?;
    let said = settled.as_slice();
    let mut least = None;
    for item in procs {
        blocks_in(said, &item.body, &mut least);
    }
    blocks_in(said, main, &mut least);
    Ok(least)
}
