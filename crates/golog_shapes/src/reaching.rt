// Which procedures reach which without a step, and how deep they nest with what they call: the
// codes 32 and 38.
ghost use Rattle.std.specs.Prelude.{◌≡◌, ◌==◌, ◌++◌, nat_lt, not, ◌&&◌, ◌||◌, List, map, length, replicate, slice_index, IfOk};
ghost use Rattle.golog_semantics.specs.FrontCalls.{greatest};
ghost use Rattle.golog_rows.specs.Least.{CodeAt, IsLeastOf};
ghost use Rattle.golog_shapes.specs.Settled.{rounds_of};
ghost use Rattle.golog_shapes.specs.Fronts.{nest_of_calls, nest_round};
ghost use Rattle.golog_shapes.specs.Limits.{told_nest};
ghost use Rattle.golog_shapes.specs.Told.{nesting, reached_each, is_endless as spec_is_endless, reaches_itself as spec_reaches_itself};
ghost use Rattle.golog_shapes.specs.Unguarded.{leads_to as spec_leads_to, refused_where, said as spec_said, all_front_refusals};

use crate::blocks::{is_said, lesser_where};
use crate::codes::{FRONT_DEEP, UNGUARDED};
use crate::fronts::{Nesting, TOO_DEEP, nestings_of};
use crate::nesting::PROC_NEST;
use crate::rounds::{Round, rounds_of};
use golog_base::{List, NoMemory};
use golog_rows::Refusal;
use golog_tree::{DraftProc, Place};
use std::alloc::Global;

/// Whether a call is of the procedure, or of one of which it is said that it reaches it.
fn is_led(goal: usize, said: &[bool], item: usize) -> bool
    ensures { result ≡ (item == goal || spec_said said.now item) }
{
    item == goal || is_said(said, item)
}

/// Whether one of the calls is of the procedure, or of one of which it is said that it reaches it.
fn leads_to(goal: usize, said: &[bool], calls: &[u32]) -> bool
    ensures { result ≡ spec_leads_to goal said.now calls.now }
{
    for item in calls {
        let leads = is_led(goal, said, *item as usize);
        if leads {
            return true;
        }
    }
    false
}

/// Which procedures reach one without a step, round by round.
#[derive(Clone, Copy)]
struct Reaching<'a> {
    items: &'a [Nesting],
    goal: usize,
}

impl<'a> Round for Reaching<'a> {
    ghost use Rattle.std.specs.Prelude.{length};
    ghost use Rattle.golog_shapes.specs.Fronts.{reach_round};
    ghost use Rattle.golog_shapes.specs.Told.{calls_told};

    ghost count = { λ by. length by.items.now };

    ghost round = { λ by. reach_round (calls_told by.items.now) by.goal };

    fn count(&self) -> usize {
        self.items.len()
    }

    fn next(&self, alloc: Global, before: &[bool]) -> Result<List<bool>, NoMemory> {
        let mut after = List::new(alloc);
        for item in self.items {
            let leads = leads_to(self.goal, before, item.calls.as_slice());
            after.push(leads)?;
        }
        Ok(after)
    }
}

/// Which procedures reach each, in the order of those that are reached.
fn reached_of_each(alloc: Global, items: &[Nesting]) -> Result<List<List<bool>>, NoMemory>
    ensures { IfOk result (λ reached. reached ≡ reached_each items.now) }
{
    let mut reached = List::new(alloc);
    for (goal, _item) in items.iter().enumerate() {
        let said = rounds_of(alloc, &Reaching { items, goal })?;
        reached.push(said)?;
    }
    Ok(reached)
}

/// Whether the procedure of the goal reaches itself, and this one reaches it.
fn reaches_endless(said: &[bool], goal: usize, item: usize) -> bool
    ensures { result ≡ (spec_said said.now goal && spec_said said.now item) }
{
    is_said(said, goal) && is_said(said, item)
}

/// Whether a procedure reaches one that reaches itself, as it may be itself.
fn is_endless(reached: &[List<bool>], item: usize) -> bool
    ensures { result ≡ spec_is_endless reached.now item }
{
    for (goal, said) in reached.iter().enumerate() {
        let reaches = reaches_endless(said.as_slice(), goal, item);
        if reaches {
            return true;
        }
    }
    false
}

/// Whether a procedure reaches itself.
fn reaches_itself(reached: &[List<bool>], item: usize) -> bool
    ensures { result ≡ spec_reaches_itself reached.now item }
{
    match reached.get(item) {
        Some(said) => is_said(said.as_slice(), item),
        None => false,
    }
}

/// The nest of a procedure, or 0 where there is none.
fn nest_at(nests: &[u32], item: usize) -> u32
    ensures { result ≡ slice_index nests.now item }
{
    match nests.get(item) {
        Some(nest) => *nest,
        None => 0,
    }
}

/// The greatest nest of the procedures that are called.
fn greatest_of(nests: &[u32], calls: &[u32]) -> u32
    ensures { result ≡ greatest (map (slice_index nests.now) calls.now) }
{
    let mut greatest = 0;
    for item in calls {
        let nest = nest_at(nests, *item as usize);
        greatest = nest.max(greatest);
    }
    greatest
}

/// How deep a procedure nests with what it calls, up to the nest that is too deep.
fn nest_with(item: &Nesting, before: &[u32]) -> u32
    ensures { result ≡ nest_of_calls told_nest before.now (nesting item.now) }
{
    let own = item.own.min(TOO_DEEP);
    let called = greatest_of(before, item.calls.as_slice()).min(TOO_DEEP);
    TOO_DEEP.min(own + called)
}

/// How deep procedures nest with what they call without a step, by their nests in the round before.
fn nests_after(alloc: Global, items: &[Nesting], before: &[u32]) -> Result<List<u32>, NoMemory>
    ensures { IfOk result (λ after. after ≡ nest_round told_nest (map nesting items.now) before.now) }
{
    let mut after = List::new(alloc);
    for item in items {
        after.push(nest_with(item, before))?;
    }
    Ok(after)
}

/// How deep procedures nest after as many rounds as there are procedures. It ends with the first round that
/// changes nothing.
fn nests_of(alloc: Global, items: &[Nesting]) -> Result<List<u32>, NoMemory>
    ensures { IfOk result (λ nests. nests ≡ rounds_of (nest_round told_nest (map nesting items.now))
        (length items.now) (replicate (length items.now) 0)) }
{
    let count = items.len();
    let mut nests = List::from_vec(vec![in alloc; 0; count]?);
    for _ in 0..count {
        let next = nests_after(alloc, items, nests.as_slice())?;
        if next.as_slice() == nests.as_slice() {
            return Ok(nests);
        }
        nests = next;
    }
    Ok(nests)
}

/// Whether the nest of a procedure with what it calls is too deep, where it has one.
fn is_deep(reached: &[List<bool>], nests: &[u32], item: usize) -> bool
    ensures { result ≡ (not (spec_is_endless reached.now item) && nat_lt 1024 (slice_index nests.now item)) }
{
    !is_endless(reached, item) && nest_at(nests, item) > PROC_NEST
}

/// The least of some refusals and those of a procedure for what it may call without a step.
fn front_refused(
    least: Option<Refusal>,
    reached: &[List<bool>],
    nests: &[u32],
    item: usize,
    at: Place,
) -> Option<Refusal>
    ensures { let itself = spec_reaches_itself reached.now item in
        let deep = not (spec_is_endless reached.now item) && nat_lt 1024 (slice_index nests.now item) in
        (before : List CodeAt) → IsLeastOf least before
        → IsLeastOf result (before ++ (refused_where itself (32, at) ++ refused_where deep (38, at))) }
{
    let itself = reaches_itself(reached, item);
    let least = lesser_where(least, itself, UNGUARDED, at);
    let deep = is_deep(reached, nests, item);
    lesser_where(least, deep, FRONT_DEEP, at)
}

/// The least refusal of procedures for what they may call without a step.
pub fn fronts_refused(alloc: Global, procs: &[DraftProc]) -> Result<Option<Refusal>, NoMemory>
    ensures { IfOk result (λ least. IsLeastOf least (all_front_refusals procs.now)) }
{
    let items = nestings_of(alloc, procs)?;
    let reached_by = reached_of_each(alloc, items.as_slice())?;
    let nested = nests_of(alloc, items.as_slice())?;
    let reached = reached_by.as_slice();
    let nests = nested.as_slice();
    let mut least = None;
    for (index, item) in procs.iter().enumerate() {
        least = front_refused(least, reached, nests, index, item.at);
    }
    Ok(least)
}
