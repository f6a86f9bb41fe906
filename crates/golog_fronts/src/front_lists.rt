// `Front`, a step with the condition under which it may be taken, and lists of fronts changed.
ghost use Rattle.std.specs.Prelude.{◌≡◌, [], ◌∷◌, ◌++◌, map, IfOk};
ghost use Rattle.golog_fronts.specs.Context.{placed};
ghost use Rattle.golog_fronts.specs.FrontLists.{front_in, front_where as with_guard, none_open as none_of_these};

use crate::combining::guarded;
use crate::context::{Place, put_at};
use golog_base::{Boxed, List, NoMemory, both};
use golog_tree::{Cond, Label, Prog, copy_cond, copy_prog};
use std::alloc::Global;

/// A step of a program: the condition under which it may be taken, what it does, and the program left.
#[derive(Drop)]
pub struct Front {
    pub cond: Cond,
    pub label: Label,
    pub left: Prog,
}

/// A copy of the program at its place beside a copy of the other one.
fn copy_at(alloc: Global, place: Place, left: &Prog, other: &Prog) -> Result<Prog, NoMemory>
    ensures { IfOk result (λ p. p ≡ placed place left.now other.now) }
{
    let left = copy_prog(alloc, left)?;
    put_at(alloc, place, left, other)
}

/// That both conditions hold, with copies of them.
fn both_of(alloc: Global, cond: &Cond, other: &Cond) -> Result<Cond, NoMemory>
    ensures { IfOk result (λ c. c ≡ Cond.And (cond.now ∷ other.now ∷ [])) }
{
    let other = copy_cond(alloc, other)?;
    guarded(alloc, cond, other)
}

/// The front, with what it leaves at its place beside the other program.
fn front_at(alloc: Global, place: Place, front: &Front, other: &Prog) -> Result<Front, NoMemory>
    ensures { IfOk result (λ f. f ≡ front_in (λ l. placed place l other.now) front.now) }
{
    let cond = copy_cond(alloc, &front.cond);
    let left = copy_at(alloc, place, &front.left, other);
    let (cond, left) = both(cond, left)?;
    Ok(Front {
        cond,
        label: front.label,
        left,
    })
}

/// The front, under one more condition.
fn front_where(alloc: Global, cond: &Cond, front: &Front) -> Result<Front, NoMemory>
    ensures { IfOk result (λ f. f ≡ with_guard cond.now front.now) }
{
    let cond = both_of(alloc, cond, &front.cond);
    let left = copy_prog(alloc, &front.left);
    let (cond, left) = both(cond, left)?;
    Ok(Front {
        cond,
        label: front.label,
        left,
    })
}

/// The fronts, with what each leaves at its place beside the other program.
pub fn fronts_at(
    alloc: Global,
    place: Place,
    fronts: &[Front],
    other: &Prog,
) -> Result<List<Front>, NoMemory>
    ensures { IfOk result (λ fs. fs ≡ map (front_in (λ l. placed place l other.now)) fronts.now) }
{
    let mut list = List::new(alloc);
    for front in fronts {
        list.push(front_at(alloc, place, front, other)?)?;
    }
    Ok(list)
}

/// The fronts, under one more condition.
pub fn fronts_where(alloc: Global, cond: &Cond, fronts: &[Front]) -> Result<List<Front>, NoMemory>
    ensures { IfOk result (λ fs. fs ≡ map (with_guard cond.now) fronts.now) }
{
    let mut list = List::new(alloc);
    for front in fronts {
        list.push(front_where(alloc, cond, front)?)?;
    }
    Ok(list)
}

/// The conditions of these fronts.
fn conds_of(alloc: Global, fronts: &[Front]) -> Result<List<Cond>, NoMemory>
    ensures { IfOk result (λ list. list ≡ map (λ f. f.cond) fronts.now) }
{
    let mut list = List::new(alloc);
    for front in fronts {
        list.push(copy_cond(alloc, &front.cond)?)?;
    }
    Ok(list)
}

/// That none of these steps may be taken.
pub fn none_open(alloc: Global, fronts: &[Front]) -> Result<Cond, NoMemory>
    ensures { IfOk result (λ c. c ≡ none_of_these fronts.now) }
{
    let some = Cond::Or(conds_of(alloc, fronts)?);
    Ok(Cond::Not(Boxed::new(alloc, some)?))
}

/// The first list and then the other.
pub fn joined(ones: List<Front>, others: List<Front>) -> Result<List<Front>, NoMemory>
    ensures { IfOk result (λ fs. fs ≡ ones ++ others) }
{
    let mut all = ones.into_vec();
    let mut more = others.into_vec();
    all.append(&mut more)?;
    Ok(List::from_vec(all))
}
