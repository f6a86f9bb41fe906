// The condition under which a way is a certain step.
ghost use Rattle.std.specs.Prelude.{◌≡◌, None, Some, if◌then◌else◌, IfOk, IfSome, IsTrue, not};
ghost use Rattle.golog_semantics.specs.BlockFree.{has_block};
ghost use Rattle.golog_semantics.specs.ProgFits.{fits};
ghost use Rattle.golog_semantics.specs.Same.{same_way};
ghost use Rattle.golog_semantics.specs.Ways.{is_empty};
ghost use Rattle.golog_semantics.specs.WellFormed.{WellFormed};
ghost use Rattle.golog_fronts.specs.FrontLists.{guarded_of};
ghost use Rattle.golog_watch.specs.Watched.{Opens, conds_for};

use crate::looks::is_light;
use golog_base::{List, NoMemory};
use golog_memo::is_same_label;
use golog_tree::{Agent, Cond, Prog, Way, copy_cond, is_same_prog};
use golog_ways::{Front, fronts};
use std::alloc::Global;

/// Whether the front is this step.
fn is_step(front: &Front, way: &Way) -> bool
    ensures { result ≡ same_way way.now (guarded_of front.now).way }
{
    is_same_label(way.label, front.label) && is_same_prog(&way.left, &front.left)
}

/// The conditions of those of the fronts that are this step.
fn conds_of(alloc: Global, fronts: &[Front], way: &Way) -> Result<List<Cond>, NoMemory>
    ensures { IfOk result (λ conds. conds ≡ conds_for way.now fronts.now) }
{
    let mut conds = List::new(alloc);
    for front in fronts {
        if is_step(front, way) {
            conds.push(copy_cond(alloc, &front.cond)?)?;
        }
    }
    Ok(conds)
}

/// That one of the conditions holds, where there are any.
fn one_of(conds: List<Cond>) -> Option<Cond>
    ensures { result ≡ (if is_empty conds then None else Some (Cond.Or conds)) }
{
    if conds.is_empty() {
        None
    } else {
        Some(Cond::Or(conds))
    }
}

/// The condition under which the way is a certain step of the program. `None` where it never is, or where its
/// steps are too many to be listed.
pub fn opening(
    alloc: Global,
    agent: &Agent,
    prog: &Prog,
    way: &Way,
) -> Result<Option<Cond>, NoMemory>
    requires formed { WellFormed agent.now }
    requires program { IsTrue (fits agent.now prog.now) }
    requires blockless { IsTrue (not (has_block agent.now prog.now)) }
    ensures { IfOk result (λ found. IfSome found (Opens agent.now prog.now way.now)) }
{
    if !is_light(agent, prog) {
        return Ok(None);
    }
    let fronts = fronts(alloc, agent, prog)?;
    let conds = conds_of(alloc, fronts.as_slice(), way)?;
    Ok(one_of(conds))
}
