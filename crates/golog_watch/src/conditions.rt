// The conditions of what is left of a run, the shortest first, each taken back over the steps
// before it.
ghost use Rattle.std.specs.Prelude.{◌≡◌, [], ◌∷◌, IfOk, IfSome, IsTrue, not};
ghost use Rattle.golog_semantics.specs.BlockFree.{has_block};
ghost use Rattle.golog_semantics.specs.ProgFits.{fits};
ghost use Rattle.golog_semantics.specs.Reports.{fits_label};
ghost use Rattle.golog_semantics.specs.WellFormed.{WellFormed};
ghost use Rattle.golog_regress.specs.Regression.{IsRegressed};
ghost use Rattle.golog_watch.specs.Watched.{AreTold, IsNext, Opens, Tells, events_of, with_small as with_cond};

use crate::opens::opening;
use golog_base::{List, NoMemory};
use golog_regress::{Event, nodes, regress};
use golog_tree::{Agent, Cond, Label, Prog, Way, copy_cond};
use golog_ways::{conjunction, end_cond};
use std::alloc::Global;

/// The most nodes of a condition that is kept.
const NODES: u64 = 10_000;

/// The condition before a step.
fn before(alloc: Global, agent: &Agent, cond: &Cond, label: Label) -> Result<Cond, NoMemory>
    requires formed { WellFormed agent.now }
    requires label { IsTrue (fits_label agent.now label) }
    ensures { IfOk result (λ c. IsRegressed agent.now (events_of label) cond.now c) }
{
    match label {
        Label::Quiet => copy_cond(alloc, cond),
        Label::Do(action) => regress(alloc, agent, cond, Event::Did(action)),
    }
}

/// The condition of a run: that its first way is a certain step, and before that step the condition of what is
/// left of the run.
fn first_and(
    alloc: Global,
    agent: &Agent,
    prog: &Prog,
    way: &Way,
    later: &[Way],
    opened: Cond,
    next: &Cond,
) -> Result<Cond, NoMemory>
    requires formed { WellFormed agent.now }
    requires opens { Opens agent.now prog.now way.now opened }
    requires tells { Tells agent.now way.now.left later.now next.now }
    ensures { IfOk result (Tells agent.now prog.now (way.now ∷ later.now)) }
{
    match before(alloc, agent, next, way.label) {
        Ok(next) => conjunction(alloc, opened, next),
        Err(refused) => {
            drop(opened);
            Err(refused)
        }
    }
}

/// The list with the condition behind it, unless that has too many nodes.
fn with_small(conds: List<Cond>, cond: Cond) -> Result<List<Cond>, NoMemory>
    ensures { IfOk result (λ list. list ≡ with_cond conds cond) }
{
    if nodes(&cond) > NODES {
        drop(cond);
        Ok(conds)
    } else {
        let mut conds = conds;
        conds.push(cond)?;
        Ok(conds)
    }
}

/// The condition of the empty run, which is that of the program's end.
fn last_of(alloc: Global, agent: &Agent, prog: &Prog) -> Result<List<Cond>, NoMemory>
    requires formed { WellFormed agent.now }
    requires program { IsTrue (fits agent.now prog.now) }
    ensures { IfOk result (AreTold agent.now prog.now []) }
{
    let end = end_cond(alloc, agent, prog)?;
    with_small(List::new(alloc), end)
}

/// The condition of a run, where there is one of all that is left of it after its first way.
fn whole_of(
    alloc: Global,
    agent: &Agent,
    prog: &Prog,
    way: &Way,
    later: &[Way],
    opened: Cond,
    conds: &List<Cond>,
) -> Result<Option<Cond>, NoMemory>
    requires formed { WellFormed agent.now }
    requires opens { Opens agent.now prog.now way.now opened }
    requires told { AreTold agent.now way.now.left later.now conds.now }
    ensures { IfOk result (λ found. IfSome found (IsNext agent.now prog.now (way.now ∷ later.now) conds.now)) }
{
    match conds.get(later.len()) {
        None => {
            drop(opened);
            Ok(None)
        }
        Some(next) => {
            let whole = first_and(alloc, agent, prog, way, later, opened, next)?;
            Ok(Some(whole))
        }
    }
}

/// The conditions of what is left of a run after its first way, and behind them that of the whole run.
fn with_first(
    alloc: Global,
    agent: &Agent,
    prog: &Prog,
    way: &Way,
    later: &[Way],
    opened: Cond,
    conds: List<Cond>,
) -> Result<List<Cond>, NoMemory>
    requires formed { WellFormed agent.now }
    requires opens { Opens agent.now prog.now way.now opened }
    requires told { AreTold agent.now way.now.left later.now conds }
    ensures { IfOk result (AreTold agent.now prog.now (way.now ∷ later.now)) }
{
    match whole_of(alloc, agent, prog, way, later, opened, &conds) {
        Ok(Some(whole)) => with_small(conds, whole),
        Ok(None) => Ok(conds),
        Err(refused) => {
            drop(conds);
            Err(refused)
        }
    }
}

/// The conditions that tell whether a run goes through, and whether all that is left of it does after its first
/// ways, the shortest first. Where one would have too many nodes, or a program too many steps, there is none for
/// that and for all that is longer.
pub fn conditions(
    alloc: Global,
    agent: &Agent,
    prog: &Prog,
    run: &[Way],
) -> Result<List<Cond>, NoMemory>
    requires formed { WellFormed agent.now }
    requires program { IsTrue (fits agent.now prog.now) }
    requires blockless { IsTrue (not (has_block agent.now prog.now)) }
    ensures { IfOk result (AreTold agent.now prog.now run.now) }
{
    let Some((way, later)) = run.split_first() else {
        return last_of(alloc, agent, prog);
    };
    let Some(opened) = opening(alloc, agent, prog, way)? else {
        return Ok(List::new(alloc));
    };
    match conditions(alloc, agent, &way.left, later) {
        Ok(conds) => with_first(alloc, agent, prog, way, later, opened, conds),
        Err(refused) => {
            drop(opened);
            Err(refused)
        }
    }
}
