// `decide` and its halves, `decide_with`, `decide_unbounded` and `heavy`: whether the program may end, its first
// certain step, and else why it is blocked.
ghost use Rattle.std.specs.Prelude.{◌≡◌, ◌≤◌, ◌&&◌, false, true, if◌then◌else◌, IfOk, IsTrue, nat_lt, not};
ghost use Rattle.std.specs.Option.{is_some};
ghost use Rattle.golog_tree.specs.Nest.{nest};
ghost use Rattle.golog_semantics.specs.Blocks.{moves};
ghost use Rattle.golog_semantics.specs.Certain.{EndIsCertain, StepIsCertain, StuckIsCertain};
ghost use Rattle.golog_semantics.specs.Heavy.{heavy as is_heavy};
ghost use Rattle.golog_semantics.specs.ProgFits.{fits};
ghost use Rattle.golog_semantics.specs.Search.{final, nest_limit};
ghost use Rattle.golog_semantics.specs.InSorts.{AreInSorts};
ghost use Rattle.golog_semantics.specs.Ways.{is_empty};
ghost use Rattle.golog_semantics.specs.WellFormed.{WellFormed};
ghost use Rattle.golog_ways.specs.Ready.{AreReady};
ghost use Rattle.golog_search.specs.Decided.{IsAhead, IsDecided, decision, stepping as after_step};
ghost use Rattle.golog_search.specs.Kept.{KeepsRun};
ghost use Rattle.golog_search.specs.Steady.{steady};
ghost use Rattle.golog_search.specs.Told.{AreTold};

use crate::searches::Searches;
use crate::steady::steady;
use crate::told::told_of;
use crate::weighing::some_block_weighs;
use crate::{Blocked, Decision};
use golog_base::NoMemory;
use golog_find::NEST_LIMIT;
use golog_progress::State;
use golog_semantics::{Mode, Move};
use golog_tree::{Agent, Prog, nest};
use golog_ways::{
    Expand, Keep, Plain, Reach, Ready, Stop, Walk, first_move_with, is_final, reach_of,
};
use std::alloc::Global;

/// Whether what a step leaves nests too deep; that is known not to be so, or is measured.
fn is_deep(left: &Prog, shallow: bool) -> bool
    requires { shallow ≡ true → nest left.now ≤ nest_limit }
    ensures { result ≡ nat_lt nest_limit (nest left.now) }
{
    !shallow && nest(left) > NEST_LIMIT
}

/// The step, unless what it leaves nests too deep.
fn stepping(step: Move, shallow: bool) -> Decision
    requires { shallow ≡ true → nest step.left ≤ nest_limit }
    ensures { result ≡ after_step step }
{
    if is_deep(&step.left, shallow) {
        drop(step);
        Decision::Deep
    } else {
        Decision::Step(step)
    }
}

/// Whether what a step leaves is known to nest no deeper than the limit, as the program does where it is
/// shallow.
fn stays_shallow(prog: &Prog, shallow: bool) -> bool
    requires { shallow ≡ true → nest prog.now ≤ nest_limit }
    ensures { result ≡ (shallow && is_some (steady prog.now)) }
{
    shallow && steady(prog).is_some()
}

/// The end or the first step, where one is certain. The conditions that are made ready are asked by their checks.
fn look_ahead_with<X: Expand>(
    alloc: Global,
    agent: &Agent,
    prog: &Prog,
    blocks: &Searches<'_, X>,
    shallow: bool,
    ready: &[Ready],
) -> Result<Option<Decision>, NoMemory>
    requires agent { WellFormed agent.now }
    requires program { IsTrue (fits agent.now prog.now) }
    requires sorts { AreInSorts agent.now blocks.now.state.now }
    requires told { AreTold agent.now blocks.now.state.now blocks.now.told.now }
    requires shallow { shallow ≡ true → nest prog.now ≤ nest_limit }
    requires checked { AreReady agent.now ready.now }
    ensures { IfOk result (IsAhead agent.now blocks.now.state.now prog.now blocks.now.bounded) }
{
    if is_final(alloc, agent, Mode::Must, prog, blocks.state)? {
        return Ok(Some(Decision::Final));
    }
    match first_move_with(alloc, agent, blocks, prog, blocks.state.values(), ready) {
        Ok(Some(step)) => Ok(Some(stepping(step, stays_shallow(prog, shallow)))),
        Ok(None) => Ok(None),
        Err(Stop::Fuel) => Ok(Some(Decision::Fuel)),
        Err(Stop::Memory) => Err(NoMemory),
    }
}

/// The end or the first step, where one is certain.
fn look_ahead<X: Expand>(
    alloc: Global,
    agent: &Agent,
    prog: &Prog,
    blocks: &Searches<'_, X>,
    shallow: bool,
) -> Result<Option<Decision>, NoMemory>
    requires agent { WellFormed agent.now }
    requires program { IsTrue (fits agent.now prog.now) }
    requires sorts { AreInSorts agent.now blocks.now.state.now }
    requires told { AreTold agent.now blocks.now.state.now blocks.now.told.now }
    requires shallow { shallow ≡ true → nest prog.now ≤ nest_limit }
    ensures { IfOk result (IsAhead agent.now blocks.now.state.now prog.now blocks.now.bounded) }
{
    look_ahead_with(alloc, agent, prog, blocks, shallow, &[])
}

/// Why a program that certainly neither ends nor steps is blocked, where no end is near either.
fn why(reach: Reach) -> Blocked
    ensures { result ≡ (if reach.near then Blocked.Unknown else if reach.may then Blocked.Depth else Blocked.Stuck) }
{
    if reach.near {
        Blocked::Unknown
    } else if reach.may {
        Blocked::Depth
    } else {
        Blocked::Stuck
    }
}

/// Why a program is blocked.
fn look_why<X: Expand>(
    alloc: Global,
    agent: &Agent,
    prog: &Prog,
    blocks: &Searches<'_, X>,
) -> Result<Decision, NoMemory>
    requires agent { WellFormed agent.now }
    requires program { IsTrue (fits agent.now prog.now) }
    requires sorts { AreInSorts agent.now blocks.now.state.now }
    requires told { AreTold agent.now blocks.now.state.now blocks.now.told.now }
    requires unended { final agent.now blocks.now.state.now Mode.Must prog.now ≡ false }
    requires stepless { IsTrue (is_empty (moves agent.now blocks.now.state.now Mode.Must prog.now)) }
    ensures { IfOk result (IsDecided agent.now blocks.now.state.now prog.now blocks.now.bounded) }
{
    if is_final(alloc, agent, Mode::Near, prog, blocks.state)? {
        return Ok(Decision::Blocked(Blocked::Unknown));
    }
    match reach_of(alloc, agent, blocks, prog, blocks.state.values()) {
        Ok(reach) => Ok(Decision::Blocked(why(reach))),
        Err(Stop::Fuel) => Ok(Decision::Fuel),
        Err(Stop::Memory) => Err(NoMemory),
    }
}

/// What a program does next, where its searches are bounded by the fuel of their blocks or not.
fn look<X: Expand>(
    alloc: Global,
    agent: &Agent,
    prog: &Prog,
    blocks: &Searches<'_, X>,
) -> Result<Decision, NoMemory>
    requires agent { WellFormed agent.now }
    requires program { IsTrue (fits agent.now prog.now) }
    requires sorts { AreInSorts agent.now blocks.now.state.now }
    requires told { AreTold agent.now blocks.now.state.now blocks.now.told.now }
    ensures { IfOk result (IsDecided agent.now blocks.now.state.now prog.now blocks.now.bounded) }
{
    match look_ahead(alloc, agent, prog, blocks, false)? {
        Some(decision) => Ok(decision),
        None => look_why(alloc, agent, prog, blocks),
    }
}

/// What a program does next in a state: it ends where that is certain; else it takes the first certain step,
/// with the run that begins with it where a search block begins one, unless what that leaves nests above
/// 2,048; and else it is blocked. `Fuel` comes only where the program is `heavy`.
///
/// In each world in which all is so that is known, the program may end where this is `Final`, a `Step` is a step
/// of it by the published Trans, and it can neither end nor step where this is `Blocked(Stuck)`. A search block
/// goes on along its run where all is still so that was known when the run went through.
pub fn decide(
    alloc: Global,
    agent: &Agent,
    prog: &Prog,
    state: &State,
) -> Result<Decision, NoMemory>
    requires agent { WellFormed agent.now }
    requires program { IsTrue (fits agent.now prog.now) }
    requires sorts { AreInSorts agent.now state.now }
    ensures decided { IfOk result (IsDecided agent.now state.now prog.now true) }
    ensures ends { IfOk result (λ d. d ≡ Decision.Final → EndIsCertain agent.now state.now prog.now) }
    ensures steps { IfOk result (λ d. (step : Move) → d ≡ Decision.Step step
        → StepIsCertain agent.now state.now prog.now step.label step.left) }
    ensures stuck { IfOk result (λ d. d ≡ Decision.Blocked Blocked.Stuck
        → StuckIsCertain agent.now state.now prog.now) }
    ensures kept { IfOk result (KeepsRun agent.now state.now prog.now) }
{
    decide_kept(alloc, agent, prog, state, &mut Walk::new())
}

/// What a program does next in a state, as `decide` tells it. Whether the runs that are under way go through is
/// asked of the keep, all of whose earlier calls were with this agent. Whoever expands lists the steps of many states of
/// a search at once; the answer names it nowhere.
pub fn decide_with<X: Expand, K: Keep>(
    alloc: Global,
    agent: &Agent,
    prog: &Prog,
    state: &State,
    keep: &mut K,
    expand: &X,
) -> Result<Decision, NoMemory>
    requires agent { WellFormed agent.now }
    requires program { IsTrue (fits agent.now prog.now) }
    requires sorts { AreInSorts agent.now state.now }
    requires serves { K.serves keep.old agent.now }
    ensures decided { IfOk result (IsDecided agent.now state.now prog.now true) }
    ensures ends { IfOk result (λ d. d ≡ Decision.Final → EndIsCertain agent.now state.now prog.now) }
    ensures steps { IfOk result (λ d. (step : Move) → d ≡ Decision.Step step
        → StepIsCertain agent.now state.now prog.now step.label step.left) }
    ensures stuck { IfOk result (λ d. d ≡ Decision.Blocked Blocked.Stuck
        → StuckIsCertain agent.now state.now prog.now) }
    ensures kept { IfOk result (KeepsRun agent.now state.now prog.now) }
    ensures serves { K.serves keep.new agent.now }
{
    let told = told_of(alloc, agent, prog, state, keep)?;
    let runs = told.as_slice();
    let blocks = Searches {
        state,
        bounded: true,
        told: runs,
        expand,
    };
    look(alloc, agent, prog, &blocks)
}

/// What a program does next in a state, as `decide` tells it. Whether the runs that are under way go through is
/// asked of the keep, all of whose earlier calls were with this agent.
pub fn decide_kept<K: Keep>(
    alloc: Global,
    agent: &Agent,
    prog: &Prog,
    state: &State,
    keep: &mut K,
) -> Result<Decision, NoMemory>
    requires agent { WellFormed agent.now }
    requires program { IsTrue (fits agent.now prog.now) }
    requires sorts { AreInSorts agent.now state.now }
    requires serves { K.serves keep.old agent.now }
    ensures decided { IfOk result (IsDecided agent.now state.now prog.now true) }
    ensures ends { IfOk result (λ d. d ≡ Decision.Final → EndIsCertain agent.now state.now prog.now) }
    ensures steps { IfOk result (λ d. (step : Move) → d ≡ Decision.Step step
        → StepIsCertain agent.now state.now prog.now step.label step.left) }
    ensures stuck { IfOk result (λ d. d ≡ Decision.Blocked Blocked.Stuck
        → StuckIsCertain agent.now state.now prog.now) }
    ensures kept { IfOk result (KeepsRun agent.now state.now prog.now) }
    ensures serves { K.serves keep.new agent.now }
{
    decide_with(alloc, agent, prog, state, keep, &Plain::new())
}

/// What `decide` tells of a program that certainly ends or steps, or whose blocks lack fuel for that. `None`
/// comes where neither an end nor a step is certain; then `decide_blocked` tells why.
pub fn decide_step(
    alloc: Global,
    agent: &Agent,
    prog: &Prog,
    state: &State,
) -> Result<Option<Decision>, NoMemory>
    requires agent { WellFormed agent.now }
    requires program { IsTrue (fits agent.now prog.now) }
    requires sorts { AreInSorts agent.now state.now }
    ensures { IfOk result (IsAhead agent.now state.now prog.now true) }
{
    let plain = Plain::new();
    let blocks = Searches {
        state,
        bounded: true,
        told: &[],
        expand: &plain,
    };
    look_ahead(alloc, agent, prog, &blocks, false)
}

/// What `decide_step` tells. Where the program is known to nest no deeper than 2,048, what a step leaves is
/// measured only where it may nest deeper than the program. Whether the runs that are under way go through is
/// asked of the keep, all of whose earlier calls were with this agent. Whoever expands lists the steps of many states of
/// a search at once. The conditions that are made ready are asked by their checks.
pub fn decide_step_of<X: Expand, K: Keep>(
    alloc: Global,
    agent: &Agent,
    prog: &Prog,
    state: &State,
    shallow: bool,
    keep: &mut K,
    expand: &X,
    ready: &[Ready],
) -> Result<Option<Decision>, NoMemory>
    requires agent { WellFormed agent.now }
    requires program { IsTrue (fits agent.now prog.now) }
    requires sorts { AreInSorts agent.now state.now }
    requires shallow { shallow ≡ true → nest prog.now ≤ nest_limit }
    requires serves { K.serves keep.old agent.now }
    requires checked { AreReady agent.now ready.now }
    ensures ahead { IfOk result (IsAhead agent.now state.now prog.now true) }
    ensures serves { K.serves keep.new agent.now }
{
    let told = told_of(alloc, agent, prog, state, keep)?;
    let runs = told.as_slice();
    let blocks = Searches {
        state,
        bounded: true,
        told: runs,
        expand,
    };
    look_ahead_with(alloc, agent, prog, &blocks, shallow, ready)
}

/// What `decide` tells of a program that certainly neither ends nor steps. Whoever expands lists the steps of many
/// states of a search at once.
pub fn decide_blocked<X: Expand>(
    alloc: Global,
    agent: &Agent,
    prog: &Prog,
    state: &State,
    expand: &X,
) -> Result<Decision, NoMemory>
    requires agent { WellFormed agent.now }
    requires program { IsTrue (fits agent.now prog.now) }
    requires sorts { AreInSorts agent.now state.now }
    requires unended { final agent.now state.now Mode.Must prog.now ≡ false }
    requires stepless { IsTrue (is_empty (moves agent.now state.now Mode.Must prog.now)) }
    ensures { IfOk result (IsDecided agent.now state.now prog.now true) }
{
    let blocks = Searches {
        state,
        bounded: true,
        told: &[],
        expand,
    };
    look_why(alloc, agent, prog, &blocks)
}

/// What a program does next in a state, whatever the fuel of its blocks. It is never `Fuel`.
pub fn decide_unbounded(
    alloc: Global,
    agent: &Agent,
    prog: &Prog,
    state: &State,
) -> Result<Decision, NoMemory>
    requires agent { WellFormed agent.now }
    requires program { IsTrue (fits agent.now prog.now) }
    requires sorts { AreInSorts agent.now state.now }
    ensures { IfOk result (λ d. d ≡ decision agent.now state.now prog.now) }
{
    let plain = Plain::new();
    let blocks = Searches {
        state,
        bounded: false,
        told: &[],
        expand: &plain,
    };
    look(alloc, agent, prog, &blocks)
}

/// Whether nothing is ahead.
fn is_nothing(ahead: Option<Decision>) -> bool
    ensures { result ≡ not (is_some ahead) }
{
    let none = ahead.is_none();
    drop(ahead);
    none
}

/// Whether a program that does not certainly end has no certain step.
fn is_stepless(alloc: Global, agent: &Agent, prog: &Prog, state: &State) -> Result<bool, NoMemory>
    requires agent { WellFormed agent.now }
    requires program { IsTrue (fits agent.now prog.now) }
    requires sorts { AreInSorts agent.now state.now }
    requires unended { final agent.now state.now Mode.Must prog.now ≡ false }
    ensures { IfOk result (λ b. b ≡ is_empty (moves agent.now state.now Mode.Must prog.now)) }
{
    let plain = Plain::new();
    let blocks = Searches {
        state,
        bounded: false,
        told: &[],
        expand: &plain,
    };
    let ahead = look_ahead(alloc, agent, prog, &blocks, false)?;
    Ok(is_nothing(ahead))
}

/// Whether a program is heavy in a state: it does not certainly end, and some search block at its front wants
/// more than its fuel for a certain run; or it wants more for one that there may be were more known, and the
/// program has no certain step or the block stands in the higher part of a `prio`. A run that is kept is no
/// block here.
pub fn heavy(alloc: Global, agent: &Agent, prog: &Prog, state: &State) -> Result<bool, NoMemory>
    requires agent { WellFormed agent.now }
    requires program { IsTrue (fits agent.now prog.now) }
    requires sorts { AreInSorts agent.now state.now }
    ensures { IfOk result (λ b. b ≡ is_heavy agent.now state.now prog.now) }
{
    if is_final(alloc, agent, Mode::Must, prog, state)? {
        return Ok(false);
    }
    if some_block_weighs(alloc, agent, prog, state, false)? {
        return Ok(true);
    }
    if is_stepless(alloc, agent, prog, state)? {
        some_block_weighs(alloc, agent, prog, state, true)
    } else {
        Ok(false)
    }
}
