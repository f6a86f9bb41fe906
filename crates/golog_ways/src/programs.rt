// The calls over a `State`: `is_final`, `first` and `any`.
ghost use Rattle.std.specs.Prelude.{◌≡◌, IfOk, IfSome, IsTrue, false, not};
ghost use Rattle.golog_semantics.specs.Blocks.{ways};
ghost use Rattle.golog_semantics.specs.ProgFits.{fits};
ghost use Rattle.golog_semantics.specs.Search.{final};
ghost use Rattle.golog_semantics.specs.InSorts.{AreInSorts};
ghost use Rattle.golog_semantics.specs.Ways.{is_empty};
ghost use Rattle.golog_semantics.specs.WellFormed.{WellFormed};
ghost use Rattle.golog_fronts.specs.Closed.{IsClosed};
ghost use Rattle.golog_ways.specs.First.{first_way, has_way, head_of};
ghost use Rattle.golog_fronts.specs.FrontBlock.{has_front_block};
ghost use Rattle.golog_ways.specs.InWorlds.{EndIsSo, StepIsSo, WayIsCertain};
ghost use Rattle.golog_fronts.specs.Lefts.{LeavesClosed};

use crate::here::Here;
use crate::without::{any_without, first_without};
use golog_base::NoMemory;
use golog_progress::State;
use golog_semantics::Mode;
use golog_tree::{Agent, Prog, Way};
use std::alloc::Global;

/// Whether a program may end in a state, in the mode. Where it is certain that it may, it may in each world in
/// which all is so that is known; where it isn't possible, in none. `NoMemory` where none is left for the
/// bodies of picks and calls, with constants put in.
pub fn is_final(
    alloc: Global,
    agent: &Agent,
    mode: Mode,
    prog: &Prog,
    state: &State,
) -> Result<bool, NoMemory>
    requires agent { WellFormed agent.now }
    requires program { IsClosed agent.now prog.now }
    requires sorts { AreInSorts agent.now state.now }
    ensures end { IfOk result (λ b. b ≡ final agent.now state.now mode prog.now) }
    ensures worlds { IsTrue (fits agent.now prog.now)
        → IfOk result (EndIsSo agent.now state.now prog.now mode) }
{
    let here = Here {
        alloc,
        agent,
        values: state.values(),
        ready: &[],
    };
    here.can_end(mode, prog)
}

/// The first certain step of a program in a state, found without listing the others: `None` exactly where
/// no step is certain. The steps of search blocks are not among them; where no block stands at the front
/// (`has_front_block`), the answer is the first of all certain steps, and a step in each world in which all is
/// so that is known. What the step leaves is closed as the program is, so that its own first step can be asked
/// for in turn, and its action is the agent's. `NoMemory` where none is left for the bodies of picks and calls,
/// or for what the step leaves.
pub fn first(
    alloc: Global,
    agent: &Agent,
    prog: &Prog,
    state: &State,
) -> Result<Option<Way>, NoMemory>
    requires agent { WellFormed agent.now }
    requires program { IsClosed agent.now prog.now }
    requires sorts { AreInSorts agent.now state.now }
    ensures way { IfOk result (λ w. w ≡ first_way agent.now state.now prog.now) }
    ensures all { has_front_block agent.now prog.now ≡ false
        → IfOk result (λ w. w ≡ head_of (ways agent.now state.now Mode.Must prog.now)) }
    ensures closed { IfOk result (λ w. IfSome w (LeavesClosed agent.now prog.now)) }
    ensures worlds { IsTrue (fits agent.now prog.now) → has_front_block agent.now prog.now ≡ false
        → IfOk result (λ w. IfSome w (WayIsCertain agent.now state.now prog.now)) }
{
    first_without(alloc, agent, prog, state.values())
}

/// Whether a program has a step in a state, in the mode. The steps of search blocks do not count; where no
/// block stands at the front (`has_front_block`), the answer is that of all steps: where a step is certain,
/// each world in which all is so that is known has one; where none is possible, no such world has. `NoMemory`
/// where none is left for the bodies of picks and calls, with constants put in.
pub fn any(
    alloc: Global,
    agent: &Agent,
    mode: Mode,
    prog: &Prog,
    state: &State,
) -> Result<bool, NoMemory>
    requires agent { WellFormed agent.now }
    requires program { IsClosed agent.now prog.now }
    requires sorts { AreInSorts agent.now state.now }
    ensures way { IfOk result (λ b. b ≡ has_way agent.now state.now mode prog.now) }
    ensures all { has_front_block agent.now prog.now ≡ false
        → IfOk result (λ b. b ≡ not (is_empty (ways agent.now state.now mode prog.now))) }
    ensures worlds { IsTrue (fits agent.now prog.now) → has_front_block agent.now prog.now ≡ false
        → IfOk result (StepIsSo agent.now state.now prog.now mode) }
{
    any_without(alloc, agent, mode, prog, state.values())
}
