// `ask`: the truth of a condition by what is known after the entries of a journal.
ghost use Rattle.std.specs.Prelude.{◌≡◌, [], IfOk, IsTrue};
ghost use Rattle.golog_semantics.specs.Fits.{cond_fits, nothing_bound};
ghost use Rattle.golog_semantics.specs.Progress.{values_after};
ghost use Rattle.golog_semantics.specs.Truth.{env_of, truth_of};
ghost use Rattle.golog_semantics.specs.WellFormed.{WellFormed};
ghost use Rattle.golog_progress.specs.Entries.{EntriesFit};

use crate::earlier::taken_back;
use golog_base::NoMemory;
use golog_known::{Env, value};
use golog_progress::start;
use golog_semantics::Entry;
use golog_tree::{Agent, Cond, Truth};
use std::alloc::Global;

/// The truth of a condition by what is known after the entries, over all of which a state is rolled.
#[tactic(auto, using(crate::proofs::Closed::closed))]
fn rolled(alloc: Global, agent: &Agent, entries: &[Entry], cond: &Cond) -> Result<Truth, NoMemory>
    requires formed { WellFormed agent.now }
    requires entries { EntriesFit agent.now entries.now }
    requires cond { IsTrue (cond_fits agent.now cond.now nothing_bound) }
    ensures { IfOk result (λ truth. truth
        ≡ truth_of agent.now (values_after agent.now entries.now) cond.now (env_of [])) }
{
    let mut state = start(alloc, agent)?;
    state.roll(agent, entries);
    Ok(value(agent, cond, &Env::new(), state.values()))
}

/// The truth of a condition without free variables by what is known after the entries: unknown where that does not
/// settle it. The entries need not be those of an online execution.
pub fn ask(alloc: Global, agent: &Agent, entries: &[Entry], cond: &Cond) -> Result<Truth, NoMemory>
    requires formed { WellFormed agent.now }
    requires entries { EntriesFit agent.now entries.now }
    requires cond { IsTrue (cond_fits agent.now cond.now nothing_bound) }
    ensures { IfOk result (λ truth. truth
        ≡ truth_of agent.now (values_after agent.now entries.now) cond.now (env_of [])) }
{
    match taken_back(alloc, agent, cond, entries) {
        Ok(earlier) => {
            let truth = rolled(alloc, agent, &entries[..earlier.left], &earlier.cond);
            drop(earlier);
            truth
        }
        Err(wanted) => Err(wanted),
    }
}
