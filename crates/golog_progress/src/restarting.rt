// `restart`: other start values for an agent.
ghost use Rattle.std.specs.Prelude.{◌≡◌, MatchResult};
ghost use Rattle.golog_semantics.specs.InSorts.{AreInSorts};
ghost use Rattle.golog_semantics.specs.Restart.{restarted};
ghost use Rattle.golog_semantics.specs.WellFormed.{WellFormed};

use golog_base::{List, NoMemory};
use golog_tree::Agent;
use std::alloc::Global;

/// Makes these values the start values of the agent, one for each ground fluent, and changes nothing else. The agent
/// stays as it was where memory runs out.
pub fn restart(alloc: Global, agent: &mut Agent, values: &[u8]) -> Result<(), NoMemory>
    requires agent { WellFormed agent.old }
    requires sorts { AreInSorts agent.old values.now }
    ensures restarted { MatchResult result (λ _. agent.new ≡ restarted agent.old values.now) (λ _. agent.new ≡ agent.old) }
    ensures well_formed { WellFormed agent.new }
{
    let starts = List::copy_of(alloc, values)?;
    agent.starts = starts;
    Ok(())
}
