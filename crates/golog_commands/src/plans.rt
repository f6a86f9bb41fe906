// What the files of a run that follows plans hold: `plannable_in`.
ghost use Rattle.std.specs.Prelude.{◌≡◌, All, IfOk, IfErr, false, option_map};
ghost use Rattle.golog_semantics.specs.BlockFree.{has_block as does_have_block};
ghost use Rattle.golog_semantics.specs.WellFormed.{WellFormed};
ghost use Rattle.golog_script.specs.ScriptTexts.{HasTexts};
ghost use Rattle.golog_commands.specs.Inputs.{ReadsScripts};
ghost use Rattle.golog_commands.specs.Outcome.{HoldsPlanned, IfEnded, Never, OfAgent, OfPlannable, OfScripts};

use crate::outcome::Input;
use crate::ready::{Ready, Unready, agent_in, ready_of, refused};
use golog_base::Files;
use golog_branch::has_block;
use golog_tree::Agent;
use std::alloc::Global;

/// The code of an agent whose program holds or reaches a search block, of which there is no plan.
const BLOCK_IN_PLAN: u8 = 39;

/// What the files of these names hold: an agent whose program reaches no search block, and scripts of its devices. The
/// agent is refused for a block before the devices file is read.
pub fn plannable_in<F: Files>(
    alloc: Global,
    files: &mut F,
    agent: &str,
    devices: Option<&str>,
) -> Result<Ready, Unready>
    ensures ready { IfOk result (HoldsPlanned (F.held files.old) agent.now (option_map (λ file. file.now) devices.entry)) }
    ensures unready { IfErr result (λ fault. IfEnded fault
        (OfAgent (F.held files.old) (F.faults files.old) (F.faults files.new) agent.now
        (λ a. OfPlannable a (OfScripts (F.held files.old) (F.faults files.old) (F.faults files.new) a
        (option_map (λ file. file.now) devices.entry) Never)))) }
{
    match agent_in(alloc, files, agent) {
        Ok(agent) => plannable_of(alloc, files, agent, devices),
        Err(unready) => Err(unready),
    }
}

// The same of an agent that was read.
fn plannable_of<F: Files>(
    alloc: Global,
    files: &mut F,
    agent: Agent,
    devices: Option<&str>,
) -> Result<Ready, Unready>
    requires { WellFormed agent }
    ensures same { IfOk result (λ ready. ready.agent ≡ agent) }
    ensures plannable { IfOk result (λ ready. does_have_block agent agent.main ≡ false) }
    ensures texts { IfOk result (λ ready. All HasTexts ready.scripts) }
    ensures scripts { IfOk result (λ ready. ReadsScripts (F.held files.old) agent
        (option_map (λ file. file.now) devices.entry) ready.scripts) }
    ensures unready { IfErr result (λ fault. IfEnded fault
        (OfPlannable agent (OfScripts (F.held files.old) (F.faults files.old) (F.faults files.new) agent
        (option_map (λ file. file.now) devices.entry) Never))) }
{
    if has_block(&agent, &agent.main) {
        drop(agent);
        return Err(refused(alloc, Input::Agent, BLOCK_IN_PLAN, 0));
    }
    ready_of(alloc, files, agent, devices, None)
}
