// The run of a demo, `demonstrated`: a lift of the size that the words say.
ghost use Rattle.std.specs.Prelude.{◌≡◌, ◌≤◌, IfOk, Ok, All, length};
ghost use Rattle.golog_semantics.specs.WellFormed.{WellFormed};
ghost use Rattle.golog_semantics.specs.Journal.{device_limit};
ghost use Rattle.golog_device.specs.Slots.{standings, FreshBelow};
ghost use Rattle.golog_script.specs.DevicesFile.{scripts_of};
ghost use Rattle.golog_script.specs.ScriptTexts.{HasTexts};
ghost use Rattle.golog_file.specs.Spelled.{SpellsAgent};
ghost use Rattle.golog_demo.specs.Demo.{demo_agent, demo_devices};
ghost use Rattle.golog_commands.specs.Demos.{Demonstrates};

use crate::run::reported_in_rounds;
use golog_base::NoMemory;
use golog_commands::{Outcome, Ready, demo_of, demo_outcome};
use golog_device::Device;
use std::alloc::Global;

/// What the demo of this size comes to. A size that no words spell wants memory, and so does a run that was cut short.
pub fn demonstrated<D: Device>(
    alloc: Global,
    size: u32,
    devices: &mut [D],
) -> Result<Outcome, NoMemory>
    requires boxes { device_limit ≤ length devices.old }
    requires fresh { FreshBelow device_limit (standings D.fresh D.meaning devices.old) }
    ensures { IfOk result (Demonstrates size
        (standings D.fresh D.meaning devices.old) (standings D.fresh D.meaning devices.new)) }
{
    match demo_of(alloc, size) {
        Ok(ready) => {
            let outcome = demonstrated_of(alloc, size, &ready, devices);
            ready.let_go();
            outcome
        }
        Err(fault) => Err(fault),
    }
}

// The same of the agent and the scripts of the demo.
fn demonstrated_of<D: Device>(
    alloc: Global,
    size: u32,
    ready: &Ready,
    devices: &mut [D],
) -> Result<Outcome, NoMemory>
    requires formed { WellFormed ready.now.agent }
    requires texts { All HasTexts ready.now.scripts }
    requires agent { SpellsAgent (demo_agent size) ready.now.agent }
    requires scripts { (scripts_of ready.now.agent.devices (demo_devices size)).outcome ≡ Ok ready.now.scripts }
    requires boxes { device_limit ≤ length devices.old }
    requires fresh { FreshBelow device_limit (standings D.fresh D.meaning devices.old) }
    ensures { IfOk result (Demonstrates size
        (standings D.fresh D.meaning devices.old) (standings D.fresh D.meaning devices.new)) }
{
    let report = reported_in_rounds(alloc, &ready.agent, ready.scripts.as_slice(), devices)?;
    demo_outcome(alloc, size, report)
}
