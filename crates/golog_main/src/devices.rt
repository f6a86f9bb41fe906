// `script_devices`: sixteen devices that follow scripts.
ghost use Rattle.std.specs.Prelude.{◌≡◌, IfOk, length};
ghost use Rattle.golog_semantics.specs.Journal.{device_limit};
ghost use Rattle.golog_device.specs.Slots.{standings, FreshBelow};

use golog_base::NoMemory;
use golog_device::Device;
use golog_journal::DEVICES;
use golog_script::ScriptDevice;
use std::alloc::Global;

/// Sixteen fresh devices that follow scripts: as many as an agent may have.
pub fn script_devices(alloc: Global) -> Result<Vec<ScriptDevice>, NoMemory>
    ensures as_many { IfOk result (λ devices. length devices.items ≡ device_limit) }
    ensures fresh { IfOk result (λ devices. FreshBelow device_limit
        (standings ⟦<ScriptDevice as Device>⟧.fresh ⟦<ScriptDevice as Device>⟧.meaning devices.items)) }
{
    let mut devices = Vec::new(alloc);
    for _ in 0..DEVICES {
        let device = ScriptDevice::new(alloc)?;
        devices.push(device)?;
    }
    Ok(devices)
}
