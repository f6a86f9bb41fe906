//! As many devices of one kind as the top call takes.
ghost use Rattle.std.specs.Prelude.{◌≡◌, true, IfOk, length};
ghost use Rattle.golog_device.specs.Slots.{standings, FreshBelow};

use golog_base::NoMemory;
use golog_device::Device;
use golog_main::DEVICES;
use std::alloc::Global;

/// What makes devices.
pub trait Maker<D: Device> {
    /// A fresh device.
    fn device(&self, alloc: Global) -> Result<D, NoMemory>
        ensures { IfOk result (λ device. D.fresh device ≡ true) };
}

/// As many devices as the top call takes. The agent's devices are the first of them.
pub fn sixteen<D: Device, M: Maker<D>>(alloc: Global, maker: &M) -> Result<Vec<D>, NoMemory>
    ensures as_many { IfOk result (λ devices. length devices.items ≡ 16) }
    ensures fresh { IfOk result (λ devices. FreshBelow 16 (standings D.fresh D.meaning devices.items)) }
{
    let mut devices = Vec::new(alloc);
    for _ in 0..DEVICES {
        let device = maker.device(alloc)?;
        devices.push(device)?;
    }
    Ok(devices)
}
