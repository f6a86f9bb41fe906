//! The sixteen devices of a call.
ghost use Rattle.std.specs.Prelude.{◌≡◌, true, IfOk, length};
ghost use Rattle.golog_device.specs.Slots.{standings, FreshBelow};

use crate::calls::{Call, Setting, called_by, threaded_by};
use golog_base::NoMemory;
use golog_device::Device;
use golog_main::DEVICES;
use std::alloc::Global;
use std::sync::Wait;
use std::thread::Threads;

/// What makes the devices of a test, one for each slot.
pub trait Maker<D: Device> {
    /// The device of a slot.
    fn device_at(&self, alloc: Global, slot: usize) -> Result<D, NoMemory>
        ensures { IfOk result (λ device. D.fresh device ≡ true) };
}

/// As many devices as the top call takes.
pub fn sixteen<D: Device, M: Maker<D>>(alloc: Global, maker: &M) -> Result<Vec<D>, NoMemory>
    ensures as_many { IfOk result (λ devices. length devices.items ≡ 16) }
    ensures fresh { IfOk result (λ devices. FreshBelow 16 (standings D.fresh D.meaning devices.items)) }
{
    let mut devices = Vec::new(alloc);
    for slot in 0..DEVICES {
        let device = maker.device_at(alloc, slot)?;
        devices.push(device)?;
    }
    Ok(devices)
}

/// Calls the program over devices of the maker.
pub fn called_with<D: Device, M: Maker<D>>(
    alloc: Global,
    setting: &Setting<'_>,
    maker: &M,
) -> Result<Call, NoMemory> {
    match sixteen(alloc, maker) {
        Ok(mut devices) => {
            let call = called_by(alloc, setting, devices.as_mut_slice());
            drop(devices);
            call
        }
        Err(NoMemory) => Err(NoMemory),
    }
}

/// The same, each on a thread of its own.
pub fn threaded_with<R: Threads + Wait + Sync, D: Device + Send, M: Maker<D>>(
    rt: &R,
    alloc: Global,
    setting: &Setting<'_>,
    maker: &M,
) -> Result<Call, NoMemory> {
    match sixteen(alloc, maker) {
        Ok(mut devices) => {
            let call = threaded_by(rt, alloc, setting, devices.as_mut_slice());
            drop(devices);
            call
        }
        Err(NoMemory) => Err(NoMemory),
    }
}
