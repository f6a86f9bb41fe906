//! `begin_all`, the first call of each device.
ghost use Rattle.std.specs.Prelude.{◌≡◌, ◌≤◌, ◌<◌, ℕ, true, length, All, IsSome, OnOk, OnErr, []};
ghost use Rattle.golog_semantics.specs.WellFormed.{WellFormed};
ghost use Rattle.golog_semantics.specs.Journal.{device_limit, is_open};
ghost use Rattle.golog_journal.specs.Boards.{IsBoardList};
ghost use Rattle.golog_journal.specs.Taken.{IsReady};
ghost use Rattle.golog_journal.specs.Posting.{MayPost};
ghost use Rattle.golog_device.specs.Scripts.{script_spelled};
ghost use Rattle.golog_device.specs.Turns.{SameBoard};
ghost use Rattle.golog_device.specs.Slots.{standings, name_at, HasAt, FreshBelow, HaveBegun, BeginsAt};

use crate::{Begun, Device};
use golog_base::{Bytes, List, NoMemory};
use golog_journal::{Board, Item};
use golog_tree::Agent;
use std::alloc::Global;

/// Begins the devices of the agent in order, each under its name with its script. One that refuses its
/// script is closed. The boxes that no device needs stay as they are. Where memory is wanting, the first
/// devices have begun, and the others are as they were. Those that are open are then ready for their first
/// turn.
pub fn begin_all<D: Device, B: Board>(
    alloc: Global,
    devices: &mut [D],
    agent: &Agent,
    scripts: &List<Bytes>,
    board: &mut B,
) -> Result<(), NoMemory>
    requires well_formed { WellFormed agent.now }
    requires agent { (B.sight board.old).agent ≡ agent.now }
    requires alone { (B.sight board.old).alone ≡ true }
    requires empty { (B.sight board.old).seen ≡ [] }
    requires one_each { length scripts.now ≡ length agent.now.devices }
    requires spelled { All (λ text. IsSome (script_spelled text)) scripts.now }
    requires fresh { FreshBelow (length scripts.now) (standings D.fresh D.meaning devices.old) }
    ensures board { SameBoard (B.sight board.old) (B.sight board.new) }
    ensures lawful { IsBoardList agent.now (B.sight board.new).seen }
    ensures begun { OnOk result (HaveBegun (length scripts.now) agent.now.devices scripts.now (B.sight board.new).seen
        (standings D.fresh D.meaning devices.old) (standings D.fresh D.meaning devices.new)) }
    ensures memory { OnErr result ((count : ℕ) × (count < length scripts.now)
        × HaveBegun count agent.now.devices scripts.now (B.sight board.new).seen
        (standings D.fresh D.meaning devices.old) (standings D.fresh D.meaning devices.new)) }
    ensures ready { OnOk result ((device : ℕ) → device < length agent.now.devices
        → is_open device (B.sight board.new).seen ≡ true
        → IsReady agent.now (B.sight board.new).seen device 0) }
{
    for (slot, script) in scripts.as_slice().iter().enumerate() {
        begin_at(alloc, devices, agent, slot, script.as_slice(), board)?;
    }
    Ok(())
}

// Begins the device of a slot.
fn begin_at<D: Device, B: Board>(
    alloc: Global,
    devices: &mut [D],
    agent: &Agent,
    slot: usize,
    script: &[u8],
    board: &mut B,
) -> Result<(), NoMemory>
    requires agent { (B.sight board.old).agent ≡ agent.now }
    requires alone { (B.sight board.old).alone ≡ true }
    requires slot { slot < length agent.now.devices }
    requires few { length agent.now.devices ≤ device_limit }
    requires allowed { MayPost agent.now (B.sight board.old).seen slot 0 Item.Refused }
    requires lawful { IsBoardList agent.now (B.sight board.old).seen }
    requires within { slot < length devices.old }
    requires spelled { IsSome (script_spelled script.now) }
    requires fresh { HasAt (standings D.fresh D.meaning devices.old) slot (λ s. s.fresh ≡ true) }
    ensures board { SameBoard (B.sight board.old) (B.sight board.new) }
    ensures lawful { IsBoardList agent.now (B.sight board.new).seen }
    ensures begun { OnOk result (BeginsAt slot (name_at agent.now.devices slot) script.now
        (B.sight board.old).seen (B.sight board.new).seen
        (standings D.fresh D.meaning devices.old) (standings D.fresh D.meaning devices.new)) }
    ensures memory { OnErr result ((B.sight board.new).seen ≡ (B.sight board.old).seen) }
    ensures unchanged { OnErr result
        (standings D.fresh D.meaning devices.new ≡ standings D.fresh D.meaning devices.old) }
{
    let name = agent.devices.as_slice()[slot];
    match devices[slot].begin(alloc, name.as_bytes(), script) {
        Begun::Ready => Ok(()),
        Begun::Refused => {
            board.post(slot as u8, Item::Refused, 0);
            Ok(())
        }
        Begun::Memory => Err(NoMemory),
    }
}
