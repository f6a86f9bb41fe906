// Tests of `demo_files`, at each size, and of `add_count`.
ghost use Rattle.std.specs.Prelude.{◌≤◌};
ghost use Rattle.golog_semantics.specs.WellFormed.{WellFormed};

use crate::asserting::same;
use golog_base::{Bytes, NoMemory};
use golog_check_text::add_count;
use golog_demo::{DemoFiles, demo_files};
use golog_file::read_agent;
use golog_script::scripts_of;
use golog_tree::{Agent, action_count};
use std::alloc::Global;

/// How many idle items the scripts of the two devices have; zeros where the bytes spell no two scripts.
fn idle_counts(alloc: Global, agent: &Agent, devices: &[u8]) -> [usize; 2] {
    let read = scripts_of(alloc, devices, &agent.devices);
    let answer = match &read {
        Ok(scripts) => match scripts.as_slice() {
            [panel, lift] => [panel.idle.len(), lift.idle.len()],
            _ => [0; 2],
        },
        Err(_fault) => [0; 2],
    };
    drop(read);
    answer
}

/// How many ground fluents and ground actions the agent has, and those idle items.
fn counts_of(alloc: Global, agent: &Agent, devices: &[u8]) -> [usize; 4]
    requires { WellFormed agent.now }
{
    let [panel, lift] = idle_counts(alloc, agent, devices);
    [
        agent.starts.len(),
        action_count(agent) as usize,
        panel,
        lift,
    ]
}

/// The same of a demo of this size; zeros where its agent is refused.
fn demo_counts(alloc: Global, size: u32) -> Result<[usize; 4], NoMemory>
    requires some { 1 ≤ size }
    requires few { size ≤ 200 }
{
    let DemoFiles { agent, devices } = demo_files(alloc, size)?;
    let read = read_agent(alloc, agent.as_slice());
    let answer = match &read {
        Ok(agent) => counts_of(alloc, agent, devices.as_slice()),
        Err(_fault) => [0; 4],
    };
    drop(read);
    Ok(answer)
}

#[test]
fn demos_of_all_sizes_are_read(rt: HostRuntime) -> Result<(), NoMemory> {
    for size in 1..201u32 {
        let floors = size as usize;
        let wanted = [floors + 3, 2 * floors + 5, floors, 1];
        same(&rt, size, demo_counts(rt.alloc(), size)?, wanted);
    }
    Ok(())
}

/// Whether the devices file of a demo of this size is this text.
fn has_devices(alloc: Global, size: u32, text: &[u8]) -> Result<bool, NoMemory>
    requires some { 1 ≤ size }
    requires few { size ≤ 200 }
{
    let files = demo_files(alloc, size)?;
    Ok(files.devices.as_slice() == text)
}

#[test]
fn each_button_is_pushed(rt: HostRuntime) -> Result<(), NoMemory> {
    let one = b"[{\"name\":\"panel\",\"answers\":[],\"idle\":[\"push(1)\"]},\
        {\"name\":\"lift\",\"answers\":[],\"idle\":[\"rest\"]}]";
    let three =
        b"[{\"name\":\"panel\",\"answers\":[],\"idle\":[\"push(3)\",\"push(2)\",\"push(1)\"]},\
        {\"name\":\"lift\",\"answers\":[],\"idle\":[\"rest\"]}]";
    same(&rt, "one", has_devices(rt.alloc(), 1, one)?, true);
    same(&rt, "three", has_devices(rt.alloc(), 3, three)?, true);
    Ok(())
}

/// Whether a text is so once what is counted, and how many there are, is added to it.
fn adds(
    alloc: Global,
    before: &[u8],
    counted: &[u8],
    count: usize,
    wanted: &[u8],
) -> Result<bool, NoMemory> {
    let mut text = Bytes::copy_of(alloc, before)?;
    add_count(&mut text, counted, count)?;
    Ok(text.as_slice() == wanted)
}

#[test]
fn counts_are_added(rt: HostRuntime) -> Result<(), NoMemory> {
    let counts: [(&[u8], &[u8], usize, &[u8]); 4] = [
        (b"", b"", 0, b"0"),
        (b"", b"ok lamps ", 9, b"ok lamps 9"),
        (b"ok lamps 9", b" bells ", 10, b"ok lamps 9 bells 10"),
        (b"1", b"", usize::MAX, b"118446744073709551615"),
    ];
    for (before, counted, count, wanted) in counts {
        let added = adds(rt.alloc(), before, counted, count, wanted)?;
        same(&rt, wanted, added, true);
    }
    Ok(())
}
