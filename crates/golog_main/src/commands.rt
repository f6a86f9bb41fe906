// What each order does and writes: `served`, and for a run `over_rounds` and `over_threads`.
ghost use Rattle.std.specs.Prelude.{◌≡◌, ◌≤◌, ℕ, Option, true, false, Some, IfOk, OnErr, length, option_map};
ghost use Rattle.golog_semantics.specs.Journal.{device_limit};
ghost use Rattle.golog_device.specs.Slots.{standings, FreshBelow};
ghost use Rattle.golog_words.specs.Answers.{command_of};
ghost use Rattle.golog_words.specs.Commands.{PlanFits, run, team};
ghost use Rattle.golog_commands.specs.Outcome.{IsReported, LeavesDevices, LeavesText, is_threaded, outside};
ghost use Rattle.golog_commands.specs.Runs.{AreUnserved};
ghost use Rattle.golog_commands.specs.Writing.{WritesNothing};

use crate::demos::demonstrated;
use crate::judged::replayed;
use crate::plans::plan_in_rounds;
use crate::run::{run_in_rounds, run_on_threads};
use crate::teams::teamed;
use golog_base::{Files, NoMemory, Sink};
use golog_commands::{asked, checked, migrated, ready_in, report_if, report_unready};
use golog_device::Device;
use golog_ways::Expand;
use golog_words::Order;
use std::alloc::Global;
use std::sync::Wait;
use std::thread::Threads;

/// Whether an order is that of a run over threads, planned or not, or of a team, which needs a runtime.
pub fn is_threaded(order: Order<'_>) -> bool
    ensures { result ≡ is_threaded (command_of order.entry) }
{
    matches!(
        order,
        Order::Run { inline: false, .. } | Order::Plan { inline: false, .. } | Order::Team { .. }
    )
}

/// Does what an order says that needs no threads: what comes of it is written, and the exit status answered. Where memory
/// runs out nothing is written. The searches of a run ask `expand` for the steps of many programs.
pub fn served<F: Files, K: Sink, D: Device, X: Expand>(
    alloc: Global,
    order: Order<'_>,
    files: &mut F,
    out: &mut K,
    devices: &mut [D],
    expand: X,
) -> Result<u8, NoMemory>
    requires way { is_threaded (command_of order) ≡ false }
    requires plan { PlanFits (command_of order) }
    requires boxes { device_limit ≤ length devices.old }
    requires fresh { FreshBelow device_limit (standings D.fresh D.meaning devices.old) }
    ensures reported { IfOk result (λ status. IsReported status
        (Some (command_of order.entry))
        (outside F.held F.faults K.taken K.faults D.fresh D.meaning files.old out.old devices.old)
        (outside F.held F.faults K.taken K.faults D.fresh D.meaning files.new out.new devices.new)) }
    ensures nothing { OnErr result (WritesNothing
        (K.taken out.old) (K.taken out.new) (K.faults out.old) (K.faults out.new)) }
    ensures left { OnErr result (LeavesDevices (Some (command_of order.entry))
        (standings D.fresh D.meaning devices.old) (standings D.fresh D.meaning devices.new)) }
{
    match order {
        Order::Run {
            agent,
            devices: named,
            from,
            ..
        } => over_rounds(alloc, files, out, agent, named, from, devices, expand),
        Order::Check { agent } => report_if(out, checked(alloc, files, agent)),
        Order::Replay { agent, journal } => report_if(out, replayed(alloc, files, agent, journal)),
        Order::Ask {
            agent,
            journal,
            condition,
        } => report_if(out, asked(alloc, files, agent, journal, condition)),
        Order::Migrate { agent, journal } => report_if(out, migrated(alloc, files, agent, journal)),
        Order::Demo { size } => report_if(out, demonstrated(alloc, size, devices)),
        Order::Plan {
            depth,
            fuel,
            agent,
            devices: named,
            ..
        } => plan_in_rounds(alloc, files, out, depth, fuel, agent, named, devices),
        Order::Team { .. } => unreachable!(),
    }
}

// Runs in rounds what the files of these names hold. How many workers the words of such a run ask for is all one.
fn over_rounds<F: Files, K: Sink, D: Device, X: Expand>(
    alloc: Global,
    files: &mut F,
    out: &mut K,
    agent: &str,
    named: Option<&str>,
    from: Option<&str>,
    devices: &mut [D],
    expand: X,
) -> Result<u8, NoMemory>
    requires boxes { device_limit ≤ length devices.old }
    requires fresh { FreshBelow device_limit (standings D.fresh D.meaning devices.old) }
    ensures reported { (workers : Option ℕ) → IfOk result (λ status. IsReported status
        (Some (run agent.now (option_map (λ name. name.now) named.entry) true (option_map (λ name. name.now) from.entry) workers))
        (outside F.held F.faults K.taken K.faults D.fresh D.meaning files.old out.old devices.old)
        (outside F.held F.faults K.taken K.faults D.fresh D.meaning files.new out.new devices.new)) }
    ensures nothing { OnErr result (WritesNothing
        (K.taken out.old) (K.taken out.new) (K.faults out.old) (K.faults out.new)) }
    ensures unserved { OnErr result (AreUnserved
        (standings D.fresh D.meaning devices.old) (standings D.fresh D.meaning devices.new)) }
{
    match ready_in(alloc, files, agent, named, from) {
        Ok(ready) => {
            let status = run_in_rounds(
                alloc,
                &ready.agent,
                &ready.start,
                ready.scripts.as_slice(),
                out,
                devices,
                expand,
            );
            ready.let_go();
            status
        }
        Err(unready) => report_unready(out, unready),
    }
}

/// The same with a run over threads.
pub fn over_threads<R: Threads + Wait + Sync, F: Files, K: Sink, D: Device + Send, X: Expand>(
    rt: &R,
    alloc: Global,
    files: &mut F,
    out: &mut K,
    agent: &str,
    named: Option<&str>,
    from: Option<&str>,
    devices: &mut [D],
    expand: X,
) -> Result<u8, NoMemory>
    requires boxes { device_limit ≤ length devices.old }
    requires fresh { FreshBelow device_limit (standings D.fresh D.meaning devices.old) }
    ensures reported { (workers : Option ℕ) → IfOk result (λ status. IsReported status
        (Some (run agent.now (option_map (λ name. name.now) named.entry) false (option_map (λ name. name.now) from.entry) workers))
        (outside F.held F.faults K.taken K.faults D.fresh D.meaning files.old out.old devices.old)
        (outside F.held F.faults K.taken K.faults D.fresh D.meaning files.new out.new devices.new)) }
    ensures nothing { (workers : Option ℕ) → OnErr result (LeavesText
        (Some (run agent.now (option_map (λ name. name.now) named.entry) false (option_map (λ name. name.now) from.entry) workers))
        (outside F.held F.faults K.taken K.faults D.fresh D.meaning files.old out.old devices.old)
        (outside F.held F.faults K.taken K.faults D.fresh D.meaning files.new out.new devices.new)) }
    ensures no_fault { OnErr result (K.faults out.new ≡ K.faults out.old) }
    ensures unserved { OnErr result (AreUnserved
        (standings D.fresh D.meaning devices.old) (standings D.fresh D.meaning devices.new)) }
{
    match ready_in(alloc, files, agent, named, from) {
        Ok(ready) => {
            let status = run_on_threads(
                rt,
                alloc,
                &ready.agent,
                &ready.start,
                ready.scripts.as_slice(),
                out,
                devices,
                expand,
            );
            ready.let_go();
            status
        }
        Err(unready) => report_unready(out, unready),
    }
}

/// Runs the agents of these files as a team.
pub fn over_team<R: Threads + Wait + Sync, F: Files, K: Sink, D: Device>(
    rt: &R,
    alloc: Global,
    files: &mut F,
    out: &mut K,
    first: &str,
    second: &str,
    inline: bool,
    devices: &mut [D],
) -> Result<u8, NoMemory>
    ensures reported { IfOk result (λ status. IsReported status (Some (team first.now second.now inline))
        (outside F.held F.faults K.taken K.faults D.fresh D.meaning files.old out.old devices.old)
        (outside F.held F.faults K.taken K.faults D.fresh D.meaning files.new out.new devices.new)) }
    ensures nothing { OnErr result (WritesNothing
        (K.taken out.old) (K.taken out.new) (K.faults out.old) (K.faults out.new)) }
    ensures same { devices.new ≡ devices.old }
{
    // The contract alone speaks of them.
    let _devices = &devices;
    report_if(out, teamed(rt, alloc, files, first, second, inline))
}
