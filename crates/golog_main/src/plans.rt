// A run that follows plans, of what its files hold, in rounds or over threads: `plan_in_rounds` and `plan_on_threads`.
// It is as a run, with a scribe of plans as lead, and has no head.
ghost use Rattle.std.specs.Prelude.{◌≡◌, ◌≤◌, true, false, All, Some, IfOk, OnErr, [], length, option_map};
ghost use Rattle.golog_semantics.specs.BlockFree.{has_block};
ghost use Rattle.golog_semantics.specs.WellFormed.{WellFormed};
ghost use Rattle.golog_semantics.specs.Journal.{device_limit};
ghost use Rattle.golog_device.specs.Slots.{standings, FreshBelow};
ghost use Rattle.golog_journal.specs.Boards.{IsBoardList};
ghost use Rattle.golog_journal.specs.Leading.{IsBehind};
ghost use Rattle.golog_lead.specs.Rounds.{AreReady};
ghost use Rattle.golog_plan.specs.PlanTexts.{plan_text};
ghost use Rattle.golog_script.specs.ScriptTexts.{HasTexts};
ghost use Rattle.golog_words.specs.Commands.{plan};
ghost use Rattle.golog_commands.specs.Inputs.{scripts_for};
ghost use Rattle.golog_commands.specs.Outcome.{IsReported, outside};
ghost use Rattle.golog_commands.specs.Plans.{IsPlannedOf};
ghost use Rattle.golog_commands.specs.Runs.{AreUnserved};
ghost use Rattle.golog_commands.specs.Writing.{WritesJournal, WritesNothing};
ghost use Rattle.golog_main.specs.Plans.{PlansOn, PlansServedOn};

use golog_base::{Files, NoMemory, Sink};
use golog_branch::plan_journals_are_so;
use golog_commands::{begun_with, plannable_in, report_unready, run_status};
use golog_device::Device;
use golog_journal::Journal;
use golog_lead::{RoundLead, run_inline};
use golog_plan::{PlanPen, PlanScribe};
use golog_script::Script;
use golog_threads::run_threads;
use golog_tree::Agent;
use std::alloc::Global;
use std::sync::Wait;
use std::thread::Threads;

/// Runs in rounds what the files of these names hold, and follows plans of this depth.
pub fn plan_in_rounds<F: Files, K: Sink, D: Device>(
    alloc: Global,
    files: &mut F,
    out: &mut K,
    depth: u32,
    fuel: u32,
    agent: &str,
    named: Option<&str>,
    devices: &mut [D],
) -> Result<u8, NoMemory>
    requires depth { (1 ≤ depth) × (depth ≤ 16) }
    requires fuel { (1 ≤ fuel) × (fuel ≤ 100000) }
    requires boxes { device_limit ≤ length devices.old }
    requires fresh { FreshBelow device_limit (standings D.fresh D.meaning devices.old) }
    ensures reported { IfOk result (λ status. IsReported status
        (Some (plan depth fuel agent.now (option_map (λ name. name.now) named.entry) true))
        (outside F.held F.faults K.taken K.faults D.fresh D.meaning files.old out.old devices.old)
        (outside F.held F.faults K.taken K.faults D.fresh D.meaning files.new out.new devices.new)) }
    ensures nothing { OnErr result (WritesNothing
        (K.taken out.old) (K.taken out.new) (K.faults out.old) (K.faults out.new)) }
    ensures unserved { OnErr result (AreUnserved
        (standings D.fresh D.meaning devices.old) (standings D.fresh D.meaning devices.new)) }
{
    let held = plannable_in(alloc, files, agent, named);
    match held {
        Ok(ready) => {
            plan_journals_are_so();
            let scripts = ready.scripts.as_slice();
            let status = planned_in_rounds(alloc, &ready.agent, depth, fuel, scripts, out, devices);
            ready.let_go();
            status
        }
        Err(unready) => report_unready(out, unready),
    }
}

/// The same over threads.
pub fn plan_on_threads<R: Threads + Wait + Sync, F: Files, K: Sink, D: Device + Send>(
    rt: &R,
    alloc: Global,
    files: &mut F,
    out: &mut K,
    depth: u32,
    fuel: u32,
    agent: &str,
    named: Option<&str>,
    devices: &mut [D],
) -> Result<u8, NoMemory>
    requires depth { (1 ≤ depth) × (depth ≤ 16) }
    requires fuel { (1 ≤ fuel) × (fuel ≤ 100000) }
    requires boxes { device_limit ≤ length devices.old }
    requires fresh { FreshBelow device_limit (standings D.fresh D.meaning devices.old) }
    ensures reported { IfOk result (λ status. IsReported status
        (Some (plan depth fuel agent.now (option_map (λ name. name.now) named.entry) false))
        (outside F.held F.faults K.taken K.faults D.fresh D.meaning files.old out.old devices.old)
        (outside F.held F.faults K.taken K.faults D.fresh D.meaning files.new out.new devices.new)) }
    ensures nothing { OnErr result (WritesNothing
        (K.taken out.old) (K.taken out.new) (K.faults out.old) (K.faults out.new)) }
    ensures unserved { OnErr result (AreUnserved
        (standings D.fresh D.meaning devices.old) (standings D.fresh D.meaning devices.new)) }
{
    match plannable_in(alloc, files, agent, named) {
        Ok(ready) => {
            plan_journals_are_so();
            let scripts = ready.scripts.as_slice();
            let status = planned_on_threads(
                rt,
                alloc,
                &ready.agent,
                depth,
                fuel,
                scripts,
                out,
                devices,
            );
            ready.let_go();
            status
        }
        Err(unready) => report_unready(out, unready),
    }
}

// Runs the agent's program without threads, with these scripts for its devices, and writes each line when its entry is
// seen. Where memory is wanted for it nothing has run, no device was served, and nothing is written.
fn planned_in_rounds<K: Sink, D: Device>(
    alloc: Global,
    agent: &Agent,
    depth: u32,
    fuel: u32,
    listed: &[Script],
    out: &mut K,
    devices: &mut [D],
) -> Result<u8, NoMemory>
    requires formed { WellFormed agent.now }
    requires plannable { has_block agent.now agent.now.main ≡ false }
    requires depth { (1 ≤ depth) × (depth ≤ 16) }
    requires fuel { (1 ≤ fuel) × (fuel ≤ 100000) }
    requires texts { All HasTexts listed.now }
    requires boxes { device_limit ≤ length devices.old }
    requires fresh { FreshBelow device_limit (standings D.fresh D.meaning devices.old) }
    ensures written { IfOk result (WritesJournal
        (IsPlannedOf agent.now depth fuel (scripts_for agent.now listed.now) true
        (standings D.fresh D.meaning devices.old) (standings D.fresh D.meaning devices.new))
        (plan_text agent.now depth fuel)
        (K.taken out.old) (K.taken out.new) (K.faults out.old) (K.faults out.new)) }
    ensures nothing { OnErr result (WritesNothing
        (K.taken out.old) (K.taken out.new) (K.faults out.old) (K.faults out.new)) }
    ensures unserved { OnErr result (AreUnserved
        (standings D.fresh D.meaning devices.old) (standings D.fresh D.meaning devices.new)) }
{
    let pen = PlanPen::new(alloc, agent, depth, fuel)?;
    match begun_with(alloc, agent, listed, devices) {
        Ok(journal) => Ok(plan_written(agent, pen, journal, out, devices)),
        Err(fault) => {
            pen.let_go();
            Err(fault)
        }
    }
}

// The same with each device on a thread of its own, and the program on this one. Where memory is wanted for these
// threads nothing has run either.
fn planned_on_threads<R: Threads + Wait + Sync, K: Sink, D: Device + Send>(
    rt: &R,
    alloc: Global,
    agent: &Agent,
    depth: u32,
    fuel: u32,
    listed: &[Script],
    out: &mut K,
    devices: &mut [D],
) -> Result<u8, NoMemory>
    requires formed { WellFormed agent.now }
    requires plannable { has_block agent.now agent.now.main ≡ false }
    requires depth { (1 ≤ depth) × (depth ≤ 16) }
    requires fuel { (1 ≤ fuel) × (fuel ≤ 100000) }
    requires texts { All HasTexts listed.now }
    requires boxes { device_limit ≤ length devices.old }
    requires fresh { FreshBelow device_limit (standings D.fresh D.meaning devices.old) }
    ensures written { IfOk result (WritesJournal
        (IsPlannedOf agent.now depth fuel (scripts_for agent.now listed.now) false
        (standings D.fresh D.meaning devices.old) (standings D.fresh D.meaning devices.new))
        (plan_text agent.now depth fuel)
        (K.taken out.old) (K.taken out.new) (K.faults out.old) (K.faults out.new)) }
    ensures nothing { OnErr result (WritesNothing
        (K.taken out.old) (K.taken out.new) (K.faults out.old) (K.faults out.new)) }
    ensures unserved { OnErr result (AreUnserved
        (standings D.fresh D.meaning devices.old) (standings D.fresh D.meaning devices.new)) }
{
    let pen = PlanPen::new(alloc, agent, depth, fuel)?;
    match begun_with(alloc, agent, listed, devices) {
        Ok(journal) => plan_threaded(rt, alloc, agent, pen, journal, out, devices),
        Err(fault) => {
            pen.let_go();
            Err(fault)
        }
    }
}

// Writes the journal of such a run in rounds, and answers its exit status. What the sink holds then is known of the
// reference that the scribe gives back.
fn plan_written<K: Sink, D: Device>(
    agent: &Agent,
    pen: PlanPen<'_>,
    mut journal: Journal,
    out: &mut K,
    devices: &mut [D],
) -> u8
    requires pen { (pen.core.agent ≡ agent.now) × (pen.core.list ≡ []) }
    requires agent { journal.agent ≡ agent.now }
    requires lawful { IsBoardList agent.now journal.entries }
    requires behind { IsBehind [] journal.entries }
    requires boxes { length agent.now.devices ≤ length devices.old }
    requires ready { AreReady agent.now journal.entries }
    ensures { WritesJournal (PlansOn agent.now pen.entry.core.depth pen.entry.core.fuel true journal.entries
        (standings D.fresh D.meaning devices.old) (standings D.fresh D.meaning devices.new))
        (plan_text agent.now pen.entry.core.depth pen.entry.core.fuel)
        (K.taken out.old) (K.taken out.new) (K.faults out.old) (K.faults out.new) result }
{
    let mut scribe = PlanScribe::new(pen, out);
    run_inline(&mut scribe, devices, agent, &mut journal);
    drop(journal);
    let status = run_status(scribe.faulted(), scribe.answer());
    let _out = scribe.into_sink();
    status
}

// The same of a run over threads: the boxes of the agent's devices go to threads, and the others stay as they are.
fn plan_threaded<R: Threads + Wait + Sync, K: Sink, D: Device + Send>(
    rt: &R,
    alloc: Global,
    agent: &Agent,
    pen: PlanPen<'_>,
    journal: Journal,
    out: &mut K,
    devices: &mut [D],
) -> Result<u8, NoMemory>
    requires formed { WellFormed agent.now }
    requires pen { (pen.core.agent ≡ agent.now) × (pen.core.list ≡ []) }
    requires agent { journal.agent ≡ agent.now }
    requires lawful { IsBoardList agent.now journal.entries }
    requires behind { IsBehind [] journal.entries }
    requires boxes { length agent.now.devices ≤ length devices.old }
    requires ready { AreReady agent.now journal.entries }
    ensures written { IfOk result (WritesJournal
        (PlansOn agent.now pen.entry.core.depth pen.entry.core.fuel false journal.entries
        (standings D.fresh D.meaning devices.old) (standings D.fresh D.meaning devices.new))
        (plan_text agent.now pen.entry.core.depth pen.entry.core.fuel)
        (K.taken out.old) (K.taken out.new) (K.faults out.old) (K.faults out.new)) }
    ensures nothing { OnErr result (WritesNothing
        (K.taken out.old) (K.taken out.new) (K.faults out.old) (K.faults out.new)) }
    ensures unserved { OnErr result (devices.new ≡ devices.old) }
{
    let (served, _others) = devices.split_at_mut(agent.devices.len());
    plan_served(rt, alloc, agent, pen, journal, out, served)
}

// Writes the journal of a run over threads of the agent's devices. Where memory is wanted, nothing has run, and nothing
// is written.
fn plan_served<R: Threads + Wait + Sync, K: Sink, D: Device + Send>(
    rt: &R,
    alloc: Global,
    agent: &Agent,
    pen: PlanPen<'_>,
    journal: Journal,
    out: &mut K,
    devices: &mut [D],
) -> Result<u8, NoMemory>
    requires formed { WellFormed agent.now }
    requires pen { (pen.core.agent ≡ agent.now) × (pen.core.list ≡ []) }
    requires agent { journal.agent ≡ agent.now }
    requires lawful { IsBoardList agent.now journal.entries }
    requires behind { IsBehind [] journal.entries }
    requires boxes { length devices.old ≡ length agent.now.devices }
    requires ready { AreReady agent.now journal.entries }
    ensures written { IfOk result (WritesJournal
        (PlansServedOn agent.now pen.entry.core.depth pen.entry.core.fuel D.meaning journal.entries
        devices.old devices.new)
        (plan_text agent.now pen.entry.core.depth pen.entry.core.fuel)
        (K.taken out.old) (K.taken out.new) (K.faults out.old) (K.faults out.new)) }
    ensures nothing { OnErr result (WritesNothing
        (K.taken out.old) (K.taken out.new) (K.faults out.old) (K.faults out.new)) }
    ensures unserved { OnErr result (devices.new ≡ devices.old) }
{
    let mut scribe = PlanScribe::new(pen, out);
    match run_threads(rt, alloc, &mut scribe, devices, agent, journal) {
        Ok(()) => {
            scribe.keeps_rules();
            let status = run_status(scribe.faulted(), scribe.answer());
            let _out = scribe.into_sink();
            Ok(status)
        }
        Err(fault) => {
            let _out = scribe.into_sink();
            Err(fault)
        }
    }
}
