// A run, `run_in_rounds` or `run_on_threads`: its beginning, then the rounds or threads with a
// scribe as lead. For a demo, `reported_in_rounds`: the report of one with a runner as lead.
ghost use Rattle.std.specs.Prelude.{◌≡◌, ◌≤◌, true, false, All, IfOk, IfSome, OnOk, OnErr, [], length};
ghost use Rattle.golog_base.specs.Faults.{Rose};
ghost use Rattle.golog_base.specs.Known.{AddsPrefix, and_then_bytes};
ghost use Rattle.golog_semantics.specs.InSorts.{AreInSorts};
ghost use Rattle.golog_semantics.specs.WellFormed.{WellFormed};
ghost use Rattle.golog_semantics.specs.Journal.{device_limit};
ghost use Rattle.golog_device.specs.Slots.{standings, FreshBelow};
ghost use Rattle.golog_journal.specs.Boards.{IsBoardList};
ghost use Rattle.golog_journal.specs.Leading.{IsBehind};
ghost use Rattle.golog_lead.specs.Rounds.{AreReady};
ghost use Rattle.golog_script.specs.ScriptTexts.{HasTexts};
ghost use Rattle.golog_commands.specs.Inputs.{scripts_for};
ghost use Rattle.golog_commands.specs.Runs.{AreUnserved, IsReportOf, head_of as spec_head_of};
ghost use Rattle.golog_commands.specs.Writing.{WritesHead, WritesNothing, WritesReport};
ghost use Rattle.golog_main.specs.Runs.{HasEnded, RunsOn, ServedOn};

use crate::nowhere::Nowhere;
use golog_agent::{Pen, RoundLead, Runner, Scribe, run_inline};
use golog_base::{Bytes, Failed, List, NoMemory, Sink, write_all};
use golog_commands::{WRITE_FAULT, begun_with, head_of, run_status};
use golog_device::Device;
use golog_journal::Journal;
use golog_script::Script;
use golog_semantics::Report;
use golog_threads::run_threads;
use golog_tree::Agent;
use golog_ways::Expand;
use std::alloc::Global;
use std::sync::Wait;
use std::thread::Threads;

/// Runs the agent's program without threads, with these scripts for its devices, writes the head of its journal, where
/// it has a start, and each line when its entry is seen, and answers the exit status. A device that is not among the
/// scripts has the empty one. Where memory is wanted for it nothing has run, no device was served, and nothing is
/// written: the head and the pen are made first, so that a run that has begun is written. Its searches ask `expand` for
/// the steps of many programs.
pub fn run_in_rounds<K: Sink, D: Device, X: Expand>(
    alloc: Global,
    agent: &Agent,
    start: &Option<List<u8>>,
    listed: &[Script],
    out: &mut K,
    devices: &mut [D],
    expand: X,
) -> Result<u8, NoMemory>
    requires formed { WellFormed agent.now }
    requires sorts { IfSome start.now (AreInSorts agent.now) }
    requires texts { All HasTexts listed.now }
    requires boxes { device_limit ≤ length devices.old }
    requires fresh { FreshBelow device_limit (standings D.fresh D.meaning devices.old) }
    ensures written { IfOk result (WritesReport
        (IsReportOf agent.now (scripts_for agent.now listed.now) true
        (standings D.fresh D.meaning devices.old) (standings D.fresh D.meaning devices.new))
        agent.now (spec_head_of agent.now start.now)
        (K.taken out.old) (K.taken out.new) (K.faults out.old) (K.faults out.new)) }
    ensures nothing { OnErr result (WritesNothing
        (K.taken out.old) (K.taken out.new) (K.faults out.old) (K.faults out.new)) }
    ensures unserved { OnErr result (AreUnserved
        (standings D.fresh D.meaning devices.old) (standings D.fresh D.meaning devices.new)) }
{
    let head = head_of(alloc, agent, start)?;
    let pen = Pen::new(alloc, agent)?;
    match begun_with(alloc, agent, listed, devices) {
        Ok(journal) => Ok(headed_in_rounds(agent, pen, head, journal, out, devices, expand)),
        Err(fault) => {
            pen.let_go();
            Err(fault)
        }
    }
}

/// The same with each device on a thread of its own, and the program on this one. Where memory is wanted for these
/// threads nothing has run either, and the head alone is written.
pub fn run_on_threads<R: Threads + Wait + Sync, K: Sink, D: Device + Send, X: Expand>(
    rt: &R,
    alloc: Global,
    agent: &Agent,
    start: &Option<List<u8>>,
    listed: &[Script],
    out: &mut K,
    devices: &mut [D],
    expand: X,
) -> Result<u8, NoMemory>
    requires formed { WellFormed agent.now }
    requires sorts { IfSome start.now (AreInSorts agent.now) }
    requires texts { All HasTexts listed.now }
    requires boxes { device_limit ≤ length devices.old }
    requires fresh { FreshBelow device_limit (standings D.fresh D.meaning devices.old) }
    ensures written { IfOk result (WritesReport
        (IsReportOf agent.now (scripts_for agent.now listed.now) false
        (standings D.fresh D.meaning devices.old) (standings D.fresh D.meaning devices.new))
        agent.now (spec_head_of agent.now start.now)
        (K.taken out.old) (K.taken out.new) (K.faults out.old) (K.faults out.new)) }
    ensures nothing { OnErr result (WritesHead (spec_head_of agent.now start.now)
        (K.taken out.old) (K.taken out.new) (K.faults out.old) (K.faults out.new)) }
    ensures unserved { OnErr result (AreUnserved
        (standings D.fresh D.meaning devices.old) (standings D.fresh D.meaning devices.new)) }
{
    let head = head_of(alloc, agent, start)?;
    let pen = Pen::new(alloc, agent)?;
    match begun_with(alloc, agent, listed, devices) {
        Ok(journal) => headed_on_threads(
            rt, alloc, agent, pen, head, journal, out, devices, expand,
        ),
        Err(fault) => {
            pen.let_go();
            Err(fault)
        }
    }
}

/// The report of a run of the agent's program without threads, with these scripts for its devices. The runner is made
/// first, so that a run that has begun is reported.
pub fn reported_in_rounds<D: Device>(
    alloc: Global,
    agent: &Agent,
    listed: &[Script],
    devices: &mut [D],
) -> Result<Report, NoMemory>
    requires formed { WellFormed agent.now }
    requires texts { All HasTexts listed.now }
    requires boxes { device_limit ≤ length devices.old }
    requires fresh { FreshBelow device_limit (standings D.fresh D.meaning devices.old) }
    ensures { IfOk result (IsReportOf agent.now (scripts_for agent.now listed.now) true
        (standings D.fresh D.meaning devices.old) (standings D.fresh D.meaning devices.new)) }
{
    let runner = Runner::new(alloc, agent)?;
    match begun_with(alloc, agent, listed, devices) {
        Ok(journal) => Ok(in_rounds(agent, runner, journal, devices)),
        Err(fault) => {
            runner.let_go();
            Err(fault)
        }
    }
}

// The report of a run in rounds that goes on from a journal to whose devices nothing was done but that they have begun.
fn in_rounds<D: Device>(
    agent: &Agent,
    mut runner: Runner<'_>,
    mut journal: Journal,
    devices: &mut [D],
) -> Report
    requires runner { runner ≡ record { agent = agent.now; list = [] } }
    requires agent { journal.agent ≡ agent.now }
    requires lawful { IsBoardList agent.now journal.entries }
    requires behind { IsBehind [] journal.entries }
    requires boxes { length agent.now.devices ≤ length devices.old }
    requires ready { AreReady agent.now journal.entries }
    ensures { RunsOn agent.now true journal.entries
        (standings D.fresh D.meaning devices.old) (standings D.fresh D.meaning devices.new) result }
{
    run_inline(&mut runner, devices, agent, &mut journal);
    drop(journal);
    runner.report()
}

// Writes the head of such a run and then its journal, and answers its exit status. Where a write of the head fails the
// run goes on to its end, and nothing more is written.
fn headed_in_rounds<K: Sink, D: Device, X: Expand>(
    agent: &Agent,
    pen: Pen<'_>,
    head: Bytes,
    journal: Journal,
    out: &mut K,
    devices: &mut [D],
    expand: X,
) -> u8
    requires pen { pen.core ≡ record { agent = agent.now; list = [] } }
    requires agent { journal.agent ≡ agent.now }
    requires lawful { IsBoardList agent.now journal.entries }
    requires behind { IsBehind [] journal.entries }
    requires boxes { length agent.now.devices ≤ length devices.old }
    requires ready { AreReady agent.now journal.entries }
    ensures { WritesReport (RunsOn agent.now true journal.entries
        (standings D.fresh D.meaning devices.old) (standings D.fresh D.meaning devices.new))
        agent.now head (K.taken out.old) (K.taken out.new) (K.faults out.old) (K.faults out.new) result }
{
    match write_head(out, head) {
        Ok(()) => written_in_rounds(agent, pen, journal, out, devices, expand),
        Err(_) => unwritten(agent, pen, journal, devices, expand),
    }
}

// Writes a head, and lets it go.
fn write_head<K: Sink>(out: &mut K, head: Bytes) -> Result<(), Failed>
    ensures added { OnOk result (K.taken out.new ≡ and_then_bytes (K.taken out.old) head) }
    ensures prefix { OnErr result (AddsPrefix (K.taken out.old) (K.taken out.new) head) }
    ensures no_fault { OnOk result (K.faults out.new ≡ K.faults out.old) }
    ensures failed { OnErr result (Rose (K.faults out.old) (K.faults out.new)) }
{
    let written = write_all(out, head.as_slice());
    drop(head);
    written
}

// Runs to its end in rounds, and writes nothing of it: the status is that of a write that failed.
fn unwritten<D: Device, X: Expand>(
    agent: &Agent,
    pen: Pen<'_>,
    journal: Journal,
    devices: &mut [D],
    expand: X,
) -> u8
    requires pen { pen.core ≡ record { agent = agent.now; list = [] } }
    requires agent { journal.agent ≡ agent.now }
    requires lawful { IsBoardList agent.now journal.entries }
    requires behind { IsBehind [] journal.entries }
    requires boxes { length agent.now.devices ≤ length devices.old }
    requires ready { AreReady agent.now journal.entries }
    ensures status { result ≡ 5 }
    ensures ended { HasEnded (RunsOn agent.now true journal.entries
        (standings D.fresh D.meaning devices.old) (standings D.fresh D.meaning devices.new)) }
{
    let mut nowhere = Nowhere;
    written_in_rounds(agent, pen, journal, &mut nowhere, devices, expand);
    WRITE_FAULT
}

// Writes the journal of such a run, and answers its exit status. What the sink holds then is known of the reference
// that the scribe gives back.
fn written_in_rounds<K: Sink, D: Device, X: Expand>(
    agent: &Agent,
    pen: Pen<'_>,
    mut journal: Journal,
    out: &mut K,
    devices: &mut [D],
    expand: X,
) -> u8
    requires pen { pen.core ≡ record { agent = agent.now; list = [] } }
    requires agent { journal.agent ≡ agent.now }
    requires lawful { IsBoardList agent.now journal.entries }
    requires behind { IsBehind [] journal.entries }
    requires boxes { length agent.now.devices ≤ length devices.old }
    requires ready { AreReady agent.now journal.entries }
    ensures { WritesReport (RunsOn agent.now true journal.entries
        (standings D.fresh D.meaning devices.old) (standings D.fresh D.meaning devices.new))
        agent.now [] (K.taken out.old) (K.taken out.new) (K.faults out.old) (K.faults out.new) result }
{
    let mut scribe = Scribe::with(pen, out, expand);
    run_inline(&mut scribe, devices, agent, &mut journal);
    drop(journal);
    let status = run_status(scribe.faulted(), scribe.answer());
    let _out = scribe.into_sink();
    status
}

// The same as in rounds of a run over threads. One whose head could not be written goes on in rounds, for which no
// memory is wanted.
fn headed_on_threads<R: Threads + Wait + Sync, K: Sink, D: Device + Send, X: Expand>(
    rt: &R,
    alloc: Global,
    agent: &Agent,
    pen: Pen<'_>,
    head: Bytes,
    journal: Journal,
    out: &mut K,
    devices: &mut [D],
    expand: X,
) -> Result<u8, NoMemory>
    requires formed { WellFormed agent.now }
    requires pen { pen.core ≡ record { agent = agent.now; list = [] } }
    requires agent { journal.agent ≡ agent.now }
    requires lawful { IsBoardList agent.now journal.entries }
    requires behind { IsBehind [] journal.entries }
    requires boxes { length agent.now.devices ≤ length devices.old }
    requires ready { AreReady agent.now journal.entries }
    ensures written { IfOk result (WritesReport (RunsOn agent.now false journal.entries
        (standings D.fresh D.meaning devices.old) (standings D.fresh D.meaning devices.new))
        agent.now head (K.taken out.old) (K.taken out.new) (K.faults out.old) (K.faults out.new)) }
    ensures nothing { OnErr result (WritesHead head
        (K.taken out.old) (K.taken out.new) (K.faults out.old) (K.faults out.new)) }
    ensures unserved { OnErr result (devices.new ≡ devices.old) }
{
    match write_head(out, head) {
        Ok(()) => written_on_threads(rt, alloc, agent, pen, journal, out, devices, expand),
        Err(_) => Ok(unwritten(agent, pen, journal, devices, expand)),
    }
}

// The same of a run over threads: the boxes of the agent's devices go to threads, and the others stay as they are.
fn written_on_threads<R: Threads + Wait + Sync, K: Sink, D: Device + Send, X: Expand>(
    rt: &R,
    alloc: Global,
    agent: &Agent,
    pen: Pen<'_>,
    journal: Journal,
    out: &mut K,
    devices: &mut [D],
    expand: X,
) -> Result<u8, NoMemory>
    requires formed { WellFormed agent.now }
    requires pen { pen.core ≡ record { agent = agent.now; list = [] } }
    requires agent { journal.agent ≡ agent.now }
    requires lawful { IsBoardList agent.now journal.entries }
    requires behind { IsBehind [] journal.entries }
    requires boxes { length agent.now.devices ≤ length devices.old }
    requires ready { AreReady agent.now journal.entries }
    ensures written { IfOk result (WritesReport (RunsOn agent.now false journal.entries
        (standings D.fresh D.meaning devices.old) (standings D.fresh D.meaning devices.new))
        agent.now [] (K.taken out.old) (K.taken out.new) (K.faults out.old) (K.faults out.new)) }
    ensures nothing { OnErr result (WritesNothing
        (K.taken out.old) (K.taken out.new) (K.faults out.old) (K.faults out.new)) }
    ensures unserved { OnErr result (devices.new ≡ devices.old) }
{
    let (served, _others) = devices.split_at_mut(agent.devices.len());
    served_on_threads(rt, alloc, agent, pen, journal, out, served, expand)
}

// Writes the journal of a run over threads of the agent's devices. Where memory is wanted, nothing has run, and nothing
// is written.
fn served_on_threads<R: Threads + Wait + Sync, K: Sink, D: Device + Send, X: Expand>(
    rt: &R,
    alloc: Global,
    agent: &Agent,
    pen: Pen<'_>,
    journal: Journal,
    out: &mut K,
    devices: &mut [D],
    expand: X,
) -> Result<u8, NoMemory>
    requires formed { WellFormed agent.now }
    requires pen { pen.core ≡ record { agent = agent.now; list = [] } }
    requires agent { journal.agent ≡ agent.now }
    requires lawful { IsBoardList agent.now journal.entries }
    requires behind { IsBehind [] journal.entries }
    requires boxes { length devices.old ≡ length agent.now.devices }
    requires ready { AreReady agent.now journal.entries }
    ensures written { IfOk result (WritesReport (ServedOn agent.now D.meaning journal.entries devices.old devices.new)
        agent.now [] (K.taken out.old) (K.taken out.new) (K.faults out.old) (K.faults out.new)) }
    ensures nothing { OnErr result (WritesNothing
        (K.taken out.old) (K.taken out.new) (K.faults out.old) (K.faults out.new)) }
    ensures unserved { OnErr result (devices.new ≡ devices.old) }
{
    let mut scribe = Scribe::with(pen, out, expand);
    match run_threads(rt, alloc, &mut scribe, devices, agent, journal) {
        Ok(()) => {
            scribe.keeps_rules();
            let status = run_status(scribe.faulted(), scribe.answer());
            let _out = scribe.into_sink();
            Ok(status)
        }
        Err(fault) => {
            let _out = scribe.into_sink();
            Err(fault)
        }
    }
}
