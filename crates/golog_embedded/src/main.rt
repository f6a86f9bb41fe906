//! The smallest program of one's own that has the interpreter in it: it runs the agent below with one device, a door,
//! and prints the journal. Put your agent, and devices that do something, in their places.
#![tactic(auto)]

ghost use Rattle.std.specs.Prelude.{◌≡◌, ◌≤◌, Err, IfErr, IfOk, None, length};
ghost use Rattle.golog_tree.specs.declared.agent.Agent.{Agent};
ghost use Rattle.golog_semantics.specs.declared.journal.Report.{Report};
ghost use Rattle.golog_semantics.specs.Online.{IsOnline};
ghost use Rattle.golog_semantics.specs.Reports.{IsReport, SpellsReport};
ghost use Rattle.golog_semantics.specs.WellFormed.{WellFormed};
ghost use Rattle.golog_file.specs.Spelled.{Reads, SpellsAgent};

use golog_agent::{Runner, run_inline};
use golog_base::{Bytes, List, NoMemory, OutSink, write_all};
use golog_device::{Begun, Device, Idle, Served, TableDevice};
use golog_file::{AgentFault, read_agent};
use golog_journal::Journal;
use golog_semantics::Report;
use golog_text::write_journal;
use golog_tree::Agent;
use std::alloc::Global;
use std::process::ExitCode;

/// The agent, as its file has it.
const AGENT: &[u8] = b"; Whether the door is open isn't known, so the program looks before it goes.
(agent
  (device door)
  (fluent opened () bool)
  (action look () door) (action go ()) (action knock ())
  (senses (look) (opened))
  (poss (go) (opened))
  (main (seq (act look) (if (opened) (act go) (act knock)))))
";

/// The exit status where an agent is refused.
const REFUSED: u8 = 3;

/// The exit status where a write failed.
const WRITE_FAILED: u8 = 5;

/// The exit status where memory ran out.
const NO_MEMORY: u8 = 6;

fn main(rt: HostRuntime) -> ExitCode {
    match journal_text(rt.alloc(), AGENT) {
        Ok(text) => printed(rt, &text),
        Err(AgentFault::Refused { .. }) => ExitCode::from(REFUSED),
        Err(AgentFault::Memory) => ExitCode::from(NO_MEMORY),
    }
}

// Writes the text to standard output.
fn printed(rt: HostRuntime, text: &Bytes) -> ExitCode {
    let mut out = OutSink::new(rt);
    match write_all(&mut out, text.as_slice()) {
        Ok(()) => ExitCode::SUCCESS,
        Err(_) => ExitCode::from(WRITE_FAILED),
    }
}

/// The journal of a run of the agent that the bytes of a file spell: the text of an online execution of its program.
/// Or the first refusal of the file, or `Memory` where memory ran out.
fn journal_text(alloc: Global, file: &[u8]) -> Result<Bytes, AgentFault>
    ensures journal { IfOk result (λ text. (agent : Agent) × (report : Report) × SpellsAgent file.now agent
        × SpellsReport agent text report × IsOnline agent report × (report.start ≡ None)) }
    ensures refusal { IfErr result (λ fault. Reads (Err fault) file.now) }
{
    // Reads and checks the file.
    let agent = read_agent(alloc, file)?;
    // What carries out the program's commands.
    let mut devices = doors(alloc, &agent)?;
    let report = run(alloc, &agent, devices.as_mut_slice())?;
    // Writes a line for each entry.
    let text = write_journal(alloc, &agent, &report)?;
    Ok(text)
}

/// The report of a run of the agent's program, in which the devices and the program take turns on this thread. The
/// devices stand in the order in which the agent declares them.
fn run<D: Device>(alloc: Global, agent: &Agent, devices: &mut [D]) -> Result<Report, NoMemory>
    requires formed { WellFormed agent.now }
    requires boxes { length agent.now.devices ≤ length devices.old }
    ensures fits { IfOk result (IsReport agent.now) }
    ensures online { IfOk result (IsOnline agent.now) }
    ensures begun { IfOk result (λ report. report.start ≡ None) }
{
    // Takes the entries, from the program and from the devices.
    let mut journal = Journal::new(alloc, agent)?;
    // Decides what the program does next.
    let mut runner = Runner::new(alloc, agent)?;
    // Goes on until the program has ended and each device is closed.
    run_inline(&mut runner, devices, agent, &mut journal);
    drop(journal);
    Ok(runner.report())
}

/// A device for each that the agent declares, all of them doors.
fn doors(alloc: Global, agent: &Agent) -> Result<Vec<TableDevice>, NoMemory>
    ensures { IfOk result (λ devices. length devices.items ≡ length agent.now.devices) }
{
    let mut devices = Vec::new(alloc);
    for _ in 0..agent.devices.len() {
        let device = door(alloc)?;
        devices.push(device)?;
    }
    Ok(devices)
}

// A door, by a table: it answers its first command with `true`; without a command it rests once, and then closes. It
// has no script, so it is not begun.
fn door(alloc: Global) -> Result<TableDevice, NoMemory> {
    let mut answers = List::new(alloc);
    answers.push(Served::Value(Bytes::copy_of(alloc, b"true")?))?;
    let mut idles = List::new(alloc);
    idles.push(Idle::Rest)?;
    TableDevice::new(alloc, Begun::Ready, answers, idles)
}
