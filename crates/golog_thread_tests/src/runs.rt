//! Runs over threads with a runner as lead, from an empty journal, over devices of the tests' own.
ghost use Rattle.std.specs.Prelude.{◌≡◌, [], IfSome};
ghost use Rattle.golog_semantics.specs.WellFormed.{WellFormed};

use golog_agent::Runner;
use golog_base::{List, NoMemory};
use golog_device::Device;
use golog_file::read_agent;
use golog_journal::{Journal, Lead, Report};
use golog_semantics::{Answer, Entry};
use golog_threads::run_threads;
use golog_tree::Agent;
use std::alloc::Global;
use std::sync::Wait;
use std::thread::Threads;

/// The agent that the text spells.
pub(crate) fn agent_of(alloc: Global, text: &[u8]) -> Option<Agent>
    ensures { IfSome result WellFormed }
{
    match read_agent(alloc, text) {
        Ok(agent) => Some(agent),
        Err(_) => None,
    }
}

/// The lead and the devices of its agent have run.
pub(crate) fn have_run<L: Lead, D: Device + Send, R: Threads + Wait + Sync>(
    rt: &R,
    alloc: Global,
    agent: &Agent,
    lead: &mut L,
    devices: &mut [D],
) -> Result<bool, NoMemory>
    requires formed { WellFormed agent.now }
    requires agent { (L.mind lead.old).agent ≡ agent.now }
    requires new { (L.mind lead.old).list ≡ [] }
{
    if devices.len() != agent.devices.len() {
        return Ok(false);
    }
    let journal = Journal::new(alloc, agent)?;
    run_threads(rt, alloc, lead, devices, agent, journal)?;
    Ok(true)
}

/// The report of a runner, if it has run.
pub(crate) fn report_if(
    report: Report,
    has_run: Result<bool, NoMemory>,
) -> Result<Option<Report>, NoMemory> {
    match has_run {
        Ok(true) => Ok(Some(report)),
        Ok(false) => {
            drop(report);
            Ok(None)
        }
        Err(error) => {
            drop(report);
            Err(error)
        }
    }
}

/// The report of a run of the agent's program over these devices.
pub(crate) fn report_over<D: Device + Send, R: Threads + Wait + Sync>(
    rt: &R,
    alloc: Global,
    agent: &Agent,
    devices: &mut [D],
) -> Result<Option<Report>, NoMemory>
    requires formed { WellFormed agent.now }
{
    let mut runner = Runner::new(alloc, agent)?;
    let has_run = have_run(rt, alloc, agent, &mut runner, devices);
    report_if(runner.report(), has_run)
}

/// How the program ended.
pub(crate) fn answer_in(entries: &[Entry]) -> Option<Answer> {
    for entry in entries {
        if let Entry::End { answer } = *entry {
            return Some(answer);
        }
    }
    None
}

/// What a device has posted, in order.
pub(crate) fn posts_of(
    alloc: Global,
    entries: &[Entry],
    device: u8,
) -> Result<List<u32>, NoMemory> {
    let mut posts = List::new(alloc);
    for entry in entries {
        if let Entry::Exo { poster, action } = *entry
            && poster == device
        {
            posts.push(action)?;
        }
    }
    Ok(posts)
}
