// A replay, `replayed`, and what it comes to.
ghost use Rattle.std.specs.Prelude.{IfOk};
ghost use Rattle.golog_semantics.specs.Reports.{IsReport};
ghost use Rattle.golog_semantics.specs.WellFormed.{WellFormed};
ghost use Rattle.golog_commands.specs.Outcome.{Judges, OfAgent, OfJournal};

use golog_base::{Files, NoMemory};
use golog_commands::{Outcome, Told, agent_in, ended, let_go, restart_at, told_in, verdict_line};
use golog_replay::replay;
use golog_tree::Agent;
use std::alloc::Global;

/// What a replay of the journal file with the agent file comes to.
pub fn replayed<F: Files>(
    alloc: Global,
    files: &mut F,
    name: &str,
    journal: &str,
) -> Result<Outcome, NoMemory>
    ensures { IfOk result (OfAgent (F.held files.old) (F.faults files.old) (F.faults files.new) name.now (λ agent.
        OfJournal (F.held files.old) (F.faults files.old) (F.faults files.new) agent journal.now (Judges agent))) }
{
    match agent_in(alloc, files, name) {
        Ok(mut agent) => {
            let outcome = replayed_of(alloc, files, &mut agent, journal);
            let_go(agent);
            outcome
        }
        Err(unready) => ended(unready),
    }
}

// The same of an agent that was read, which starts from the journal's start then.
fn replayed_of<F: Files>(
    alloc: Global,
    files: &mut F,
    agent: &mut Agent,
    journal: &str,
) -> Result<Outcome, NoMemory>
    requires { WellFormed agent.old }
    ensures { IfOk result (OfJournal (F.held files.old) (F.faults files.old) (F.faults files.new)
        agent.old journal.now (Judges agent.old)) }
{
    match told_in(alloc, files, journal, agent) {
        Ok(told) => {
            let outcome = judged(alloc, agent, &told);
            told.let_go();
            outcome
        }
        Err(unready) => ended(unready),
    }
}

// The same of a journal that was read.
fn judged(alloc: Global, agent: &mut Agent, told: &Told) -> Result<Outcome, NoMemory>
    requires formed { WellFormed agent.old }
    requires fits { IsReport agent.old told.now.report }
    ensures { IfOk result (Judges agent.old told.now) }
{
    restart_at(alloc, agent, &told.report.start)?;
    let verdict = replay(alloc, agent, told.bytes.as_slice(), &told.report)?;
    let text = verdict_line(alloc, verdict)?;
    Ok(Outcome::Judged { verdict, text })
}
