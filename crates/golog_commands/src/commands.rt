// What the commands come to that look at files alone: `check`, `ask` and `migrate`.
ghost use Rattle.std.specs.Prelude.{◌≡◌, IfOk, IsTrue};
ghost use Rattle.golog_semantics.specs.Fits.{cond_fits, nothing_bound};
ghost use Rattle.golog_semantics.specs.Reports.{IsReport};
ghost use Rattle.golog_semantics.specs.WellFormed.{WellFormed};
ghost use Rattle.golog_file.specs.Conditions.{CondsStayKept};
ghost use Rattle.golog_check_text.specs.Counts.{check_text as spec_check_text};
ghost use Rattle.golog_semantics.specs.Restart.{journal_text, migrated};
ghost use Rattle.golog_commands.specs.Outcome.{MigratedOf, OfAgent, OfBoth, OfCondition, OfJournal, TruthOf};
ghost use Rattle.golog_commands.specs.declared.outcome.Outcome.TheVariants.{Checked, Migrated};

use crate::outcome::Outcome;
use crate::ready::{Told, agent_in, condition_in, ended, told_in, understood_in};
use crate::starts::{put_start, restart_at};
use golog_ask::ask;
use golog_base::{Bytes, Files, NoMemory};
use golog_check_text::check_text;
use golog_file::Understood;
use golog_semantics::Report;
use golog_text::write_journal;
use golog_tree::{Agent, Cond};
use std::alloc::Global;

/// What a check of the agent file comes to.
pub fn checked<F: Files>(alloc: Global, files: &mut F, name: &str) -> Result<Outcome, NoMemory>
    ensures { IfOk result (OfAgent (F.held files.old) (F.faults files.old) (F.faults files.new) name.now
        (λ agent outcome. outcome ≡ Checked (spec_check_text agent))) }
{
    match agent_in(alloc, files, name) {
        Ok(agent) => {
            let outcome = checked_of(alloc, &agent);
            drop(agent);
            outcome
        }
        Err(unready) => ended(unready),
    }
}

// The same of an agent that was read.
fn checked_of(alloc: Global, agent: &Agent) -> Result<Outcome, NoMemory>
    requires { WellFormed agent.now }
    ensures { IfOk result (λ outcome. outcome ≡ Checked (spec_check_text agent.now)) }
{
    let text = check_text(alloc, agent)?;
    Ok(Outcome::Checked { text })
}

/// What it comes to that a condition of the agent file is asked for after a journal.
pub fn asked<F: Files>(
    alloc: Global,
    files: &mut F,
    name: &str,
    journal: &str,
    word: &str,
) -> Result<Outcome, NoMemory>
    ensures { IfOk result (OfBoth (F.held files.old) (F.faults files.old) (F.faults files.new) name.now (λ u.
        OfJournal (F.held files.old) (F.faults files.old) (F.faults files.new) u.agent journal.now (λ told.
        OfCondition u.theory u.agent word.now (λ cond. TruthOf u.agent told cond)))) }
{
    match understood_in(alloc, files, name) {
        Ok(mut understood) => {
            let outcome = asked_of(alloc, files, &mut understood, journal, word);
            drop(understood);
            outcome
        }
        Err(unready) => ended(unready),
    }
}

// The same of an agent that was read, which starts from the journal's start then.
fn asked_of<F: Files>(
    alloc: Global,
    files: &mut F,
    understood: &mut Understood,
    journal: &str,
    word: &str,
) -> Result<Outcome, NoMemory>
    requires formed { WellFormed understood.old.agent }
    requires kept { CondsStayKept understood.old.theory understood.old.agent }
    ensures { IfOk result (OfJournal (F.held files.old) (F.faults files.old) (F.faults files.new)
        understood.old.agent journal.now (λ told.
        OfCondition understood.old.theory understood.old.agent word.now (λ cond.
        TruthOf understood.old.agent told cond))) }
{
    match told_in(alloc, files, journal, &understood.agent) {
        Ok(told) => {
            let outcome = asked_after(alloc, understood, &told, word);
            drop(told);
            outcome
        }
        Err(unready) => ended(unready),
    }
}

// The same after a journal that was read.
fn asked_after(
    alloc: Global,
    understood: &mut Understood,
    told: &Told,
    word: &str,
) -> Result<Outcome, NoMemory>
    requires formed { WellFormed understood.old.agent }
    requires kept { CondsStayKept understood.old.theory understood.old.agent }
    requires fits { IsReport understood.old.agent told.now.report }
    ensures { IfOk result (OfCondition understood.old.theory understood.old.agent word.now (λ cond.
        TruthOf understood.old.agent told.now cond)) }
{
    match condition_in(alloc, understood, word) {
        Ok(cond) => {
            let outcome = truth_of(alloc, &mut understood.agent, told, &cond);
            drop(cond);
            outcome
        }
        Err(unready) => ended(unready),
    }
}

// The truth of a condition that was read.
fn truth_of(alloc: Global, agent: &mut Agent, told: &Told, cond: &Cond) -> Result<Outcome, NoMemory>
    requires formed { WellFormed agent.old }
    requires fits { IsReport agent.old told.now.report }
    requires cond { IsTrue (cond_fits agent.old cond.now nothing_bound) }
    ensures { IfOk result (TruthOf agent.old told.now cond.now) }
{
    restart_at(alloc, agent, &told.report.start)?;
    let truth = ask(alloc, agent, told.report.entries.as_slice(), cond)?;
    Ok(Outcome::Asked(truth))
}

/// What it comes to that a journal file is written with its start.
pub fn migrated<F: Files>(
    alloc: Global,
    files: &mut F,
    name: &str,
    journal: &str,
) -> Result<Outcome, NoMemory>
    ensures { IfOk result (OfAgent (F.held files.old) (F.faults files.old) (F.faults files.new) name.now (λ agent.
        OfJournal (F.held files.old) (F.faults files.old) (F.faults files.new) agent journal.now
        (MigratedOf agent))) }
{
    match agent_in(alloc, files, name) {
        Ok(agent) => {
            let outcome = migrated_of(alloc, files, &agent, journal);
            drop(agent);
            outcome
        }
        Err(unready) => ended(unready),
    }
}

// The same of an agent that was read. The journal's bytes are let go before its text is written.
fn migrated_of<F: Files>(
    alloc: Global,
    files: &mut F,
    agent: &Agent,
    journal: &str,
) -> Result<Outcome, NoMemory>
    requires { WellFormed agent.now }
    ensures { IfOk result (OfJournal (F.held files.old) (F.faults files.old) (F.faults files.new)
        agent.now journal.now (MigratedOf agent.now)) }
{
    match told_in(alloc, files, journal, agent) {
        Ok(told) => written_out(alloc, agent, without_bytes(told)),
        Err(unready) => ended(unready),
    }
}

// The report alone.
fn without_bytes(told: Told) -> Report
    ensures { result ≡ told.report }
{
    let Told { bytes, report } = told;
    drop(bytes);
    report
}

// The text of a report with its start written out.
fn written_out(alloc: Global, agent: &Agent, mut report: Report) -> Result<Outcome, NoMemory>
    requires formed { WellFormed agent.now }
    requires fits { IsReport agent.now report }
    ensures { IfOk result (λ outcome. outcome ≡ Migrated (journal_text agent.now (migrated agent.now report))) }
{
    let text = migrated_text(alloc, agent, &mut report);
    drop(report);
    let text = text?;
    Ok(Outcome::Migrated { text })
}

// That text.
fn migrated_text(alloc: Global, agent: &Agent, report: &mut Report) -> Result<Bytes, NoMemory>
    requires formed { WellFormed agent.now }
    requires fits { IsReport agent.now report.old }
    ensures { IfOk result (λ text. text ≡ journal_text agent.now (migrated agent.now report.old)) }
{
    put_start(alloc, agent, report)?;
    write_journal(alloc, agent, report)
}
