// The two agents of a team, and what comes of their journals.
ghost use Rattle.std.specs.Prelude.{◌≡◌, ◌++◌, IfOk, IfErr, None, OnOk};
ghost use Rattle.golog_semantics.specs.WellFormed.{WellFormed};
ghost use Rattle.golog_team.specs.Shapes.{team_refusal as first_refusal};
ghost use Rattle.golog_semantics.specs.Reports.{IsReport};
ghost use Rattle.golog_semantics.specs.Restart.{journal_text};
ghost use Rattle.golog_file.specs.Spelled.{IsFirstRefusal, SpellsAgent};
ghost use Rattle.golog_commands.specs.declared.outcome.Input.TheVariants.{Second};
ghost use Rattle.golog_commands.specs.declared.outcome.Outcome.TheVariants.{Refused};
ghost use Rattle.golog_commands.specs.Inputs.{ReadsAgent, refusal_text};
ghost use Rattle.golog_commands.specs.Outcome.{HoldsTeam, IfEnded, Nothing, OfFile, OfTeam, TeamBy, TeamOf};
ghost use Rattle.golog_commands.specs.Teams.{AreTeamReports, both_texts, team_input};

use crate::demos::answer_in;
use crate::outcome::{Input, Outcome};
use crate::ready::{Unready, agent_as, refused};
use golog_base::{Bytes, Files, NoMemory, both};
use golog_semantics::Report;
use golog_team::{TeamRefusal, team_refusal};
use golog_text::write_journal;
use golog_tree::Agent;
use std::alloc::Global;

/// Two agents that are a team.
#[derive(Drop)]
pub struct Pair {
    pub first: Agent,
    pub second: Agent,
}

impl Pair {
    /// Lets them go.
    pub fn let_go(self) {
        drop(self)
    }
}

/// The two agents that the files of these names spell, unless they are refused as a team. The first file is read and
/// checked before the second.
pub fn pair_in<F: Files>(
    alloc: Global,
    files: &mut F,
    first: &str,
    second: &str,
) -> Result<Pair, Unready>
    ensures holds { IfOk result (HoldsTeam (F.held files.old) first.now second.now) }
    ensures unready { IfErr result (λ fault. IfEnded fault
        (OfTeam (F.held files.old) (F.faults files.old) (F.faults files.new) first.now second.now (λ a b. Nothing))) }
{
    match agent_as(alloc, files, Input::First, first) {
        Ok(first) => pair_with(alloc, files, first, second),
        Err(unready) => Err(unready),
    }
}

// The same with a first agent that was read.
fn pair_with<F: Files>(
    alloc: Global,
    files: &mut F,
    first: Agent,
    second: &str,
) -> Result<Pair, Unready>
    requires { WellFormed first }
    ensures same { IfOk result (λ pair. pair.first ≡ first) }
    ensures formed { IfOk result (λ pair. WellFormed pair.second) }
    ensures reads { IfOk result (λ pair. ReadsAgent (F.held files.old) second.now pair.second) }
    ensures unrefused { IfOk result (λ pair. first_refusal pair.first pair.second ≡ None) }
    ensures unready { IfErr result (λ fault. IfEnded fault
        (OfFile (F.held files.old) (F.faults files.old) (F.faults files.new) Second second.now IsFirstRefusal SpellsAgent
        (λ b. TeamBy (first_refusal first b) Nothing))) }
{
    match agent_as(alloc, files, Input::Second, second) {
        Ok(second) => unrefused(alloc, Pair { first, second }),
        Err(unready) => {
            drop(first);
            Err(unready)
        }
    }
}

// The two agents, unless they are refused.
fn unrefused(alloc: Global, pair: Pair) -> Result<Pair, Unready>
    requires { WellFormed pair.first × WellFormed pair.second }
    ensures same { IfOk result (λ kept. kept ≡ pair) }
    ensures unrefused { IfOk result (λ kept. first_refusal pair.first pair.second ≡ None) }
    ensures unready { IfErr result (λ fault. IfEnded fault
        (TeamBy (first_refusal pair.first pair.second) Nothing)) }
{
    match team_refusal(alloc, &pair.first, &pair.second) {
        Ok(None) => Ok(pair),
        Ok(Some(refusal)) => {
            drop(pair);
            Err(refused_team(alloc, refusal))
        }
        Err(NoMemory) => {
            drop(pair);
            Err(Unready::Memory)
        }
    }
}

// What is said of two agents that are refused.
fn refused_team(alloc: Global, refusal: TeamRefusal) -> Unready
    ensures { IfEnded result (λ outcome. outcome
        ≡ Refused (team_input refusal.side) (refusal_text (team_input refusal.side) refusal.code refusal.at)) }
{
    refused(alloc, input_of(refusal.side), refusal.code, refusal.at)
}

// Which of the two files a refusal is of.
fn input_of(side: u8) -> Input
    ensures { result ≡ team_input side }
{
    if side == 0 {
        Input::First
    } else {
        Input::Second
    }
}

/// What a team comes to whose programs have these reports.
pub fn team_outcome(
    alloc: Global,
    pair: &Pair,
    inline: bool,
    one: Report,
    other: Report,
) -> Result<Outcome, NoMemory>
    requires formed { WellFormed pair.now.first × WellFormed pair.now.second }
    requires reports { AreTeamReports pair.now.first pair.now.second inline one other }
    ensures { IfOk result (TeamOf pair.now.first pair.now.second inline) }
{
    // The contract alone speaks of it.
    let _inline = inline;
    let first = answer_in(&one);
    let second = answer_in(&other);
    let text = team_text(alloc, pair, &one, &other);
    drop(one);
    drop(other);
    let text = text?;
    Ok(Outcome::Teamed {
        text,
        first,
        second,
    })
}

// The text of both journals: a line `first`, the first one's, a line `second`, the second one's.
fn team_text(alloc: Global, pair: &Pair, one: &Report, other: &Report) -> Result<Bytes, NoMemory>
    requires formed { WellFormed pair.now.first × WellFormed pair.now.second }
    requires fits { IsReport pair.now.first one.now × IsReport pair.now.second other.now }
    ensures { IfOk result (λ text. text
        ≡ both_texts (journal_text pair.now.first one.now) (journal_text pair.now.second other.now)) }
{
    let texts = both(
        write_journal(alloc, &pair.first, one),
        write_journal(alloc, &pair.second, other),
    );
    let (one, other) = texts?;
    let text = joined(alloc, &one, &other);
    drop(one);
    drop(other);
    text
}

// Both texts, each behind its line.
fn joined(alloc: Global, one: &Bytes, other: &Bytes) -> Result<Bytes, NoMemory>
    ensures { IfOk result (λ text. text ≡ both_texts one.now other.now) }
{
    let mut text = Bytes::new(alloc);
    match add_both(&mut text, one, other) {
        Ok(()) => Ok(text),
        Err(fault) => {
            drop(text);
            Err(fault)
        }
    }
}

// Adds them.
fn add_both(text: &mut Bytes, one: &Bytes, other: &Bytes) -> Result<(), NoMemory>
    ensures { OnOk result (text.new ≡ text.old ++ both_texts one.now other.now) }
{
    text.extend(b"first\n")?;
    text.extend(one.as_slice())?;
    text.extend(b"second\n")?;
    text.extend(other.as_slice())
}
