// The run of a team, `team_reports`, and what it comes to, `teamed`.
ghost use Rattle.std.specs.Prelude.{◌≡◌, IfOk, None, false, true};
ghost use Rattle.golog_semantics.specs.WellFormed.{WellFormed};
ghost use Rattle.golog_team.specs.Shapes.{AreMatched, team_refusal};
ghost use Rattle.golog_commands.specs.Outcome.{OfTeam, TeamOf};
ghost use Rattle.golog_commands.specs.Teams.{AreTeamReports};

use golog_agent::Runner;
use golog_base::{Files, NoMemory, both};
use golog_commands::{Outcome, Pair, ended, pair_in, team_outcome};
use golog_semantics::Report;
use golog_team::{run_agents, unrefused_match};
use golog_tree::{Agent, nest};
use std::alloc::Global;
use std::sync::Wait;
use std::thread::Threads;

/// The deepest that the programs of a second agent nest together where it goes on a thread of its own. Such a thread
/// has the system's stack, of some megabytes, and what a step leaves may nest 2,048 deep beside them.
const DEEPEST: u32 = 512;

/// What it comes to that the agents of these files are run as a team.
pub fn teamed<R: Threads + Wait + Sync, F: Files>(
    rt: &R,
    alloc: Global,
    files: &mut F,
    first: &str,
    second: &str,
    inline: bool,
) -> Result<Outcome, NoMemory>
    ensures { IfOk result (OfTeam (F.held files.old) (F.faults files.old) (F.faults files.new) first.now second.now
        (λ a b. TeamOf a b inline)) }
{
    match pair_in(alloc, files, first, second) {
        Ok(pair) => {
            let outcome = teamed_of(rt, alloc, &pair, inline);
            pair.let_go();
            outcome
        }
        Err(unready) => ended(unready),
    }
}

// The same of two agents that were read, and are not refused.
fn teamed_of<R: Threads + Wait + Sync>(
    rt: &R,
    alloc: Global,
    pair: &Pair,
    inline: bool,
) -> Result<Outcome, NoMemory>
    requires formed { WellFormed pair.now.first × WellFormed pair.now.second }
    requires unrefused { team_refusal pair.now.first pair.now.second ≡ None }
    ensures { IfOk result (TeamOf pair.now.first pair.now.second inline) }
{
    unrefused_match();
    let (one, other) = team_reports(rt, alloc, &pair.first, &pair.second, inline)?;
    team_outcome(alloc, pair, inline, one, other)
}

// Whether the stack of a thread is large enough for the agent's programs.
fn is_shallow(agent: &Agent) -> bool {
    let mut depth = nest(&agent.main);
    for procedure in agent.procs.as_slice() {
        depth = depth.saturating_add(nest(&procedure.body));
    }
    depth <= DEEPEST
}

// Whether the two go on beside each other.
fn goes_beside(second: &Agent, inline: bool) -> bool
    ensures { inline ≡ true → result ≡ false }
{
    !inline && is_shallow(second)
}

/// The reports of both programs of a team, beside each other or, with `inline` and where the second agent's programs
/// nest deeper than 512 together, in turn: each is that of an online execution, and the two fit. `NoMemory` comes where
/// there is no memory for what they begin with.
pub fn team_reports<R: Threads + Wait + Sync>(
    rt: &R,
    alloc: Global,
    first: &Agent,
    second: &Agent,
    inline: bool,
) -> Result<(Report, Report), NoMemory>
    requires formed { WellFormed first.now × WellFormed second.now }
    requires matched { AreMatched first.now second.now × AreMatched second.now first.now }
    ensures { IfOk result (λ reports. AreTeamReports first.now second.now inline reports.0 reports.1) }
{
    let (one, other) = both(Runner::new(alloc, first), Runner::new(alloc, second))?;
    let beside = goes_beside(second, inline);
    let (led, their_led) = run_agents(rt, alloc, first, second, one, other, beside)?;
    let report = led.report();
    let their_report = their_led.report();
    Ok((report, their_report))
}
