// Laws of calls: each status comes where its cause is, what a failed write cuts short begins
// online, replays and chains of runs are online, and what runs without search blocks and plans don't end for.
ghost use Rattle.golog_commands.specs.Exact.{StatusesAreExact};
ghost use Rattle.golog_commands.specs.CutShort.{CutShortBeginsOnline};
ghost use Rattle.golog_main.specs.Chains.{ChainsReplay};
ghost use Rattle.golog_main.specs.Plans.{PlansEndPlainly};
ghost use Rattle.golog_main.specs.Replayed.{OnlineReplaysRun};
ghost use Rattle.golog_main.specs.Searchless.{FuelIsHeavy, SearchlessEnds};

use golog_file::{one_cond_is_spelled, spelled_cond_is_unrefused};
use golog_replay::online_is_an_online_run;
use golog_reports::written_reads_back;

/// Each status comes exactly where it has its cause, for each command, unless the outside fails or memory runs out.
pub fn each_status_where_its_cause_is()
    ensures { StatusesAreExact }
{
    spelled_cond_is_unrefused();
    one_cond_is_spelled();
}

/// Where a replay ends with 0, its journal is the text of an online execution of the agent's program.
pub fn online_replays_run()
    ensures { OnlineReplaysRun }
{
    online_is_an_online_run();
}

/// Of any number of runs, each from the values that the journal of the one before leaves, each replays online.
pub fn chains_replay()
    ensures { ChainsReplay }
{
    written_reads_back();
    online_is_an_online_run();
}

/// Where a write fails, what a run has written is the beginning of the text of an online execution.
pub fn cut_short_begins_online()
    ensures { CutShortBeginsOnline }
{}

/// No run of an agent without search blocks ends for the depth of a search or for its fuel.
pub fn searchless_runs_end_plainly()
    ensures { SearchlessEnds }
{}

/// No run that follows plans ends as stuck, or for what is unknown.
pub fn plans_end_plainly()
    ensures { PlansEndPlainly }
{
    golog_branch::plans_end_plainly();
}

/// A run that ends for want of fuel has a program that is heavy there.
pub fn fuel_is_heavy()
    ensures { FuelIsHeavy }
{}
