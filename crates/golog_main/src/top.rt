// The top call, and which order the words give.
ghost use Rattle.std.specs.Prelude.{◌≡◌, ◌<◌, ◌≤◌, map, string_bytes, false, Some, IsSome, IfSome, IfOk, OnErr, length};
ghost use Rattle.golog_semantics.specs.Journal.{device_limit};
ghost use Rattle.golog_device.specs.Slots.{standings, FreshBelow};
ghost use Rattle.golog_words.specs.Answers.{command_of};
ghost use Rattle.golog_words.specs.Commands.{PlanFits, WorkersFit, command_in};
ghost use Rattle.golog_commands.specs.CutShort.{LinesBegin};
ghost use Rattle.golog_commands.specs.InWorlds.{RunsAreSo};
ghost use Rattle.golog_commands.specs.Outcome.{CallEnds, IsReported, LeavesDevices, LeavesText, is_threaded, outside};

use crate::commands::{over_team, over_threads, served};
use crate::plans::plan_on_threads;
use golog_base::{Files, NoMemory, Sink};
use golog_commands::{Outcome, call_status, report};
use golog_device::Device;
use golog_par::Workers;
use golog_ways::{Expand, Plain};
use golog_words::{Order, WordsFault, order_of};
use std::alloc::Global;
use std::sync::Wait;
use std::thread::Threads;

/// Does what the words say over these files and devices, writes what comes of it to `out`, and answers the
/// exit status. The devices of the agent are the first of those given, in the order of its file; the others
/// stay as they are.
///
/// Whatever the devices post while the program thinks or searches, the journal that is printed is an online
/// execution of the program: each step is certain by Trans from the program left, at the whole history there; a
/// search block steps along a printed run to Final; each device's items stand once, in order, with values; and done,
/// stuck, unknown and depth stand exactly where Final and Trans put them.
///
/// The words are one of these, where a file word is not empty and does not begin with `-`:
///
/// - `run AGENT [DEVICES] [--inline] [--from JOURNAL] [--workers COUNT]` runs the program, with `--inline`, and `--from`
///   and `--workers` with their words, anywhere among the files: the journal. With `--from` it begins from the values
///   that this journal leaves. With `--workers` up to so many threads, 1 to 16, share the work of a search; the number
///   decides nothing of what is printed.
/// - `check AGENT`: how many ground fluents, ground actions, procedures and devices the agent has.
/// - `replay AGENT JOURNAL`: whether the journal is the text of an online execution of the agent's program, and
///   else the first place where a rule is broken and the first that is broken there.
/// - `ask AGENT JOURNAL CONDITION`: the condition's truth by what is known after the journal's entries.
/// - `migrate AGENT JOURNAL`: the journal as the second version of the text, with its start written out.
/// - `demo N` runs the lift of N levels, 1 to 200: how many entries, actions and posts its journal has, and its
///   answer.
/// - `team FIRST SECOND [--inline]` runs two agents, each the other's one device, beside each other or, with `--inline`
///   anywhere among the files, a step of each in turn: both journals.
/// - `plan DEPTH FUEL AGENT [DEVICES] [--inline]`, with `--inline` anywhere among the files, looks for a plan of the
///   whole program that goes on for each value that it may sense, of 1 to 16 steps in a row at most, with a fuel of 1 to
///   100,000, and follows it: the journal, with each new plan behind the step that begins it.
///
/// What a command needs is read in this order: the agent file, then the devices file, then the journal file, then the
/// condition, each where the command has it. A replay and a condition start from the journal's own start, where it has
/// one. The first of these that fits is the answer:
///
/// - 2, `words refused`: the words are anything else.
/// - 4, `read fault INPUT`: the file could not be read, which comes only where it is not there or a call of `files`
///   failed. INPUT is `agent`, `devices` or `journal`; of a team `first` or `second`.
/// - 3, `refused INPUT CODE at PLACE`: the input spells nothing of its kind; the code and the place are those of
///   its first refusal, as of `golog_file::read_agent`, `golog_script::scripts_of`, `golog_reports::read_journal` and
///   `golog_file::read_condition`, or 5 at its limit where it has more bytes. INPUT may be `condition` too.
/// - 0, the text of `check`, `ask`, `migrate` or `demo`; or of `replay`, `online ANSWER`, where the journal is online.
/// - 17, the text of `replay`, `not online PLACE RULE`, where it is not.
/// - 3, `refused first` or `refused second`, where two agents are no team: 45 at 0 where an agent hasn't exactly one
///   device, or an action of that senses; 46 at N where the text of the ground action N of its device is that of none
///   that the other agent's device may post.
/// - 3, `refused agent 39 at 0`, where a program that is to be planned for holds a search block or reaches one by calls.
///   It comes before the devices file is read.
/// - the status of the first agent's end, or where that is done of the second's, the journals of a team: each is of an
///   online execution of its own agent's program, and the two fit. What one has sent is what the other was told, in
///   order, up to where that one was closed; each waits only where it has told so, and rests where both have.
/// - 0, or 10 to 16, the journal of an online execution of the agent's program, which ends `done`, `stuck`,
///   `unknown`, `depth`, `fuel`, `unanswered`, `full` or `deep`. With `--from` its head has the values from which it
///   begins; without it there is none. Each device that tells it was dealt with as the journal says, with its script,
///   the empty one where the devices file has none. With `--inline`, where all tell what is left of their scripts, it
///   is the journal of the rounds of these scripts; one that ends `fuel` has the first lines of that. In each world
///   that agrees with the entries before it, each step of the journal is a step of the program left, which may end
///   there where the journal says done, and may neither step nor end where it says stuck.
/// - of `plan`, 0, or 12 to 16, the journal of the program that follows plans, which ends `done`, `depth`, `fuel`,
///   `unanswered`, `full` or `deep`. Each step is the next of the plan that is kept, or the first of the first plan of
///   least height. `depth` stands exactly where there is none and each device is closed or at rest, `fuel` where the
///   search takes more than that, and `deep` where the plan has more than 10,000 steps. In each world that agrees with
///   the entries before it, each step is a step of the program left, which may end there where the journal says done,
///   and a plan that is printed leads to where it may end, in at most so many steps, by the branches that the world
///   takes. The devices were dealt with as of a run; with `--inline`, where all tell what is left of their scripts, it
///   is the journal of the rounds of these, and ends early for want of memory alone.
///
/// Each line ends with a line feed. Where the sink's count of faults rises the answer is 5, before any other: a prefix
/// of the text is written, of a run the beginning of the text of an online execution, of a plan that of such a journal,
/// and the run goes on to its end.
///
/// Where memory runs out the answer is 6: nothing is written, or of a run over threads its head alone, and each device
/// of a run or a plan is as it was or has begun and was given and told nothing; or the journal of one that ends `memory`
/// is written, or the journals of a team whose first end that is not `done` is `memory`.
///
/// With `--inline` the devices have their turns in rounds with the program. Without it the call makes threads for them;
/// such a run may wait for ever, as where a device's call does, or where no thread can be made. That they run beside
/// each other, and that a line of a run is written when its entry is seen, is not among the clauses: tests look.
pub fn golog<R: Threads + Wait + Sync, F: Files, K: Sink, D: Device + Send>(
    rt: &R,
    alloc: Global,
    words: &[String],
    files: &mut F,
    out: &mut K,
    devices: &mut [D],
) -> u8
    requires boxes { device_limit ≤ length devices.old }
    requires fresh { FreshBelow device_limit (standings D.fresh D.meaning devices.old) }
    ensures ends { CallEnds result (command_in (map string_bytes words.now))
        (outside F.held F.faults K.taken K.faults D.fresh D.meaning files.old out.old devices.old)
        (outside F.held F.faults K.taken K.faults D.fresh D.meaning files.new out.new devices.new) }
    ensures fault { K.faults out.old < K.faults out.new → result ≡ 5 }
    ensures so { RunsAreSo result (command_in (map string_bytes words.now))
        (outside F.held F.faults K.taken K.faults D.fresh D.meaning files.old out.old devices.old)
        (outside F.held F.faults K.taken K.faults D.fresh D.meaning files.new out.new devices.new) }
    ensures lines { LinesBegin (command_in (map string_bytes words.now))
        (outside F.held F.faults K.taken K.faults D.fresh D.meaning files.old out.old devices.old)
        (outside F.held F.faults K.taken K.faults D.fresh D.meaning files.new out.new devices.new) }
{
    call_status(answered(rt, alloc, words, files, out, devices))
}

/// The same without a runtime, for an order that is neither a run over threads, planned or not, nor a team. The searches
/// of a run ask `expand` for the steps of many programs, however many workers the order asks for. The depth and the fuel
/// of a plan are those that words may give.
pub fn serve_inline<F: Files, K: Sink, D: Device, X: Expand>(
    alloc: Global,
    order: Order<'_>,
    files: &mut F,
    out: &mut K,
    devices: &mut [D],
    expand: X,
) -> u8
    requires way { is_threaded (command_of order) ≡ false }
    requires plan { PlanFits (command_of order) }
    requires boxes { device_limit ≤ length devices.old }
    requires fresh { FreshBelow device_limit (standings D.fresh D.meaning devices.old) }
    ensures ends { CallEnds result (Some (command_of order.entry))
        (outside F.held F.faults K.taken K.faults D.fresh D.meaning files.old out.old devices.old)
        (outside F.held F.faults K.taken K.faults D.fresh D.meaning files.new out.new devices.new) }
    ensures fault { K.faults out.old < K.faults out.new → result ≡ 5 }
    ensures so { RunsAreSo result (Some (command_of order.entry))
        (outside F.held F.faults K.taken K.faults D.fresh D.meaning files.old out.old devices.old)
        (outside F.held F.faults K.taken K.faults D.fresh D.meaning files.new out.new devices.new) }
    ensures lines { LinesBegin (Some (command_of order.entry))
        (outside F.held F.faults K.taken K.faults D.fresh D.meaning files.old out.old devices.old)
        (outside F.held F.faults K.taken K.faults D.fresh D.meaning files.new out.new devices.new) }
{
    call_status(served(alloc, order, files, out, devices, expand))
}

// Does what the words say, and answers the exit status.
fn answered<R: Threads + Wait + Sync, F: Files, K: Sink, D: Device + Send>(
    rt: &R,
    alloc: Global,
    words: &[String],
    files: &mut F,
    out: &mut K,
    devices: &mut [D],
) -> Result<u8, NoMemory>
    requires boxes { device_limit ≤ length devices.old }
    requires fresh { FreshBelow device_limit (standings D.fresh D.meaning devices.old) }
    ensures reported { IfOk result (λ status. IsReported status (command_in (map string_bytes words.now))
        (outside F.held F.faults K.taken K.faults D.fresh D.meaning files.old out.old devices.old)
        (outside F.held F.faults K.taken K.faults D.fresh D.meaning files.new out.new devices.new)) }
    ensures nothing { OnErr result (LeavesText (command_in (map string_bytes words.now))
        (outside F.held F.faults K.taken K.faults D.fresh D.meaning files.old out.old devices.old)
        (outside F.held F.faults K.taken K.faults D.fresh D.meaning files.new out.new devices.new)) }
    ensures no_fault { OnErr result (K.faults out.new ≡ K.faults out.old) }
    ensures left { OnErr result (LeavesDevices (command_in (map string_bytes words.now))
        (standings D.fresh D.meaning devices.old) (standings D.fresh D.meaning devices.new)) }
    ensures command { OnErr result (IsSome (command_in (map string_bytes words.now))) }
{
    match order_of(alloc, words) {
        Ok(order) => done(rt, alloc, order, files, out, devices),
        Err(WordsFault::Refused) => Ok(report(out, Outcome::WordsRefused)),
        Err(WordsFault::Memory) => Err(NoMemory),
    }
}

// Does what an order says, and answers the exit status.
fn done<R: Threads + Wait + Sync, F: Files, K: Sink, D: Device + Send>(
    rt: &R,
    alloc: Global,
    order: Order<'_>,
    files: &mut F,
    out: &mut K,
    devices: &mut [D],
) -> Result<u8, NoMemory>
    requires workers { WorkersFit (command_of order) }
    requires plan { PlanFits (command_of order) }
    requires boxes { device_limit ≤ length devices.old }
    requires fresh { FreshBelow device_limit (standings D.fresh D.meaning devices.old) }
    ensures reported { IfOk result (λ status. IsReported status
        (Some (command_of order.entry))
        (outside F.held F.faults K.taken K.faults D.fresh D.meaning files.old out.old devices.old)
        (outside F.held F.faults K.taken K.faults D.fresh D.meaning files.new out.new devices.new)) }
    ensures nothing { OnErr result (LeavesText (Some (command_of order.entry))
        (outside F.held F.faults K.taken K.faults D.fresh D.meaning files.old out.old devices.old)
        (outside F.held F.faults K.taken K.faults D.fresh D.meaning files.new out.new devices.new)) }
    ensures no_fault { OnErr result (K.faults out.new ≡ K.faults out.old) }
    ensures left { OnErr result (LeavesDevices (Some (command_of order.entry))
        (standings D.fresh D.meaning devices.old) (standings D.fresh D.meaning devices.new)) }
{
    match workers_of(order) {
        Some(count) => {
            let workers = Workers::new(rt, count);
            done_by(rt, alloc, order, files, out, devices, workers)
        }
        None => done_by(rt, alloc, order, files, out, devices, Plain),
    }
}

// The same, where the searches of a run ask `expand` for the steps of many programs.
fn done_by<R: Threads + Wait + Sync, F: Files, K: Sink, D: Device + Send, X: Expand>(
    rt: &R,
    alloc: Global,
    order: Order<'_>,
    files: &mut F,
    out: &mut K,
    devices: &mut [D],
    expand: X,
) -> Result<u8, NoMemory>
    requires plan { PlanFits (command_of order) }
    requires boxes { device_limit ≤ length devices.old }
    requires fresh { FreshBelow device_limit (standings D.fresh D.meaning devices.old) }
    ensures reported { IfOk result (λ status. IsReported status
        (Some (command_of order.entry))
        (outside F.held F.faults K.taken K.faults D.fresh D.meaning files.old out.old devices.old)
        (outside F.held F.faults K.taken K.faults D.fresh D.meaning files.new out.new devices.new)) }
    ensures nothing { OnErr result (LeavesText (Some (command_of order.entry))
        (outside F.held F.faults K.taken K.faults D.fresh D.meaning files.old out.old devices.old)
        (outside F.held F.faults K.taken K.faults D.fresh D.meaning files.new out.new devices.new)) }
    ensures no_fault { OnErr result (K.faults out.new ≡ K.faults out.old) }
    ensures left { OnErr result (LeavesDevices (Some (command_of order.entry))
        (standings D.fresh D.meaning devices.old) (standings D.fresh D.meaning devices.new)) }
{
    match order {
        Order::Run {
            agent,
            devices: named,
            inline: false,
            from,
            ..
        } => over_threads(rt, alloc, files, out, agent, named, from, devices, expand),
        Order::Team {
            first,
            second,
            inline,
        } => over_team(rt, alloc, files, out, first, second, inline, devices),
        Order::Plan {
            depth,
            fuel,
            agent,
            devices: named,
            inline: false,
        } => plan_on_threads(rt, alloc, files, out, depth, fuel, agent, named, devices),
        _ => served(alloc, order, files, out, devices, expand),
    }
}

// How many workers the searches of an order have, if they have some.
fn workers_of(order: Order<'_>) -> Option<u32>
    requires { WorkersFit (command_of order) }
    ensures { IfSome result (λ count. (1 ≤ count) × (count ≤ 16)) }
{
    match order {
        Order::Run {
            workers: Some(count),
            ..
        } => Some(u32::from(count)),
        _ => None,
    }
}
