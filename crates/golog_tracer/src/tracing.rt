// What the program does with its words, over any files and any sink.
ghost use Rattle.std.specs.Prelude.{◌≡◌, IfErr, IfOk, map, string_bytes};
ghost use Rattle.golog_semantics.specs.Reports.{IsReport};
ghost use Rattle.golog_semantics.specs.Restart.{started};
ghost use Rattle.golog_semantics.specs.WellFormed.{WellFormed};
ghost use Rattle.golog_commands.specs.Inputs.{RefusesJournal};
ghost use Rattle.golog_commands.specs.Outcome.{FileFails, IfEnded, Reports};
ghost use Rattle.golog_commands.specs.declared.outcome.Input.TheVariants.{Journal as JournalFile};
ghost use Rattle.golog_trace.specs.Traced.{IsTrace};
ghost use Rattle.golog_tracer.specs.Traced.{CallEnds, IsTraceOf, IsTraceWith, IsUntraced, around, named_in};

use golog_base::{Bytes, Files, NoMemory, Sink, write_all};
use golog_commands::{
    Outcome, Told, Unready, WRITE_FAULT, agent_in, call_status, let_go, report, report_unready,
    restart_at, told_in,
};
use golog_trace::trace;
use golog_tree::Agent;
use std::alloc::Global;

/// Writes the trace of a journal, for the words AGENT JOURNAL, and answers the exit status: 0; 2 where the words are
/// others; 3 where a file is refused; 4 where it can't be read; 5 where a write failed; 6 where memory ran out, and
/// nothing is written then. The agent file is read first.
pub fn answered<F: Files, K: Sink>(
    alloc: Global,
    words: &[String],
    files: &mut F,
    out: &mut K,
) -> u8
    ensures { CallEnds result (named_in (map string_bytes words.now))
        (around F.held F.faults K.taken K.faults files.old out.old)
        (around F.held F.faults K.taken K.faults files.new out.new) }
{
    let [agent, journal] = words else {
        return report(out, Outcome::WordsRefused);
    };
    match traced(alloc, files, agent.as_str(), journal.as_str()) {
        Ok(text) => written(out, text),
        Err(unready) => call_status(report_unready(out, unready)),
    }
}

/// Writes the text, and answers 0, or that a write failed.
fn written<K: Sink>(out: &mut K, text: Bytes) -> u8
    ensures { Reports result text 0 (K.taken out.old) (K.taken out.new) (K.faults out.old) (K.faults out.new) }
{
    let written = write_all(out, text.as_slice());
    drop(text);
    match written {
        Ok(()) => 0,
        Err(_) => WRITE_FAULT,
    }
}

/// The trace of the journal file of a name with the agent file of another one; else the first refusal or fault of the
/// agent file, or that of the journal file.
fn traced<F: Files>(
    alloc: Global,
    files: &mut F,
    name: &str,
    journal: &str,
) -> Result<Bytes, Unready>
    ensures traced { IfOk result (IsTraceOf (F.held files.old) name.now journal.now) }
    ensures untraced { IfErr result (λ fault. IfEnded fault
        (IsUntraced (F.held files.old) (F.faults files.old) (F.faults files.new) name.now journal.now)) }
{
    match agent_in(alloc, files, name) {
        Ok(mut agent) => {
            let text = traced_of(alloc, files, &mut agent, journal);
            let_go(agent);
            text
        }
        Err(unready) => Err(unready),
    }
}

// The same of an agent that was read, which starts from the journal's start then.
fn traced_of<F: Files>(
    alloc: Global,
    files: &mut F,
    agent: &mut Agent,
    journal: &str,
) -> Result<Bytes, Unready>
    requires { WellFormed agent.old }
    ensures traced { IfOk result (IsTraceWith (F.held files.old) agent.old journal.now) }
    ensures untraced { IfErr result (λ fault. IfEnded fault (FileFails JournalFile (RefusesJournal agent.old)
        (F.held files.old) journal.now (F.faults files.old) (F.faults files.new))) }
{
    match told_in(alloc, files, journal, agent) {
        Ok(told) => {
            let text = trace_of(alloc, agent, &told);
            told.let_go();
            ready(text)
        }
        Err(unready) => Err(unready),
    }
}

// The text, if there was memory for it.
fn ready(text: Result<Bytes, NoMemory>) -> Result<Bytes, Unready>
    ensures text { IfOk result (λ ready. text ≡ Ok ready) }
    ensures memory { IfErr result (λ fault. fault ≡ Unready.Memory) }
{
    match text {
        Ok(text) => Ok(text),
        Err(NoMemory) => Err(Unready::Memory),
    }
}

// The same of a journal that was read.
fn trace_of(alloc: Global, agent: &mut Agent, told: &Told) -> Result<Bytes, NoMemory>
    requires formed { WellFormed agent.old }
    requires fits { IsReport agent.old told.now.report }
    ensures { IfOk result (IsTrace (started agent.old told.now.report.start) told.now.report) }
{
    restart_at(alloc, agent, &told.report.start)?;
    trace(alloc, agent, &told.report)
}
