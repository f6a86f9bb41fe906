// The report of an outcome, and the exit status of a run and of a call.
ghost use Rattle.std.specs.Prelude.{◌≡◌, true, false, IfOk, IfSome, IsSome, OnErr};
ghost use Rattle.golog_semantics.specs.Execution.{status_of as answer_status};
ghost use Rattle.golog_commands.specs.Outcome.{Reports, outcome_status, outcome_text};
ghost use Rattle.golog_commands.specs.Writing.{IfReported, ReportsUnready};

use crate::outcome::{Outcome, exit_status};
use crate::ready::Unready;
use golog_base::{NoMemory, Sink, write_all};
use golog_semantics::Answer;

/// The exit status where a write failed.
pub const WRITE_FAULT: u8 = 5;

/// The exit status where memory ran out.
pub const NO_MEMORY: u8 = 6;

/// Writes what an outcome says and answers its status, or that of a fault.
pub fn report<K: Sink>(out: &mut K, outcome: Outcome) -> u8
    ensures { Reports result (outcome_text outcome) (outcome_status outcome)
        (K.taken out.old) (K.taken out.new) (K.faults out.old) (K.faults out.new) }
{
    let written = write_all(out, outcome.text());
    let status = outcome.status();
    drop(outcome);
    match written {
        Ok(()) => status,
        Err(_) => WRITE_FAULT,
    }
}

/// The same where there is an outcome, and nothing without one.
pub fn report_if<K: Sink>(out: &mut K, outcome: Result<Outcome, NoMemory>) -> Result<u8, NoMemory>
    ensures { IfReported outcome result
        (K.taken out.old) (K.taken out.new) (K.faults out.old) (K.faults out.new) }
{
    match outcome {
        Ok(outcome) => Ok(report(out, outcome)),
        Err(fault) => Err(fault),
    }
}

/// The same of why an input holds nothing.
pub fn report_unready<K: Sink>(out: &mut K, unready: Unready) -> Result<u8, NoMemory>
    ensures { ReportsUnready unready result
        (K.taken out.old) (K.taken out.new) (K.faults out.old) (K.faults out.new) }
{
    match unready {
        Unready::Ended(outcome) => Ok(report(out, outcome)),
        Unready::Memory => Err(NoMemory),
    }
}

/// The exit status of a call: what was answered, or that of want of memory.
pub fn call_status(answered: Result<u8, NoMemory>) -> u8
    ensures status { IfOk answered (λ status. result ≡ status) }
    ensures memory { OnErr answered (result ≡ 6) }
{
    match answered {
        Ok(status) => status,
        Err(NoMemory) => NO_MEMORY,
    }
}

/// The exit status of a run that has ended with this answer, or of which a write has failed.
pub fn run_status(faulted: bool, answer: Option<Answer>) -> u8
    requires { IsSome answer }
    ensures fault { faulted ≡ true → result ≡ 5 }
    ensures shown { faulted ≡ false → IfSome answer (λ answer. result ≡ answer_status answer) }
{
    match answer {
        Some(answer) => {
            if faulted {
                WRITE_FAULT
            } else {
                exit_status(answer)
            }
        }
        None => unreachable!(),
    }
}
