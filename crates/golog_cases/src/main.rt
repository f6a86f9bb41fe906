//! Calls the interpreter by cases: `golog_cases FILE..`. Each case is told in a line, `NAME: ok`, or with what was
//! wanted and what came, and so is a file that can't be read, or a line that can't stand where it does. What stands
//! behind a file's name and a space in one word with it are more words for each of its cases. The status is 0 where
//! all is as it is wanted, and else 1. `CONTRIBUTING.md` says how a case is written.
//!
//! Its stored run is over the files in `data/`, in the order of `args`: `runs` and `constructs`
//! (agents without devices), `searches` (search blocks, without workers and with some), `limits`
//! (programs that run up to a limit of the run), `devices` (agents with scripts, and scripts that
//! are refused), `later` (results that may come later than the program's next steps), `continued`
//! (runs that start from a journal, and heads), `refusals` (agent files of each code, files above
//! their limit, and files that aren't there), `forms`, `theories` and `programs` (the codes of the
//! readers, each limit as it is and above), `conditions` (their truths, also where they grow, and
//! their refusals), `commands` (the commands that run no program, which refusal goes first, and
//! words that are refused), `journals` (whole runs, and a journal for each rule that is broken),
//! `teams` (two agents, each the other's device), `plans` (plans that go on for each value of what
//! is sensed).
#![tactic(auto)]

mod blocks;
mod calls;
mod cases;
mod reading;

use crate::calls::all_so_in;
use golog_base::{FileFiles, OutSink};
use golog_main::words_of;
use std::alloc::AllocError;
use std::io;
use std::process::ExitCode;
use std::sync::Wait;
use std::thread::{Builder, Threads};

/// How many bytes of stack the work has, as much as that of the program `golog`.
const STACK: usize = 1 << 30;

fn main(rt: HostRuntime) -> ExitCode {
    match two_of(&rt) {
        Ok((threads, own)) => match all_so_on_thread(&rt, threads, own) {
            Ok(true) => ExitCode::SUCCESS,
            _ => ExitCode::FAILURE,
        },
        Err(_) => ExitCode::FAILURE,
    }
}

// The runtime twice more: `main` alone may hand it on as one that makes threads.
fn two_of(rt: &HostRuntime) -> Result<(HostRuntime, HostRuntime), AllocError> {
    Ok((rt.clone()?, rt.clone()?))
}

// Does the work on a thread with a large stack, from which those of the devices are made.
fn all_so_on_thread<R: Threads + Wait + Sync + Send + Drop + 'static>(
    rt: &R,
    threads: R,
    own: HostRuntime,
) -> io::Result<bool> {
    let worker = Builder::new()
        .stack_size(STACK)
        .spawn(rt, move || all_so(&threads, &own))?;
    Ok(worker.join(rt)?)
}

// Whether all is as it is wanted in the files that the words name.
fn all_so<R: Threads + Wait + Sync>(threads: &R, rt: &HostRuntime) -> Result<bool, AllocError> {
    let names = words_of(rt)?;
    let mut files = FileFiles::new(rt.clone()?);
    let mut out = OutSink::new(rt.clone()?);
    let mut are_so = true;
    for name in names.as_slice() {
        let is_so = all_so_in(threads, rt.alloc(), &mut files, &mut out, name.as_str());
        are_so = are_so && is_so;
    }
    Ok(are_so)
}
