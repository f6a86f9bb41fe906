//! Runs, checks, replays and asks agent files, alone or as a team: the command `golog`, whose words
//! `golog_words::order_of` reads.
//!
//! `main` makes `FileFiles` and `OutSink` over the runtime and sixteen script devices, takes the
//! words without the program's name (`words_of`), calls `golog` on a thread with a stack of 1 GiB
//! (programs nest as deep as they are long before they are refused), from which the threads of the
//! devices are made, and ends with its answer. The runtime makes threads for `main` alone, so a
//! copy of it is handed on as one that does. It has no logic of its own. Words of which one isn't
//! UTF-8 are handed on as no words, which are refused. Its stored run is `run one.agent --inline`
//! over `data/one.agent`.
#![tactic(auto)]

use golog_base::{FileFiles, OutSink};
use golog_main::{NO_MEMORY, golog, script_devices, words_of};
use std::alloc::AllocError;
use std::io;
use std::process::ExitCode;
use std::sync::Wait;
use std::thread::{Builder, Threads};

/// How many bytes of stack the work has. The longest agent file holds programs that nest about 262,000 deep
/// before they are refused, and a recursion over them takes at most some hundred bytes for each level.
const STACK: usize = 1 << 30;

fn main(rt: HostRuntime) -> ExitCode {
    match two_of(&rt) {
        Ok((threads, own)) => match status_on_thread(&rt, threads, own) {
            Ok(status) => ExitCode::from(status),
            Err(_) => ExitCode::from(NO_MEMORY),
        },
        Err(_) => ExitCode::from(NO_MEMORY),
    }
}

// The runtime twice more: `main` alone may hand it on as one that makes threads.
fn two_of(rt: &HostRuntime) -> Result<(HostRuntime, HostRuntime), AllocError> {
    Ok((rt.clone()?, rt.clone()?))
}

// Does what the words say, on a thread with a large stack, from which those of the devices are made.
fn status_on_thread<R: Threads + Wait + Sync + Send + Drop + 'static>(
    rt: &R,
    threads: R,
    own: HostRuntime,
) -> io::Result<u8> {
    let worker = Builder::new()
        .stack_size(STACK)
        .spawn(rt, move || status(&threads, &own))?;
    Ok(worker.join(rt)?)
}

// Does what the words say, over real files, standard output and devices that follow scripts.
fn status<R: Threads + Wait + Sync>(threads: &R, rt: &HostRuntime) -> Result<u8, AllocError> {
    let words = words_of(rt)?;
    let mut files = FileFiles::new(rt.clone()?);
    let mut out = OutSink::new(rt.clone()?);
    match script_devices(rt.alloc()) {
        Ok(mut devices) => Ok(golog(
            threads,
            rt.alloc(),
            words.as_slice(),
            &mut files,
            &mut out,
            devices.as_mut_slice(),
        )),
        Err(_) => Err(AllocError),
    }
}
