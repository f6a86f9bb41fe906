//! Says why a run went as it did: `golog_tracer AGENT JOURNAL` prints the trace of a journal.
//!
//! The statuses, and what is said of a file that can't be read or is refused, are those of the commands of the program
//! golog. Its stored run is that of `data/nose.agent` and `data/nose.journal`.
#![tactic(auto)]

mod tracing;

use crate::tracing::answered;
use golog_base::{FileFiles, OutSink};
use golog_commands::NO_MEMORY;
use std::alloc::AllocError;
use std::io::ErrorKind;
use std::process::ExitCode;
use std::thread::{Builder, Threads};
use std::{env, io};

/// How many bytes of stack the work has: programs nest as deep as they are long before they are refused.
const STACK: usize = 1 << 30;

fn main(rt: HostRuntime) -> ExitCode {
    match rt.clone() {
        Ok(own) => match status_on_thread(&rt, own) {
            Ok(status) => ExitCode::from(status),
            Err(_) => ExitCode::from(NO_MEMORY),
        },
        Err(_) => ExitCode::from(NO_MEMORY),
    }
}

// Does what the words say, on a thread with a large stack.
fn status_on_thread<R: Threads>(rt: &R, own: HostRuntime) -> io::Result<u8> {
    let worker = Builder::new()
        .stack_size(STACK)
        .spawn(rt, move || status(&own))?;
    Ok(worker.join(rt)?)
}

// Does what the words say, over real files and standard output.
fn status(rt: &HostRuntime) -> Result<u8, AllocError> {
    let words = words_of(rt)?;
    let mut files = FileFiles::new(rt.clone()?);
    let mut out = OutSink::new(rt.clone()?);
    Ok(answered(rt.alloc(), words.as_slice(), &mut files, &mut out))
}

// The words after the program's name. Where one is not text there are none, and these are refused.
fn words_of(rt: &HostRuntime) -> Result<Vec<String>, AllocError> {
    let mut words = Vec::new(rt.alloc());
    match env::args(rt) {
        Ok(args) => {
            for word in args.skip(1) {
                words.push(word)?;
            }
        }
        Err(error) if error.kind() == ErrorKind::OutOfMemory => return Err(AllocError),
        Err(_) => {}
    }
    Ok(words)
}
