//! Runs an agent with devices of its user's own, over the words of a command behind the kind of the devices:
//!
//! - `golog_own_device tank run AGENT --inline`: each device is a tank that is filled and says how full it is.
//! - `golog_own_device hand run AGENT --inline`: somebody plays the devices. A thread reads lines from standard input and
//!   feeds the devices over a channel; a robot's node would stand in its place.
//!
//! Its stored run plays the tank of `data/tank.agent` by the lines of `stdin`.
#![tactic(auto)]

mod hand;
mod slots;
mod tank;

use crate::hand::Hands;
use crate::slots::{Maker, sixteen};
use crate::tank::Tanks;
use crossbeam_channel::{Sender, unbounded};
use golog_base::{Bytes, FileFiles, OutSink};
use golog_device::Device;
use golog_main::{NO_MEMORY, Plain, is_threaded, serve_inline, words_of};
use golog_words::{WordsFault, order_of};
use std::alloc::AllocError;
use std::process::ExitCode;
use std::sync::Wait;
use std::thread::Threads;
use std::{io, thread};

/// The exit status where the words are none that are served here.
const WORDS_REFUSED: u8 = 2;

fn main(rt: HostRuntime) -> ExitCode {
    let done = match copies(&rt) {
        Ok((feeding, terminal, input)) => status(&rt, feeding, &terminal, input),
        Err(_) => Ok(NO_MEMORY),
    };
    match done {
        Ok(status) => ExitCode::from(status),
        Err(_) => ExitCode::from(NO_MEMORY),
    }
}

// The runtime thrice more: one that waits, one that prints and one that reads.
fn copies(rt: &HostRuntime) -> Result<(HostRuntime, HostRuntime, HostRuntime), AllocError> {
    Ok((rt.clone()?, rt.clone()?, rt.clone()?))
}

// Does what the words say, over devices of the kind that the first of them names.
fn status<R: Threads + Wait + Send + Drop + 'static>(
    rt: &R,
    feeding: R,
    terminal: &HostRuntime,
    input: HostRuntime,
) -> io::Result<u8> {
    let words = words_of(terminal)?;
    let [kind, words @ ..] = words.as_slice() else {
        return Ok(WORDS_REFUSED);
    };
    match kind.as_str() {
        "tank" => Ok(served(terminal, words, &Tanks)?),
        "hand" => by_hand(rt, feeding, terminal, input, words),
        _ => Ok(WORDS_REFUSED),
    }
}

// Does what the words say, over devices that a thread feeds with the lines of standard input.
fn by_hand<R: Threads + Wait + Send + Drop + 'static>(
    rt: &R,
    feeding: R,
    terminal: &HostRuntime,
    input: HostRuntime,
    words: &[String],
) -> io::Result<u8> {
    let (end, lines) = unbounded(terminal.alloc())?;
    let feeder = thread::spawn(rt, move || feed(&feeding, &input, end))?;
    let hands = Hands {
        rt,
        terminal,
        lines: &lines,
    };
    let status = served(terminal, words, &hands);
    // Nobody waits for lines any more, which the feeder learns when it sends the next one.
    drop(lines);
    feeder.join(rt);
    Ok(status?)
}

// Sends each line of standard input, up to its end or until nobody takes lines any more.
fn feed<R: Wait>(rt: &R, input: &HostRuntime, end: Sender<Bytes>) {
    for _ in 0..u64::MAX {
        let Some(line) = line_of(input) else {
            return;
        };
        if end.send(rt, line).is_err() {
            return;
        }
    }
}

// The next line of standard input, without its line feed; none at its end, and where it can't be read.
fn line_of(input: &HostRuntime) -> Option<Bytes> {
    let mut line = String::new(input.alloc());
    match input.read_line(&mut line) {
        Ok(0) | Err(_) => None,
        Ok(_) => Bytes::copy_of(input.alloc(), line.trim_end().as_bytes()).ok(),
    }
}

// Does what the words say, over real files, standard output and devices of the maker.
fn served<D: Device, M: Maker<D>>(
    rt: &HostRuntime,
    words: &[String],
    maker: &M,
) -> Result<u8, AllocError> {
    let mut files = FileFiles::new(rt.clone()?);
    let mut out = OutSink::new(rt.clone()?);
    let Ok(mut devices) = sixteen(rt.alloc(), maker) else {
        return Err(AllocError);
    };
    match order_of(rt.alloc(), words) {
        Ok(order) if !is_threaded(order) => Ok(serve_inline(
            rt.alloc(),
            order,
            &mut files,
            &mut out,
            devices.as_mut_slice(),
            Plain,
        )),
        Err(WordsFault::Memory) => Ok(NO_MEMORY),
        _ => Ok(WORDS_REFUSED),
    }
}
