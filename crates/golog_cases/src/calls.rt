// The calls of cases, and what is told of them.
ghost use Rattle.std.specs.Prelude.{◌≡◌, ◌↔◌, IsTrue, Some, length};
ghost use Rattle.golog_base.specs.MemSink.{taken_of};
ghost use Rattle.golog_device.specs.Slots.{standings, FreshBelow};

use crate::cases::{Case, Fault, Wanted};
use crate::reading::cases_in;
use golog_base::{
    Bytes, Files, HeldFile, List, MemFiles, MemSink, NoMemory, Sink, both, write_all,
};
use golog_device::Device;
use golog_main::{golog, script_devices};
use golog_script::ScriptDevice;
use itoa::Buffer;
use std::alloc::Global;
use std::sync::Wait;
use std::thread::Threads;

/// How many bytes a call may write.
const ROOM: u32 = 13_000_000;

/// Whether the file that is named can be read and what comes of its cases is wanted. What stands behind the name and
/// a space are more words for each case. Each case is told.
pub fn all_so_in<R: Threads + Wait + Sync, F: Files, K: Sink>(
    rt: &R,
    alloc: Global,
    files: &mut F,
    out: &mut K,
    named: &str,
) -> bool {
    let (name, more) = named.split_once(' ').unwrap_or((named, ""));
    match cases_in(alloc, files, name) {
        Ok(cases) => all_so(rt, alloc, out, cases, more),
        Err(fault) => {
            tell_fault(alloc, out, name, fault);
            false
        }
    }
}

/// Tells why the file of this name holds no cases.
fn tell_fault<K: Sink>(alloc: Global, out: &mut K, name: &str, fault: Fault) {
    let told = match fault {
        Fault::Memory => format!(in alloc; "{name}: memory ran out\n"),
        Fault::Unread => format!(in alloc; "{name}: not read\n"),
        Fault::Line(number) => format!(in alloc; "{name} line {number}: not understood\n"),
    };
    if let Ok(text) = &told {
        let _ = write_all(out, text.as_bytes());
    }
    drop(told);
}

fn all_so<R: Threads + Wait + Sync, K: Sink>(
    rt: &R,
    alloc: Global,
    out: &mut K,
    cases: List<Case>,
    more: &str,
) -> bool {
    let mut are_so = true;
    for case in cases.into_vec() {
        let is_so = matches!(tried_with(rt, alloc, out, case, more), Ok(true));
        are_so = are_so && is_so;
    }
    are_so
}

/// Whether what comes of a case with more words behind its own is what it wants, which is told.
fn tried_with<R: Threads + Wait + Sync, K: Sink>(
    rt: &R,
    alloc: Global,
    out: &mut K,
    mut case: Case,
    more: &str,
) -> Result<bool, NoMemory> {
    match case.add_more(alloc, more) {
        Ok(()) => tried(rt, alloc, out, case),
        Err(error) => {
            drop(case);
            Err(error)
        }
    }
}

/// What a call answered and wrote.
#[derive(Drop)]
struct Call {
    status: u8,
    out: MemSink,
}

/// Whether what comes of a case is what it wants, which is told.
fn tried<R: Threads + Wait + Sync, K: Sink>(
    rt: &R,
    alloc: Global,
    out: &mut K,
    case: Case,
) -> Result<bool, NoMemory> {
    let Case {
        name,
        words,
        files,
        wanted,
    } = case;
    let told = match called(rt, alloc, words, files) {
        Ok(call) => told_of(alloc, out, name.as_str(), &wanted, call),
        Err(error) => Err(error),
    };
    drop(name);
    drop(wanted);
    told
}

/// Calls the interpreter over devices that follow scripts.
fn called<R: Threads + Wait + Sync>(
    rt: &R,
    alloc: Global,
    words: Vec<String>,
    files: List<HeldFile>,
) -> Result<Call, NoMemory> {
    let outside = MemSink::new(alloc, ROOM, List::new(alloc));
    let (out, devices) = both(outside, script_devices(alloc))?;
    Ok(called_with(rt, alloc, words, files, out, devices))
}

fn called_with<R: Threads + Wait + Sync>(
    rt: &R,
    alloc: Global,
    words: Vec<String>,
    files: List<HeldFile>,
    mut out: MemSink,
    mut devices: Vec<ScriptDevice>,
) -> Call
    requires as_many { length devices.items ≡ 16 }
    requires fresh { FreshBelow 16
        (standings ⟦<ScriptDevice as Device>⟧.fresh ⟦<ScriptDevice as Device>⟧.meaning devices.items) }
{
    let mut files = MemFiles::new(files, List::new(alloc));
    let status = golog(
        rt,
        alloc,
        words.as_slice(),
        &mut files,
        &mut out,
        devices.as_mut_slice(),
    );
    drop(words);
    drop(files);
    drop(devices);
    Call { status, out }
}

/// Whether this came of a case that wants that, which is told.
fn told_of<K: Sink>(
    alloc: Global,
    out: &mut K,
    name: &str,
    wanted: &Wanted,
    call: Call,
) -> Result<bool, NoMemory> {
    let is_so = is_wanted(wanted, &call);
    let account = if is_so {
        joined(alloc, name, ": ok\n")
    } else {
        account_of(alloc, name, wanted, &call)
    };
    drop(call);
    let account = account?;
    Ok(write_all(out, account.as_slice()).is_ok() && is_so)
}

/// Whether a call has the status and the text that are wanted.
fn is_wanted(wanted: &Wanted, call: &Call) -> bool
    ensures { IsTrue result ↔ (wanted.now.status ≡ Some call.now.status)
        × (wanted.now.text ≡ taken_of call.now.out) }
{
    wanted.status == Some(call.status) && wanted.text.as_slice() == call.out.bytes()
}

fn joined(alloc: Global, one: &str, other: &str) -> Result<Bytes, NoMemory> {
    let mut bytes = Bytes::copy_of(alloc, one.as_bytes())?;
    bytes.extend(other.as_bytes())?;
    Ok(bytes)
}

/// What a case wants, and what came in its place.
fn account_of(alloc: Global, name: &str, wanted: &Wanted, call: &Call) -> Result<Bytes, NoMemory> {
    let mut account = joined(alloc, name, ": wanted")?;
    push_said(&mut account, wanted.status, wanted.text.as_slice())?;
    account.extend(b"came")?;
    push_said(&mut account, Some(call.status), call.out.bytes())?;
    Ok(account)
}

/// Puts a status, where there is one, and a text behind an account.
fn push_said(account: &mut Bytes, status: Option<u8>, text: &[u8]) -> Result<(), NoMemory> {
    if let Some(status) = status {
        account.push(b' ')?;
        account.extend(Buffer::new().format(status).as_bytes())?;
    }
    account.push(b'\n')?;
    account.extend(text)
}
