//! A device that answers by a table and one that follows a script, alone and in a box.
ghost use Rattle.std.specs.Prelude.{◌≡◌, ◌≤◌, true, IfOk, length};
ghost use Rattle.golog_device.specs.Devices.{still_fresh};

use crate::asserting::same;
use crate::turns::may_be_shared;
use golog_base::{List, NoMemory, both};
use golog_device::{Begun, Device, Idle, Served, TableDevice};
use golog_script::ScriptDevice;
use std::alloc::Global;

/// Whether a device answers an action by this text, or by nothing where that is `-`.
fn serves<D: Device>(device: &mut D, action: &[u8], asked: bool, word: &[u8]) -> bool
    requires { length action.now ≤ 128 }
{
    let served = device.serve(action, asked);
    let is_so = match &served {
        Served::Value(text) => text.as_slice() == word,
        Served::Nothing => word == b"-".as_slice(),
    };
    drop(served);
    is_so
}

/// Whether a device does this without a command, in a word: the text that it posts, or `rest` or `close`.
fn idles<D: Device>(device: &mut D, word: &[u8]) -> bool {
    let idle = device.idle();
    let is_so = match &idle {
        Idle::Post(text) => text.as_slice() == word,
        Idle::Rest => word == b"rest".as_slice(),
        Idle::Close => word == b"close".as_slice(),
    };
    drop(idle);
    is_so
}

/// Whether a device answers looks so, asked for its values or not, and then does this without commands.
fn goes_on<D: Device>(device: &mut D, looks: &[(bool, &[u8])], words: &[&[u8]]) -> bool {
    for (asked, word) in looks {
        if !serves(device, b"look", *asked, word) {
            return false;
        }
    }
    for word in words {
        if !idles(device, word) {
            return false;
        }
    }
    true
}

/// Whether a device answers so many actions whose texts are as long as they may be by nothing.
fn serves_nothing<D: Device>(device: &mut D, times: u32) -> bool {
    for _ in 0..times {
        if !serves(device, &[b'a'; 128], false, b"-") {
            return false;
        }
    }
    true
}

/// The first call of any device.
fn begin_with<D: Device>(device: &mut D, alloc: Global, script: &[u8]) -> Begun
    requires { D.fresh device.old ≡ true }
    ensures { D.fresh device.new ≡ still_fresh result }
{
    device.begin(alloc, b"door", script)
}

/// The answer of this text, or none where it is `-`.
fn answer_of(alloc: Global, word: &[u8]) -> Result<Served, NoMemory> {
    Ok(if word == b"-".as_slice() {
        Served::Nothing
    } else {
        Served::Value(List::copy_of(alloc, word)?)
    })
}

/// What is done without a command by this word: it rests, closes, or posts the word.
fn idle_of(alloc: Global, word: &[u8]) -> Result<Idle, NoMemory> {
    Ok(if word == b"rest".as_slice() {
        Idle::Rest
    } else if word == b"close".as_slice() {
        Idle::Close
    } else {
        Idle::Post(List::copy_of(alloc, word)?)
    })
}

fn answers_of(alloc: Global, words: &[&[u8]]) -> Result<List<Served>, NoMemory> {
    let mut answers = List::new(alloc);
    for word in words {
        answers.push(answer_of(alloc, word)?)?;
    }
    Ok(answers)
}

fn idles_of(alloc: Global, words: &[&[u8]]) -> Result<List<Idle>, NoMemory> {
    let mut idles = List::new(alloc);
    for word in words {
        idles.push(idle_of(alloc, word)?)?;
    }
    Ok(idles)
}

/// A device that begins so. It answers `x`, nothing and `open`; it posts `push(`, rests, closes, and posts `up`.
fn new_table(alloc: Global, begun: Begun) -> Result<TableDevice, NoMemory>
    ensures { IfOk result (λ device. ⟦<TableDevice as Device>⟧.fresh device ≡ true) }
{
    let answers = answers_of(alloc, &[b"x", b"-", b"open"]);
    let idles = idles_of(alloc, &[b"push(", b"rest", b"close", b"up"]);
    let (answers, idles) = both(answers, idles)?;
    TableDevice::new(alloc, begun, answers, idles)
}

#[test]
fn a_table_is_gone_through_in_order(rt: HostRuntime) -> Result<(), NoMemory> {
    let mut device = new_table(rt.alloc(), Begun::Ready)?;
    let begun = begin_with(&mut device, rt.alloc(), b"{}");
    let looks: [(bool, &[u8]); 4] = [(false, b"x"), (true, b"-"), (false, b"open"), (true, b"-")];
    let words: [&[u8]; 5] = [b"push(", b"rest", b"close", b"up", b"close"];
    let told = (begun, goes_on(&mut device, &looks, &words));
    same(&rt, "table", told, (Begun::Ready, true));
    Ok(())
}

/// How a device in a box begins with such a table, and whether it answers as it does alone.
fn boxed(alloc: Global, begun: Begun) -> Result<(Begun, bool), NoMemory> {
    let table = new_table(alloc, begun)?;
    let mut device: Box<dyn Device + Send> = Box::new(alloc, table)?;
    let begun = begin_with(&mut device, alloc, b"{}");
    let looks: [(bool, &[u8]); 3] = [(false, b"x"), (true, b"-"), (true, b"open")];
    let words: [&[u8]; 3] = [b"push(", b"rest", b"close"];
    let is_so = goes_on(&mut device, &looks, &words);
    drop(device);
    Ok((begun, is_so))
}

// One that doesn't begin may be asked again, and its table is as it was.
#[test]
fn a_box_answers_for_its_device(rt: HostRuntime) -> Result<(), NoMemory> {
    for begun in [Begun::Ready, Begun::Refused, Begun::Memory] {
        same(&rt, begun, boxed(rt.alloc(), begun)?, (begun, true));
    }
    Ok(())
}

#[test]
fn a_table_is_answered_past_the_room_for_texts(rt: HostRuntime) -> Result<(), NoMemory> {
    let mut device = new_table(rt.alloc(), Begun::Ready)?;
    let looks: [(bool, &[u8]); 3] = [(true, b"x"), (true, b"-"), (true, b"open")];
    let told = goes_on(&mut device, &looks, &[]) && serves_nothing(&mut device, 8200);
    same(&rt, "table", told, true);
    Ok(())
}

const SCRIPT: &[u8] = b"{\"answers\":[\"true\"],\"idle\":[\"knock\",\"rest\",\"close\"]}";

#[test]
fn a_script_is_followed(rt: HostRuntime) -> Result<(), NoMemory> {
    let mut device = ScriptDevice::new(rt.alloc())?;
    let begun = begin_with(&mut device, rt.alloc(), SCRIPT);
    let looks: [(bool, &[u8]); 3] = [(false, b"-"), (true, b"true"), (true, b"-")];
    let words: [&[u8]; 4] = [b"knock", b"rest", b"close", b"close"];
    let told = (begun, goes_on(&mut device, &looks, &words));
    same(&rt, "script", told, (Begun::Ready, true));
    may_be_shared(&device);
    Ok(())
}

/// What a device that follows a script comes to with one, and then with `SCRIPT` where it refuses that.
fn begun_twice(alloc: Global, script: &[u8]) -> Result<[Begun; 2], NoMemory> {
    let mut device = ScriptDevice::new(alloc)?;
    let first = begin_with(&mut device, alloc, script);
    let second = match first {
        Begun::Refused => begin_with(&mut device, alloc, SCRIPT),
        Begun::Ready | Begun::Memory => first,
    };
    drop(device);
    Ok([first, second])
}

#[test]
fn what_is_no_script_is_refused(rt: HostRuntime) -> Result<(), NoMemory> {
    let texts: [&[u8]; 3] = [
        b"{\"answers\":[]}",
        b"{\"answers\":[],\"idle\":[1]}",
        b"no script",
    ];
    for text in texts {
        let begun = begun_twice(rt.alloc(), text)?;
        same(&rt, text, begun, [Begun::Refused, Begun::Ready]);
    }
    Ok(())
}

/// How a device that follows a script begins in a box, and whether it answers past its room for texts.
fn boxed_script(alloc: Global) -> Result<(Begun, bool), NoMemory> {
    let script = ScriptDevice::new(alloc)?;
    let mut device: Box<dyn Device + Send> = Box::new(alloc, script)?;
    let begun = begin_with(&mut device, alloc, SCRIPT);
    let is_so = serves_nothing(&mut device, 8200) && serves(&mut device, b"look", true, b"true");
    drop(device);
    Ok((begun, is_so))
}

#[test]
fn a_script_is_followed_in_a_box_past_its_room(rt: HostRuntime) -> Result<(), NoMemory> {
    same(
        &rt,
        "script",
        boxed_script(rt.alloc())?,
        (Begun::Ready, true),
    );
    Ok(())
}
