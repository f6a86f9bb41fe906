// Tests of runs over devices of the tests' own.
use crate::asserting::same;
use crate::calls::{Call, Setting, called_by, file_of, has_said};
use crate::slots::{Maker, called_with, sixteen};
use crate::tables::Table;
use golog_base::{Bytes, List, NoMemory};
use golog_device::{Begun, Device, Idle, Served};
use std::alloc::Global;

/// A door that is looked at, and a wind that may slam it.
const DOOR: &str = "
  (device wind) (device door)
  (fluent opened () bool)
  (action look () door) (action go ()) (action knock ())
  (exo calm () wind) (exo slam () wind)
  (senses (look) (opened))
  (causes (slam) (opened) false)";

/// Looks, and goes where the door is open.
const LOOK: &str = "(seq (act look) (if (opened) (act go) (act knock)))";

/// A device of the test's own: it answers the first command that senses with `false`, and rests. It tells
/// the name under which it began.
#[derive(Drop)]
struct Shut {
    fresh: bool,
    name: Bytes,
    answer: Option<Bytes>,
}

impl Device for Shut {
    ghost use Rattle.std.specs.Prelude.{false, None, Some};

    ghost fresh = { λ shut. shut.fresh };

    ghost meaning = { λ shut. record { name = Some shut.name; cut = false; given = None; told = None; left = None } };

    fn begin(&mut self, alloc: Global, name: &[u8], _script: &[u8]) -> Begun {
        match List::copy_of(alloc, name) {
            Ok(name) => {
                self.name = name;
                self.fresh = false;
                Begun::Ready
            }
            Err(NoMemory) => Begun::Memory,
        }
    }

    fn serve(&mut self, _action: &[u8], asked: bool) -> Served {
        if !asked {
            return Served::Nothing;
        }
        match self.answer.take() {
            Some(bytes) => Served::Value(bytes),
            None => Served::Nothing,
        }
    }

    fn idle(&mut self) -> Idle {
        Idle::Rest
    }
}

/// Makes them.
#[derive(Clone, Copy)]
struct Shutting;

impl Maker<Shut> for Shutting {
    fn device_at(&self, alloc: Global, _slot: usize) -> Result<Shut, NoMemory> {
        let answer = List::copy_of(alloc, b"false")?;
        Ok(Shut {
            fresh: true,
            name: List::new(alloc),
            answer: Some(answer),
        })
    }
}

/// Whether the device of this slot began under this name.
fn began_as(devices: &[Shut], slot: usize, name: &[u8]) -> bool {
    match devices.get(slot) {
        Some(device) => device.name.as_slice() == name,
        None => false,
    }
}

/// Looks at the door over such devices, and whether the first two began under the names of the agent's.
fn looked_by(alloc: Global, agent: &[u8]) -> Result<(Call, bool), NoMemory> {
    let mut devices = sixteen::<Shut, Shutting>(alloc, &Shutting)?;
    let setting = Setting::run_with(agent, b"[]");
    let call = called_by(alloc, &setting, devices.as_mut_slice());
    let named = began_as(devices.as_slice(), 0, b"wind")
        && began_as(devices.as_slice(), 1, b"door");
    drop(devices);
    match call {
        Ok(call) => Ok((call, named)),
        Err(error) => Err(error),
    }
}

fn looked(alloc: Global) -> Result<(Call, bool), NoMemory> {
    let file = file_of(alloc, DOOR, LOOK)?;
    let looked = looked_by(alloc, file.as_slice());
    drop(file);
    looked
}

#[test]
fn a_device_of_ones_own_is_handed_in(rt: HostRuntime) -> Result<(), NoMemory> {
    let (call, named) = looked(rt.alloc())?;
    let journal =
        "0 rest wind 0\n1 rest door 0\n2 do look @door\n3 sense door 2 false\n4 do knock\n\
        5 rest door 1\n6 end done\n7 close wind stopped 0\n8 close door stopped 1\n";
    same(&rt, "named", named, true);
    has_said(&rt, "", Ok(call), (0, journal))
}

/// Knocks over devices that begin so.
fn knocked(alloc: Global, begun: Begun) -> Result<Call, NoMemory> {
    let table = Table {
        begun,
        ..Table::of("", "")
    };
    let file = file_of(alloc, DOOR, "(act knock)")?;
    let call = called_with(alloc, &Setting::run_with(file.as_slice(), b"[]"), &table);
    drop(file);
    call
}

// A device that refuses its script is closed, and one that wants memory ends the call.
#[test]
fn a_device_may_not_begin(rt: HostRuntime) -> Result<(), NoMemory> {
    let refused = "0 close wind refused 0\n1 close door refused 0\n2 do knock\n3 end done\n";
    has_said(&rt, "", knocked(rt.alloc(), Begun::Refused), (0, refused))?;
    has_said(&rt, "", knocked(rt.alloc(), Begun::Memory), (6, ""))
}
