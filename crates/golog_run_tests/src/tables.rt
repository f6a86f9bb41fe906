// Tests of devices that misbehave, by tables, and of one that posts until the journal is full.
ghost use Rattle.std.specs.Prelude.{◌≡◌, true, IfOk};
ghost use Rattle.golog_device.specs.Tables.{is_fresh};

use crate::asserting::same;
use crate::calls::{Call, Setting, file_of, has_said};
use crate::slots::{Maker, called_with};
use golog_base::{Bytes, List, NoMemory, both};
use golog_device::{Begun, Idle, Served, TableDevice};
use std::alloc::Global;

/// A lift of four floors, and the panel with its buttons.
const LIFT: &str = "
  (sort level 1 4)
  (device panel) (device lift)
  (fluent floor () level 1)
  (fluent on (level) bool false)
  (fluent quitting () bool false)
  (action up () lift) (action down () lift) (action off (level) lift)
  (exo push (level) panel) (exo quit () panel)
  (poss (up) (< (floor) 4))
  (poss (down) (< 1 (floor)))
  (poss (off f) (and (on f) (= f (floor))))
  (causes (up) (floor) (+ (floor) 1))
  (causes (down) (floor) (- (floor) 1))
  (causes (off f) (on f) false)
  (causes (push f) (on f) true)
  (causes (quit) (quitting) true)";

/// How many bytes a journal may have that isn't full.
const ROOM: u32 = 1000;

/// How many bytes a journal may have that is full.
pub const FULL_ROOM: u32 = 27_000_000;

/// What is done without a command by this word: it rests, closes, or posts the word.
fn idle_of(alloc: Global, word: &str) -> Result<Idle, NoMemory> {
    Ok(match word {
        "rest" => Idle::Rest,
        "close" => Idle::Close,
        _ => Idle::Post(Bytes::copy_of(alloc, word.as_bytes())?),
    })
}

fn push_idles(alloc: Global, idles: &mut List<Idle>, words: &str) -> Result<(), NoMemory> {
    for word in words.lines() {
        idles.push(idle_of(alloc, word)?)?;
    }
    Ok(())
}

/// What these words say, one a line, so many times.
fn idles_of(alloc: Global, words: &str, times: u32) -> Result<List<Idle>, NoMemory> {
    let mut idles = List::new(alloc);
    for _ in 0..times {
        push_idles(alloc, &mut idles, words)?;
    }
    Ok(idles)
}

/// What is answered by this line: it, or nothing where it is `silent`.
fn answer_of(alloc: Global, line: &str) -> Result<Served, NoMemory> {
    Ok(match line {
        "silent" => Served::Nothing,
        _ => Served::Value(Bytes::copy_of(alloc, line.as_bytes())?),
    })
}

fn answers_of(alloc: Global, lines: &str) -> Result<List<Served>, NoMemory> {
    let mut answers = List::new(alloc);
    for line in lines.lines() {
        answers.push(answer_of(alloc, line)?)?;
    }
    Ok(answers)
}

/// A table in words: how a device begins, what it answers whatever it is asked, one a line, nothing where the line is
/// `silent`, and what it does without a command, one a line, so many times.
#[derive(Clone, Copy)]
pub struct Table<'a> {
    pub begun: Begun,
    pub answers: &'a str,
    pub words: &'a str,
    pub times: u32,
}

impl<'a> Table<'a> {
    /// The table of a device that begins, and does each of these words once.
    pub fn of(answers: &'a str, words: &'a str) -> Table<'a> {
        Table {
            begun: Begun::Ready,
            answers,
            words,
            times: 1,
        }
    }

    /// A device with this table.
    pub fn device(&self, alloc: Global) -> Result<TableDevice, NoMemory>
        ensures { IfOk result (λ device. is_fresh device ≡ true) }
    {
        let answers = answers_of(alloc, self.answers);
        let (answers, idles) = both(answers, idles_of(alloc, self.words, self.times))?;
        TableDevice::new(alloc, self.begun, answers, idles)
    }
}

// Each slot has the same table.
impl Maker<TableDevice> for Table<'_> {
    fn device_at(&self, alloc: Global, _slot: usize) -> Result<TableDevice, NoMemory> {
        self.device(alloc)
    }
}

/// A panel and a lift with these tables, and others, which close.
#[derive(Clone, Copy)]
struct Wild<'a> {
    panel: Table<'a>,
    lift: Table<'a>,
}

impl Maker<TableDevice> for Wild<'_> {
    fn device_at(&self, alloc: Global, slot: usize) -> Result<TableDevice, NoMemory> {
        let table = match slot {
            0 => self.panel,
            1 => self.lift,
            _ => Table::of("", ""),
        };
        table.device(alloc)
    }
}

/// Runs the lift's agent with this program over such devices, with room for so many bytes of a journal.
fn played(alloc: Global, program: &str, wild: &Wild<'_>, room: u32) -> Result<Call, NoMemory> {
    let file = file_of(alloc, LIFT, program)?;
    let setting = Setting {
        room,
        ..Setting::run(file.as_slice())
    };
    let call = called_with(alloc, &setting, wild);
    drop(file);
    call
}

// A program, how the panel begins and what it does, what the lift answers, with the status and the journal.
#[test]
fn wild_devices_are_closed(rt: HostRuntime) -> Result<(), NoMemory> {
    let rows = [
        // A panel that refuses its script, or wants memory.
        (
            "nil",
            Begun::Refused,
            "",
            "",
            0,
            "0 close panel refused 0\n1 rest lift 0\n2 end done\n3 close lift stopped 0\n",
        ),
        ("nil", Begun::Memory, "", "", 6, ""),
        // Posts that spell no action, or one that the panel may not post.
        (
            "nil",
            Begun::Ready,
            "push(",
            "",
            0,
            "0 close panel bad 0\n1 rest lift 0\n2 end done\n3 close lift stopped 0\n",
        ),
        (
            "nil",
            Begun::Ready,
            "up",
            "",
            0,
            "0 close panel bad 0\n1 rest lift 0\n2 end done\n3 close lift stopped 0\n",
        ),
        // A value that no one asked for.
        (
            "(act up)",
            Begun::Ready,
            "close",
            "x",
            0,
            "0 close panel ended 0\n1 rest lift 0\n2 do up @lift\n3 close lift bad 1\n4 end done\n",
        ),
        // Once it has closed, or rests without a command, it isn't asked any more.
        (
            "nil",
            Begun::Ready,
            "close\npush(1)",
            "",
            0,
            "0 close panel ended 0\n1 rest lift 0\n2 end done\n3 close lift stopped 0\n",
        ),
        (
            "nil",
            Begun::Ready,
            "rest\npush(1)",
            "",
            0,
            "0 rest panel 0\n1 rest lift 0\n2 end done\n3 close panel stopped 0\n\
            4 close lift stopped 0\n",
        ),
    ];
    for (program, begun, words, values, status, journal) in rows {
        let wild = Wild {
            panel: Table {
                begun,
                ..Table::of("", words)
            },
            lift: Table::of(values, "rest"),
        };
        let call = played(rt.alloc(), program, &wild, ROOM);
        has_said(&rt, words, call, (status, journal))?;
    }
    Ok(())
}

/// The journal of a panel that posts until the journal is full.
fn full_journal(alloc: Global) -> Result<String, NoMemory> {
    let mut journal = String::from_str(alloc, "0 exo panel push(1)\n1 rest lift 0\n")?;
    for place in 2..1_048_576u32 {
        push_post(alloc, &mut journal, place)?;
    }
    journal.push_str(
        "1048576 end full\n1048577 close panel stopped 0\n1048578 close lift stopped 0\n",
    )?;
    Ok(journal)
}

fn push_post(alloc: Global, journal: &mut String, place: u32) -> Result<(), NoMemory> {
    let line = format!(in alloc; "{place} exo panel push(1)\n")?;
    journal.push_str(line.as_str())?;
    Ok(())
}

/// The status of a run in which the panel posts until the journal is full, and whether that is its journal.
fn played_full(alloc: Global) -> Result<(u8, bool), NoMemory> {
    let wild = Wild {
        panel: Table {
            times: 1_048_580,
            ..Table::of("", "push(1)")
        },
        lift: Table::of("", "rest"),
    };
    let call = played(alloc, "(test (quitting))", &wild, FULL_ROOM);
    let (call, wanted) = both(call, full_journal(alloc))?;
    let (status, journal) = call.said();
    Ok((status, journal == wanted.as_str()))
}

#[test]
fn a_panel_posts_until_the_journal_is_full(rt: HostRuntime) -> Result<(), NoMemory> {
    same(&rt, "full", played_full(rt.alloc())?, (15, true));
    Ok(())
}
