//! A test of two devices and a lead, each of which waits for the two others: the lead copies what
//! they have posted, and a decision made before that is moved.
ghost use Rattle.std.specs.Prelude.{◌≡◌, ◌<◌, false, true, length};
ghost use Rattle.golog_semantics.specs.Journal.{has_end};
ghost use Rattle.golog_semantics.specs.WellFormed.{WellFormed};
ghost use Rattle.golog_journal.specs.Growing.{program};
ghost use Rattle.golog_journal.specs.Leading.{IsBehind};
ghost use Rattle.golog_thread_tests.specs.Looking.{Looks};

use crate::asserting::same;
use crate::runs::{agent_of, answer_in, have_run, posts_of, report_if};
use golog_agent::Runner;
use golog_base::{Bytes, List, NoMemory};
use golog_device::{Begun, Device, Idle, Served};
use golog_ground::read_action;
use golog_journal::{Board, Commit, Lead, Led, Report};
use golog_semantics::{Answer, Entry};
use golog_tree::Agent;
use std::alloc::Global;
use std::sync::Wait;
use std::sync::atomic::{AtomicU64, Ordering};
use std::thread::Threads;

/// A program that takes a test, and then waits for devices of which none lets it go on.
const AGENT: &[u8] = b"(agent (device one) (device two) (fluent over () bool false)
    (exo early () one two) (exo met () one two) (exo late () one two)
    (main (seq (test true) (test (over)))))";

/// How often each looks for the others.
const LOOKS: u32 = 100_000_000;

#[derive(Clone, Copy)]
enum Place {
    One,
    Two,
    Lead,
}

/// Who has come.
#[derive(Drop)]
struct Meeting {
    one: AtomicU64,
    two: AtomicU64,
    lead: AtomicU64,
}

impl Meeting {
    fn new() -> Meeting {
        Meeting {
            one: AtomicU64::new(0),
            two: AtomicU64::new(0),
            lead: AtomicU64::new(0),
        }
    }

    fn place_of(&self, who: Place) -> &AtomicU64 {
        match who {
            Place::One => &self.one,
            Place::Two => &self.two,
            Place::Lead => &self.lead,
        }
    }

    fn has_come(&self, who: Place) -> bool {
        self.place_of(who).load(Ordering::SeqCst) == 1
    }

    fn guests_are_there(&self) -> bool {
        self.has_come(Place::One) && self.has_come(Place::Two)
    }

    // Answers whether both guests come.
    fn await_guests(&self) -> bool {
        for _ in 0..LOOKS {
            if self.guests_are_there() {
                return true;
            }
        }
        false
    }

    // Comes, and answers whether the others come too.
    fn attend(&self, who: Place) -> bool {
        self.place_of(who).store(1, Ordering::SeqCst);
        for _ in 0..LOOKS {
            if self.guests_are_there() && self.has_come(Place::Lead) {
                return true;
            }
        }
        false
    }
}

/// What a guest posts when it has met the others, and else.
#[derive(Drop)]
struct Words {
    met: Bytes,
    late: Bytes,
}

/// A device that posts once, attends a meeting, says so, and closes.
#[derive(Drop)]
struct Guest<'a> {
    fresh: bool,
    meeting: &'a Meeting,
    place: Place,
    early: Option<Bytes>,
    words: Option<Words>,
}

impl<'a> Guest<'a> {
    fn new(alloc: Global, meeting: &'a Meeting, place: Place) -> Result<Guest<'a>, NoMemory> {
        let early = List::copy_of(alloc, b"early")?;
        let met = List::copy_of(alloc, b"met")?;
        let late = List::copy_of(alloc, b"late")?;
        Ok(Guest {
            fresh: true,
            meeting,
            place,
            early: Some(early),
            words: Some(Words { met, late }),
        })
    }

    fn attend(&mut self) -> Idle
        ensures { self.new.fresh ≡ self.old.fresh }
    {
        match self.words.take() {
            Some(words) if self.meeting.attend(self.place) => Idle::Post(words.met),
            Some(words) => Idle::Post(words.late),
            None => Idle::Close,
        }
    }
}

impl Device for Guest<'_> {
    ghost use Rattle.std.specs.Prelude.{false, None};

    ghost fresh = { λ guest. guest.fresh };

    ghost meaning = { λ guest. record { name = None; cut = false; given = None; told = None; left = None } };

    fn begin(&mut self, _alloc: Global, _name: &[u8], _script: &[u8]) -> Begun {
        self.fresh = false;
        Begun::Ready
    }

    fn serve(&mut self, _action: &[u8], _asked: bool) -> Served {
        Served::Nothing
    }

    fn idle(&mut self) -> Idle {
        match self.early.take() {
            Some(text) => Idle::Post(text),
            None => self.attend(),
        }
    }
}

/// What the lead finds in its first turn, once the guests have posted: how many entries it copies, what comes of a
/// test that it decides before the first of them, and whether it meets the guests.
#[derive(Clone, Copy, Debug, PartialEq)]
struct Welcome {
    copied: u32,
    early: Option<Commit>,
    met: bool,
}

// How many entries a copy from the first one on has.
fn copied<B: Board>(board: &mut B) -> u32
    requires { (B.sight board.old).holds program ≡ true }
    ensures looks { Looks (B.sight board.old) (B.sight board.new) }
    ensures some { 0 < result → 0 < length (B.sight board.new).seen }
{
    board.copy_since(0).count
}

// What comes of a test that was decided before the first entry.
fn test_early<B: Board>(board: &mut B) -> Commit
    requires held { (B.sight board.old).holds program ≡ true }
    requires some { 0 < length (B.sight board.old).seen }
    requires goes_on { has_end (B.sight board.old).seen ≡ false }
    ensures { Looks (B.sight board.old) (B.sight board.new) }
{
    board.commit(0, Entry::Test)
}

fn look<B: Board>(board: &mut B) -> (u32, Option<Commit>)
    requires held { (B.sight board.old).holds program ≡ true }
    requires goes_on { has_end (B.sight board.old).seen ≡ false }
    ensures { Looks (B.sight board.old) (B.sight board.new) }
{
    let count = copied(board);
    if count > 0 {
        let commit = test_early(board);
        (count, Some(commit))
    } else {
        (count, None)
    }
}

/// A runner that welcomes the guests of the meeting in its first turn.
#[derive(Drop)]
struct Host<'a> {
    runner: Runner<'a>,
    meeting: &'a Meeting,
    welcome: Option<Welcome>,
}

impl Host<'_> {
    // Whether it has yet to welcome them, in a program that goes on.
    fn is_to_welcome(&self) -> bool
        ensures { result ≡ true → has_end self.now.runner.list ≡ false }
    {
        self.welcome.is_none() && !self.runner.has_ended()
    }

    fn welcome<B: Board>(&mut self, board: &mut B)
        requires held { (B.sight board.old).holds program ≡ true }
        requires behind { IsBehind self.old.runner.list (B.sight board.old).seen }
        ensures runner { self.new.runner ≡ self.old.runner }
        ensures looks { Looks (B.sight board.old) (B.sight board.new) }
    {
        if self.is_to_welcome() {
            let came = self.meeting.await_guests();
            let (copied, early) = look(board);
            let met = self.meeting.attend(Place::Lead);
            self.welcome = Some(Welcome {
                copied,
                early,
                met: came && met,
            });
        }
    }

    // What it found, and its runner's report, if it has run.
    fn told_if(
        self,
        has_run: Result<bool, NoMemory>,
    ) -> Result<Option<(Option<Welcome>, Report)>, NoMemory> {
        let Host {
            runner,
            welcome,
            ..
        } = self;
        match report_if(runner.report(), has_run) {
            Ok(Some(report)) => Ok(Some((welcome, report))),
            Ok(None) => Ok(None),
            Err(error) => Err(error),
        }
    }
}

impl Lead for Host<'_> {
    ghost use Rattle.std.specs.Prelude.{None};
    ghost use Rattle.golog_lead.specs.Waiting.{waits};
    ghost use Rattle.golog_agent.specs.Laws.{quiet_goes_on};

    ghost mind = { λ host. record {
      agent = host.runner.agent;
      bounds = (0, 0);
      list = host.runner.list;
      waits = waits host.runner.agent;
      outlet = None;
    } };

    ghost stands = { λ _. Unit {0} };

    fn turn<B: Board>(&mut self, board: &mut B) -> Led {
        self.welcome(board);
        Lead::turn(&mut self.runner, board)
    }

    fn gather<B: Board>(&mut self, board: &mut B) {
        Lead::gather(&mut self.runner, board);
    }

    ghost goes_on = { λ host journal quiet. quiet_goes_on host.runner.agent journal quiet };
}

/// What came of a meeting: what the lead found, whether each device posted early and met the others, whether the
/// program took its test, and how it ended.
#[derive(Clone, Copy, Debug, PartialEq)]
struct Told {
    lead: Option<Welcome>,
    one: bool,
    two: bool,
    tested: bool,
    answer: Option<Answer>,
}

/// Whether these are all that a device has posted.
fn has_posted(
    alloc: Global,
    report: &Report,
    device: u8,
    actions: [u32; 2],
) -> Result<bool, NoMemory> {
    let posts = posts_of(alloc, report.entries.as_slice(), device)?;
    Ok(posts.as_slice() == actions.as_slice())
}

/// Whether the program has taken a test.
fn has_tested(entries: &[Entry]) -> bool {
    entries.iter().any(|entry| *entry == Entry::Test)
}

fn told_by(
    alloc: Global,
    agent: &Agent,
    lead: Option<Welcome>,
    report: &Report,
) -> Result<Option<Told>, NoMemory>
    requires formed { WellFormed agent.now }
{
    let (Some(early), Some(met)) = (read_action(agent, b"early"), read_action(agent, b"met")) else {
        return Ok(None);
    };
    let entries = report.entries.as_slice();
    Ok(Some(Told {
        lead,
        one: has_posted(alloc, report, 0, [early, met])?,
        two: has_posted(alloc, report, 1, [early, met])?,
        tested: has_tested(entries),
        answer: answer_in(entries),
    }))
}

// What the lead found, and the report.
fn run_host<R: Threads + Wait + Sync>(
    rt: &R,
    alloc: Global,
    agent: &Agent,
    meeting: &Meeting,
    devices: &mut [Guest<'_>],
) -> Result<Option<(Option<Welcome>, Report)>, NoMemory>
    requires formed { WellFormed agent.now }
{
    let runner = Runner::new(alloc, agent)?;
    let mut host = Host {
        runner,
        meeting,
        welcome: None,
    };
    let has_run = have_run(rt, alloc, agent, &mut host, devices);
    host.told_if(has_run)
}

fn meet_in<R: Threads + Wait + Sync>(
    rt: &R,
    alloc: Global,
    agent: &Agent,
    meeting: &Meeting,
    devices: &mut [Guest<'_>],
) -> Result<Option<Told>, NoMemory>
    requires formed { WellFormed agent.now }
{
    match run_host(rt, alloc, agent, meeting, devices) {
        Ok(Some((lead, report))) => {
            let told = told_by(alloc, agent, lead, &report);
            drop(report);
            told
        }
        Ok(None) => Ok(None),
        Err(error) => Err(error),
    }
}

fn meet<R: Threads + Wait + Sync>(
    rt: &R,
    alloc: Global,
    agent: &Agent,
) -> Result<Option<Told>, NoMemory>
    requires formed { WellFormed agent.now }
{
    let meeting = Meeting::new();
    let one = Guest::new(alloc, &meeting, Place::One)?;
    let two = Guest::new(alloc, &meeting, Place::Two)?;
    let mut devices = [one, two];
    meet_in(rt, alloc, agent, &meeting, &mut devices)
}

fn meet_all<R: Threads + Wait + Sync>(rt: &R, alloc: Global) -> Result<Option<Told>, NoMemory> {
    match agent_of(alloc, AGENT) {
        Some(agent) => {
            let told = meet(rt, alloc, &agent);
            drop(agent);
            told
        }
        None => Ok(None),
    }
}

// Where any two of the three had their turns one after the other, one of them would wait in vain. The lead copies
// what both devices have posted, a test that was decided before that is moved, and one that is decided behind it is
// taken.
#[test]
fn devices_and_the_lead_meet(rt: HostRuntime) -> Result<(), NoMemory> {
    let told = meet_all(&rt, rt.alloc())?;
    let wanted = Told {
        lead: Some(Welcome {
            copied: 2,
            early: Some(Commit::Moved { longer: 2 }),
            met: true,
        }),
        one: true,
        two: true,
        tested: true,
        answer: Some(Answer::Stuck),
    };
    same(&rt, "meeting", told, Some(wanted));
    Ok(())
}
