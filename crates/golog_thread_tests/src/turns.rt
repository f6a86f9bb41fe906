//! Tests of `one_turn` and `next_command` over one device: before the program, behind its command
//! and behind its end.
ghost use Rattle.std.specs.Prelude.{◌≡◌, ◌≢◌, ◌<◌, [], length, true, false};
ghost use Rattle.golog_semantics.specs.WellFormed.{WellFormed};
ghost use Rattle.golog_journal.specs.Taken.{IsReady};
ghost use Rattle.golog_device.specs.declared.turn.Turned.TheVariants.{Closed};

use crate::asserting::same;
use crate::journals::end;
use crate::runs::agent_of;
use golog_agent::Runner;
use golog_base::{List, NoMemory, both};
use golog_device::{Begun, Device, Idle, Served, TableDevice, Turned, one_turn};
use golog_journal::{Board, Journal, Lead, Next};
use golog_tree::Agent;
use std::alloc::Global;

/// A program that looks through a door, at which someone may knock.
const AGENT: &[u8] = b"(agent (device door) (fluent opened () bool)
    (action look () door) (exo knock () door) (senses (look) (opened)) (main (act look)))";

/// The action that the program does: two are built in.
const LOOK: u32 = 2;

/// The most turns of a case.
const TURNS: usize = 4;

/// What a journal has before the first turn of its device.
#[derive(Clone, Copy, Debug)]
enum Before {
    Nothing,
    Command,
    End,
}

/// What a journal has before the turns of a device, which are so many. The device answers this to an action. Without a
/// command it posts an action and then rests, or closes where it has none.
#[derive(Clone, Copy, Debug)]
struct Case<'a> {
    before: Before,
    answer: Option<&'a [u8]>,
    post: Option<&'a [u8]>,
    turns: usize,
}

/// What a device does in its turns, up to the one that closes it, and what it is to do next if it is open.
type Told = ([Turned; TURNS], Option<Next>);

/// Whether the turn closed the device.
fn is_closed(turned: Turned) -> bool
    ensures yes { result ≡ true → turned ≡ Closed }
    ensures no { result ≡ false → turned ≢ Closed }
{
    match turned {
        Turned::Closed => true,
        Turned::Served | Turned::Posted | Turned::Rested | Turned::Nothing => false,
    }
}

/// What is told of so many turns of the first device.
fn turns_of<D: Device>(device: &mut D, agent: &Agent, journal: &mut Journal, turns: usize) -> Told
    requires formed { WellFormed agent.now }
    requires agent { journal.old.agent ≡ agent.now }
    requires ready { IsReady agent.now journal.old.entries 0 0 }
{
    let mut told = [Turned::Nothing; TURNS];
    let mut taken = 0;
    for place in 0..turns.min(TURNS) {
        let turned = one_turn(device, agent, 0, &mut taken, journal);
        told[place] = turned;
        if is_closed(turned) {
            return (told, None);
        }
    }
    (told, Some(journal.next_command(0, taken)))
}

/// The first turn of a program.
fn lead<L: Lead>(lead: &mut L, agent: &Agent, journal: &mut Journal)
    requires agent { (L.mind lead.old).agent ≡ agent.now }
    requires none { (L.mind lead.old).list ≡ [] }
    requires new { journal.old ≡ record { agent = agent.now; entries = [] } }
    requires devices { 0 < length agent.now.devices }
    ensures agent { journal.new.agent ≡ agent.now }
    ensures ready { IsReady agent.now journal.new.entries 0 0 }
{
    lead.turn(journal);
}

/// What is told behind the first turn of the program.
fn told_led<D: Device>(
    alloc: Global,
    agent: &Agent,
    device: &mut D,
    journal: &mut Journal,
    turns: usize,
) -> Result<Told, NoMemory>
    requires formed { WellFormed agent.now }
    requires new { journal.old ≡ record { agent = agent.now; entries = [] } }
    requires devices { 0 < length agent.now.devices }
{
    let mut runner = Runner::new(alloc, agent)?;
    lead(&mut runner, agent, journal);
    drop(runner);
    Ok(turns_of(device, agent, journal, turns))
}

/// What is told behind the end of the program.
fn told_late<D: Device>(agent: &Agent, device: &mut D, journal: &mut Journal, turns: usize) -> Told
    requires formed { WellFormed agent.now }
    requires new { journal.old ≡ record { agent = agent.now; entries = [] } }
    requires devices { 0 < length agent.now.devices }
{
    end(journal);
    turns_of(device, agent, journal, turns)
}

/// What is told at a journal that has nothing yet.
fn told_at<D: Device>(
    alloc: Global,
    agent: &Agent,
    device: &mut D,
    journal: &mut Journal,
    case: &Case<'_>,
) -> Option<Told>
    requires formed { WellFormed agent.now }
    requires new { journal.old ≡ record { agent = agent.now; entries = [] } }
    requires devices { 0 < length agent.now.devices }
{
    match case.before {
        Before::Nothing => Some(turns_of(device, agent, journal, case.turns)),
        Before::Command => told_led(alloc, agent, device, journal, case.turns).ok(),
        Before::End => Some(told_late(agent, device, journal, case.turns)),
    }
}

fn answers_of(alloc: Global, answer: Option<&[u8]>) -> Result<List<Served>, NoMemory> {
    let mut answers = List::new(alloc);
    if let Some(text) = answer {
        answers.push(Served::Value(List::copy_of(alloc, text)?))?;
    }
    Ok(answers)
}

fn idles_of(alloc: Global, post: Option<&[u8]>) -> Result<List<Idle>, NoMemory> {
    let mut idles = List::new(alloc);
    if let Some(text) = post {
        idles.push(Idle::Post(List::copy_of(alloc, text)?))?;
        idles.push(Idle::Rest)?;
    }
    Ok(idles)
}

fn device_of(alloc: Global, case: &Case<'_>) -> Result<TableDevice, NoMemory> {
    let answers = answers_of(alloc, case.answer);
    let idles = idles_of(alloc, case.post);
    let (answers, idles) = both(answers, idles)?;
    TableDevice::new(alloc, Begun::Ready, answers, idles)
}

/// What is told over the agent.
fn told_over<D: Device>(
    alloc: Global,
    agent: &Agent,
    device: &mut D,
    case: &Case<'_>,
) -> Option<Told>
    requires formed { WellFormed agent.now }
    requires devices { 0 < length agent.now.devices }
{
    match Journal::new(alloc, agent) {
        Ok(mut journal) => {
            let told = told_at(alloc, agent, device, &mut journal, case);
            drop(journal);
            told
        }
        Err(NoMemory) => None,
    }
}

/// The same where it has a device.
fn told_by(alloc: Global, agent: &Agent, case: &Case<'_>) -> Option<Told>
    requires { WellFormed agent.now }
{
    if agent.devices.len() == 0 {
        return None;
    }
    match device_of(alloc, case) {
        Ok(mut device) => {
            let told = told_over(alloc, agent, &mut device, case);
            drop(device);
            told
        }
        Err(NoMemory) => None,
    }
}

/// The same of the agent of `AGENT`.
fn told_of(alloc: Global, case: &Case<'_>) -> Option<Told> {
    match agent_of(alloc, AGENT) {
        Some(agent) => {
            let told = told_by(alloc, &agent, case);
            drop(agent);
            told
        }
        None => None,
    }
}

const KNOCK: Option<&[u8]> = Some(b"knock");

const NONE: Turned = Turned::Nothing;

const CLOSED: [Turned; TURNS] = [Turned::Closed, NONE, NONE, NONE];

// A device with nothing before it posts, rests, and then isn't asked.
#[test]
fn devices_post_and_rest(rt: HostRuntime) {
    let posted = [Turned::Posted, NONE, NONE, NONE];
    let rested = [Turned::Posted, Turned::Rested, NONE, NONE];
    let cases: [(Option<&[u8]>, usize, [Turned; TURNS], Option<bool>); 6] = [
        (KNOCK, 0, [NONE; TURNS], Some(false)),
        (KNOCK, 1, posted, Some(false)),
        (KNOCK, 2, rested, Some(true)),
        (KNOCK, 4, rested, Some(true)),
        (None, 4, CLOSED, None),
        // It may not post what the program does.
        (Some(b"look"), 4, CLOSED, None),
    ];
    for (post, turns, told, resting) in cases {
        let case = Case {
            before: Before::Nothing,
            answer: None,
            post,
            turns,
        };
        let next = match resting {
            Some(resting) => Some(Next::Nothing { resting }),
            None => None,
        };
        same(&rt, case, told_of(rt.alloc(), &case), Some((told, next)));
    }
}

// A command comes first. A device that answers no value of the fluent is closed.
#[test]
fn devices_carry_commands_out(rt: HostRuntime) {
    let command = Next::Command {
        place: 0,
        action: LOOK,
        asked: true,
    };
    let rested = Next::Nothing { resting: true };
    let all = [Turned::Served, Turned::Posted, Turned::Rested, NONE];
    let cases: [(Option<&[u8]>, usize, [Turned; TURNS], Option<Next>); 4] = [
        (Some(b"true"), 0, [NONE; TURNS], Some(command)),
        (Some(b"true"), 4, all, Some(rested)),
        (Some(b"2"), 4, CLOSED, None),
        (None, 4, CLOSED, None),
    ];
    for (answer, turns, told, next) in cases {
        let case = Case {
            before: Before::Command,
            answer,
            post: KNOCK,
            turns,
        };
        same(&rt, case, told_of(rt.alloc(), &case), Some((told, next)));
    }
}

#[test]
fn devices_stop_after_the_end(rt: HostRuntime) {
    let cases = [(0, [NONE; TURNS], Some(Next::Ended)), (1, CLOSED, None)];
    for (turns, told, next) in cases {
        let case = Case {
            before: Before::End,
            answer: None,
            post: KNOCK,
            turns,
        };
        same(&rt, case, told_of(rt.alloc(), &case), Some((told, next)));
    }
}
