// A test of a clock that posts 10,000 times during a search, whose journal is replayed, and again
// with two steps exchanged.
use crate::asserting::same;
use crate::calls::{Call, RUN_ON_THREADS, Setting, called, called_on_threads, file_of, joined};
use golog_base::{Bytes, NoMemory, both};
use std::alloc::Global;
use std::sync::Wait;
use std::thread::Threads;

/// What a replay says of a journal of the agent of these items and this program.
pub fn found_of(
    alloc: Global,
    items: &str,
    program: &str,
    journal: &str,
) -> Result<Call, NoMemory> {
    let agent = file_of(alloc, items, program)?;
    let found = called(
        alloc,
        &Setting::replay(agent.as_slice(), journal.as_bytes()),
    );
    drop(agent);
    found
}

/// Twelve switches that a search sets, and a clock. The search goes through 4,096 states.
const SWITCHES: &[u8] = b"(agent
  (device clock)
  (sort idx 1 12) (sort step 0 99)
  (fluent set_on (idx) bool false) (fluent beat () bool false) (fluent over () bool false)
  (action set (idx)) (exo tick (step) clock) (exo finish () clock)
  (poss (set i) (not (set_on i)))
  (causes (set i) (set_on i) true)
  (causes (tick k) (beat) true (not (beat))) (causes (tick k) (beat) false (beat))
  (causes (finish) (over) true)
  (main (seq
    (search 13 5000 (seq (star (pick (i idx) (act set i))) (test (all (i idx) (set_on i)))))
    (test (over)))))";

/// How many ticks the clock posts.
const TICKS: u32 = 10_000;

/// So many ticks, one a line.
pub fn ticks_of(alloc: Global, count: u32) -> Result<String, NoMemory> {
    let mut ticks = String::new(alloc);
    for tick in 0..count {
        push_tick(alloc, &mut ticks, tick % 100)?;
    }
    Ok(ticks)
}

fn push_tick(alloc: Global, ticks: &mut String, step: u32) -> Result<(), NoMemory> {
    let tick = format!(in alloc; "tick({step})\n")?;
    ticks.push_str(tick.as_str())?;
    Ok(())
}

/// What the clock is to post, a line for each: its ticks, then that it has finished.
fn posts_wanted(alloc: Global) -> Result<String, NoMemory> {
    let mut posts = ticks_of(alloc, TICKS)?;
    posts.push_str("finish\n")?;
    Ok(posts)
}

/// The scripts in which the clock posts these lines.
fn scripts_of(alloc: Global, posts: &str) -> Result<Bytes, NoMemory> {
    let mut file = Bytes::copy_of(alloc, br#"[{"name":"clock","idle":["#)?;
    let mut mark: &[u8] = b"";
    for post in posts.lines() {
        push_quoted(&mut file, mark, post)?;
        mark = b",";
    }
    file.extend(b"]}]")?;
    Ok(file)
}

fn push_quoted(file: &mut Bytes, mark: &[u8], text: &str) -> Result<(), NoMemory> {
    file.extend(mark)?;
    file.push(b'"')?;
    file.extend(text.as_bytes())?;
    file.push(b'"')
}

/// A line's number, and what it says.
fn parts_of(line: &str) -> (&str, &str) {
    line.split_once(' ').unwrap_or((line, ""))
}

fn push_parts(text: &mut String, parts: &[&str]) -> Result<(), NoMemory> {
    for part in parts {
        text.push_str(part)?;
    }
    Ok(())
}

/// What a device has posted, a line for each, where the lines that tell it begin so.
pub fn posts_in(alloc: Global, journal: &str, start: &str) -> Result<String, NoMemory> {
    let mut posts = String::new(alloc);
    for line in journal.lines() {
        let (_number, said) = parts_of(line);
        if let Some(post) = said.strip_prefix(start) {
            push_parts(&mut posts, &[post, "\n"])?;
        }
    }
    Ok(posts)
}

/// What the first line that says so much says behind it, or `nothing`.
pub fn said_behind<'a>(journal: &'a str, start: &str) -> &'a str {
    for line in journal.lines() {
        let (_number, said) = parts_of(line);
        if let Some(rest) = said.strip_prefix(start) {
            return rest;
        }
    }
    "nothing"
}

/// The number of the line that says this.
fn number_of<'a>(journal: &'a str, wanted: &str) -> Option<&'a str> {
    for line in journal.lines() {
        let (number, said) = parts_of(line);
        if said == wanted {
            return Some(number);
        }
    }
    None
}

/// The journal in which the lines that say these have exchanged what they say.
fn exchanged(alloc: Global, journal: &str, one: &str, other: &str) -> Result<String, NoMemory> {
    let mut text = String::new(alloc);
    for line in journal.lines() {
        let (number, said) = parts_of(line);
        let said = if said == one {
            other
        } else if said == other {
            one
        } else {
            said
        };
        push_parts(&mut text, &[number, " ", said, "\n"])?;
    }
    Ok(text)
}

/// Runs the agent with the switches over a clock that posts these lines.
fn ran_with_posts<R: Threads + Wait + Sync>(
    rt: &R,
    alloc: Global,
    posts: &str,
) -> Result<Call, NoMemory> {
    let scripts = scripts_of(alloc, posts)?;
    let file = ("x.devices", scripts.as_slice());
    let setting = Setting::roomy(RUN_ON_THREADS, ("x.agent", SWITCHES), file);
    let ran = called_on_threads(rt, alloc, &setting);
    drop(scripts);
    ran
}

/// The same over one that posts its ticks, and then that it has finished.
fn ran_with_ticks<R: Threads + Wait + Sync>(rt: &R, alloc: Global) -> Result<Call, NoMemory> {
    let posts = posts_wanted(alloc)?;
    let ran = ran_with_posts(rt, alloc, posts.as_str());
    drop(posts);
    ran
}

/// Whether what the clock has posted is all that it is to post, in order.
fn has_all_posts(alloc: Global, journal: &str) -> Result<bool, NoMemory> {
    let (posts, wanted) = both(posts_in(alloc, journal, "exo clock "), posts_wanted(alloc))?;
    Ok(posts.as_str() == wanted.as_str())
}

/// Whether a replay of the journal says these parts.
fn is_found(alloc: Global, journal: &str, status: u8, parts: &[&str]) -> Result<bool, NoMemory> {
    let found = called(alloc, &Setting::replay(SWITCHES, journal.as_bytes()));
    let (found, wanted) = both(found, joined(alloc, parts))?;
    Ok(found.status == status && found.out.bytes() == wanted.as_slice())
}

/// Whether a replay finds the first of two steps that are exchanged to be none that the program may take.
fn is_found_out(alloc: Global, journal: &str) -> Result<bool, NoMemory> {
    let place = number_of(journal, "do set(2)").unwrap_or("nowhere");
    let forged = exchanged(alloc, journal, "do set(2)", "do set(3)")?;
    let is_so = is_found(
        alloc,
        forged.as_str(),
        17,
        &["not online ", place, " step\n"],
    );
    drop(forged);
    is_so
}

/// What is found in a journal: whether all posts stand in it, whether it is online, and whether one with two steps
/// exchanged is found out.
#[derive(Clone, Copy, Debug, PartialEq)]
struct Found {
    has_posts: bool,
    is_online: bool,
    finds_out: bool,
}

/// What is to be found.
const ALL_SO: Found = Found {
    has_posts: true,
    is_online: true,
    finds_out: true,
};

fn found_in(alloc: Global, journal: &str) -> Result<Found, NoMemory> {
    Ok(Found {
        has_posts: has_all_posts(alloc, journal)?,
        is_online: is_found(alloc, journal, 0, &["online done\n"])?,
        finds_out: is_found_out(alloc, journal)?,
    })
}

/// The status of the run, and what is found in its journal.
fn ticked<R: Threads + Wait + Sync>(rt: &R, alloc: Global) -> Result<(u8, Found), NoMemory> {
    let call = ran_with_ticks(rt, alloc)?;
    let (status, journal) = call.said();
    let found = found_in(alloc, journal);
    drop(call);
    Ok((status, found?))
}

// What a clock posts during a search stands in order and whole, and the journal is online, but no more where two
// steps of the search are exchanged.
#[test]
fn a_clock_ticks_during_a_search(rt: HostRuntime) -> Result<(), NoMemory> {
    same(&rt, "clock", ticked(&rt, rt.alloc())?, (0, ALL_SO));
    Ok(())
}
