//! Tests of a journal: what is posted and committed to it, and in which order; `has_more` and
//! `sense_for`; of `Counts` and its facts; which results a program waits for.
ghost use Rattle.std.specs.Prelude.{◌≡◌, ◌≢◌, ◌<◌, ◌≤◌, ◌+◌, [], ◌∷◌, false, length, IfSome};
ghost use Rattle.golog_semantics.specs.Journal.{has_end};
ghost use Rattle.golog_semantics.specs.WellFormed.{WellFormed};

use crate::asserting::same;
use crate::runs::agent_of;
use golog_base::{List, NoMemory};
use golog_journal::{
    Answer, Board, Commit, Counts, DEVICES, Entry, Item, Journal, Posted, Reason, sense_for,
};
use golog_tree::{Agent, SenseItem};
use std::alloc::Global;

const AGENT: &[u8] = b"(agent (device panel) (device lift) (fluent opened () bool)
    (exo push () panel) (action look () lift) (senses (look) (opened)) (main nil))";

/// The first device.
const PANEL: u8 = 0;

/// The action that it posts: two are built in.
const PUSH: u32 = 2;

/// A journal of an agent that has devices, without an entry.
fn journal_over(alloc: Global, agent: &Agent) -> Option<Journal>
    requires { WellFormed agent.now }
    ensures empty { IfSome result (λ journal. journal.entries ≡ []) }
    ensures devices { IfSome result (λ journal. 0 < length journal.agent.devices) }
{
    if agent.devices.len() == 0 {
        return None;
    }
    match Journal::new(alloc, agent) {
        Ok(journal) => Some(journal),
        Err(NoMemory) => None,
    }
}

/// A journal of the agent of `AGENT`, without an entry.
fn new_journal(alloc: Global) -> Option<Journal>
    ensures empty { IfSome result (λ journal. journal.entries ≡ []) }
    ensures devices { IfSome result (λ journal. 0 < length journal.agent.devices) }
{
    match agent_of(alloc, AGENT) {
        Some(agent) => {
            let journal = journal_over(alloc, &agent);
            drop(agent);
            journal
        }
        None => None,
    }
}

// Posts the first item of a journal.
fn first(journal: &mut Journal, poster: u8, item: Item) -> Posted
    requires empty { journal.old.entries ≡ [] }
    requires device { poster < length journal.old.agent.devices }
    requires item { item ≢ Item.Stop }
    ensures one { length journal.new.entries ≡ 1 }
    ensures goes_on { has_end journal.new.entries ≡ false }
{
    journal.post(poster, item, 0)
}

// Commits a test that was decided for so many entries.
fn test_at(journal: &mut Journal, at: u32) -> Commit
    requires seen { at ≤ length journal.old.entries }
    requires goes_on { has_end journal.old.entries ≡ false }
    requires room { length journal.old.entries < 100 }
    ensures goes_on { has_end journal.new.entries ≡ false }
    ensures most { length journal.new.entries ≤ length journal.old.entries + 1 }
    ensures no_less { length journal.old.entries ≤ length journal.new.entries }
{
    journal.commit(at, Entry::Test)
}

// Ends a journal that has no entry.
pub(crate) fn end(journal: &mut Journal)
    requires { journal.old.entries ≡ [] }
    ensures ended { journal.new.entries ≡ Entry.End Answer.Done ∷ [] }
    ensures agent { journal.new.agent ≡ journal.old.agent }
    ensures devices { length journal.new.agent.devices ≡ length journal.old.agent.devices }
{
    journal.commit(
        0,
        Entry::End {
            answer: Answer::Done,
        },
    );
}

// Posts an item after the end.
fn late(journal: &mut Journal, poster: u8, item: Item) -> Posted
    requires ended { journal.old.entries ≡ Entry.End Answer.Done ∷ [] }
    requires device { poster < length journal.old.agent.devices }
    requires item { item ≢ Item.Refused }
{
    journal.post(poster, item, 0)
}

fn first_posted(alloc: Global, item: Item) -> Option<Posted>
    requires { item ≢ Item.Stop }
{
    let mut journal = new_journal(alloc)?;
    let posted = first(&mut journal, PANEL, item);
    drop(journal);
    Some(posted)
}

fn posted_late(alloc: Global, item: Item) -> Option<Posted>
    requires { item ≢ Item.Refused }
{
    let mut journal = new_journal(alloc)?;
    end(&mut journal);
    let posted = late(&mut journal, PANEL, item);
    drop(journal);
    Some(posted)
}

fn post_then_test(alloc: Global) -> Option<(Posted, Commit, Commit)> {
    let mut journal = new_journal(alloc)?;
    let posted = first(&mut journal, PANEL, Item::Exo(PUSH));
    let old = test_at(&mut journal, 0);
    let new = test_at(&mut journal, 1);
    drop(journal);
    Some((posted, old, new))
}

#[test]
fn decisions_for_fewer_entries_are_moved(rt: HostRuntime) {
    let wanted = (Posted::At(0), Commit::Moved { longer: 1 }, Commit::Taken);
    same(&rt, "moved", post_then_test(rt.alloc()), Some(wanted));
}

const fn closed(place: u32, reason: Reason) -> Option<Posted> {
    Some(Posted::Closed { place, reason })
}

#[test]
fn devices_are_closed_before_the_end(rt: HostRuntime) {
    let alloc = rt.alloc();
    let posted = [
        first_posted(alloc, Item::Close),
        first_posted(alloc, Item::Unreadable),
        first_posted(alloc, Item::Value(0)),
        first_posted(alloc, Item::Refused),
        first_posted(alloc, Item::Rest),
    ];
    let wanted = [
        closed(0, Reason::Ended),
        closed(0, Reason::Bad),
        closed(0, Reason::Bad),
        closed(0, Reason::Refused),
        Some(Posted::At(0)),
    ];
    same(&rt, "first", posted, wanted);
}

#[test]
fn devices_are_closed_after_the_end(rt: HostRuntime) {
    let alloc = rt.alloc();
    let posted = [
        posted_late(alloc, Item::Rest),
        posted_late(alloc, Item::Exo(PUSH)),
        posted_late(alloc, Item::Stop),
    ];
    let wanted = [
        closed(1, Reason::Late),
        closed(1, Reason::Late),
        closed(1, Reason::Stopped),
    ];
    same(&rt, "late", posted, wanted);
}

// Whether entries stand from a place on, in a journal without an entry or with one.
fn has_more(alloc: Global, has_one: bool, since: u32) -> Option<bool> {
    let mut journal = new_journal(alloc)?;
    if has_one {
        first(&mut journal, PANEL, Item::Rest);
    }
    let more = journal.has_more(since);
    drop(journal);
    Some(more)
}

#[test]
fn entries_stand_from_their_places_on(rt: HostRuntime) {
    let places = [
        (false, 0, false),
        (false, u32::MAX, false),
        (true, 0, true),
        (true, 1, false),
        (true, u32::MAX, false),
    ];
    for (has_one, since, more) in places {
        let told = has_more(rt.alloc(), has_one, since);
        same(&rt, (has_one, since), told, Some(more));
    }
}

// An item of sensing, of an action and a fluent without arguments.
fn sensing(alloc: Global, action: u32, fluent: u32) -> SenseItem {
    SenseItem {
        action,
        fluent,
        args: List::new(alloc),
        later: false,
    }
}

// The fluent of the first item for an action, among two for the action 4 and one for 5.
fn fluent_for(alloc: Global, action: u32) -> Option<u32> {
    let senses = [
        sensing(alloc, 4, 1),
        sensing(alloc, 5, 2),
        sensing(alloc, 4, 3),
    ];
    let fluent = match sense_for(&senses, action) {
        Some(sense) => Some(sense.fluent),
        None => None,
    };
    drop(senses);
    fluent
}

#[test]
fn the_first_item_for_an_action_is_found(rt: HostRuntime) {
    let fluents = [(4, Some(1)), (5, Some(2)), (0, None), (6, None)];
    for (action, fluent) in fluents {
        same(&rt, action, fluent_for(rt.alloc(), action), fluent);
    }
    same(&rt, "no items", sense_for(&[], 4).is_none(), true);
}

/// A door that looks and peeks. The result of the second may come later.
const DOOR: &[u8] = b"(agent (device door) (fluent opened () bool) (fluent locked () bool)
    (action look () door) (action peek () door) (action go ())
    (senses (look) (opened)) (senses (peek) (locked) later) (main nil))";

/// Whose result the program waits for behind an action, whether it waits for one, and whether there is one.
type Told = (Option<u8>, bool, bool);

fn result_of(counts: &Counts, action: u32) -> Told {
    let facts = counts.facts();
    (
        counts.held_of(action),
        facts.is_held(action),
        facts.is_sensing(action),
    )
}

/// The same of the first action behind the two that are built in, of the three behind it, and whether a result lacks or
/// may come before the first entry.
fn results_of(counts: &Counts) -> ([Told; 4], [bool; 2]) {
    let results = [
        result_of(counts, 2),
        result_of(counts, 3),
        result_of(counts, 4),
        result_of(counts, 5),
    ];
    (results, [counts.lacks_results(), counts.may_be_answered()])
}

fn results_at_first(alloc: Global, agent: &Agent) -> Option<([Told; 4], [bool; 2])>
    requires { WellFormed agent.now }
{
    match Counts::new(alloc, agent) {
        Ok(counts) => {
            let results = results_of(&counts);
            drop(counts);
            Some(results)
        }
        Err(NoMemory) => None,
    }
}

fn results_of_door(alloc: Global) -> Option<([Told; 4], [bool; 2])> {
    match agent_of(alloc, DOOR) {
        Some(agent) => {
            let results = results_at_first(alloc, &agent);
            drop(agent);
            results
        }
        None => None,
    }
}

// The program waits for the result of a look alone. To go has none, and there is no fourth action.
#[test]
fn results_are_waited_for_or_may_come_later(rt: HostRuntime) {
    let none = (None, false, false);
    let results = [(Some(0), true, true), (None, false, true), none, none];
    same(
        &rt,
        "door",
        results_of_door(rt.alloc()),
        Some((results, [false; 2])),
    );
}

// How many devices the agent of a file has.
fn device_count(alloc: Global, file: &[u8]) -> Option<usize> {
    match agent_of(alloc, file) {
        Some(agent) => {
            let count = agent.devices.len();
            drop(agent);
            Some(count)
        }
        None => None,
    }
}

#[test]
fn an_agent_has_so_many_devices_at_most(rt: HostRuntime) {
    let most =
        b"(agent (device a) (device b) (device c) (device d) (device e) (device f) (device g) (device h)
        (device i) (device j) (device k) (device l) (device m) (device n) (device o) (device p) (main nil))";
    let more =
        b"(agent (device a) (device b) (device c) (device d) (device e) (device f) (device g) (device h)
        (device i) (device j) (device k) (device l) (device m) (device n) (device o) (device p) (device q)
        (main nil))";
    same(&rt, "most", device_count(rt.alloc(), most), Some(DEVICES));
    same(&rt, "more", device_count(rt.alloc(), more), None);
    same(&rt, "as many", DEVICES, 16);
}

/// Takes a type that threads share and take.
fn may_be_shared<T: Send + Sync>() {}

// Threads share journals.
fn crosses_threads() {
    may_be_shared::<Journal>();
}
