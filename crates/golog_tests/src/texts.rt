// Tests of `read_action`, `action_text`, `read_constant`, `constant_text` and `place_of_name`.
ghost use Rattle.golog_semantics.specs.WellFormed.{WellFormed};

use crate::agents::LIFT;
use crate::asserting::same;
use golog_base::{NoMemory, Word};
use golog_file::read_agent;
use golog_ground::{action_text, constant_text, place_of_name, read_action, read_constant};
use golog_tree::{Agent, sort_size};
use std::alloc::Global;

/// Sorts of numbers, of which two reach the ends of what may be, and actions with arguments and without.
const MOVES: &[u8] = b"(agent
    (sort place a b) (sort level -1 3) (sort small -2 2)
    (sort least -2147483648 -2147483647) (sort most 2147483646 2147483647)
    (action up ()) (action move (place level))
    (main nil))";

/// The sorts of numbers of that agent.
const LEVEL: u32 = 2;

const SMALL: u32 = 3;

const LEAST: u32 = 4;

const MOST: u32 = 5;

/// Stands for a number whose text is another one.
const OTHER: u32 = u32::MAX;

/// The number of the ground action of this text.
fn action_back(agent: &Agent, text: &[u8]) -> Option<u32>
    requires { WellFormed agent.now }
{
    match read_action(agent, text) {
        Some(found) => {
            let is_so = action_text(agent, found).as_bytes() == text;
            Some(if is_so { found } else { OTHER })
        }
        None => None,
    }
}

/// Whether this is the text of the constant at this place in its sort.
fn is_constant(agent: &Agent, sort: u32, value: u8, text: &[u8]) -> bool
    requires { WellFormed agent.now }
{
    u32::from(value) < sort_size(agent, sort)
        && constant_text(agent, sort, value).as_bytes() == text
}

/// The place in its sort of the constant of this text.
fn constant_back(agent: &Agent, sort: u32, text: &[u8]) -> Option<u32>
    requires { WellFormed agent.now }
{
    match read_constant(agent, sort, text) {
        Some(value) => {
            let is_so = is_constant(agent, sort, value, text);
            Some(if is_so { u32::from(value) } else { OTHER })
        }
        None => None,
    }
}

/// The same of the agent that a file spells: of a constant of a sort, or else of an action.
fn back(alloc: Global, file: &[u8], sort: Option<u32>, text: &[u8]) -> Option<u32> {
    let read = read_agent(alloc, file);
    let answer = match (&read, sort) {
        (Ok(agent), Some(sort)) => constant_back(agent, sort, text),
        (Ok(agent), None) => action_back(agent, text),
        (Err(_fault), _) => None,
    };
    drop(read);
    answer
}

// Each text with the number of the ground action that has it.
#[test]
fn ground_actions_have_one_text(rt: HostRuntime) {
    let texts: [(&[u8], &[u8], Option<u32>); 8] = [
        (LIFT, b"turn(right,3)", Some(16)),
        (LIFT, b"turn(right, 3)", None),
        (MOVES, b"up", Some(2)),
        (MOVES, b"up()", None),
        (MOVES, b"move(a,-1)", Some(3)),
        (MOVES, b"move(a,3)", Some(7)),
        (MOVES, b"move(b,3)", Some(12)),
        (MOVES, b"move", None),
    ];
    for (file, text, number) in texts {
        same(&rt, text, back(rt.alloc(), file, None, text), number);
    }
}

// Each text with the place of the constant that has it: a number has a sign only below 0, and no leading zeros.
#[test]
fn constants_have_one_text(rt: HostRuntime) {
    let texts: [(u32, &[u8], Option<u32>); 15] = [
        (LEVEL, b"-1", Some(0)),
        (LEVEL, b"+1", None),
        (SMALL, b"-1", Some(1)),
        (SMALL, b"0", Some(2)),
        (SMALL, b"2", Some(4)),
        (SMALL, b"3", None),
        (SMALL, b"-3", None),
        (SMALL, b"01", None),
        (SMALL, b"-0", None),
        (SMALL, b"+1", None),
        (SMALL, b" 1", None),
        (SMALL, b"", None),
        (LEAST, b"-2147483648", Some(0)),
        (MOST, b"2147483647", Some(1)),
        (MOST, b"2147483648", None),
    ];
    for (sort, text, place) in texts {
        same(&rt, text, back(rt.alloc(), MOVES, Some(sort), text), place);
    }
}

// Each name with its first place among others.
#[test]
fn names_are_found_at_their_first_places(rt: HostRuntime) -> Result<(), NoMemory> {
    let (Some(a), Some(ab), Some(c)) = (Word::of(b"a"), Word::of(b"ab"), Word::of(b"c")) else {
        return Err(NoMemory);
    };
    let places: [(&[u8], Option<usize>); 6] = [
        (b"a", Some(0)),
        (b"ab", Some(1)),
        (b"c", Some(3)),
        (b"b", None),
        (b"abc", None),
        (b"", None),
    ];
    for (name, place) in places {
        same(&rt, name, place_of_name(&[a, ab, a, c], name), place);
    }
    same(&rt, "no names", place_of_name(&[], b"a"), None);
    Ok(())
}
