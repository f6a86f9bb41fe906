// Arguments in brackets, written and read: constants of given sorts, with commas between them.
ghost use Rattle.std.specs.Prelude.{◌≡◌, ◌<◌, ◌≤◌, ◌+◌, ◌*◌, [], ◌∷◌, ◌++◌, length, take, drop, position};
ghost use Rattle.std.specs.List.{position_or_len};
ghost use Rattle.golog_tree.specs.Ground.{AreWithin, sizes};
ghost use Rattle.golog_semantics.specs.WellFormed.{WellFormed};
ghost use Rattle.golog_ground.specs.Texts.{IsTheOne, WritesArgs, WritesEnclosed, enclosed, is_mark as spec_is_mark};

use crate::ActionText;
use crate::constant::{push_constant, read_constant};
use golog_tree::{Agent, MOST_ARGS};
use std::marker::Model;

// Arguments that were read, each a constant by its position in its sort. Contracts see them as their list.
#[derive(Debug, Drop)]
pub(crate) struct Args {
    constants: [u8; MOST_ARGS],
    count: usize,
}

impl Model for Args {
    ghost use Rattle.std.specs.Prelude.{ℕ, List, take, ◌≤◌};

    ghost Value = { List ℕ };

    ghost view = { λ args. take args.count args.constants };

    ghost invariant = { λ args. args.count ≤ 3 };
}

impl Args {
    fn none() -> Args
        ensures { result ≡ [] }
    {
        Args {
            constants: [0; MOST_ARGS],
            count: 0,
        }
    }

    // One more argument before these.
    fn behind(first: u8, later: Args) -> Args
        requires { length later < 3 }
        ensures { result ≡ first ∷ later }
    {
        let Args { constants, count } = later;
        Args {
            constants: [first, constants[0], constants[1]],
            count: count + 1,
        }
    }

    pub(crate) fn as_slice(&self) -> &[u8]
        ensures { result.now ≡ self.now }
    {
        &self.constants[..self.count]
    }
}

fn is_mark(byte: u8) -> bool
    ensures { result ≡ spec_is_mark byte }
{
    byte == b'(' || byte == b')' || byte == b','
}

// The place of the first bracket or comma.
fn first_mark(bytes: &[u8]) -> Option<usize>
    ensures { result ≡ position spec_is_mark bytes.now }
{
    bytes.iter().position(|byte| is_mark(*byte))
}

// The bytes before the first bracket or comma, and the others.
pub(crate) fn split_at_mark(bytes: &[u8]) -> (&[u8], &[u8])
    ensures front { result.0.now ≡ take (position_or_len spec_is_mark bytes.now) bytes.now }
    ensures back { result.1.now ≡ drop (position_or_len spec_is_mark bytes.now) bytes.now }
{
    match first_mark(bytes) {
        Some(place) => bytes.split_at(place),
        None => bytes.split_at(bytes.len()),
    }
}

// Writes arguments, the first behind the opening byte and each other behind a comma, and a closing bracket.
pub(crate) fn push_enclosed(
    text: &mut ActionText,
    agent: &Agent,
    opening: u8,
    sorts: &[u32],
    args: &[u8],
)
    requires fits { AreWithin (sizes agent.now sorts.now) args.now }
    requires room { length text.old + 32 * length sorts.now + 1 ≤ 128 }
    ensures { text.new ≡ text.old ++ enclosed agent.now opening sorts.now args.now }
{
    match (sorts.split_first(), args.split_first()) {
        (Some((sort, sorts)), Some((arg, args))) => {
            text.push_all(&[opening]);
            push_constant(text, agent, *sort, *arg);
            push_enclosed(text, agent, b',', sorts, args);
        }
        _ => text.push_all(b")"),
    }
}

// The arguments of these sorts that the bytes write, the first behind the opening byte.
fn read_enclosed(agent: &Agent, opening: u8, sorts: &[u32], bytes: &[u8]) -> Option<Args>
    requires formed { WellFormed agent.now }
    requires few { length sorts.now ≤ 3 }
    ensures { IsTheOne result (WritesEnclosed agent.now opening sorts.now bytes.now) }
{
    let Some((sort, sorts)) = sorts.split_first() else {
        return if bytes == b")".as_slice() {
            Some(Args::none())
        } else {
            None
        };
    };
    let Some((first, rest)) = bytes.split_first() else {
        return None;
    };
    if *first != opening {
        return None;
    }
    let (constant, rest) = split_at_mark(rest);
    let Some(arg) = read_constant(agent, *sort, constant) else {
        return None;
    };
    let Some(args) = read_enclosed(agent, b',', sorts, rest) else {
        return None;
    };
    Some(Args::behind(arg, args))
}

// The arguments of these sorts that the bytes write: in brackets, or nothing where there are none.
pub(crate) fn read_args(agent: &Agent, sorts: &[u32], bytes: &[u8]) -> Option<Args>
    requires formed { WellFormed agent.now }
    requires few { length sorts.now ≤ 3 }
    ensures { IsTheOne result (WritesArgs agent.now sorts.now bytes.now) }
{
    if !sorts.is_empty() {
        read_enclosed(agent, b'(', sorts, bytes)
    } else if bytes.is_empty() {
        Some(Args::none())
    } else {
        None
    }
}
