// What searches for plans come to.
ghost use Rattle.std.specs.Prelude.{◌≡◌, ◌≤◌, IsTrue, not};
ghost use Rattle.golog_semantics.specs.BlockFree.{has_block as holds_block};
ghost use Rattle.golog_semantics.specs.WellFormed.{WellFormed};
ghost use Rattle.golog_ways.specs.Searched.{IsSearched};
ghost use Rattle.golog_branch.specs.TreeTexts.{is_told};

use crate::agents::{
    BLIND, BLOCK, BYTES, COLOURS, DOORS, ENOUGH, LATE, LOOK, MAZE, MEDICATE, NOTHING, OPEN, SHORT,
    STARRED, SURE, TEN_THOUSAND, TEN_THOUSAND_AND_ONE, TESTED,
};
use crate::asserting::same;
use golog_base::{Bytes, NoMemory};
use golog_branch::{Planned, Tree, goes, has_block, plan, tree_text};
use golog_file::read_agent;
use golog_journal::AgentFacts;
use golog_progress::{State, start};
use golog_tree::Agent;
use std::alloc::Global;

/// The text of a plan that goes through from a state.
fn found_text(
    alloc: Global,
    agent: &Agent,
    facts: &AgentFacts,
    tree: &Tree,
    state: &State,
) -> Result<Bytes, NoMemory>
    requires formed { WellFormed agent.now }
    requires facts { facts.now ≡ agent.now }
    requires searched { IsSearched agent.now agent.now.main state.now }
    requires told { IsTrue (is_told agent.now tree.now) }
{
    if goes(alloc, agent, facts, tree, &agent.main, state)? {
        return tree_text(alloc, agent, facts, tree);
    }
    Bytes::copy_of(alloc, b"not going")
}

/// The text of a plan for the agent's program, or a word for what the search came to.
fn text_there(
    alloc: Global,
    agent: &Agent,
    facts: &AgentFacts,
    state: &State,
    depth: u32,
    fuel: u32,
) -> Result<Bytes, NoMemory>
    requires formed { WellFormed agent.now }
    requires facts { facts.now ≡ agent.now }
    requires searched { IsSearched agent.now agent.now.main state.now }
    requires depth { 1 ≤ depth }
    requires fuel { 1 ≤ fuel }
{
    let found = plan(alloc, agent, facts, &agent.main, state, depth, fuel)?;
    let text = match &found {
        Planned::Found(tree) => found_text(alloc, agent, facts, tree.get(), state),
        Planned::Absent => Bytes::copy_of(alloc, b"absent"),
        Planned::Fuel => Bytes::copy_of(alloc, b"fuel"),
        Planned::Large => Bytes::copy_of(alloc, b"large"),
    };
    drop(found);
    text
}

/// The same at the start.
fn text_at_start(alloc: Global, agent: &Agent, depth: u32, fuel: u32) -> Result<Bytes, NoMemory>
    requires formed { WellFormed agent.now }
    requires blockless { IsTrue (not (holds_block agent.now agent.now.main)) }
    requires depth { 1 ≤ depth }
    requires fuel { 1 ≤ fuel }
{
    let facts = AgentFacts::of(alloc, agent)?;
    let state = start(alloc, agent)?;
    let text = text_there(alloc, agent, &facts, &state, depth, fuel);
    drop(state);
    drop(facts);
    text
}

/// Whether this is the text, where no search block stands in the program, and else whether that is wanted. A long text
/// is as wanted as `long`.
fn is_planned(alloc: Global, agent: &Agent, depth: u32, fuel: u32, wanted: &[u8]) -> bool
    requires formed { WellFormed agent.now }
{
    if has_block(agent, &agent.main) {
        return wanted == b"block".as_slice();
    }
    if depth == 0 || fuel == 0 {
        return false;
    }
    let text = text_at_start(alloc, agent, depth, fuel);
    let answer = match &text {
        Ok(text) => text.as_slice() == wanted
            || wanted == b"long".as_slice() && text.len() > 10_000,
        Err(NoMemory) => false,
    };
    drop(text);
    answer
}

/// The same of the agent that a file spells.
fn comes_to(alloc: Global, file: &[u8], depth: u32, fuel: u32, wanted: &[u8]) -> bool {
    let read = read_agent(alloc, file);
    let answer = match &read {
        Ok(agent) => is_planned(alloc, agent, depth, fuel, wanted),
        Err(_fault) => false,
    };
    drop(read);
    answer
}

// Each agent with a depth and a fuel, and the plan that is found or why there is none.
#[test]
fn plans_are_found(rt: HostRuntime) {
    let rows: [(&[u8], u32, u32, &[u8]); 23] = [
        (LOOK, 4, 100, b"look{false: knock; . | true: go; .}"),
        (LOOK, 2, 3, b"look{false: knock; . | true: go; .}"),
        (LOOK, 2, 2, b"fuel"),
        (LOOK, 1, 100, b"absent"),
        (OPEN, 4, 100, b"look{true: go; .}"),
        (SURE, 4, 100, b"absent"),
        (BLIND, 4, 100, b"absent"),
        (
            TESTED,
            6,
            100,
            b"look{false: knock; . | true: knock; -; go; .}",
        ),
        (STARRED, 4, 5, b"look{false: knock; knock; . | true: .}"),
        (STARRED, 4, 4, b"fuel"),
        (
            LATE,
            4,
            100,
            b"knock; look{false: knock; knock; . | true: knock; knock; .}",
        ),
        (SHORT, 4, 100, b"b; ."),
        (ENOUGH, 4, 100, b"-; a; ."),
        (NOTHING, 1, 1, b"."),
        (
            COLOURS,
            4,
            4,
            b"see{red: take(red); . | green: take(green); . | blue: take(blue); .}",
        ),
        (BYTES, 16, 2048, b"large"),
        (BYTES, 16, 2047, b"fuel"),
        (TEN_THOUSAND, 16, 100_000, b"long"),
        (TEN_THOUSAND_AND_ONE, 16, 100_000, b"large"),
        (BLOCK, 4, 100, b"block"),
        (
            MEDICATE,
            4,
            100,
            b"inspect{false: -; . | true: medicate; -; .}",
        ),
        (
            DOORS,
            4,
            100,
            b"listen{left: open(right); -; . | right: open(left); -; .}",
        ),
        (
            MAZE,
            6,
            100,
            b"feel{false: step; feel{false: step; -; . | true: climb; -; .} | true: climb; feel{false: step; -; . | true: climb; -; .}}",
        ),
    ];
    for (file, depth, fuel, wanted) in rows {
        same(
            &rt,
            wanted,
            comes_to(rt.alloc(), file, depth, fuel, wanted),
            true,
        );
    }
}
