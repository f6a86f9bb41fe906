// Tests of `value` and `term`, of conditions that `read_condition` reads and of their sides, and of
// `Env::with`; one agent has all tables.
ghost use Rattle.std.specs.Prelude.{◌≡◌, IsTrue, length};
ghost use Rattle.golog_tree.specs.Ground.{IsCountable, ground_fluents};
ghost use Rattle.golog_semantics.specs.Fits.{cond_fits, nothing_bound};
ghost use Rattle.golog_semantics.specs.WellFormed.{WellFormed};
ghost use Rattle.golog_known.specs.Fits.{CondFitsAt};
ghost use Rattle.golog_file.specs.Conditions.{CondsStayKept};

use crate::agents::LAMPS;
use crate::asserting::same;
use golog_base::NoMemory;
use golog_file::{Understood, read_condition, read_theory_and_agent};
use golog_known::{Env, UNKNOWN, term, value};
use golog_progress::start;
use golog_tree::{Agent, Arg, Cond, Truth};
use std::alloc::Global;

/// The truth of a condition, and the values of both sides where it is an equation.
type Told = (Truth, Option<[u8; 2]>);

/// The values of both sides of an equation.
fn sides(agent: &Agent, cond: &Cond, env: &Env, values: &[u8]) -> Option<[u8; 2]>
    requires countable { IsCountable agent.now }
    requires fits { CondFitsAt agent.now cond.now env.now }
    requires whole { length values.now ≡ length (ground_fluents agent.now) }
{
    match cond {
        Cond::Equal { one, other, .. } => Some([
            term(agent, one, env, values),
            term(agent, other, env, values),
        ]),
        _ => None,
    }
}

/// What is told of a condition where the agent starts.
#[tactic(auto, using(crate::proofs::Evaluated::evaluated))]
fn told_at_start(alloc: Global, agent: &Agent, cond: &Cond) -> Option<Told>
    requires formed { WellFormed agent.now }
    requires fits { IsTrue (cond_fits agent.now cond.now nothing_bound) }
{
    match start(alloc, agent) {
        Ok(state) => {
            let (env, values) = (Env::new(), state.values());
            let truth = value(agent, cond, &env, values);
            Some((truth, sides(agent, cond, &env, values)))
        }
        Err(NoMemory) => None,
    }
}

/// That of the condition that a text spells, if it spells one.
fn told_of_text(alloc: Global, understood: &Understood, text: &[u8]) -> Option<Told>
    requires formed { WellFormed understood.now.agent }
    requires kept { CondsStayKept understood.now.theory understood.now.agent }
{
    let read = read_condition(alloc, &understood.theory, &understood.agent, text);
    let answer = match &read {
        Ok(cond) => told_at_start(alloc, &understood.agent, cond),
        Err(_fault) => None,
    };
    drop(read);
    answer
}

/// The same over the agent that a file spells.
fn told_of(alloc: Global, file: &[u8], text: &[u8]) -> Option<Told> {
    let read = read_theory_and_agent(alloc, file);
    let answer = match &read {
        Ok(understood) => told_of_text(alloc, understood, text),
        Err(_fault) => None,
    };
    drop(read);
    answer
}

/// The truth alone.
fn truth_of(alloc: Global, file: &[u8], text: &[u8]) -> Option<Truth> {
    let (truth, _sides) = told_of(alloc, file, text)?;
    Some(truth)
}

#[test]
fn conditions_that_were_read_have_their_truths(rt: HostRuntime) {
    let conditions: [(&[u8], Option<Truth>); 4] = [
        (b"(and (lit 1) (not (= (sign) blue)))", Some(Truth::Yes)),
        (b"(and (lit 2) (not (= (sign) blue)))", Some(Truth::No)),
        (b"(and (lit 3) (not (= (sign) blue)))", Some(Truth::Unknown)),
        (b"(= (sign) 1)", None),
    ];
    for (text, truth) in conditions {
        same(&rt, text, truth_of(rt.alloc(), LAMPS, text), truth);
    }
}

/// Doors that are open, shut or hidden, things on each of four levels and one that may be on any, and rows of lamps
/// of which all or some are lit, dark or unseen.
const HOUSE: &[u8] = b"(agent
    (sort level 0 3)
    (fluent open () bool true) (fluent shut () bool false) (fluent hidden () bool)
    (fluent cellar () level 0) (fluent hall () level 1) (fluent study () level 2) (fluent attic () level 3)
    (fluent cat () level)
    (fluent lit (level) bool true) (fluent dark (level) bool false) (fluent unseen (level) bool)
    (fluent one_lit (level) bool false) (start (one_lit 3) true)
    (fluent one_unseen (level) bool false) (start (one_unseen 3) unknown)
    (fluent others_lit (level) bool true) (start (others_lit 3) unknown)
    (main nil))";

#[test]
fn parts_are_joined_by_the_kleene_tables(rt: HostRuntime) {
    let conditions: [(&[u8], Truth); 21] = [
        (b"(not (open))", Truth::No),
        (b"(not (shut))", Truth::Yes),
        (b"(not (hidden))", Truth::Unknown),
        (b"(and (open) (open))", Truth::Yes),
        (b"(and (open) (shut))", Truth::No),
        (b"(and (open) (hidden))", Truth::Unknown),
        (b"(and (shut) (open))", Truth::No),
        (b"(and (shut) (shut))", Truth::No),
        (b"(and (shut) (hidden))", Truth::No),
        (b"(and (hidden) (open))", Truth::Unknown),
        (b"(and (hidden) (shut))", Truth::No),
        (b"(and (hidden) (hidden))", Truth::Unknown),
        (b"(or (open) (open))", Truth::Yes),
        (b"(or (open) (shut))", Truth::Yes),
        (b"(or (open) (hidden))", Truth::Yes),
        (b"(or (shut) (open))", Truth::Yes),
        (b"(or (shut) (shut))", Truth::No),
        (b"(or (shut) (hidden))", Truth::Unknown),
        (b"(or (hidden) (open))", Truth::Yes),
        (b"(or (hidden) (shut))", Truth::Unknown),
        (b"(or (hidden) (hidden))", Truth::Unknown),
    ];
    for (text, truth) in conditions {
        same(&rt, text, truth_of(rt.alloc(), HOUSE, text), Some(truth));
    }
}

// Two levels up and two down, and then whether each is below level 1, at most on it, and on it.
#[test]
fn levels_stop_at_their_ends_and_are_compared(rt: HostRuntime) {
    let conditions: [(&[u8], Truth); 22] = [
        (b"(= (+ (cellar) 2) 2)", Truth::Yes),
        (b"(= (- (cellar) 2) 0)", Truth::Yes),
        (b"(= (+ (hall) 2) 3)", Truth::Yes),
        (b"(= (- (hall) 2) 0)", Truth::Yes),
        (b"(= (+ (study) 2) 3)", Truth::Yes),
        (b"(= (- (study) 2) 0)", Truth::Yes),
        (b"(= (+ (attic) 2) 3)", Truth::Yes),
        (b"(= (- (attic) 2) 1)", Truth::Yes),
        (b"(= (+ (cat) 2) 3)", Truth::Unknown),
        (b"(= (- (cat) 2) 0)", Truth::Unknown),
        (b"(< (cellar) 1)", Truth::Yes),
        (b"(<= (cellar) 1)", Truth::Yes),
        (b"(= (cellar) 1)", Truth::No),
        (b"(< (hall) 1)", Truth::No),
        (b"(<= (hall) 1)", Truth::Yes),
        (b"(= (hall) 1)", Truth::Yes),
        (b"(< (study) 1)", Truth::No),
        (b"(<= (study) 1)", Truth::No),
        (b"(= (study) 1)", Truth::No),
        (b"(< (cat) 1)", Truth::Unknown),
        (b"(<= (cat) 1)", Truth::Unknown),
        (b"(= (cat) 1)", Truth::Unknown),
    ];
    for (text, truth) in conditions {
        same(&rt, text, truth_of(rt.alloc(), HOUSE, text), Some(truth));
    }
}

#[test]
fn binders_go_over_all_constants(rt: HostRuntime) {
    let conditions: [(&[u8], Truth); 12] = [
        (b"(some (x level) (lit x))", Truth::Yes),
        (b"(all (x level) (lit x))", Truth::Yes),
        (b"(some (x level) (dark x))", Truth::No),
        (b"(all (x level) (dark x))", Truth::No),
        (b"(some (x level) (one_lit x))", Truth::Yes),
        (b"(all (x level) (one_lit x))", Truth::No),
        (b"(some (x level) (one_unseen x))", Truth::Unknown),
        (b"(all (x level) (one_unseen x))", Truth::No),
        (b"(some (x level) (others_lit x))", Truth::Yes),
        (b"(all (x level) (others_lit x))", Truth::Unknown),
        (b"(some (x level) (unseen x))", Truth::Unknown),
        (b"(all (x level) (unseen x))", Truth::Unknown),
    ];
    for (text, truth) in conditions {
        same(&rt, text, truth_of(rt.alloc(), HOUSE, text), Some(truth));
    }
}

// Constants, fluents, and numbers that are moved, up to the ends of their sort and from an unknown one.
#[test]
fn terms_have_values(rt: HostRuntime) {
    let equations: [(&[u8], Truth, Option<[u8; 2]>); 6] = [
        (b"(= (cellar) 3)", Truth::No, Some([0, 3])),
        (b"(= (attic) (hall))", Truth::No, Some([3, 1])),
        (b"(= (+ (study) 1) (+ (study) 2))", Truth::Yes, Some([3, 3])),
        (b"(= (- (hall) 1) (- (hall) 2))", Truth::Yes, Some([0, 0])),
        (b"(= (cat) 2)", Truth::Unknown, Some([UNKNOWN, 2])),
        (b"(open)", Truth::Yes, None),
    ];
    for (text, truth, sides) in equations {
        same(
            &rt,
            text,
            told_of(rt.alloc(), HOUSE, text),
            Some((truth, sides)),
        );
    }
}

// The values of the first variable, of the last, of one that was not set, of none, and of a constant.
#[test]
fn variables_are_set_one_by_one(rt: HostRuntime) {
    let env = Env::new().with(0, 7).with(31, 255);
    let later = env.with(0, 0);
    let ends = [Arg::Var(0), Arg::Var(31)];
    let others = [Arg::Var(1), Arg::Var(32), Arg::Const(9)];
    same(&rt, "set", env.arg_values(&ends), [7, 255, 0]);
    same(&rt, "not set", env.arg_values(&others), [0, 0, 9]);
    same(&rt, "set again", later.arg_values(&ends), [0, 255, 0]);
}
