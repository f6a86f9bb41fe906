// `tree_text`: the text of a plan. Each piece is added to what stands before it.
ghost use Rattle.std.specs.Prelude.{◌≡◌, ◌++◌, IfOk, IsTrue, OnOk, map};
ghost use Rattle.golog_tree.specs.Ground.{IsCountable};
ghost use Rattle.golog_semantics.specs.Reports.{fits_label};
ghost use Rattle.golog_semantics.specs.Text.{label_text};
ghost use Rattle.golog_semantics.specs.WellFormed.{WellFormed};
ghost use Rattle.golog_branch.specs.declared.tree.Branch.{Branch as AnyBranch};
ghost use Rattle.golog_branch.specs.Trees.{sensed_by_label};
ghost use Rattle.golog_branch.specs.TreeTexts.{are_told, branch_text, branch_told, case_text, is_sensed, is_told, is_unsensed as values_unsensed, next_text, sensed_text, tree_text as text_of};

use crate::cases::UNSENSED;
use crate::planner::Planner;
use crate::tree::{Branch, Tree};
use golog_base::{Bytes, NoMemory};
use golog_ground::{action_text, constant_text};
use golog_journal::AgentFacts;
use golog_text::fluent_sort;
use golog_tree::{Agent, Label};
use std::alloc::Global;

/// Adds what a step does: its action, or `-` for a test.
fn add_label(text: &mut Bytes, agent: &Agent, label: Label) -> Result<(), NoMemory>
    requires countable { IsCountable agent.now }
    requires label { IsTrue (fits_label agent.now label) }
    ensures { OnOk result (text.new ≡ text.old ++ label_text agent.now label) }
{
    match label {
        Label::Quiet => text.extend(b"-"),
        Label::Do(action) => text.extend(action_text(agent, action).as_bytes()),
    }
}

/// Adds the constant that a step senses.
fn add_sensed(text: &mut Bytes, planner: &Planner, label: Label, value: u8) -> Result<(), NoMemory>
    requires agent { WellFormed planner.now.agent.now }
    requires facts { planner.now.facts.now ≡ planner.now.agent.now }
    requires value { IsTrue (is_sensed planner.now.agent.now (sensed_by_label planner.now.agent.now label) value) }
    ensures { OnOk result (text.new
        ≡ text.old ++ sensed_text planner.now.agent.now (sensed_by_label planner.now.agent.now label) value) }
{
    let Some(fluent) = planner.sensed(label) else {
        return Ok(());
    };
    let sort = fluent_sort(planner.agent, fluent);
    text.extend(constant_text(planner.agent, sort, value).as_bytes())
}

/// Whether there is one branch alone, of a step that senses nothing.
fn is_unsensed(next: &[Branch]) -> bool
    ensures { result ≡ values_unsensed (map (λ (b : AnyBranch). b.value) next.now) }
{
    match next {
        [only] => only.value == UNSENSED,
        _ => false,
    }
}

/// Adds a plan.
#[cycle(telling)]
fn add_tree(text: &mut Bytes, planner: &Planner, tree: &Tree) -> Result<(), NoMemory>
    requires agent { WellFormed planner.now.agent.now }
    requires facts { planner.now.facts.now ≡ planner.now.agent.now }
    requires told { IsTrue (is_told planner.now.agent.now tree.now) }
    ensures { OnOk result (text.new ≡ text.old ++ text_of planner.now.agent.now tree.now) }
{
    match tree {
        Tree::Done => text.extend(b"."),
        Tree::Step { label, next, .. } => {
            add_label(text, planner.agent, *label)?;
            add_next(text, planner, *label, next.as_slice())
        }
    }
}

/// Adds what comes after a step.
#[cycle(telling)]
fn add_next(
    text: &mut Bytes,
    planner: &Planner,
    label: Label,
    next: &[Branch],
) -> Result<(), NoMemory>
    requires agent { WellFormed planner.now.agent.now }
    requires facts { planner.now.facts.now ≡ planner.now.agent.now }
    requires told { IsTrue (are_told planner.now.agent.now (sensed_by_label planner.now.agent.now label)
        (map (branch_told planner.now.agent.now) next.now)) }
    ensures { OnOk result (text.new ≡ text.old ++ next_text planner.now.agent.now
        (sensed_by_label planner.now.agent.now label) (map (branch_text planner.now.agent.now) next.now)) }
{
    let [first, others @ ..] = next else {
        return text.extend(b"{}");
    };
    if is_unsensed(next) {
        text.extend(b"; ")?;
        return add_tree(text, planner, first.tree.get());
    }
    text.push(b'{')?;
    add_case(text, planner, label, first)?;
    for other in others {
        text.extend(b" | ")?;
        add_case(text, planner, label, other)?;
    }
    text.push(b'}')
}

/// Adds what comes where a constant is sensed.
#[cycle(telling)]
fn add_case(
    text: &mut Bytes,
    planner: &Planner,
    label: Label,
    branch: &Branch,
) -> Result<(), NoMemory>
    requires agent { WellFormed planner.now.agent.now }
    requires facts { planner.now.facts.now ≡ planner.now.agent.now }
    requires value { IsTrue (is_sensed planner.now.agent.now
        (sensed_by_label planner.now.agent.now label) branch.now.value) }
    requires told { IsTrue (is_told planner.now.agent.now branch.now.tree) }
    ensures { OnOk result (text.new ≡ text.old ++ case_text planner.now.agent.now
        (sensed_by_label planner.now.agent.now label) (branch_text planner.now.agent.now branch.now)) }
{
    add_sensed(text, planner, label, branch.value)?;
    text.extend(b": ")?;
    add_tree(text, planner, branch.tree.get())
}

/// The text of a plan: each step by its action, or `-` for a test, and behind it `; ` and what comes then, or, where
/// a value is sensed, what comes with each in braces; `.` where it is done. So `look{false: knock; . | true: go; .}`.
///
/// `NoMemory` comes only for want of memory.
pub fn tree_text(
    alloc: Global,
    agent: &Agent,
    facts: &AgentFacts,
    tree: &Tree,
) -> Result<Bytes, NoMemory>
    requires agent { WellFormed agent.now }
    requires facts { facts.now ≡ agent.now }
    requires told { IsTrue (is_told agent.now tree.now) }
    ensures { IfOk result (λ text. text ≡ text_of agent.now tree.now) }
{
    let planner = Planner {
        alloc,
        agent,
        facts,
    };
    let mut text = Bytes::new(alloc);
    match add_tree(&mut text, &planner, tree) {
        Ok(()) => Ok(text),
        Err(fault) => {
            drop(text);
            Err(fault)
        }
    }
}
