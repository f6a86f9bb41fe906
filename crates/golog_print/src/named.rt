// The names of an agent's things by their numbers, constants, numbers, and the stem of variables'
// names.
ghost use Rattle.std.specs.Prelude.{◌≡◌, ◌++◌, IfOk, OnOk, nat_eq};
ghost use Rattle.std.specs.Fmt.{signed_decimal};
ghost use Rattle.std.specs.List.{list_any, starts_with};
ghost use Rattle.golog_tree.specs.declared.agent.SortItem.{SortItem};
ghost use Rattle.golog_tree.specs.declared.agent.FluentItem.{FluentItem};
ghost use Rattle.golog_tree.specs.declared.agent.ActionItem.{ActionItem};
ghost use Rattle.golog_tree.specs.declared.agent.ProcItem.{ProcItem};
ghost use Rattle.golog_semantics.specs.BuiltIn.{declared_names, sort_names as spec_sort_names};
ghost use Rattle.golog_semantics.specs.Text.{constant_text};
ghost use Rattle.golog_print.specs.Printing.{stem_no, stem_text, sort_name as spec_sort_name, fluent_name as spec_fluent_name, action_name as spec_action_name, proc_name as spec_proc_name, fluent_sorts as spec_fluent_sorts, action_sorts as spec_action_sorts, proc_sorts as spec_proc_sorts};

use golog_base::{Bytes, NoMemory, Word, add_decimal};
use golog_tree::{ActionItem, Agent, FluentItem, ProcItem, SortItem};
use itoa::Buffer;
use std::alloc::Global;

/// How many stems are tried for the names of variables: more than an agent has names.
pub const STEMS: usize = 100_000;

/// The name of a sort.
pub fn sort_name(agent: &Agent, sort: u32) -> &[u8]
    ensures { result.now ≡ spec_sort_name agent.now sort }
{
    match agent.sorts.get(sort as usize) {
        Some(SortItem::Range { name, .. } | SortItem::Listed { name, .. }) => name.as_bytes(),
        None => &[],
    }
}

/// The name of a fluent.
pub fn fluent_name(agent: &Agent, fluent: u32) -> &[u8]
    ensures { result.now ≡ spec_fluent_name agent.now fluent }
{
    match agent.fluents.get(fluent as usize) {
        Some(item) => item.name.as_bytes(),
        None => &[],
    }
}

/// The name of an action.
pub fn action_name(agent: &Agent, action: u32) -> &[u8]
    ensures { result.now ≡ spec_action_name agent.now action }
{
    match agent.actions.get(action as usize) {
        Some(item) => item.name.as_bytes(),
        None => &[],
    }
}

/// The name of a procedure.
pub fn proc_name(agent: &Agent, item: u32) -> &[u8]
    ensures { result.now ≡ spec_proc_name agent.now item }
{
    match agent.procs.get(item as usize) {
        Some(proc) => proc.name.as_bytes(),
        None => &[],
    }
}

/// The sorts of a fluent's arguments.
pub fn fluent_sorts(agent: &Agent, fluent: u32) -> &[u32]
    ensures { result.now ≡ spec_fluent_sorts agent.now fluent }
{
    match agent.fluents.get(fluent as usize) {
        Some(item) => item.args.as_slice(),
        None => &[],
    }
}

/// The sorts of an action's arguments.
pub fn action_sorts(agent: &Agent, action: u32) -> &[u32]
    ensures { result.now ≡ spec_action_sorts agent.now action }
{
    match agent.actions.get(action as usize) {
        Some(item) => item.args.as_slice(),
        None => &[],
    }
}

/// The sorts of a procedure's parameters.
pub fn proc_sorts(agent: &Agent, item: u32) -> &[u32]
    ensures { result.now ≡ spec_proc_sorts agent.now item }
{
    match agent.procs.get(item as usize) {
        Some(proc) => proc.params.as_slice(),
        None => &[],
    }
}

/// Adds a whole number, with a sign only below 0.
pub fn add_number(text: &mut Bytes, number: i64) -> Result<(), NoMemory>
    ensures { OnOk result (text.new ≡ text.old ++ signed_decimal number) }
{
    let mut buffer = Buffer::new();
    text.extend(buffer.format(number).as_bytes())
}

/// Adds a constant of a sort, by its position.
pub fn add_constant(text: &mut Bytes, agent: &Agent, sort: u32, value: u8) -> Result<(), NoMemory>
    ensures { OnOk result (text.new ≡ text.old ++ constant_text agent.now sort value) }
{
    match agent.sorts.get(sort as usize) {
        Some(SortItem::Range { low, .. }) => add_number(text, i64::from(*low) + i64::from(value)),
        Some(SortItem::Listed { constants, .. }) => match constants.get(value as usize) {
            Some(name) => text.extend(name.as_bytes()),
            None => Ok(()),
        },
        None => Ok(()),
    }
}

// What the names of variables can begin with, by its number.
fn stem_text(alloc: Global, number: usize) -> Result<Bytes, NoMemory>
    ensures { IfOk result (λ text. text ≡ stem_text number) }
{
    let mut text = Bytes::new(alloc);
    text.push(b'v')?;
    add_decimal(&mut text, number)?;
    text.push(b'_')?;
    Ok(text)
}

// Whether one of the names begins with the stem.
fn one_begins(names: &[Word], stem: &[u8]) -> bool
    ensures { result ≡ list_any (λ name. starts_with nat_eq name stem.now) names.now }
{
    names.iter().any(|name| name.as_bytes().starts_with(stem))
}

// Whether the name of the sort, or of one of its constants, begins with the stem.
fn sort_begins(item: &SortItem, stem: &[u8]) -> bool
    ensures { result ≡ list_any (λ name. starts_with nat_eq name stem.now) (spec_sort_names item.now) }
{
    match item {
        SortItem::Range { name, .. } => name.as_bytes().starts_with(stem),
        SortItem::Listed { name, constants } => {
            name.as_bytes().starts_with(stem) || one_begins(constants.as_slice(), stem)
        }
    }
}

// Whether the name of a sort or of a constant begins with the stem.
fn constant_begins(items: &[SortItem], stem: &[u8]) -> bool
    ensures { result
        ≡ list_any (λ (item : SortItem). list_any (λ name. starts_with nat_eq name stem.now) (spec_sort_names item)) items.now }
{
    items.iter().any(|item| sort_begins(item, stem))
}

// Whether the name of a fluent begins with the stem.
fn fluent_begins(items: &[FluentItem], stem: &[u8]) -> bool
    ensures { result ≡ list_any (λ (item : FluentItem). starts_with nat_eq item.name stem.now) items.now }
{
    items
        .iter()
        .any(|item| item.name.as_bytes().starts_with(stem))
}

// Whether the name of an action begins with the stem.
fn action_begins(items: &[ActionItem], stem: &[u8]) -> bool
    ensures { result ≡ list_any (λ (item : ActionItem). starts_with nat_eq item.name stem.now) items.now }
{
    items
        .iter()
        .any(|item| item.name.as_bytes().starts_with(stem))
}

// Whether the name of a procedure begins with the stem.
fn proc_begins(items: &[ProcItem], stem: &[u8]) -> bool
    ensures { result ≡ list_any (λ (item : ProcItem). starts_with nat_eq item.name stem.now) items.now }
{
    items
        .iter()
        .any(|item| item.name.as_bytes().starts_with(stem))
}

// Whether a name that the agent declares begins with the stem.
#[tactic(auto, using(crate::proofs::Stems::laws))]
fn is_begun(agent: &Agent, stem: &[u8]) -> bool
    ensures { result ≡ list_any (λ name. starts_with nat_eq name stem.now) (declared_names agent.now) }
{
    if constant_begins(agent.sorts.as_slice(), stem) {
        return true;
    }
    if one_begins(agent.devices.as_slice(), stem) {
        return true;
    }
    if fluent_begins(agent.fluents.as_slice(), stem) {
        return true;
    }
    if action_begins(agent.actions.as_slice(), stem) {
        return true;
    }
    proc_begins(agent.procs.as_slice(), stem)
}

/// What the names of variables begin with, and no name that the agent declares.
#[tactic(auto, using(crate::proofs::Stems::stem_laws))]
pub fn stem_of(alloc: Global, agent: &Agent) -> Result<Bytes, NoMemory>
    ensures { IfOk result (λ text. text ≡ stem_text (stem_no agent.now)) }
{
    for number in 0..STEMS {
        let stem = stem_text(alloc, number)?;
        if !is_begun(agent, stem.as_slice()) {
            return Ok(stem);
        }
    }
    stem_text(alloc, 0)
}
