// What a line says of an agent's things, with their numbers in place of names.
ghost use Rattle.std.specs.Prelude.{◌≡◌, [], IfOk, IsTrue, drop, option_map, true};
ghost use Rattle.std.specs.Option.{option_map_or};
ghost use Rattle.golog_semantics.specs.WellFormed.{WellFormed};
ghost use Rattle.golog_reports.specs.Forms.{parts};
ghost use Rattle.golog_reports.specs.Reads.{has_small, is_small, is_agents_constant as spec_is_agents_constant, label_named, labels_named, run_named, do_named, exo_named, result_named, named, Told};
ghost use Rattle.golog_reports.specs.Said.{SaysRest, SaysClose};
ghost use Rattle.golog_reports.specs.Views.{lent, body_of, named_of};

use crate::forms::cut;
use crate::lookups::{device_named, is_agents_constant, is_sent_to, own_action, posted_action};
use crate::numbers::number_of;
use crate::said::Body;
use golog_base::{List, NoMemory};
use golog_semantics::{Entry, Reason};
use golog_tree::{Agent, Label};
use std::alloc::Global;

// An entry and the run that it begins, or a result whose command and values are still words.
#[derive(Drop)]
pub(crate) enum Named<'t> {
    Told {
        entry: Entry,
        run: Option<List<Label>>,
    },
    Result {
        device: u8,
        place: u32,
        value: &'t [u8],
        old: Option<&'t [u8]>,
    },
}

// The label of this text.
#[tactic(auto, unfolding(crate::specs::Reads::label_named))]
fn label_named(agent: &Agent, text: &[u8]) -> Option<Label>
    requires { WellFormed agent.now }
    ensures { result ≡ label_named agent.now text.now }
{
    if text == b"-".as_slice() {
        return Some(Label::Quiet);
    }
    let action = own_action(agent, text)?;
    Some(Label::Do(action))
}

// The label of this step, which is a space and a label.
fn step_named(agent: &Agent, step: &[u8]) -> Option<Label>
    requires { WellFormed agent.now }
    ensures { result ≡ label_named agent.now (drop 1 step.now) }
{
    match step.split_first() {
        Some((_space, label)) => label_named(agent, label),
        None => label_named(agent, step),
    }
}

// The labels of these steps.
fn labels_named(alloc: Global, agent: &Agent, run: &[u8]) -> Result<Option<List<Label>>, NoMemory>
    requires { WellFormed agent.now }
    ensures { IfOk result (λ labels. labels ≡ labels_named agent.now [] (parts 59 run.now)) }
{
    let mut labels = List::new(alloc);
    let (mut step, mut behind) = cut(run, b';');
    while let Some(rest) = behind {
        let Some(label) = step_named(agent, step) else {
            return Ok(None);
        };
        labels.push(label)?;
        let (next, others) = cut(rest, b';');
        step = next;
        behind = others;
    }
    let Some(label) = step_named(agent, step) else {
        return Ok(None);
    };
    labels.push(label)?;
    Ok(Some(labels))
}

// The entry of a step, with the labels of the run, if there is one.
#[tactic(auto, unfolding(crate::specs::Reads::run_named))]
fn step_told<'t>(
    alloc: Global,
    agent: &Agent,
    entry: Entry,
    run: Option<&[u8]>,
) -> Result<Option<Named<'t>>, NoMemory>
    requires { WellFormed agent.now }
    ensures { IfOk result (λ told. option_map named_of told ≡ option_map (Told entry) (run_named agent.now (lent run.entry))) }
{
    let Some(run) = run else {
        return Ok(Some(Named::Told { entry, run: None }));
    };
    match labels_named(alloc, agent, run)? {
        Some(labels) => Ok(Some(Named::Told {
            entry,
            run: Some(labels),
        })),
        None => Ok(None),
    }
}

#[tactic(auto, unfolding(crate::specs::Reads::do_named))]
fn do_named<'t>(
    alloc: Global,
    agent: &Agent,
    text: &[u8],
    device: Option<&[u8]>,
    run: Option<&[u8]>,
) -> Result<Option<Named<'t>>, NoMemory>
    requires { WellFormed agent.now }
    ensures { IfOk result (λ told. option_map named_of told ≡ do_named agent.now text.now (lent device.entry) (lent run.entry)) }
{
    let Some(action) = own_action(agent, text) else {
        return Ok(None);
    };
    if !is_sent_to(agent, action, device) {
        return Ok(None);
    }
    step_told(alloc, agent, Entry::Do { action }, run)
}

#[tactic(auto, unfolding(crate::specs::Reads::exo_named))]
fn exo_named<'t>(agent: &Agent, name: &[u8], text: &[u8]) -> Option<Named<'t>>
    requires { WellFormed agent.now }
    ensures { option_map named_of result ≡ exo_named agent.now name.now text.now }
{
    let poster = device_named(agent, name)?;
    let action = posted_action(agent, text)?;
    Some(Named::Told {
        entry: Entry::Exo { poster, action },
        run: None,
    })
}

// Whether the text, if there is one, is a constant of some sort.
fn is_constant_or_none(agent: &Agent, text: Option<&[u8]>) -> bool
    requires { WellFormed agent.now }
    ensures { result ≡ option_map_or (spec_is_agents_constant agent.now) (lent text.entry) true }
{
    match text {
        Some(text) => is_agents_constant(agent, text),
        None => true,
    }
}

#[tactic(auto, unfolding(crate::specs::Reads::result_named))]
fn result_named<'t>(
    agent: &Agent,
    name: &[u8],
    place: &[u8],
    value: &'t [u8],
    old: Option<&'t [u8]>,
) -> Option<Named<'t>>
    requires formed { WellFormed agent.now }
    requires small { IsTrue (is_small place.now) }
    ensures { option_map named_of result ≡ result_named agent.now name.now place.now value.now (lent old.entry) }
{
    let device = device_named(agent, name)?;
    if !is_agents_constant(agent, value) {
        return None;
    }
    if !is_constant_or_none(agent, old) {
        return None;
    }
    Some(Named::Result {
        device,
        place: number_of(place),
        value,
        old,
    })
}

#[tactic(auto, unfolding(crate::specs::Reads::named))]
fn rest_named<'t>(agent: &Agent, name: &[u8], taken: &[u8]) -> Option<Named<'t>>
    requires formed { WellFormed agent.now }
    requires small { IsTrue (is_small taken.now) }
    ensures { option_map named_of result ≡ named agent.now (SaysRest name.now taken.now) }
{
    let poster = device_named(agent, name)?;
    let taken = number_of(taken);
    Some(Named::Told {
        entry: Entry::Rest { poster, taken },
        run: None,
    })
}

#[tactic(auto, unfolding(crate::specs::Reads::named))]
fn close_named<'t>(agent: &Agent, name: &[u8], reason: Reason, taken: &[u8]) -> Option<Named<'t>>
    requires formed { WellFormed agent.now }
    requires small { IsTrue (is_small taken.now) }
    ensures { option_map named_of result ≡ named agent.now (SaysClose name.now reason taken.now) }
{
    let poster = device_named(agent, name)?;
    let taken = number_of(taken);
    Some(Named::Told {
        entry: Entry::Close {
            poster,
            reason,
            taken,
        },
        run: None,
    })
}

// What a body says of the agent's things, `None` where one of them is not the agent's.
#[tactic(auto, unfolding(crate::specs::Reads::named))]
pub(crate) fn body_named<'t>(
    alloc: Global,
    agent: &Agent,
    body: Body<'t>,
) -> Result<Option<Named<'t>>, NoMemory>
    requires formed { WellFormed agent.now }
    requires small { IsTrue (has_small (body_of body)) }
    ensures { IfOk result (λ told. option_map named_of told ≡ named agent.now (body_of body.entry)) }
{
    match body {
        Body::Do {
            action,
            device,
            run,
        } => do_named(alloc, agent, action, device, run),
        Body::Test { run } => step_told(alloc, agent, Entry::Test, run),
        Body::Exo { device, action } => Ok(exo_named(agent, device, action)),
        Body::Sense {
            device,
            place,
            value,
            old,
        } => Ok(result_named(agent, device, place, value, old)),
        Body::Rest { device, taken } => Ok(rest_named(agent, device, taken)),
        Body::Close {
            device,
            reason,
            taken,
        } => Ok(close_named(agent, device, reason, taken)),
        Body::End { answer } => Ok(Some(Named::Told {
            entry: Entry::End { answer },
            run: None,
        })),
    }
}
