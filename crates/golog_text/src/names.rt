// Numbers, actions, devices and values of an agent, added to a line; the sort of a ground fluent
// and the device of a ground action.
ghost use Rattle.std.specs.Prelude.{◌≡◌, ◌<◌, ◌++◌, decimal, length, IsTrue, IfSome, OnOk};
ghost use Rattle.golog_tree.specs.Ground.{IsCountable, ground_count, action_args, fluent_args};
ghost use Rattle.golog_semantics.specs.Journal.{device_of as spec_device_of};
ghost use Rattle.golog_semantics.specs.Reports.{is_value};
ghost use Rattle.golog_semantics.specs.Text.{action_text as spec_action_text, device_text, value_text};
ghost use Rattle.golog_semantics.specs.Values.{fluent_sort as spec_fluent_sort};
ghost use Rattle.golog_semantics.specs.WellFormed.{WellFormed};
ghost use Rattle.golog_text.specs.Filled.{Takes};

use crate::line::Line;
use golog_base::NoMemory;
use golog_ground::{action_text, constant_text};
use golog_tree::{Agent, action_of, fluent_of};
use itoa::Buffer;

// Adds a number.
pub(crate) fn add_number(text: &mut Line, number: usize) -> Result<(), NoMemory>
    ensures added { OnOk result (text.new ≡ text.old ++ decimal number) }
    ensures room { Takes 40 result text.old text.new }
{
    let mut buffer = Buffer::new();
    text.extend(buffer.format(number).as_bytes())
}

// Adds a ground action.
pub(crate) fn add_action(text: &mut Line, agent: &Agent, action: u32) -> Result<(), NoMemory>
    requires countable { IsCountable agent.now }
    requires number { action < ground_count agent.now (action_args agent.now) }
    ensures added { OnOk result (text.new ≡ text.old ++ spec_action_text agent.now action) }
    ensures room { Takes 128 result text.old text.new }
{
    text.extend(action_text(agent, action).as_bytes())
}

// Adds the name of a device.
pub(crate) fn add_device(text: &mut Line, agent: &Agent, device: u32) -> Result<(), NoMemory>
    requires { device < length agent.now.devices }
    ensures added { OnOk result (text.new ≡ text.old ++ device_text agent.now device) }
    ensures room { Takes 31 result text.old text.new }
{
    text.extend(agent.devices.as_slice()[device as usize].as_bytes())
}

// Adds a value of a ground fluent.
pub(crate) fn add_value(
    text: &mut Line,
    agent: &Agent,
    fluent: u32,
    value: u8,
) -> Result<(), NoMemory>
    requires countable { IsCountable agent.now }
    requires value { IsTrue (is_value agent.now fluent value) }
    ensures added { OnOk result (text.new ≡ text.old ++ value_text agent.now fluent value) }
    ensures room { Takes 128 result text.old text.new }
{
    text.extend(constant_text(agent, fluent_sort(agent, fluent), value).as_bytes())
}

/// The sort of a ground fluent.
pub fn fluent_sort(agent: &Agent, fluent: u32) -> u32
    requires countable { IsCountable agent.now }
    requires number { fluent < ground_count agent.now (fluent_args agent.now) }
    ensures { result ≡ spec_fluent_sort agent.now fluent }
{
    let ground = fluent_of(agent, fluent);
    agent.fluents.as_slice()[ground.item as usize].sort
}

/// The device that carries a ground action out, if one does.
pub fn device_of(agent: &Agent, action: u32) -> Option<u32>
    requires formed { WellFormed agent.now }
    requires number { action < ground_count agent.now (action_args agent.now) }
    ensures device { result ≡ spec_device_of agent.now action }
    ensures declared { IfSome result (λ device. device < length agent.now.devices) }
{
    let ground = action_of(agent, action);
    agent.actions.as_slice()[ground.item as usize].device
}
