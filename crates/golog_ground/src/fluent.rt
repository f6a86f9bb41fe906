// The text of a ground fluent.
ghost use Rattle.std.specs.Prelude.{◌≡◌, ◌<◌};
ghost use Rattle.golog_tree.specs.Ground.{IsCountable, ground_count, fluent_args};
ghost use Rattle.golog_semantics.specs.Text.{fluent_text as spec_fluent_text};

use crate::ActionText;
use crate::ground::ground_text;
use golog_tree::{Agent, fluent_of};

/// The text of a ground fluent, by its number: its name, and its arguments in brackets where it has some, as `light`
/// or `at(a,3)`, without spaces. Takes no memory.
pub fn fluent_text(agent: &Agent, fluent: u32) -> ActionText
    requires countable { IsCountable agent.now }
    requires number { fluent < ground_count agent.now (fluent_args agent.now) }
    ensures { result ≡ spec_fluent_text agent.now fluent }
{
    let ground = fluent_of(agent, fluent);
    let item = &agent.fluents.as_slice()[ground.item as usize];
    let sorts = item.args.as_slice();
    let args = &ground.args[..ground.count as usize];
    ground_text(agent, &item.name, sorts, args)
}
