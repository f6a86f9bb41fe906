// The text of a ground action, and the ground action of a text.
ghost use Rattle.std.specs.Prelude.{◌≡◌, ◌<◌, position, nat_eq};
ghost use Rattle.std.specs.Cmp.Lexicographic.{pointwise};
ghost use Rattle.golog_tree.specs.Ground.{IsCountable, ground_count, action_args};
ghost use Rattle.golog_semantics.specs.Text.{action_text as spec_action_text};
ghost use Rattle.golog_semantics.specs.WellFormed.{WellFormed};
ghost use Rattle.golog_ground.specs.Texts.{IsTheOne, WritesAction};

use crate::ActionText;
use crate::args::{read_args, split_at_mark};
use crate::ground::ground_text;
use golog_tree::{ActionItem, Agent, action_no, action_of};

/// The text of a ground action, by its number: its name, and its arguments in brackets where it has some,
/// as `up` or `move(a,3)`, without spaces. Takes no memory.
pub fn action_text(agent: &Agent, action: u32) -> ActionText
    requires countable { IsCountable agent.now }
    requires number { action < ground_count agent.now (action_args agent.now) }
    ensures { result ≡ spec_action_text agent.now action }
{
    let ground = action_of(agent, action);
    let item = &agent.actions.as_slice()[ground.item as usize];
    let sorts = item.args.as_slice();
    let args = &ground.args[..ground.count as usize];
    ground_text(agent, &item.name, sorts, args)
}

// The place of the first action of this name.
fn place_of_action(actions: &[ActionItem], name: &[u8]) -> Option<usize>
    ensures { result ≡ position (λ item. pointwise nat_eq item.name name.now) actions.now }
{
    actions.iter().position(|item| item.name.as_bytes() == name)
}

/// The ground action, by its number, whose text the bytes are; `None` exactly where they are the text of
/// none. Takes no memory.
pub fn read_action(agent: &Agent, bytes: &[u8]) -> Option<u32>
    requires { WellFormed agent.now }
    ensures { IsTheOne result (WritesAction agent.now bytes.now) }
{
    let (name, rest) = split_at_mark(bytes);
    let Some(item) = place_of_action(agent.actions.as_slice(), name) else {
        return None;
    };
    let sorts = agent.actions.as_slice()[item].args.as_slice();
    let Some(args) = read_args(agent, sorts, rest) else {
        return None;
    };
    Some(action_no(agent, item as u32, args.as_slice()))
}
