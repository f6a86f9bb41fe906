// The text of a ground thing: a name, with its arguments in brackets where it has some.
ghost use Rattle.std.specs.Prelude.{◌≡◌, ◌≤◌, ◌++◌, length};
ghost use Rattle.golog_tree.specs.Ground.{AreWithin, sizes};
ghost use Rattle.golog_semantics.specs.Text.{args_text};

use crate::ActionText;
use crate::args::push_enclosed;
use golog_base::Word;
use golog_tree::Agent;

// The text of a ground thing: its name, and its arguments in brackets where it has some.
pub(crate) fn ground_text(agent: &Agent, name: &Word, sorts: &[u32], args: &[u8]) -> ActionText
    requires few { length sorts.now ≤ 3 }
    requires fits { AreWithin (sizes agent.now sorts.now) args.now }
    ensures { result ≡ name.now ++ args_text agent.now sorts.now args.now }
{
    let mut text = ActionText::new();
    text.push_all(name.as_bytes());
    if !sorts.is_empty() {
        push_enclosed(&mut text, agent, b'(', sorts, args);
    }
    text
}
