// An action that happened, by the sorts of its arguments and the arguments.
use golog_base::List;
use golog_tree::Arg;

/// An action that happened: the sorts of its arguments, and the arguments, which are constants.
#[derive(Drop)]
pub struct Happened {
    pub action: u32,
    pub sorts: List<u32>,
    pub args: List<Arg>,
}
