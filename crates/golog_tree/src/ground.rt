// The numbers of ground fluents and ground actions, both ways, and how many constants (`item_size`)
// and lists of arguments (`args_count`) there are.
ghost use Rattle.std.specs.Prelude.{◌≡◌, ◌<◌, ◌≤◌, ◌-◌, ◌^◌, ◌++◌, All, length, map, replicate, slice_get, Some};
ghost use Rattle.golog_tree.specs.Ground.{IsCountable, AreWithin, item_size as spec_item_size, sort_size as spec_sort_size, product, sizes, place_of as spec_place_of, fluent_args, action_args, args_at, args_of, number_of as spec_number_of, fluent_no as spec_fluent_no, action_no as spec_action_no, ground_fluents, ground_actions, ground_count, firsts_of};
ghost use Rattle.golog_tree.specs.Numbered.{IsGround};

use crate::agent::{ActionItem, Agent, FluentItem, SortItem};

/// The most arguments of an item.
pub const MOST_ARGS: usize = 3;

/// A ground fluent or a ground action: the number of its item, and its arguments, each a constant by
/// its position in its sort. The first `count` of `args` are the arguments, and the others are 0.
#[derive(Clone, Copy, Debug, PartialEq, Eq)]
pub struct Ground {
    pub item: u32,
    pub count: u8,
    pub args: [u8; 3],
}

/// What is declared with the sorts of its arguments.
pub trait HasArgs {
    ghost use Rattle.std.specs.Prelude.{ℕ, List};

    ghost arg_sorts: { Self → List ℕ };

    /// The sorts of its arguments, by their numbers.
    fn arg_sorts(&self) -> &[u32]
        ensures { result.now ≡ arg_sorts self.now };
}

impl HasArgs for FluentItem {
    ghost arg_sorts = { λ item. item.args };

    fn arg_sorts(&self) -> &[u32] {
        self.args.as_slice()
    }
}

impl HasArgs for ActionItem {
    ghost arg_sorts = { λ item. item.args };

    fn arg_sorts(&self) -> &[u32] {
        self.args.as_slice()
    }
}

/// How many constants a sort has.
pub fn item_size(item: &SortItem) -> u32
    requires { spec_item_size item.now ≤ 255 }
    ensures { result ≡ spec_item_size item.now }
{
    match item {
        SortItem::Range { low, high, .. } => {
            let size = i64::from(*high) - i64::from(*low) + 1;
            if size < 0 { 0 } else { size as u32 }
        }
        SortItem::Listed { constants, .. } => constants.len() as u32,
    }
}

/// How many constants the sort of this number has, at most 255; 0 where there is no such sort.
pub fn sort_size(agent: &Agent, sort: u32) -> u32
    requires { IsCountable agent.now }
    ensures size { result ≡ spec_sort_size agent.now sort }
    ensures small { result ≤ 255 }
{
    match agent.firsts.sizes.as_slice().get(sort as usize) {
        Some(size) => *size,
        None => 0,
    }
}

/// How many lists of arguments of these sorts there are.
pub fn args_count(agent: &Agent, sorts: &[u32]) -> u32
    requires countable { IsCountable agent.now }
    requires few { length sorts.now ≤ 3 }
    ensures { result ≡ product (sizes agent.now sorts.now) }
{
    match sorts.split_first() {
        None => 1,
        Some((sort, others)) => sort_size(agent, *sort) * args_count(agent, others),
    }
}

/// How many ground actions there are, those of built-in items among them.
pub fn action_count(agent: &Agent) -> u32
    requires { IsCountable agent.now }
    ensures { result ≡ ground_count agent.now (action_args agent.now) }
{
    let mut count = 0;
    for item in agent.actions.as_slice() {
        count += args_count(agent, item.args.as_slice());
    }
    count
}

/// The place of arguments among all of these sorts, the last varying fastest: one pass over them, in which the place so
/// far is told among the places of one more argument (Horner's method).
fn place_of(agent: &Agent, sorts: &[u32], args: &[u8]) -> u32
    requires countable { IsCountable agent.now }
    requires few { length sorts.now ≤ 3 }
    requires fits { AreWithin (sizes agent.now sorts.now) args.now }
    ensures { result ≡ spec_place_of (sizes agent.now sorts.now) args.now }
{
    let mut place = 0;
    for (index, sort) in sorts.iter().enumerate() {
        place = place * sort_size(agent, *sort) + u32::from(args[index]);
    }
    place
}

/// The number of the ground thing of an item, where those of the items before it come first.
fn number_of<T: HasArgs>(
    agent: &Agent,
    firsts: &[u32],
    items: &[T],
    item: usize,
    args: &[u8],
) -> u32
    requires countable { IsCountable agent.now }
    requires few { All (λ sorts. length sorts ≤ 3) (map T.arg_sorts items.now) }
    requires numbered { ground_count agent.now (map T.arg_sorts items.now) ≤ 65536 }
    requires firsts { firsts.now ≡ firsts_of agent.now (map T.arg_sorts items.now) }
    requires item { item < length items.now }
    requires fits { AreWithin (sizes agent.now (args_at (map T.arg_sorts items.now) item)) args.now }
    ensures { result ≡ spec_number_of agent.now (map T.arg_sorts items.now) item args.now }
{
    firsts[item] + place_of(agent, items[item].arg_sorts(), args)
}

/// The arguments at a place among all of these sorts, and zeros behind them.
fn args_at_place(agent: &Agent, sorts: &[u32], place: u32) -> [u8; 3]
    requires countable { IsCountable agent.now }
    requires few { length sorts.now ≤ 3 }
    requires within { place < product (sizes agent.now sorts.now) }
    ensures { result ≡ args_of (sizes agent.now sorts.now) place ++ replicate (3 - length sorts.now) 0 }
{
    let mut args = [0; MOST_ARGS];
    for (index, sort) in sorts.iter().enumerate() {
        let later = args_count(agent, &sorts[index + 1..]);
        args[index] = (place / later % sort_size(agent, *sort)) as u8;
    }
    args
}

/// The ground thing of a number.
fn ground_of<T: HasArgs>(agent: &Agent, items: &[T], number: u32) -> Ground
    requires countable { IsCountable agent.now }
    requires few { All (λ sorts. length sorts ≤ 3) (map T.arg_sorts items.now) }
    requires small { length items.now < 2 ^ 32 }
    requires number { number < ground_count agent.now (map T.arg_sorts items.now) }
    ensures { IsGround agent.now (map T.arg_sorts items.now) number result }
{
    let mut place = number;
    for (item, declared) in items.iter().enumerate() {
        let sorts = declared.arg_sorts();
        let count = args_count(agent, sorts);
        if place < count {
            return Ground {
                item: item as u32,
                count: sorts.len() as u8,
                args: args_at_place(agent, sorts, place),
            };
        }
        place -= count;
    }
    unreachable!()
}

/// The number of a ground fluent, from 0: those of the fluents before it come first, and the last
/// argument varies fastest. The arguments are constants of the declared sorts.
pub fn fluent_no(agent: &Agent, fluent: u32, args: &[u8]) -> u32
    requires countable { IsCountable agent.now }
    requires fluent { fluent < length agent.now.fluents }
    requires fits { AreWithin (sizes agent.now (args_at (fluent_args agent.now) fluent)) args.now }
    ensures number { result ≡ spec_fluent_no agent.now fluent args.now }
    ensures named { slice_get (ground_fluents agent.now) result ≡ Some (fluent, args.now) }
    ensures among { result < ground_count agent.now (fluent_args agent.now) }
{
    number_of(
        agent,
        agent.firsts.fluents.as_slice(),
        agent.fluents.as_slice(),
        fluent as usize,
        args,
    )
}

/// The number of a ground action, from 0: those of the actions before it come first, and the last
/// argument varies fastest. The arguments are constants of the declared sorts.
pub fn action_no(agent: &Agent, action: u32, args: &[u8]) -> u32
    requires countable { IsCountable agent.now }
    requires action { action < length agent.now.actions }
    requires fits { AreWithin (sizes agent.now (args_at (action_args agent.now) action)) args.now }
    ensures number { result ≡ spec_action_no agent.now action args.now }
    ensures named { slice_get (ground_actions agent.now) result ≡ Some (action, args.now) }
    ensures among { result < ground_count agent.now (action_args agent.now) }
{
    number_of(
        agent,
        agent.firsts.actions.as_slice(),
        agent.actions.as_slice(),
        action as usize,
        args,
    )
}

/// The ground fluent of a number: the one whose number `fluent_no` gives.
pub fn fluent_of(agent: &Agent, number: u32) -> Ground
    requires countable { IsCountable agent.now }
    requires number { number < ground_count agent.now (fluent_args agent.now) }
    ensures { IsGround agent.now (fluent_args agent.now) number result }
{
    ground_of(agent, agent.fluents.as_slice(), number)
}

/// The ground action of a number: the one whose number `action_no` gives.
pub fn action_of(agent: &Agent, number: u32) -> Ground
    requires countable { IsCountable agent.now }
    requires number { number < ground_count agent.now (action_args agent.now) }
    ensures { IsGround agent.now (action_args agent.now) number result }
{
    ground_of(agent, agent.actions.as_slice(), number)
}
