// The text of a constant of a sort, and the constant of a text; the place of a name among names.
ghost use Rattle.std.specs.Prelude.{◌≡◌, ℕ, pos, ◌<◌, ◌≤◌, ◌+◌, ◌+ℤ◌, ◌++◌, length, position, bytes_eq};
ghost use Rattle.std.specs.Fmt.{signed_decimal};
ghost use Rattle.golog_tree.specs.Ground.{item_size, sort_size};
ghost use Rattle.golog_semantics.specs.Text.{constant_in, constant_text as spec_constant_text};
ghost use Rattle.golog_semantics.specs.ReportLaws.{AreDistinctNames};
ghost use Rattle.golog_semantics.specs.WellFormed.{WellFormed};
ghost use Rattle.golog_ground.specs.Texts.{IsTheOne, AreUnmarked, IsUnmarked, WritesConstant, WritesConstantOf, WritesInRange, HasOwnNames, size_of_range};

use crate::ActionText;
use crate::number::read_number;
use golog_base::Word;
use golog_tree::{Agent, SortItem};
use itoa::Buffer;

// Writes a constant of an item, by its position, behind what is written.
fn push_in(text: &mut ActionText, item: &SortItem, value: u8)
    requires within { value < item_size item.now }
    requires room { length text.old + 31 ≤ 128 }
    ensures written { text.new ≡ text.old ++ constant_in item.now value }
    ensures short { length text.new ≤ length text.old + 31 }
{
    match item {
        SortItem::Range { low, .. } => {
            let mut buffer = Buffer::new();
            let number = i64::from(*low) + i64::from(value);
            text.push_all(buffer.format(number).as_bytes());
        }
        SortItem::Listed { constants, .. } => {
            text.push_all(constants.as_slice()[value as usize].as_bytes());
        }
    }
}

// Writes a constant of a sort, by its position, behind what is written.
pub(crate) fn push_constant(text: &mut ActionText, agent: &Agent, sort: u32, value: u8)
    requires within { value < sort_size agent.now sort }
    requires room { length text.old + 31 ≤ 128 }
    ensures written { text.new ≡ text.old ++ spec_constant_text agent.now sort value }
    ensures short { length text.new ≤ length text.old + 31 }
{
    push_in(text, &agent.sorts.as_slice()[sort as usize], value)
}

/// The text of a constant of a sort, by its position: a name, or a whole number with a sign only below 0.
/// Takes no memory.
pub fn constant_text(agent: &Agent, sort: u32, value: u8) -> ActionText
    requires within { value < sort_size agent.now sort }
    ensures { result ≡ spec_constant_text agent.now sort value }
{
    let mut text = ActionText::new();
    push_constant(&mut text, agent, sort, value);
    text
}

/// The first place at which a name of these bytes stands; `None` exactly where none does.
pub fn place_of_name(names: &[Word], bytes: &[u8]) -> Option<usize>
    ensures { result ≡ position (λ name. bytes_eq name bytes.now) names.now }
{
    names.iter().position(|name| name.as_bytes() == bytes)
}

// The position of the number that the bytes write, in the sort of those from `low` to `high`.
fn read_in_range(low: i32, high: i32, bytes: &[u8]) -> Option<u8>
    requires few { size_of_range low high ≤ 255 }
    ensures the_one { IsTheOne result (WritesInRange low high bytes.now) }
    ensures unmarked { (v : ℕ) → v < size_of_range low high → IsUnmarked (signed_decimal (low +ℤ pos v)) }
{
    let Some(number) = read_number(bytes) else {
        return None;
    };
    if number < low || high < number {
        return None;
    }
    Some((i64::from(number) - i64::from(low)) as u8)
}

// The position in its sort of the constant whose text the bytes are.
fn read_in(item: &SortItem, bytes: &[u8]) -> Option<u8>
    requires few { item_size item.now ≤ 255 }
    requires apart { HasOwnNames item.now }
    ensures the_one { IsTheOne result (WritesConstantOf item.now bytes.now) }
    ensures unmarked { (v : ℕ) → v < item_size item.now → IsUnmarked (constant_in item.now v) }
{
    match item {
        SortItem::Range { low, high, .. } => read_in_range(*low, *high, bytes),
        SortItem::Listed { constants, .. } => match place_of_name(constants.as_slice(), bytes) {
            Some(place) => Some(place as u8),
            None => None,
        },
    }
}

/// The constant of a sort, by its position, whose text the bytes are; `None` exactly where they are the text
/// of none, or there is no such sort. A constant's text has no brackets and no commas. Takes no memory.
pub fn read_constant(agent: &Agent, sort: u32, bytes: &[u8]) -> Option<u8>
    requires { WellFormed agent.now }
    ensures the_one { IsTheOne result (WritesConstant agent.now sort bytes.now) }
    ensures unmarked { AreUnmarked agent.now sort }
{
    match agent.sorts.as_slice().get(sort as usize) {
        Some(item) => read_in(item, bytes),
        None => None,
    }
}
