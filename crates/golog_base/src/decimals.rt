// `add_decimal`: the digits of a number, added to a text.
ghost use Rattle.std.specs.Prelude.{◌≡◌, ◌++◌, OnOk, decimal};

use crate::{Bytes, NoMemory};
use itoa::Buffer;

/// Adds the digits of a number.
pub fn add_decimal(text: &mut Bytes, number: usize) -> Result<(), NoMemory>
    ensures { OnOk result (text.new ≡ text.old ++ decimal number) }
{
    let mut buffer = Buffer::new();
    text.extend(buffer.format(number).as_bytes())
}
