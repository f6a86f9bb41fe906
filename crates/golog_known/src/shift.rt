// `+` and `-` of a value, which stop at a sort's ends.
ghost use Rattle.std.specs.Prelude.{◌≡◌, ◌+◌, ◌-◌, ◌≤◌, min};
ghost use Rattle.golog_semantics.specs.Truth.{value_shifted};

use crate::kleene::UNKNOWN;

/// A value of a sort of `size` constants, moved by a number of places and stopping at the sort's ends; of
/// an unknown value, unknown.
pub fn shifted(size: u32, value: u8, by: i32) -> u8
    requires { size ≤ 255 }
    ensures { result ≡ value_shifted size value by }
{
    if value == UNKNOWN {
        UNKNOWN
    } else if by < 0 {
        lowered(value, by.unsigned_abs())
    } else {
        raised(size, value, by as u32)
    }
}

/// The value some places down, which stops at 0.
fn lowered(value: u8, by: u32) -> u8
    ensures { result ≡ value - by }
{
    u32::from(value).saturating_sub(by) as u8
}

/// The value some places up, which stops at the last of `size`.
fn raised(size: u32, value: u8, by: u32) -> u8
    requires { size ≤ 255 }
    ensures { result ≡ min (value + by) (size - 1) }
{
    let last = size.saturating_sub(1);
    u32::from(value).saturating_add(by).min(last) as u8
}
