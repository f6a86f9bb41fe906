// Decimal numbers of 32 bits, read by the standard parser and compared with their own text, so that
// each has one.
ghost use Rattle.golog_ground.specs.Texts.{IsTheOne, WritesNumber};

use itoa::Buffer;

// The number that the bytes write: with a sign only below 0, and without leading zeros.
pub(crate) fn read_number(bytes: &[u8]) -> Option<i32>
    ensures { IsTheOne result (WritesNumber bytes.now) }
{
    let Ok(text) = str::from_utf8(bytes) else {
        return None;
    };
    let Ok(number) = text.parse::<i32>() else {
        return None;
    };
    let mut buffer = Buffer::new();
    if buffer.format(number).as_bytes() == bytes {
        Some(number)
    } else {
        None
    }
}
