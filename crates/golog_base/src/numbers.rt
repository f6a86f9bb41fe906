//! The tests for numbers, with and without a sign, and what their digits spell, where it is small
//! enough.
ghost use Rattle.std.specs.Prelude.{◌≡◌, Some, None, nat_le, if◌then◌else◌};
ghost use Rattle.std.specs.List.{list_all};
ghost use Rattle.golog_base.specs.Names.{is_digit};
ghost use Rattle.golog_base.specs.Numbers.{are_digits, is_zero, is_positive, is_natural, has_sign, without_sign, is_number, amount, value};

fn all_digits(text: &[u8]) -> bool
    ensures { result ≡ list_all is_digit text.now }
{
    text.iter().all(|byte| byte.is_ascii_digit())
}

fn are_digits(text: &[u8]) -> bool
    ensures { result ≡ are_digits text.now }
{
    match text.split_first() {
        None => false,
        Some((first, others)) => first.is_ascii_digit() && all_digits(others),
    }
}

fn is_zero(text: &[u8]) -> bool
    ensures { result ≡ is_zero text.now }
{
    match text.split_first() {
        None => false,
        Some((first, others)) => *first == b'0' && others.is_empty(),
    }
}

fn is_positive(text: &[u8]) -> bool
    ensures { result ≡ is_positive text.now }
{
    match text.split_first() {
        None => false,
        Some((first, _others)) => are_digits(text) && *first != b'0',
    }
}

/// Whether a `-` stands first.
pub fn has_sign(text: &[u8]) -> bool
    ensures { result ≡ has_sign text.now }
{
    match text.split_first() {
        None => false,
        Some((first, _others)) => *first == b'-',
    }
}

fn without_sign(text: &[u8]) -> &[u8]
    ensures { result.now ≡ without_sign text.now }
{
    match text.split_first() {
        Some((b'-', digits)) => digits,
        _ => text,
    }
}

/// Whether the text is digits without a leading zero.
pub fn is_natural(text: &[u8]) -> bool
    ensures { result ≡ is_natural text.now }
{
    is_zero(text) || is_positive(text)
}

/// Whether the text is a number: `0`, or an optional `-` and digits of which the first is not `0`.
pub fn is_number(text: &[u8]) -> bool
    ensures { result ≡ is_number text.now }
{
    is_zero(text) || is_positive(without_sign(text))
}

/// The greatest amount of an `i32`, that of the least one.
const AMOUNT: u32 = 1 << 31;

/// The amount that digits spell, where it is at most so much.
pub fn amount_within(digits: &[u8], most: u32) -> Option<u32>
    ensures { result ≡ (if nat_le (amount digits.now) most then Some (amount digits.now) else None) }
{
    let mut amount: u32 = 0;
    for byte in digits {
        let next = 10 * u64::from(amount) + u64::from(byte.saturating_sub(b'0'));
        if next > u64::from(most) {
            return None;
        }
        amount = next as u32;
    }
    Some(amount)
}

/// The number that the text spells, where it is in `i32`.
pub fn value(text: &[u8]) -> Option<i32>
    ensures { result ≡ value text.now }
{
    let amount = i64::from(amount_within(without_sign(text), AMOUNT)?);
    let number = if has_sign(text) { -amount } else { amount };
    i32::try_from(number).ok()
}
