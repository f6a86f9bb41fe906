// The numbers that a line may have, by their digits.
ghost use Rattle.std.specs.Prelude.{◌≡◌, Some, IsTrue};
ghost use Rattle.golog_base.specs.Numbers.{amount};
ghost use Rattle.golog_reports.specs.Reads.{is_small};
ghost use Rattle.golog_reports.specs.Said.{if_so};

use golog_base::amount_within;

/// The greatest number that a line may have.
const GREATEST: u32 = 2_097_151;

// The number that digits spell, where a line may have it.
pub(crate) fn number_in(digits: &[u8]) -> Option<u32>
    ensures { result ≡ if_so (is_small digits.now) (Some (amount digits.now)) }
{
    amount_within(digits, GREATEST)
}

// The number that digits spell.
pub(crate) fn number_of(digits: &[u8]) -> u32
    requires { IsTrue (is_small digits.now) }
    ensures { result ≡ amount digits.now }
{
    match number_in(digits) {
        Some(number) => number,
        None => unreachable!(),
    }
}
