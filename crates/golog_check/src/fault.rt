// The codes of refusals that are not for a program's shape alone (30, 31, 34 to 36), and
// `CheckFault`.
ghost use Rattle.std.specs.Prelude.{◌≡◌, true, false, MatchResult};
ghost use Rattle.golog_check.specs.declared.fault.CheckFault.TheVariants.{Refused, Memory};

use golog_base::NoMemory;
use golog_tree::Place;
use thiserror::Error;

/// A term is not of the sort that its place needs.
pub const SORT_CLASH: u8 = 30;

/// A word in the place of a term is neither a variable nor a constant.
pub const UNBOUND: u8 = 31;

/// The sum of ground fluents or of ground actions passes its limit.
pub const GROUND_TOO_MANY: u8 = 34;

/// A start value is not of its fluent's sort.
pub const BAD_START: u8 = 35;

/// An action senses a second time, or has no device, or is exogenous.
pub const SENSE_CLASH: u8 = 36;

/// Why a draft was not taken for an agent or a condition.
#[derive(Debug, Drop, Error)]
pub enum CheckFault {
    /// The draft is refused, with the code, 30 to 38, and its place.
    #[error("refused {code} at {at}")]
    Refused { code: u8, at: Place },
    /// Memory ran out.
    #[error("memory ran out")]
    Memory,
}

impl From<NoMemory> for CheckFault {
    ghost from_gives = { λ _ e. e ≡ Memory };

    fn from(_error: NoMemory) -> CheckFault {
        CheckFault::Memory
    }
}

/// Refuses with the code at the place where a row fits.
pub fn refuse_where(fits: bool, code: u8, at: Place) -> Result<(), CheckFault>
    ensures { MatchResult result (λ _. fits ≡ false) (λ fault. (fits ≡ true) × (fault ≡ Refused code at)) }
{
    if fits {
        return Err(CheckFault::Refused { code, at });
    }
    Ok(())
}
