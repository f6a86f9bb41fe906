// The codes of the readers of theories and programs (20 to 26), and `TheoryFault`.
ghost use Rattle.std.specs.Prelude.{◌≡◌, true, false, MatchResult};
ghost use Rattle.golog_theory.specs.declared.fault.TheoryFault.TheVariants.{Refused, Memory};

use golog_base::NoMemory;
use golog_tree::Place;
use thiserror::Error;

/// A form has not a shape of the grammar for its place.
pub const UNKNOWN_FORM: u8 = 20;

/// A name is reserved or declared already, a word is repeated, or an item stands a second time.
pub const DUPLICATE: u8 = 21;

/// The name of a sort is not declared.
pub const UNKNOWN_SORT: u8 = 22;

/// A name is not declared as what its place needs.
pub const UNKNOWN_NAME: u8 = 23;

/// The number of arguments differs from the declared one.
pub const ARITY: u8 = 24;

/// A limit on a number of things is passed.
pub const COUNT: u8 = 25;

/// A number is no `i32`, or the least number of a sort is above its greatest.
pub const NUMBER_RANGE: u8 = 26;

/// Why a form was not read as a theory, a condition or a program.
#[derive(Debug, Drop, Error)]
pub enum TheoryFault {
    /// The form is refused, with the code, 20 to 27, and its place.
    #[error("refused {code} at {at}")]
    Refused { code: u8, at: Place },
    /// Memory ran out.
    #[error("memory ran out")]
    Memory,
}

impl From<NoMemory> for TheoryFault {
    ghost from_gives = { λ _ e. e ≡ Memory };

    fn from(_error: NoMemory) -> TheoryFault {
        TheoryFault::Memory
    }
}

/// Refuses with the code at the place where a row fits.
pub fn refuse_where(fits: bool, code: u8, at: Place) -> Result<(), TheoryFault>
    ensures { MatchResult result (λ _. fits ≡ false) (λ fault. (fits ≡ true) × (fault ≡ Refused code at)) }
{
    if fits {
        return Err(TheoryFault::Refused { code, at });
    }
    Ok(())
}

/// The refusal of a form that has not a shape of the grammar for its place.
pub fn unknown_form(at: Place) -> TheoryFault
    ensures { result ≡ Refused UNKNOWN_FORM at }
{
    TheoryFault::Refused {
        code: UNKNOWN_FORM,
        at,
    }
}

/// The refusal of a name that is not declared as what its place needs.
pub fn unknown_name(at: Place) -> TheoryFault
    ensures { result ≡ Refused UNKNOWN_NAME at }
{
    TheoryFault::Refused {
        code: UNKNOWN_NAME,
        at,
    }
}
