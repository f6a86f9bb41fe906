// `ScriptFault`, the refusals of a devices file, with their codes 40 to 44.
ghost use Rattle.std.specs.Prelude.{◌≡◌, true, false, MatchResult};
ghost use Rattle.golog_script.specs.declared.fault.ScriptFault.TheVariants.{Refused, Memory};

use golog_base::NoMemory;
use thiserror::Error;

/// The bytes are no JSON.
pub const NOT_JSON: u8 = 40;

/// The value is no array, or an element is no object with a string `name` and, where present, arrays of
/// strings `answers` and `idle`.
pub const SHAPE: u8 = 41;

/// There are more elements than an agent has devices.
pub const TOO_MANY: u8 = 42;

/// The name is no device of the agent.
pub const NO_DEVICE: u8 = 43;

/// An earlier element has the name.
pub const SAME_NAME: u8 = 44;

/// Why bytes were not read as scripts.
#[derive(Debug, Drop, Error)]
pub enum ScriptFault {
    /// The bytes are refused, with the code, 40 to 44, and the position of an element, counted from 0. The
    /// position is 0 where the whole is at fault, and 16 where there are too many elements.
    #[error("refused {code} at {at}")]
    Refused { code: u8, at: u32 },
    /// Memory ran out.
    #[error("memory ran out")]
    Memory,
}

impl From<NoMemory> for ScriptFault {
    ghost from_gives = { λ _ e. e ≡ Memory };

    fn from(_error: NoMemory) -> ScriptFault {
        ScriptFault::Memory
    }
}

/// Refuses with the code at the position where a row fits.
pub fn refuse_where(fits: bool, code: u8, at: u32) -> Result<(), ScriptFault>
    ensures { MatchResult result (λ _. fits ≡ false) (λ fault. (fits ≡ true) × (fault ≡ Refused code at)) }
{
    if fits {
        return Err(ScriptFault::Refused { code, at });
    }
    Ok(())
}

/// The refusal of a value that has not the shape for its place.
pub fn bad_shape(at: u32) -> ScriptFault
    ensures { result ≡ Refused SHAPE at }
{
    ScriptFault::Refused { code: SHAPE, at }
}
