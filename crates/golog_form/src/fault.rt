// `FormFault`: why bytes were not read as a form.
ghost use Rattle.std.specs.Prelude.{◌≡◌};
ghost use Rattle.golog_form.specs.declared.fault.FormFault.TheVariants.{Memory};

use golog_base::NoMemory;
use thiserror::Error;

/// Why bytes were not read as a form.
#[derive(Debug, Drop, Error)]
pub enum FormFault {
    /// The bytes spell no form, with the code, 1 to 6, and its place in bytes from 0:
    ///
    /// - 1, the input ends within a list: its length;
    /// - 2, a `)` closes nothing, or a form begins after the first: that byte;
    /// - 3, a byte outside comments has no class: that byte;
    /// - 4, a `(` opens the 129th level: that byte;
    /// - 5, there are more than 1,048,576 bytes: 1,048,576;
    /// - 6, there is no form: the length.
    #[error("refused {why} at {at}")]
    Refused { why: u8, at: u32 },
    /// Memory ran out.
    #[error("memory ran out")]
    Memory,
}

impl From<NoMemory> for FormFault {
    ghost from_gives = { λ _ e. e ≡ Memory };

    fn from(_error: NoMemory) -> FormFault {
        FormFault::Memory
    }
}
