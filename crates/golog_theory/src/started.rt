// Ground fluents that have a start value of their own, by their constants as they are written.
ghost use Rattle.std.specs.Prelude.{◌≡◌, IfOk};
ghost use Rattle.golog_theory.specs.Started.{IsWritten, AreWritten, IsGroundOf};

use golog_base::NoMemory;
use golog_tree::DraftArg;
use std::alloc::Global;

/// A constant as it is written.
#[derive(PartialEq, Eq, PartialOrd, Ord, Drop)]
pub enum Constant {
    Name(Vec<u8>),
    Number(i32),
}

/// A fluent at constants as they are written.
#[derive(PartialEq, Eq, PartialOrd, Ord, Drop)]
pub struct Ground {
    fluent: u32,
    args: Vec<Constant>,
}

fn constant_of(alloc: Global, arg: &DraftArg) -> Result<Constant, NoMemory>
    ensures { IfOk result (λ constant. IsWritten constant arg.now) }
{
    match arg {
        DraftArg::Word { word, .. } => {
            let mut name = Vec::new(alloc);
            name.extend_from_slice(word.as_bytes())?;
            Ok(Constant::Name(name))
        }
        DraftArg::Number { number, .. } => Ok(Constant::Number(*number)),
    }
}

#[tactic(auto, using(crate::proofs::Starting::writing))]
fn constants_of(alloc: Global, args: &[DraftArg]) -> Result<Vec<Constant>, NoMemory>
    ensures { IfOk result (λ constants. AreWritten constants.items args.now) }
{
    let mut constants = Vec::new(alloc);
    for arg in args {
        constants.push(constant_of(alloc, arg)?)?;
    }
    Ok(constants)
}

impl Ground {
    /// The fluent at these constants.
    pub fn of(alloc: Global, fluent: u32, args: &[DraftArg]) -> Result<Ground, NoMemory>
        ensures { IfOk result (λ cell. IsGroundOf cell fluent args.now) }
    {
        let args = constants_of(alloc, args)?;
        Ok(Ground { fluent, args })
    }
}
