//! Results of two calls that are both made before either is looked at.
ghost use Rattle.std.specs.Prelude.{◌≡◌, IfOk};
ghost use Rattle.golog_base.specs.Results.{both};

/// Both values, or the first error. Beside an error, what the other call gave is dropped.
pub fn both<A: Drop, B: Drop, E: Drop>(one: Result<A, E>, other: Result<B, E>) -> Result<(A, B), E>
    ensures exact { result ≡ both one other }
    // The same as a caller uses it that goes on with both.
    ensures parts { IfOk result (λ pair. (one ≡ Ok pair.0) × (other ≡ Ok pair.1)) }
{
    match one {
        Ok(one) => match other {
            Ok(other) => Ok((one, other)),
            Err(error) => {
                drop(one);
                Err(error)
            }
        },
        Err(error) => {
            drop(other);
            Err(error)
        }
    }
}
