// All or one of a list of checks.
ghost use Rattle.std.specs.Prelude.{◌≡◌};
ghost use Rattle.golog_flat.specs.Making.{joined as check_joined};

use crate::check::Check;
use golog_base::List;

/// All of these checks, or one of them.
pub fn joined(all: bool, parts: List<Check>) -> Check
    ensures { result ≡ check_joined all parts }
{
    if all {
        Check::Both(parts)
    } else {
        Check::Either(parts)
    }
}
