// Whether programs and steps are equal, by the derived `==`.
ghost use Rattle.std.specs.Prelude.{◌≡◌, ◌↔◌, IsTrue};

use crate::prog::{Prog, Way};

/// Whether two programs are equal.
pub fn is_same_prog(prog: &Prog, other: &Prog) -> bool
    ensures { IsTrue result ↔ (prog.now ≡ other.now) }
{
    prog == other
}

/// Whether two steps are equal.
pub fn is_same_way(way: &Way, other: &Way) -> bool
    ensures { IsTrue result ↔ (way.now ≡ other.now) }
{
    way == other
}

/// Whether two lists of steps are equal.
pub fn are_same_ways(ways: &[Way], other: &[Way]) -> bool
    ensures { IsTrue result ↔ (ways.now ≡ other.now) }
{
    ways == other
}
