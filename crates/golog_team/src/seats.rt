//! How two seats at the lock of a link come to have seen the same.
ghost use Rattle.std.specs.Prelude.{◌≡◌, [], ◌∷◌, false};
ghost use Rattle.golog_turn.specs.Parties.{contains, KeepsLonger};
ghost use Rattle.golog_turn.specs.Seats.{IsSeatOf, parties_of, seen};
ghost use Rattle.golog_team.specs.Notes.{side_of};

use crate::link::Link;
use golog_turn::{Seat, TurnLock};

// The seat takes the other's party in, and gives it back: each has then seen what the one had that had seen more.
pub(crate) fn meet_seats(
    lock: &TurnLock<Link>,
    seat: &mut Seat<Link>,
    other: &mut Seat<Link>,
    party: u32,
)
    requires lock { IsSeatOf lock.now seat.old × IsSeatOf lock.now other.old }
    requires held { (parties_of other.old ≡ party ∷ []) × (contains (parties_of seat.old) party ≡ false) }
    ensures lock { IsSeatOf lock.now seat.new × IsSeatOf lock.now other.new }
    ensures held { (parties_of seat.new ≡ parties_of seat.old) × (parties_of other.new ≡ parties_of other.old) }
    ensures same { seen other.new ≡ seen seat.new }
    ensures kept { KeepsLonger side_of (seen seat.old) (parties_of seat.old) (seen other.old) (parties_of other.old)
        (seen seat.new) }
{
    let given = lock.split(other, party);
    lock.join(seat, given);
    let back = lock.split(seat, party);
    lock.join(other, back);
}
