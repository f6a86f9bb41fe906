//! `Rest`, a seat that rests between threads: closures reach a seat by it, since they borrow what
//! they share.
ghost use Rattle.std.specs.Prelude.{◌≡◌};
ghost use Rattle.golog_turn.specs.Turns.{IsIdleView};

use crate::lock::Seat;
use crate::object::Object;
use crate::view::View;
use atomic_table::Perch;
use std::sync::Wait;

/// A seat at rest, which one thread may take. It lets closures that only borrow hand a seat on.
#[derive(Drop)]
pub struct Rest<O: Object> {
    perch: Perch<O, View<O::Entry>>,
    ghost idle: { IsIdleView perch.view },
}

impl<O: Object> Rest<O> {
    ghost use Rattle.golog_turn.specs.Rests.{IsRestOf};

    /// Lets the seat rest.
    pub fn of(seat: Seat<O>) -> Rest<O>
        ensures { IsRestOf result seat }
    {
        let Seat { token } = seat;
        let perch = Perch::new(&token, 0);
        let _given = perch.give(token, 0, 2);
        Rest { perch }
    }

    /// Takes the seat, as it was. It waits for ever where the seat was taken before.
    pub fn take<R: Wait>(&self, rt: &R) -> Seat<O>
        ensures { IsRestOf self.now result }
    {
        for _ in rt.forever() {
            let (_, taken) = self.perch.take(0);
            if let Some(token) = taken {
                return Seat { token };
            }
        }
        unreachable!()
    }
}
