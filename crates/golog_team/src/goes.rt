//! Sides that go on until they are over, beside each other.

use crate::side::Side;
use crate::wire::Wire;
use golog_journal::Lead;
use std::sync::Wait;
use std::thread::{Threads, join_mut};

/// What goes on until it is over. Code that hands a side to a thread takes it as this, so that its crossing is a bound,
/// and not looked for where it is handed over.
pub(crate) trait Goes {
    // Whether it may go on, and what then is so of it.
    ghost ready: { Self → Type 0 };

    ghost gone: { Self → Self → Type 0 };

    /// Goes on until it is over. It may wait for ever.
    fn go<R: Wait>(&mut self, rt: &R)
        requires { ready self.old }
        ensures { gone self.old self.new };
}

impl<'a, L: Lead, W: Wire> Goes for Side<'a, L, W> {
    ghost use Rattle.golog_team.specs.Standing.{IsSide, HasGone};

    ghost ready = { IsSide L.mind W.view };

    ghost gone = { HasGone L.mind W.view L.stands };

    fn go<R: Wait>(&mut self, rt: &R) {
        for _ in rt.forever() {
            if self.is_over() {
                return;
            }
            self.step_or_sleep();
        }
        unreachable!()
    }
}

/// Both go on, the second on a thread of its own where one can be had.
pub(crate) fn go_beside<A: Goes, B: Goes + Send, R: Threads + Wait + Sync>(
    rt: &R,
    first: &mut A,
    second: &mut B,
)
    requires first { A.ready first.old }
    requires second { B.ready second.old }
    ensures first { A.gone first.old first.new }
    ensures second { B.gone second.old second.new }
{
    join_mut(
        rt,
        &mut ||
            requires { B.ready second.now }
            ensures { B.gone second.entry.now second.exit.now }
        { second.go(rt) },
        &mut ||
            requires { A.ready first.now }
            ensures { A.gone first.entry.now first.exit.now }
        { first.go(rt) },
    );
}
