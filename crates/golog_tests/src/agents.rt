// The agent files of the tests, and the ground action of a text by its number.
ghost use Rattle.std.specs.Prelude.{◌<◌, IfSome, length};
ghost use Rattle.golog_tree.specs.Ground.{ground_actions};
ghost use Rattle.golog_semantics.specs.WellFormed.{WellFormed};

use golog_ground::read_action;
use golog_tree::{Agent, Cond};

/// A lamp and a bell, which may be rung where the lamp is on.
pub const LAMP: &[u8] = b"(agent
    (fluent on () bool false)
    (action switch ()) (action ring ())
    (poss (ring) (on)) (causes (switch) (on) true)
    (main (choice (seq (act ring) (act switch)) (act switch))))";

/// A bell that is rung while it is awaited, which nobody knows.
pub const BELL: &[u8] = b"(agent
    (fluent awaited () bool)
    (action ring ())
    (main (while (awaited) (act ring))))";

/// A lift with two doors.
pub const LIFT: &[u8] = b"(agent
    (sort level -1 3) (sort door left right)
    (fluent open (door level) bool false)
    (action off (level)) (action turn (door level))
    (main (pick (v0_0 level) (act off v0_0))))";

/// A lamp on each of three floors, of which nobody knows whether the last is lit, and a red sign.
pub const LAMPS: &[u8] = b"(agent
    (sort floor 1 3) (sort colour red blue)
    (fluent lit (floor) bool false)
    (start (lit 1) true) (start (lit 3) unknown)
    (fluent sign () colour red)
    (main nil))";

/// Stairs of four levels, to be gone up to the last from the first.
pub const STAIRS: &[u8] = b"(agent
    (sort level 1 4)
    (fluent at () level 1)
    (action up ()) (poss (up) (< (at) 4)) (causes (up) (at) (+ (at) 1))
    (main (seq (star (act up)) (test (= (at) 4)))))";

/// A road to `a` and on to `b` or to `c`, of which the way to `b` is blocked.
pub const ROADS: &[u8] = b"(agent
    (sort place a b c)
    (fluent blocked (place) bool false) (start (blocked b) true)
    (action go (place)) (poss (go x) (not (blocked x)))
    (main (seq (act go a) (choice (act go b) (act go c)))))";

/// Roads that the world may block.
pub const WORLD: &[u8] = b"(agent
    (device world)
    (sort place a b c)
    (fluent blocked (place) bool false)
    (action go (place)) (poss (go x) (not (blocked x)))
    (exo block (place) world) (causes (block x) (blocked x) true)
    (main nil))";

/// Two actions, each of which may be followed by a third, and leaves other values than the other.
pub const BRANCHES: &[u8] = b"(agent
    (fluent p () bool false) (fluent q () bool false)
    (action a ()) (action b ()) (action c ())
    (causes (a) (p) true) (causes (b) (q) true)
    (main (seq (choice (act a) (act b)) (act c))))";

/// A door that may be gone through where it is open, which nobody knows until they look.
pub const DOOR: &[u8] = b"(agent
    (device door)
    (fluent opened () bool)
    (action look () door) (action go ())
    (senses (look) (opened))
    (main (seq (act look) (test (opened)) (act go))))";

/// Whether the condition is that the lamp is on, or that the bell is awaited: that fluent is the first in its
/// file.
pub fn is_first_fluent(cond: &Cond) -> bool {
    match cond {
        Cond::Is { fluent, args } => *fluent == 1 && args.is_empty(),
        _ => false,
    }
}

/// The ground action of this text, by its number.
pub fn action_of(agent: &Agent, text: &[u8]) -> Option<u32>
    requires { WellFormed agent.now }
    ensures { IfSome result (λ action. action < length (ground_actions agent.now)) }
{
    match read_action(agent, text) {
        Some(action) => Some(action),
        None => None,
    }
}
