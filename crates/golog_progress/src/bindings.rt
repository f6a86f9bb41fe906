// The values of the variables of a cause's head, and the head matched with an action's arguments.
ghost use Rattle.std.specs.Prelude.{◌≡◌, ◌+◌, ◌<◌, ◌≤◌, [], ◌∷◌, ◌++◌, length};
ghost use Rattle.golog_semantics.specs.Truth.{arg_value};
ghost use Rattle.golog_semantics.specs.Values.{matched_values};
ghost use Rattle.golog_progress.specs.Effects.{is_next};

use golog_tree::Arg;
use std::marker::Model;

/// The most variables that the head of a cause binds.
const MOST_BINDINGS: usize = 6;

/// The values of the variables of a cause's head that are bound so far, by their numbers. Contracts see
/// it as their list.
#[derive(Drop)]
pub struct Bindings {
    values: [u8; MOST_BINDINGS],
    count: usize,
}

impl Model for Bindings {
    ghost use Rattle.std.specs.Prelude.{ℕ, List, ◌≤◌, take};

    ghost Value = { List ℕ };

    ghost view = { λ bindings. take bindings.count bindings.values };

    ghost invariant = { λ bindings. bindings.count ≤ 6 };
}

impl Bindings {
    /// No variable is bound.
    pub fn new() -> Bindings
        ensures { result ≡ [] }
    {
        Bindings {
            values: [0; MOST_BINDINGS],
            count: 0,
        }
    }

    /// The values.
    pub fn as_slice(&self) -> &[u8]
        ensures { result.now ≡ self.now }
    {
        &self.values[..self.count]
    }

    /// The next variable is bound to the value too.
    pub fn with(&self, value: u8) -> Bindings
        requires { length self.now < 6 }
        ensures { result ≡ self.now ++ value ∷ [] }
    {
        let mut values = self.values;
        values[self.count] = value;
        Bindings {
            values,
            count: self.count + 1,
        }
    }

    /// Whether the argument is the next variable, which is not bound yet.
    pub fn is_next(&self, arg: Arg) -> bool
        ensures { result ≡ is_next self.now arg }
    {
        match arg {
            Arg::Const(_) => false,
            Arg::Var(var) => usize::from(var) == self.count,
        }
    }

    /// The value of an argument: a constant, or the value of a variable; of one that is not bound, 0.
    pub fn value_of(&self, arg: Arg) -> u8
        ensures { result ≡ arg_value self.now arg }
    {
        match arg {
            Arg::Const(value) => value,
            Arg::Var(var) => self.as_slice().get(usize::from(var)).copied().unwrap_or(0),
        }
    }
}

/// The values of the variables of these arguments, beside those that are bound: `None` exactly where a
/// constant, or a variable that is bound, has another value.
pub fn bound_by(args: &[Arg], values: &[u8], found: Bindings) -> Option<Bindings>
    requires { length found + length args.now ≤ 6 }
    ensures { result ≡ matched_values args.now values.now found }
{
    match (args.split_first(), values.split_first()) {
        (None, _) => Some(found),
        (Some(_), None) => None,
        (Some((arg, args)), Some((value, values))) => {
            if found.is_next(*arg) {
                bound_by(args, values, found.with(*value))
            } else if found.value_of(*arg) == *value {
                bound_by(args, values, found)
            } else {
                None
            }
        }
    }
}
