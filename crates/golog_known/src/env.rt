// `Env`, the values of the 32 variables.
ghost use Rattle.std.specs.Prelude.{◌≡◌, ◌<◌, ◌≤◌, [], map, take, length, slice_set};
ghost use Rattle.golog_semantics.specs.Truth.{env_of, arg_value as value_of_arg};

use golog_tree::Arg;
use std::marker::Model;

/// How many variables there are.
const VARIABLES: usize = 32;

/// The values of the variables, which are numbered from 0 to 31: each a constant by its position in its
/// sort. A variable that was not set has the value 0. Contracts see it as the list of the 32 values.
#[derive(Clone, Copy, Debug)]
pub struct Env {
    values: [u8; VARIABLES],
}

impl Model for Env {
    ghost use Rattle.std.specs.Prelude.{ℕ, List};

    ghost Value = { List ℕ };

    ghost view = { λ env. env.values };

    ghost inverse = { λ values. record { values = values } };
}

impl Default for Env {
    fn default() -> Env
        ensures { result ≡ env_of [] }
    {
        Env::new()
    }
}

impl Env {
    /// No variable is set.
    pub fn new() -> Env
        ensures { result ≡ env_of [] }
    {
        Env {
            values: [0; VARIABLES],
        }
    }

    /// One variable is set to the value, and the others are as before.
    pub fn with(&self, var: u8, value: u8) -> Env
        requires { var < 32 }
        ensures { result ≡ slice_set self.now var value }
    {
        let mut env = *self;
        env.values[usize::from(var)] = value;
        env
    }

    /// The first variables have these values, and no other is set.
    pub fn of(args: &[u8]) -> Env
        requires { length args.now ≤ 32 }
        ensures { result ≡ env_of args.now }
    {
        let mut values = [0; VARIABLES];
        for (i, arg) in args.iter().enumerate() {
            values[i] = *arg;
        }
        Env { values }
    }

    /// The value of an argument: a constant, or the value of a variable.
    pub(crate) fn arg_value(&self, arg: Arg) -> u8
        ensures { result ≡ value_of_arg self.now arg }
    {
        match arg {
            Arg::Const(value) => value,
            Arg::Var(var) => self.values.get(usize::from(var)).copied().unwrap_or(0),
        }
    }

    /// The values of at most three arguments, the first of the three; those behind them mean nothing.
    pub fn arg_values(&self, args: &[Arg]) -> [u8; 3]
        requires { length args.now ≤ 3 }
        ensures { take (length args.now) result ≡ map (value_of_arg self.now) args.now }
    {
        let mut values = [0; 3];
        for (i, arg) in args.iter().enumerate() {
            values[i] = self.arg_value(*arg);
        }
        values
    }
}
