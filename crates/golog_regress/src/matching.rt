// The head of a cause matched with given arguments: the images of its variables, and the tests
// under which it is what was given.
ghost use Rattle.std.specs.Prelude.{◌≡◌, [], ◌∷◌, ◌++◌, IfOk, OnOk, length};
ghost use Rattle.golog_regress.specs.Causes.{is_next as spec_is_next, tested as spec_tested, matching as spec_matching};

use crate::numbers::image;
use golog_base::{List, NoMemory};
use golog_tree::{Arg, Cond, Term};
use std::alloc::Global;

/// The images of the variables of a cause's head, and the tests under which the head is what was given.
#[derive(Drop)]
pub struct Matched {
    pub found: List<Arg>,
    pub tests: List<Cond>,
}

/// Whether the argument is the next variable, which has no image yet.
fn is_next(found: &[Arg], arg: Arg) -> bool
    ensures { result ≡ spec_is_next found.now arg }
{
    match arg {
        Arg::Const(_) => false,
        Arg::Var(var) => usize::from(var) == found.len(),
    }
}

/// The tests and one more, that the arguments are equal: `None` exactly where they are constants that
/// differ. Equal constants want no test.
fn tested(
    sort: u32,
    one: Arg,
    other: Arg,
    tests: List<Cond>,
) -> Result<Option<List<Cond>>, NoMemory>
    ensures { IfOk result (λ more. more ≡ spec_tested sort one other tests) }
{
    match (one, other) {
        (Arg::Const(c), Arg::Const(d)) => Ok(if c == d { Some(tests) } else { None }),
        _ => {
            let mut tests = tests;
            tests.push(Cond::Equal {
                sort,
                one: Term::Arg(one),
                other: Term::Arg(other),
            })?;
            Ok(Some(tests))
        }
    }
}

/// Matches the arguments of a head, of these sorts, with those that are given, behind the images that
/// were found and the tests that were put before: `None` exactly where they never match.
pub fn matching(
    sorts: &[u32],
    head: &[Arg],
    given: &[Arg],
    found: List<Arg>,
    tests: List<Cond>,
) -> Result<Option<Matched>, NoMemory>
    ensures { IfOk result (λ matched. matched ≡ spec_matching sorts.now head.now given.now found tests) }
{
    match (sorts.split_first(), head.split_first(), given.split_first()) {
        (_, None, _) => Ok(Some(Matched { found, tests })),
        (Some((sort, sorts)), Some((arg, head)), Some((to, given))) => {
            if is_next(found.as_slice(), *arg) {
                let mut found = found;
                found.push(*to)?;
                matching(sorts, head, given, found, tests)
            } else {
                match tested(*sort, image(found.as_slice(), *arg), *to, tests)? {
                    None => Ok(None),
                    Some(tests) => matching(sorts, head, given, found, tests),
                }
            }
        }
        _ => Ok(None),
    }
}
