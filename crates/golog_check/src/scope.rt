// The variables in scope, the innermost first, and what a word means there.
ghost use Rattle.std.specs.Prelude.{◌≡◌, ◌++◌, IfOk};
ghost use Rattle.golog_check.specs.Scope.{variable_no, within, innermost, meaning};

use crate::names::Names;
use golog_base::{List, NoMemory, Word};
use golog_tree::{Arg, Place};
use std::alloc::Global;

/// A variable in scope, and its sort.
#[derive(Clone, Copy)]
pub struct Variable {
    pub word: Word,
    pub sort: u32,
}

/// What a word means: a variable or a constant, and its sort.
#[derive(Clone, Copy)]
pub struct Meant {
    pub arg: Arg,
    pub sort: u32,
}

/// The number of the variable that is bound where these are in scope.
pub fn variable_no(outer: &[Variable]) -> u8
    ensures { result ≡ variable_no outer.now }
{
    outer.len().min(255) as u8
}

/// One more variable in scope. The innermost stands first.
pub fn within(
    alloc: Global,
    word: Word,
    sort: u32,
    outer: &[Variable],
) -> Result<List<Variable>, NoMemory>
    ensures { IfOk result (λ scope. scope ≡ within word sort outer.now) }
{
    let mut scope = List::new(alloc);
    scope.push(Variable { word, sort })?;
    scope.extend(outer)?;
    Ok(scope)
}

/// The innermost variable of the name.
pub fn innermost(scope: &[Variable], word: &[u8]) -> Option<Meant>
    ensures { result ≡ innermost scope.now word.now }
{
    let (first, outer) = scope.split_first()?;
    if word == first.word.as_bytes() {
        return Some(Meant {
            arg: Arg::Var(variable_no(outer)),
            sort: first.sort,
        });
    }
    innermost(outer, word)
}

/// What a word at a place means: the innermost variable of its name, else the constant that is declared before.
pub fn meaning(names: &Names<'_>, scope: &[Variable], word: &[u8], at: Place) -> Option<Meant>
    ensures { result ≡ meaning names.now scope.now word.now at }
{
    match innermost(scope, word) {
        Some(meant) => Some(meant),
        None => names.constant(word, at),
    }
}
