// `Nodes`, programs by numbers, each once: kept in a list, and as the keys by which their numbers
// are found.
ghost use Rattle.std.specs.Prelude.{◌≡◌, ◌<◌, ◌++◌, ◌∷◌, [], IfOk, OnOk, OnErr, Some, length, slice_get};
ghost use Rattle.golog_memo.specs.Numbered.{AreOnce, IsAddedTo, number_in, same};
ghost use Rattle.std.specs.HashMap.{IsUnchanged, Updates};

use crate::key::Key;
use golog_base::NoMemory;
use golog_tree::{Prog, copy_prog};
use std::alloc::Global;
use std::collections::HashMap;
use std::marker::Model;

/// Programs by numbers, each program once. Contracts see them as the list of the programs; the number of each is
/// its place in it.
#[derive(Drop)]
pub struct Nodes {
    alloc: Global,
    progs: Vec<Prog>,
    numbers: HashMap<Key, u64>,
}

impl Model for Nodes {
    ghost use Rattle.std.specs.Prelude.{List};
    ghost use Rattle.std.specs.Coded.{codes};
    ghost use Rattle.golog_tree.specs.contracts.prog.Prog as prog;
    ghost use Rattle.golog_tree.specs.declared.prog.Prog.{Prog as AnyProg};
    ghost use Rattle.golog_memo.specs.Numbered.{AreNumbered};

    ghost Value = { List AnyProg };

    ghost coded = { Prim.hlevel (codes, prog.the_row.coded) };

    ghost view = { λ nodes. nodes.progs.items };

    ghost invariant = { λ nodes. AreNumbered nodes.progs.items nodes.numbers };
}

/// The number of the program, where it has one.
fn number_of(
    alloc: Global,
    numbers: &HashMap<Key, u64>,
    prog: &Prog,
) -> Result<Option<u64>, NoMemory>
    ensures { IfOk result (λ found. found ≡ number_in numbers.now prog.now) }
{
    let key = Key::of(alloc, prog)?;
    let found = numbers.get(&key).copied();
    drop(key);
    Ok(found)
}

/// Gives the program the number. After `NoMemory` the numbers are as before.
fn insert_number(
    alloc: Global,
    numbers: &mut HashMap<Key, u64>,
    prog: &Prog,
    number: u64,
) -> Result<(), NoMemory>
    ensures updates { OnOk result (Updates same numbers.old numbers.new prog.now (Some number)) }
    ensures err { OnErr result (IsUnchanged numbers.old numbers.new) }
{
    let key = Key::of(alloc, prog)?;
    numbers.insert(key, number)?;
    Ok(())
}

/// Adds a copy of the program. After `NoMemory` the programs are as before.
fn push_copy(alloc: Global, progs: &mut Vec<Prog>, prog: &Prog) -> Result<(), NoMemory>
    ensures added { OnOk result (progs.new.items ≡ progs.old.items ++ prog.now ∷ []) }
    ensures err { OnErr result (progs.new.items ≡ progs.old.items) }
{
    progs.push(copy_prog(alloc, prog)?)?;
    Ok(())
}

impl Nodes {
    /// No program is numbered. Takes no memory.
    pub fn new(alloc: Global) -> Result<Nodes, NoMemory>
        ensures { IfOk result (λ nodes. nodes ≡ []) }
    {
        Ok(Nodes {
            alloc,
            progs: Vec::new(alloc),
            numbers: HashMap::new(alloc),
        })
    }

    /// The number of a program: equal programs have one number, others another. After `NoMemory` no
    /// number is new.
    pub fn number(&mut self, prog: &Prog) -> Result<u64, NoMemory>
        ensures number { IfOk result (λ number. slice_get self.new number ≡ Some prog.now) }
        ensures once { AreOnce self.new }
        ensures ok { OnOk result (IsAddedTo self.old prog.now self.new) }
        ensures err { OnErr result (self.new ≡ self.old) }
    {
        if let Some(number) = number_of(self.alloc, &self.numbers, prog)? {
            return Ok(number);
        }
        let number = self.progs.len() as u64;
        push_copy(self.alloc, &mut self.progs, prog)?;
        if insert_number(self.alloc, &mut self.numbers, prog, number).is_err() {
            drop(self.progs.pop());
            return Err(NoMemory);
        }
        Ok(number)
    }

    /// The program of a number. Takes no memory.
    pub fn prog(&self, number: u64) -> &Prog
        requires { number < length self.now }
        ensures { slice_get self.now number ≡ Some result.now }
    {
        &self.progs[number as usize]
    }
}
