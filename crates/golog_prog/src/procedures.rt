// The procedures that a file declares, by the shape of its items, with the numbers of their names:
// what any program may call.
ghost use Rattle.std.specs.Prelude.{◌≡◌, ℕ, List, IfOk, position};
ghost use Rattle.golog_theory.specs.Names.{same};
ghost use Rattle.golog_prog.specs.Procedures.{declared_by, declared_in};

use golog_base::{List, NoMemory, Word};
use golog_form::Form;
use golog_theory::heads::{arguments, head_word};
use golog_theory::index::{Named, Numbers, numbers_of};
use golog_theory::parts::word;
use std::alloc::Global;
use std::marker::Model;

/// A procedure that a file declares, with so many parameters.
#[derive(Clone, Copy)]
pub struct Declared {
    pub name: Word,
    pub params: usize,
}

impl Named for Declared {
    ghost name = { λ declared. declared.name };

    fn name(&self) -> &[u8] {
        self.name.as_bytes()
    }
}

/// The procedure that an item declares, where it has the shape of a `proc` item: a name, a list of
/// parameters, whatever stands in it, and a program.
#[tactic(auto, unfolding(crate::specs::Procedures::declared_by))]
fn declared_by(item: &Form) -> Option<Declared>
    ensures { result ≡ declared_by item.now }
{
    if head_word(item) != b"proc".as_slice() {
        return None;
    }
    let [name, params, _body] = arguments(item) else {
        return None;
    };
    let params = params.items()?;
    let name = Word::of(word(name))?;
    Some(Declared {
        name,
        params: params.len(),
    })
}

#[tactic(auto, using(crate::proofs::Progs::declared_laws))]
fn declared_in(alloc: Global, items: &[Form]) -> Result<List<Declared>, NoMemory>
    ensures { IfOk result (λ procs. procs ≡ declared_in items.now) }
{
    let mut procs = List::new(alloc);
    for item in items {
        if let Some(declared) = declared_by(item) {
            procs.push(declared)?;
        }
    }
    Ok(procs)
}

/// The procedures that a file declares, with the numbers of their names. Contracts see them as the list of
/// the procedures.
#[derive(Drop)]
pub struct Procedures {
    declared: List<Declared>,
    numbers: Numbers,
}

impl Model for Procedures {
    ghost use Rattle.std.specs.Prelude.{List};
    ghost use Rattle.golog_prog.specs.declared.procedures.Declared.{Declared};

    ghost Value = { List Declared };

    ghost use Rattle.golog_theory.specs.Names.{same};
    ghost use Rattle.golog_theory.specs.Index.{Finds};

    ghost view = { λ procs. procs.declared };

    ghost invariant = { λ procs. Finds (λ word (proc : Declared). same word proc.name) procs.numbers procs.declared };
}

impl Procedures {
    /// The procedures that the items of a file declare, in the order of the file.
    pub fn of(alloc: Global, items: &[Form]) -> Result<Procedures, NoMemory>
        ensures { IfOk result (λ procs. procs ≡ declared_in items.now) }
    {
        let declared = declared_in(alloc, items)?;
        let numbers = numbers_of(alloc, declared.as_slice())?;
        Ok(Procedures { declared, numbers })
    }

    /// The procedures in the order of the file.
    pub fn as_slice(&self) -> &[Declared]
        ensures { result.now ≡ self.now }
    {
        self.declared.as_slice()
    }

    /// The number of the first procedure with the name.
    pub fn number(&self, name: &[u8]) -> Option<usize>
        ensures { result ≡ position (λ (proc : Declared). same name.now proc.name) self.now }
    {
        self.numbers.get(name)
    }
}
