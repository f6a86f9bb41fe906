// A program as the key of a map.
ghost use Rattle.std.specs.Prelude.{◌≡◌, IfOk};

use crate::code::prog_code;
use golog_base::NoMemory;
use golog_tree::{Prog, copy_prog};
use std::alloc::Global;
use std::hash::{Hash, Hasher};
use std::marker::Model;

/// A program as the key of a map. Contracts see it as the program.
#[derive(Drop)]
pub struct Key {
    prog: Prog,
}

impl Model for Key {
    ghost use Rattle.std.specs.Coded.{codes};
    ghost use Rattle.golog_tree.specs.contracts.prog.Prog as program;
    ghost use Rattle.golog_tree.specs.declared.prog.Prog.{Prog as AnyProg};

    ghost Value = { AnyProg };

    ghost coded = { Prim.hlevel (codes, program.the_row.coded) };

    ghost view = { λ key. key.prog };
}

impl Key {
    /// A copy of the program.
    pub fn of(alloc: Global, prog: &Prog) -> Result<Key, NoMemory>
        ensures { IfOk result (λ key. key ≡ prog.now) }
    {
        let prog = copy_prog(alloc, prog)?;
        Ok(Key { prog })
    }
}

impl PartialEq for Key {
    ghost use Rattle.golog_tree.specs.contracts.prog.ProgPartialEq.TheImpl.Laws as derived;

    ghost eq = { ⟦<Prog as PartialEq>⟧.eq };

    ghost laws = { derived.laws-law };

    fn eq(&self, other: &Key) -> bool {
        self.prog == other.prog
    }
}

impl Eq for Key {
    ghost use Rattle.golog_tree.specs.contracts.prog.ProgEq.TheImpl.Laws as derived_whole;

    ghost laws = { derived_whole.laws-law };
}

impl Hash for Key {
    ghost use Rattle.std.specs.Hash.{u64 as number_input, same_Alike};
    ghost use Rattle.golog_memo.specs.Codes.{prog_code as spec_prog_code};
    ghost use Rattle.golog_tree.proofs.EqualPrograms.{prog-decides};

    ghost hash_input = { λ prog. number_input (spec_prog_code prog) };

    ghost respects_eq = { (same_Alike (λ prog. number_input (spec_prog_code prog)) prog-decides).fed };

    fn hash<H: Hasher>(&self, state: &mut H) {
        prog_code(&self.prog).hash(state)
    }
}
