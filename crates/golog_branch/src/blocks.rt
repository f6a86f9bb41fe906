// Whether a program holds a search block, or reaches one by calls.
ghost use Rattle.std.specs.Prelude.{◌≡◌, ◌<◌, ◌≤◌, ◌++◌, [], ◌∷◌, false, length, map};
ghost use Rattle.golog_tree.specs.declared.agent.ProcItem.{ProcItem as AnyProc};
ghost use Rattle.golog_semantics.specs.BlockFree.{block_at, has_block as does_have_block, has_block_by};
ghost use Rattle.golog_semantics.specs.WellFormed.{WellFormed};

use golog_tree::{Agent, ProcItem, Prog};
use std::marker::Model;

/// The most procedures of an agent.
const PROCS: usize = 256;

/// Whether each procedure has a block, by their numbers. Contracts see it as the list of what is said.
#[derive(Drop)]
struct Said {
    flags: [bool; PROCS],
    count: usize,
}

impl Model for Said {
    ghost use Rattle.std.specs.Prelude.{Bool, List, take, ◌≤◌};

    ghost Value = { List Bool };

    ghost view = { λ said. take said.count said.flags };

    ghost invariant = { λ said. said.count ≤ 256 };
}

impl Said {
    fn nothing() -> Said
        ensures { result ≡ [] }
    {
        Said {
            flags: [false; PROCS],
            count: 0,
        }
    }

    fn push(&mut self, has: bool)
        requires { length self.old < 256 }
        ensures { self.new ≡ self.old ++ has ∷ [] }
    {
        self.flags[self.count] = has;
        self.count += 1;
    }

    fn as_slice(&self) -> &[bool]
        ensures { result.now ≡ self.now }
    {
        &self.flags[..self.count]
    }
}

/// Whether the procedure has a block, by what is said of each.
fn is_said(said: &[bool], item: usize) -> bool
    ensures { result ≡ block_at said.now item }
{
    match said.get(item) {
        Some(has) => *has,
        None => false,
    }
}

/// Whether a block stands in the program, or in a procedure that it calls, by what is said of each.
fn block_in(said: &[bool], prog: &Prog) -> bool
    ensures { result ≡ has_block_by said.now prog.now }
{
    match prog {
        Prog::Nil | Prog::Act { .. } | Prog::Test(_) => false,
        Prog::Call { item, .. } => is_said(said, *item as usize),
        Prog::Seq(one, other)
        | Prog::Choice(one, other)
        | Prog::Conc(one, other)
        | Prog::Prio(one, other) => block_in(said, one.get()) || block_in(said, other.get()),
        Prog::If { yes, no, .. } => block_in(said, yes.get()) || block_in(said, no.get()),
        Prog::Pick { body, .. } | Prog::While { body, .. } => block_in(said, body.get()),
        Prog::Star(body) | Prog::Cstar(body) => block_in(said, body.get()),
        Prog::Search { .. } | Prog::Follow { .. } => true,
    }
}

/// Nothing is said of any procedure.
fn none_said(procs: &[ProcItem]) -> Said
    requires { length procs.now ≤ 256 }
    ensures { result ≡ map (λ (item : AnyProc). false) procs.now }
{
    let mut said = Said::nothing();
    for _item in procs {
        said.push(false);
    }
    said
}

/// What is said of each procedure by its body and by what was said before.
fn more_said(procs: &[ProcItem], before: &[bool]) -> Said
    requires { length procs.now ≤ 256 }
    ensures { result ≡ map (λ (item : AnyProc). has_block_by before.now item.body) procs.now }
{
    let mut said = Said::nothing();
    for item in procs {
        said.push(block_in(before, &item.body));
    }
    said
}

/// Whether a search block stands in a program, or in a procedure that it reaches by calls. Takes no memory.
#[tactic(auto, unfolding(golog_semantics::specs::BlockFree::proc_blocks))]
pub fn has_block(agent: &Agent, prog: &Prog) -> bool
    requires { WellFormed agent.now }
    ensures { result ≡ does_have_block agent.now prog.now }
{
    let procs = agent.procs.as_slice();
    let mut said = none_said(procs);
    for _round in 0..procs.len() {
        let more = more_said(procs, said.as_slice());
        said = more;
    }
    block_in(said.as_slice(), prog)
}
