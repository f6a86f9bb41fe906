// Whether an agent has a search block.
ghost use Rattle.std.specs.Prelude.{◌≡◌};
ghost use Rattle.std.specs.List.{list_any};
ghost use Rattle.golog_tree.specs.declared.agent.ProcItem.{ProcItem};
ghost use Rattle.golog_tests.specs.Blockless.{holds_block as spec_holds_block, has_blocks as spec_has_blocks};

use golog_tree::{Agent, ProcItem, Prog};

/// Whether a search block stands in a program.
fn holds_block(prog: &Prog) -> bool
    ensures { result ≡ spec_holds_block prog.now }
{
    match prog {
        Prog::Nil | Prog::Act { .. } | Prog::Test(_) | Prog::Call { .. } => false,
        Prog::Seq(one, other)
        | Prog::Choice(one, other)
        | Prog::Conc(one, other)
        | Prog::Prio(one, other) => holds_block(one.get()) || holds_block(other.get()),
        Prog::If { yes, no, .. } => holds_block(yes.get()) || holds_block(no.get()),
        Prog::Pick { body, .. } | Prog::While { body, .. } => holds_block(body.get()),
        Prog::Star(body) | Prog::Cstar(body) => holds_block(body.get()),
        Prog::Search { .. } | Prog::Follow { .. } => true,
    }
}

/// Whether a search block stands in one of these procedures.
fn some_holds_block(procs: &[ProcItem]) -> bool
    ensures { result ≡ list_any (λ (item : ProcItem). spec_holds_block item.body) procs.now }
{
    procs.iter().any(|item| holds_block(&item.body))
}

/// Whether a search block stands in one of the programs of an agent.
pub fn has_blocks(agent: &Agent) -> bool
    ensures { result ≡ spec_has_blocks agent.now }
{
    holds_block(&agent.main) || some_holds_block(agent.procs.as_slice())
}
