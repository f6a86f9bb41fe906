// What the interrupt forms stand for, written out.
ghost use Rattle.std.specs.Prelude.{◌≡◌, false, [], ◌∷◌, IfOk};
ghost use Rattle.golog_tree.specs.declared.draft_cond.DraftCond.TheVariants.{Truth};
ghost use Rattle.golog_tree.specs.declared.draft_prog.DraftProg.TheVariants.{Act, Test};
ghost use Rattle.golog_prog.specs.Constructs.{interrupt, interrupts};

use crate::built_in::{INTERRUPTS_RUNNING, START_INTERRUPTS, STOP_INTERRUPTS};
use golog_base::{Boxed, List, NoMemory, both};
use golog_tree::{DraftCond, DraftProg, Place};
use std::alloc::Global;

/// `(test false)`
fn never(at: Place) -> DraftProg
    ensures { result ≡ Test (Truth false at) at }
{
    DraftProg::Test {
        cond: DraftCond::Truth { truth: false, at },
        at,
    }
}

/// What `(interrupt COND PROG)` stands for.
pub fn interrupt(
    alloc: Global,
    cond: DraftCond,
    body: Boxed<DraftProg>,
    at: Place,
) -> Result<DraftProg, NoMemory>
    ensures { IfOk result (λ prog. prog ≡ interrupt cond body at) }
{
    let ((cond, yes), no) = both(Ok((cond, body)), Boxed::new(alloc, never(at)))?;
    let body = Boxed::new(alloc, DraftProg::If { cond, yes, no, at })?;
    let running = DraftCond::Is {
        fluent: INTERRUPTS_RUNNING,
        args: List::new(alloc),
        at,
    };
    Ok(DraftProg::While {
        cond: running,
        body,
        at,
    })
}

/// An action without arguments.
fn act(alloc: Global, action: u32, at: Place) -> DraftProg
    ensures { result ≡ Act action [] at }
{
    DraftProg::Act {
        action,
        args: List::new(alloc),
        at,
    }
}

/// Two programs in a list.
fn listed(alloc: Global, one: DraftProg, other: DraftProg) -> Result<List<DraftProg>, NoMemory>
    ensures { IfOk result (λ progs. progs ≡ one ∷ other ∷ []) }
{
    Ok(List::from_vec(vec![in alloc; one, other]?))
}

/// What `(interrupts PROG)` stands for.
pub fn interrupts(alloc: Global, body: DraftProg, at: Place) -> Result<DraftProg, NoMemory>
    ensures { IfOk result (λ prog. prog ≡ interrupts body at) }
{
    let parts = listed(alloc, body, act(alloc, STOP_INTERRUPTS, at))?;
    let running = DraftProg::Prio { parts, at };
    let parts = listed(alloc, act(alloc, START_INTERRUPTS, at), running)?;
    Ok(DraftProg::Seq { parts, at })
}
