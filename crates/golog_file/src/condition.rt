// `read_condition`: a condition over a theory and its agent, from its bytes.
ghost use Rattle.std.specs.Prelude.{◌≡◌, IfOk, IsTrue, Ok};
ghost use Rattle.golog_form.specs.Places.{IsInOrder};
ghost use Rattle.golog_draft.specs.DraftOrder.{IsAscending};
ghost use Rattle.golog_draft.specs.DraftPlaces.{cond_places};
ghost use Rattle.golog_draft.specs.Drafts.{AgentCondKeeps};
ghost use Rattle.golog_semantics.specs.Fits.{cond_fits, nothing_bound};
ghost use Rattle.golog_semantics.specs.WellFormed.{WellFormed};
ghost use Rattle.golog_theory.specs.Conditions.{cond_of as spec_cond_of};
ghost use Rattle.golog_file.specs.Conditions.{CondsStayKept, FormAnswersCond, ReadsCond};

use crate::fault::CondFault;
use golog_check::check_condition;
use golog_form::{Form, read_form};
use golog_theory::condition_of;
use golog_tree::{Agent, Cond, DraftCond, DraftTheory};
use std::alloc::Global;

/// The condition that a form spells, by its draft over the theory.
fn cond_over(
    alloc: Global,
    theory: &DraftTheory,
    agent: &Agent,
    form: &Form,
    draft: &DraftCond,
) -> Result<Cond, CondFault>
    requires formed { WellFormed agent.now }
    requires kept { AgentCondKeeps agent.now draft.now }
    requires in_order { IsAscending (cond_places draft.now) }
    requires read { (spec_cond_of theory.now form.now 0).outcome ≡ Ok draft.now }
    ensures answer { FormAnswersCond theory.now agent.now result form.now }
    ensures fits { IfOk result (λ cond. IsTrue (cond_fits agent.now cond nothing_bound)) }
{
    match check_condition(alloc, agent, draft) {
        Ok(cond) => Ok(cond),
        Err(fault) => Err(CondFault::from(fault)),
    }
}

/// The condition that a form spells, whose parts stand in order.
fn cond_in(
    alloc: Global,
    theory: &DraftTheory,
    agent: &Agent,
    form: &Form,
) -> Result<Cond, CondFault>
    requires placed { IsInOrder form.now }
    requires formed { WellFormed agent.now }
    requires kept { CondsStayKept theory.now agent.now }
    ensures answer { FormAnswersCond theory.now agent.now result form.now }
    ensures fits { IfOk result (λ cond. IsTrue (cond_fits agent.now cond nothing_bound)) }
{
    match condition_of(alloc, theory, form) {
        Ok(draft) => {
            let answer = cond_over(alloc, theory, agent, form, &draft);
            drop(draft);
            answer
        }
        Err(fault) => Err(CondFault::from(fault)),
    }
}

/// The condition without free variables that the bytes spell over the agent and its theory, or the first refusal,
/// with its code and its place. It is looked for in stages, and in each the least place counts, and there the least
/// code: 1 to 6, the bytes spell no form, 5 where they are more than a file may have; 20 to 26, the form spells no
/// condition over the theory; 30 and 31, a term of it is not of the sort that its place needs, or a word is unbound.
/// `Memory` where memory runs out.
pub fn read_condition(
    alloc: Global,
    theory: &DraftTheory,
    agent: &Agent,
    bytes: &[u8],
) -> Result<Cond, CondFault>
    requires formed { WellFormed agent.now }
    requires kept { CondsStayKept theory.now agent.now }
    ensures answer { ReadsCond theory.now agent.now result bytes.now }
    // It can be evaluated.
    ensures fits { IfOk result (λ cond. IsTrue (cond_fits agent.now cond nothing_bound)) }
{
    match read_form(alloc, bytes) {
        Ok(form) => {
            let answer = cond_in(alloc, theory, agent, &form);
            drop(form);
            answer
        }
        Err(fault) => Err(CondFault::from(fault)),
    }
}
