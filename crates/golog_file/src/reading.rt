// `read_agent`, which goes through the stages from bytes to an agent, and `read_theory_and_agent`,
// which hands out the theory too.
ghost use Rattle.std.specs.Prelude.{◌≡◌, IfOk, Ok};
ghost use Rattle.golog_form.specs.declared.form.Form.{Form};
ghost use Rattle.golog_form.specs.Places.{IsInOrder};
ghost use Rattle.golog_draft.specs.DraftOrder.{TheoryInOrder, ProgramInOrder};
ghost use Rattle.golog_draft.specs.Drafts.{TheoryKeeps, ProgramKeeps};
ghost use Rattle.golog_semantics.specs.WellFormed.{WellFormed};
ghost use Rattle.golog_theory.specs.Items.{theory_of as spec_theory_of};
ghost use Rattle.golog_file.specs.Conditions.{CondsStayKept};
ghost use Rattle.golog_file.specs.Spelled.{DraftAnswers, FormAnswers, FormAnswersWith, Reads, ReadsWith};

use crate::fault::AgentFault;
use golog_check::check;
use golog_form::{Form, read_form};
use golog_prog::program_of;
use golog_theory::theory_of;
use golog_tree::{Agent, DraftProgram, DraftTheory};
use std::alloc::Global;

/// What the bytes of a file spell: a theory, and the agent that is made of it.
#[derive(Drop)]
pub struct Understood {
    pub theory: DraftTheory,
    pub agent: Agent,
}

/// The agent that a theory and a program make, which were read from one file.
fn agent_of(
    alloc: Global,
    theory: &DraftTheory,
    program: &DraftProgram,
) -> Result<Agent, AgentFault>
    requires keeps { TheoryKeeps theory.now }
    requires program_keeps { ProgramKeeps theory.now program.now }
    requires in_order { TheoryInOrder theory.now }
    requires program_in_order { ProgramInOrder program.now }
    ensures answer { DraftAnswers theory.now program.now result }
    ensures formed { IfOk result WellFormed }
{
    match check(alloc, theory, program) {
        Ok(agent) => Ok(agent),
        Err(fault) => Err(AgentFault::from(fault)),
    }
}

/// The agent that a form spells, over its theory.
fn agent_over(alloc: Global, theory: &DraftTheory, form: &Form) -> Result<Agent, AgentFault>
    requires placed { IsInOrder form.now }
    requires read { (spec_theory_of form.now).outcome ≡ Ok theory.now }
    requires keeps { TheoryKeeps theory.now }
    requires in_order { TheoryInOrder theory.now }
    ensures answer { FormAnswers result form.now }
    ensures formed { IfOk result WellFormed }
{
    match program_of(alloc, theory, form) {
        Ok(program) => {
            let answer = agent_of(alloc, theory, &program);
            drop(program);
            answer
        }
        Err(fault) => Err(AgentFault::from(fault)),
    }
}

/// The theory and the agent that a form spells.
fn understood_over(
    alloc: Global,
    theory: DraftTheory,
    form: &Form,
) -> Result<Understood, AgentFault>
    requires placed { IsInOrder form.now }
    requires read { (spec_theory_of form.now).outcome ≡ Ok theory }
    requires keeps { TheoryKeeps theory }
    requires in_order { TheoryInOrder theory }
    ensures answer { FormAnswersWith result form.now }
    ensures formed { IfOk result (λ understood. WellFormed understood.agent) }
{
    match agent_over(alloc, &theory, form) {
        Ok(agent) => Ok(Understood { theory, agent }),
        Err(fault) => {
            drop(theory);
            Err(fault)
        }
    }
}

/// The theory and the agent that a form spells, whose parts stand in order.
fn understood_in(alloc: Global, form: &Form) -> Result<Understood, AgentFault>
    requires { IsInOrder form.now }
    ensures answer { FormAnswersWith result form.now }
    ensures formed { IfOk result (λ understood. WellFormed understood.agent) }
{
    match theory_of(alloc, form) {
        Ok(theory) => understood_over(alloc, theory, form),
        Err(fault) => Err(AgentFault::from(fault)),
    }
}

/// The agent that the bytes of a file spell, and its theory, over which conditions are read; or the first refusal,
/// as of `read_agent`.
pub fn read_theory_and_agent(alloc: Global, bytes: &[u8]) -> Result<Understood, AgentFault>
    ensures answer { ReadsWith result bytes.now }
    ensures formed { IfOk result (λ understood. WellFormed understood.agent) }
    // What `read_condition` asks.
    ensures kept { IfOk result (λ understood. CondsStayKept understood.theory understood.agent) }
{
    match read_form(alloc, bytes) {
        Ok(form) => {
            let answer = understood_in(alloc, &form);
            drop(form);
            answer
        }
        Err(fault) => Err(AgentFault::from(fault)),
    }
}

/// The agent that the bytes of a file spell, or the first refusal, with its code and its place. It is
/// looked for in stages, and in each the least place counts, and there the least code: 1 to 6, the bytes
/// spell no form; 20 to 26, the form spells no theory; 20 to 27, it spells no program over the theory; and
/// 30 to 38, the theory and the program are not well-formed. `Memory` where memory runs out.
pub fn read_agent(alloc: Global, bytes: &[u8]) -> Result<Agent, AgentFault>
    ensures answer { Reads result bytes.now }
    // What a run asks of its agent.
    ensures formed { IfOk result WellFormed }
{
    match read_theory_and_agent(alloc, bytes) {
        Ok(Understood { theory, agent }) => {
            drop(theory);
            Ok(agent)
        }
        Err(fault) => Err(fault),
    }
}
