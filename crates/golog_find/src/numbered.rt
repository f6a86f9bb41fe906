// `Numbered`, a state with the step that led there, the number of the program left and the place of
// the state before; where a search begins, and where a step leads.
ghost use Rattle.std.specs.Prelude.{◌≡◌, IfOk, IfSome, IsTrue, OnOk, Some, slice_get};
ghost use Rattle.golog_memo.specs.Numbered.{AreOnce};
ghost use Rattle.golog_semantics.specs.Reports.{fits_label};
ghost use Rattle.golog_semantics.specs.InSorts.{AreInSorts};
ghost use Rattle.golog_semantics.specs.Values.{after};
ghost use Rattle.golog_semantics.specs.WellFormed.{WellFormed};
ghost use Rattle.golog_flat.specs.Effects.{IsEffectOf};
ghost use Rattle.golog_find.specs.Levels.{start_of};
ghost use Rattle.golog_find.specs.Numbers.{led, meant};

use golog_base::NoMemory;
use golog_flat::{Effect, take_step};
use golog_memo::Nodes;
use golog_progress::State;
use golog_tree::{Agent, Label, Prog};
use std::alloc::Global;

/// A state that a search has reached: the last step, the number of the program that it leaves, what is known
/// then, and the place of the state before it among those that are one step nearer.
#[derive(Drop)]
pub struct Numbered {
    pub label: Label,
    pub left: u64,
    pub state: State,
    pub from: usize,
}

/// Makes the state that where a step leads from these values. Takes no memory.
fn follow(state: &mut State, agent: &Agent, values: &[u8], label: Label, effect: Option<&Effect>)
    requires agent { WellFormed agent.now }
    requires sorts { AreInSorts agent.now values.now }
    requires label { IsTrue (fits_label agent.now label) }
    requires effect { IfSome effect (λ e. IsEffectOf agent.now label e.now) }
    requires room { AreInSorts agent.now state.old }
    ensures { state.new ≡ after agent.now values.now label }
{
    state.set(values);
    take_step(agent, label, effect, state);
}

impl Numbered {
    /// Where a search begins; no step led there.
    pub fn start(
        alloc: Global,
        nodes: &mut Nodes,
        prog: &Prog,
        state: &State,
    ) -> Result<Numbered, NoMemory>
        ensures program { IfOk result (λ start. slice_get nodes.new start.left ≡ Some prog.now) }
        ensures means { IfOk result (λ start. meant nodes.new start ≡ start_of prog.now state.now) }
        ensures once { OnOk result (AreOnce nodes.new) }
    {
        let left = nodes.number(prog)?;
        let state = state.copy(alloc)?;
        Ok(Numbered {
            label: Label::Quiet,
            left,
            state,
            from: 0,
        })
    }

    /// A state that stands for none yet.
    pub fn blank(alloc: Global, agent: &Agent) -> Result<Numbered, NoMemory>
        requires { WellFormed agent.now }
        ensures { IfOk result (λ blank. AreInSorts agent.now blank.state) }
    {
        let state = golog_progress::start(alloc, agent)?;
        Ok(Numbered {
            label: Label::Quiet,
            left: 0,
            state,
            from: 0,
        })
    }

    /// Makes it where a step leads from these values, which stand at the place `from`, but for the number of what is
    /// left. What the step writes is told, where it is kept. Takes no memory.
    pub fn lead(
        &mut self,
        agent: &Agent,
        from: usize,
        values: &[u8],
        label: Label,
        effect: Option<&Effect>,
    )
        requires agent { WellFormed agent.now }
        requires sorts { AreInSorts agent.now values.now }
        requires label { IsTrue (fits_label agent.now label) }
        requires effect { IfSome effect (λ e. IsEffectOf agent.now label e.now) }
        requires room { AreInSorts agent.now self.old.state }
        ensures reached { self.new ≡ led agent.now from values.now label self.old.left }
        ensures sorts { AreInSorts agent.now self.new.state }
    {
        follow(&mut self.state, agent, values, label, effect);
        self.label = label;
        self.from = from;
    }
}
