// Effects: what a step writes at which places, and the values after a step.
ghost use Rattle.std.specs.Prelude.{◌≡◌, ◌<◌, All, false, IfOk, IfSome, IsTrue, MatchOption, length};
ghost use Rattle.golog_tree.specs.Ground.{ground_actions, ground_fluents};
ghost use Rattle.golog_semantics.specs.InSorts.{AreInSorts};
ghost use Rattle.golog_semantics.specs.Reports.{fits_label};
ghost use Rattle.golog_semantics.specs.Values.{after};
ghost use Rattle.golog_semantics.specs.WellFormed.{WellFormed};
ghost use Rattle.golog_flat.specs.Effects.{IsEffectOf, is_plain_step, written};

use crate::plain::are_plain;
use crate::writes::{Write, writes_of};
use golog_base::{List, NoMemory};
use golog_progress::State;
use golog_tree::{Agent, Label, action_of};
use std::alloc::Global;

/// What a step writes, whatever the values before it are.
#[derive(Drop)]
pub struct Effect {
    writes: List<Write>,
}

/// What an action writes, where its causes are plain.
fn effect_of(alloc: Global, agent: &Agent, action: u32) -> Result<Option<Effect>, NoMemory>
    requires agent { WellFormed agent.now }
    requires action { action < length (ground_actions agent.now) }
    ensures { IfOk result (λ found. MatchOption found (is_plain_step agent.now (Label.Do action) ≡ false)
        (IsEffectOf agent.now (Label.Do action))) }
{
    let ground = action_of(agent, action);
    if are_plain(agent.causes.as_slice(), ground.item) {
        let writes = writes_of(alloc, agent, action)?;
        Ok(Some(Effect { writes }))
    } else {
        Ok(None)
    }
}

impl Effect {
    /// What a step writes: `None` exactly where a cause of its action has a condition, or a term that is no constant
    /// and no variable.
    pub fn of(alloc: Global, agent: &Agent, label: Label) -> Result<Option<Effect>, NoMemory>
        requires agent { WellFormed agent.now }
        requires label { IsTrue (fits_label agent.now label) }
        ensures { IfOk result (λ found. MatchOption found (is_plain_step agent.now label ≡ false)
            (IsEffectOf agent.now label)) }
    {
        match label {
            Label::Quiet => Ok(Some(Effect {
                writes: List::new(alloc),
            })),
            Label::Do(action) => effect_of(alloc, agent, action),
        }
    }

    /// Writes it. Takes no memory.
    pub fn write(&self, state: &mut State)
        requires { All (λ w. w.place < length state.old) self.now.writes }
        ensures { state.new ≡ written state.old self.now }
    {
        let writes = self.writes.as_slice();
        for write in writes {
            state.after_sense(write.place, write.value);
        }
    }
}

/// Takes a step by the causes of its action.
fn take_by_causes(agent: &Agent, label: Label, state: &mut State)
    requires agent { WellFormed agent.now }
    requires sorts { AreInSorts agent.now state.old }
    requires label { IsTrue (fits_label agent.now label) }
    ensures { state.new ≡ after agent.now state.old label }
{
    if let Label::Do(action) = label {
        state.after_do(agent, action);
    }
}

/// Takes a step by its effect, where there is one, and else by the causes of its action.
fn take_by_either(agent: &Agent, label: Label, effect: Option<&Effect>, state: &mut State)
    requires agent { WellFormed agent.now }
    requires sorts { AreInSorts agent.now state.old }
    requires label { IsTrue (fits_label agent.now label) }
    requires effect { IfSome effect (λ e. IsEffectOf agent.now label e.now) }
    ensures { state.new ≡ after agent.now state.old label }
{
    match effect {
        Some(effect) => effect.write(state),
        None => take_by_causes(agent, label, state),
    }
}

/// Takes a step: writes what it writes, where that is kept, and else goes by the causes of its action. Takes no memory.
pub fn take_step(agent: &Agent, label: Label, effect: Option<&Effect>, state: &mut State)
    requires agent { WellFormed agent.now }
    requires sorts { AreInSorts agent.now state.old }
    requires label { IsTrue (fits_label agent.now label) }
    requires effect { IfSome effect (λ e. IsEffectOf agent.now label e.now) }
    ensures values { state.new ≡ after agent.now state.old label }
    ensures sorts { AreInSorts agent.now state.new }
{
    take_by_either(agent, label, effect, state);
}
