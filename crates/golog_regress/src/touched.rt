// `touches`: whether an event may change what a condition reads.
ghost use Rattle.std.specs.Prelude.{◌≡◌, [], ◌∷◌, ◌<◌, false, map, IsTrue, length};
ghost use Rattle.std.specs.List.{list_any};
ghost use Rattle.golog_tree.specs.Ground.{ground_actions};
ghost use Rattle.golog_semantics.specs.Reports.{is_value};
ghost use Rattle.golog_semantics.specs.WellFormed.{WellFormed};
ghost use Rattle.golog_regress.specs.Regression.{EventFits, IsRegressed};
ghost use Rattle.golog_regress.specs.Touched.{reads as spec_reads, term_reads as spec_term_reads, is_touched as spec_is_touched, touches as spec_touches};

use crate::event::Event;
use golog_tree::{Agent, CauseItem, Cond, Term, action_of, fluent_of};

#[cycle(reads)]
fn term_reads(term: &Term, fluent: u32) -> bool
    ensures { result ≡ spec_term_reads fluent term.now }
{
    match term {
        Term::Arg(_) => false,
        Term::Fluent { fluent: read, .. } => *read == fluent,
        Term::Shift { term, .. } => term_reads(term.get(), fluent),
        Term::Ite { cond, yes, no } => {
            reads(cond.get(), fluent)
                || term_reads(yes.get(), fluent)
                || term_reads(no.get(), fluent)
        }
    }
}

#[cycle(reads)]
fn one_reads(conds: &[Cond], fluent: u32) -> bool
    ensures { result ≡ list_any (λ read. read) (map (spec_reads fluent) conds.now) }
{
    for cond in conds {
        if reads(cond, fluent) {
            return true;
        }
    }
    false
}

/// Whether the fluent, at whatever arguments, stands in the condition.
#[cycle(reads)]
fn reads(cond: &Cond, fluent: u32) -> bool
    ensures { result ≡ spec_reads fluent cond.now }
{
    match cond {
        Cond::Truth(_) => false,
        Cond::Is { fluent: read, .. } => *read == fluent,
        Cond::Equal { one, other, .. }
        | Cond::Less { one, other, .. }
        | Cond::AtMost { one, other, .. } => term_reads(one, fluent) || term_reads(other, fluent),
        Cond::Not(body) => reads(body.get(), fluent),
        Cond::And(conds) | Cond::Or(conds) => one_reads(conds.as_slice(), fluent),
        Cond::ForSome { body, .. } | Cond::ForAll { body, .. } => reads(body.get(), fluent),
    }
}

/// Whether one of these causes is of the action and of a fluent that stands in the condition.
fn is_touched(causes: &[CauseItem], action: u32, cond: &Cond) -> bool
    ensures { result ≡ spec_is_touched causes.now action cond.now }
{
    causes.iter().any(|cause| cause.action == action && reads(cond, cause.fluent))
}

/// Whether a ground action may change a fluent that the condition reads.
fn is_touched_by_action(agent: &Agent, cond: &Cond, action: u32) -> bool
    requires agent { WellFormed agent.now }
    requires action { action < length (ground_actions agent.now) }
    ensures reads { result ≡ spec_touches agent.now (Event.Did action) cond.now }
    ensures stays { result ≡ false → IsRegressed agent.now (Event.Did action ∷ []) cond.now cond.now }
{
    let ground = action_of(agent, action);
    is_touched(agent.causes.as_slice(), ground.item, cond)
}

/// Whether the condition reads the fluent of a ground fluent, which is sensed to have a value.
fn is_touched_by_sensing(agent: &Agent, cond: &Cond, fluent: u32, value: u8) -> bool
    requires agent { WellFormed agent.now }
    requires value { IsTrue (is_value agent.now fluent value) }
    ensures reads { result ≡ spec_touches agent.now (Event.Sensed fluent value) cond.now }
    ensures stays { result ≡ false → IsRegressed agent.now (Event.Sensed fluent value ∷ []) cond.now cond.now }
{
    let ground = fluent_of(agent, fluent);
    reads(cond, ground.item)
}

/// Whether the event may change a fluent that the condition reads. One that it doesn't touch has the same
/// truth before the event and after it. Takes no memory.
pub fn touches(agent: &Agent, cond: &Cond, event: Event) -> bool
    requires agent { WellFormed agent.now }
    requires event { EventFits agent.now event }
    ensures reads { result ≡ spec_touches agent.now event cond.now }
    ensures stays { result ≡ false → IsRegressed agent.now (event ∷ []) cond.now cond.now }
{
    match event {
        Event::Did(action) => is_touched_by_action(agent, cond, action),
        Event::Sensed { fluent, value } => is_touched_by_sensing(agent, cond, fluent, value),
    }
}
