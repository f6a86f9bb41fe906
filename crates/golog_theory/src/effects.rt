// The items `poss`, `causes` and `senses`.
ghost use Rattle.std.specs.Prelude.{◌≡◌, IfOk, OnOk};
ghost use Rattle.golog_theory.specs.Reading.{Answers};
ghost use Rattle.golog_theory.specs.Conditions.{cond_of};
ghost use Rattle.golog_theory.specs.Draft.{IsDraft};
ghost use Rattle.golog_theory.specs.Effects.{is_restricted, poss_item, is_new_variable, variable_after, variables_after, variable_count, effect_of, cause_of, conditional_of, causes_item, sense_of, senses_item};

use crate::conditions::cond_of;
use crate::draft::Draft;
use crate::fault::{COUNT, DUPLICATE, TheoryFault, UNKNOWN_FORM, refuse_where, unknown_form};
use crate::heads::{Called, Schema, action_called, fluent_called, head_word, schema_of};
use crate::indexed::Indexed;
use crate::limits::{BUILT_IN, CAUSES};
use crate::names::{Actions, is_among};
use crate::parts::word;
use crate::terms::term_of;
use golog_base::{List, NoMemory, Word, both};
use golog_form::Form;
use golog_tree::{DraftArg, DraftCause, DraftCond, DraftPoss, DraftSense, DraftTerm, Place};
use std::alloc::Global;

/// Whether a precondition of the action with the name stands already.
#[tactic(auto, unfolding(crate::specs::Effects::is_restricted))]
fn is_restricted(draft: &Draft, name: &[u8]) -> bool
    requires { IsDraft draft.now }
    ensures { result ≡ is_restricted draft.now.theory name.now }
{
    match draft.indexed().action_no(name) {
        Some(action) => draft.has_poss(action),
        None => false,
    }
}

/// `(poss (ACTION VARS) COND)`
#[tactic(auto, unfolding(crate::specs::Effects::poss_item))]
pub fn poss_item(
    alloc: Global,
    draft: &Draft,
    at: Place,
    parts: &[Form],
) -> Result<DraftPoss, TheoryFault>
    requires { IsDraft draft.now }
    ensures { Answers result (poss_item draft.now.theory at parts.now) }
{
    let [schema, cond] = parts else {
        return Err(unknown_form(at));
    };
    refuse_where(is_restricted(draft, head_word(schema)), DUPLICATE, at)?;
    let theory = draft.indexed();
    let Schema { action, vars } = schema_of(alloc, &theory, Actions::OfProgram, schema)?;
    let cond = cond_of(alloc, &theory, cond, vars.len());
    let (vars, cond) = both(Ok(vars), cond)?;
    Ok(DraftPoss {
        action,
        vars,
        cond,
        at,
    })
}

/// Whether the word is a variable that is not among these.
#[tactic(auto, unfolding(crate::specs::Effects::is_new_variable))]
fn is_new_variable(theory: &Indexed<'_>, vars: &[Word], word: &[u8]) -> bool
    ensures { result ≡ is_new_variable theory.now vars.now word.now }
{
    !(theory.is_constant(word) || is_among(word, vars))
}

fn add_variable(theory: &Indexed<'_>, vars: &mut List<Word>, arg: &DraftArg) -> Result<(), NoMemory>
    ensures { OnOk result (vars.new ≡ variable_after theory.now vars.old arg.now) }
{
    match arg {
        DraftArg::Word { word, .. } if is_new_variable(theory, vars.as_slice(), word.as_bytes()) =>
            { vars.push(*word) }
        _ => Ok(()),
    }
}

/// Adds the words among the arguments that are no constants, each once.
#[tactic(auto, using(crate::proofs::Variables::laws))]
fn add_variables(
    theory: &Indexed<'_>,
    vars: &mut List<Word>,
    args: &[DraftArg],
) -> Result<(), NoMemory>
    ensures { OnOk result (vars.new ≡ variables_after theory.now vars.old args.now) }
{
    for arg in args {
        add_variable(theory, vars, arg)?;
    }
    Ok(())
}

/// An effect without its condition.
#[derive(Drop)]
pub struct Effect {
    pub action: Called,
    pub fluent: Called,
    pub term: DraftTerm,
}

impl Effect {
    /// How many variables stand among the arguments of its action and its fluent.
    #[tactic(auto, unfolding(crate::specs::Effects::variable_count))]
    fn variable_count(&self, alloc: Global, theory: &Indexed<'_>) -> Result<usize, NoMemory>
        ensures { IfOk result (λ count. count ≡ variable_count theory.now self.now) }
    {
        let mut vars = List::new(alloc);
        add_variables(theory, &mut vars, self.action.args.as_slice())?;
        add_variables(theory, &mut vars, self.fluent.args.as_slice())?;
        Ok(vars.len())
    }

    /// The condition that the form spells within the variables of the effect.
    fn cond_of(
        &self,
        alloc: Global,
        theory: &Indexed<'_>,
        form: &Form,
    ) -> Result<DraftCond, TheoryFault>
        ensures { Answers result (cond_of theory.now form.now (variable_count theory.now self.now)) }
    {
        let scope = self.variable_count(alloc, theory)?;
        cond_of(alloc, theory, form, scope)
    }

    fn under(self, cond: DraftCond, at: Place) -> DraftCause
        ensures { result ≡ cause_of at self cond }
    {
        let Effect {
            action,
            fluent,
            term,
        } = self;
        DraftCause {
            action: action.item,
            action_args: action.args,
            fluent: fluent.item,
            fluent_args: fluent.args,
            term,
            cond,
            at,
        }
    }
}

/// `(ACTION ARGS) (FLUENT ARGS) TERM`
#[tactic(auto, unfolding(crate::specs::Effects::effect_of))]
fn effect_of(
    alloc: Global,
    theory: &Indexed<'_>,
    action: &Form,
    fluent: &Form,
    term: &Form,
) -> Result<Effect, TheoryFault>
    ensures { Answers result (effect_of theory.now action.now fluent.now term.now) }
{
    let value = both(
        fluent_called(alloc, theory, fluent),
        term_of(alloc, theory, term),
    );
    let (action, (fluent, term)) = both(action_called(alloc, theory, action), value)?;
    Ok(Effect {
        action,
        fluent,
        term,
    })
}

/// `(ACTION ARGS) (FLUENT ARGS) TERM COND`
fn conditional_of(
    alloc: Global,
    theory: &Indexed<'_>,
    at: Place,
    action: &Form,
    fluent: &Form,
    term: &Form,
    cond: &Form,
) -> Result<DraftCause, TheoryFault>
    ensures { Answers result (conditional_of theory.now at action.now fluent.now term.now cond.now) }
{
    let effect = effect_of(alloc, theory, action, fluent, term)?;
    let cond = effect.cond_of(alloc, theory, cond);
    let (effect, cond) = both(Ok(effect), cond)?;
    Ok(effect.under(cond, at))
}

/// `(causes (ACTION ARGS) (FLUENT ARGS) TERM)`, or with a COND last.
#[tactic(auto, unfolding(crate::specs::Effects::causes_item))]
pub fn causes_item(
    alloc: Global,
    theory: &Indexed<'_>,
    at: Place,
    parts: &[Form],
) -> Result<DraftCause, TheoryFault>
    ensures { Answers result (causes_item theory.now at parts.now) }
{
    match parts {
        [action, fluent, term] => {
            refuse_where(theory.causes().len() >= BUILT_IN + CAUSES, COUNT, at)?;
            let effect = effect_of(alloc, theory, action, fluent, term)?;
            Ok(effect.under(DraftCond::Truth { truth: true, at }, at))
        }
        [action, fluent, term, cond] => {
            refuse_where(theory.causes().len() >= BUILT_IN + CAUSES, COUNT, at)?;
            conditional_of(alloc, theory, at, action, fluent, term, cond)
        }
        _ => Err(unknown_form(at)),
    }
}

/// What the result of an action tells, and whether it may come later.
fn sense_of(
    alloc: Global,
    theory: &Indexed<'_>,
    at: Place,
    later: bool,
    schema: &Form,
    fluent: &Form,
) -> Result<DraftSense, TheoryFault>
    ensures { Answers result (sense_of theory.now at later schema.now fluent.now) }
{
    let schema = schema_of(alloc, theory, Actions::All, schema);
    let (schema, fluent) = both(schema, fluent_called(alloc, theory, fluent))?;
    Ok(DraftSense {
        action: schema.action,
        vars: schema.vars,
        fluent: fluent.item,
        args: fluent.args,
        later,
        at,
    })
}

/// `(senses (ACTION VARS) (FLUENT ARGS))`, or with the word `later` last.
#[tactic(auto, unfolding(crate::specs::Effects::senses_item))]
pub fn senses_item(
    alloc: Global,
    theory: &Indexed<'_>,
    at: Place,
    parts: &[Form],
) -> Result<DraftSense, TheoryFault>
    ensures { Answers result (senses_item theory.now at parts.now) }
{
    match parts {
        [schema, fluent] => sense_of(alloc, theory, at, false, schema, fluent),
        [schema, fluent, late] => {
            refuse_where(word(late) != b"later".as_slice(), UNKNOWN_FORM, at)?;
            sense_of(alloc, theory, at, true, schema, fluent)
        }
        _ => Err(unknown_form(at)),
    }
}
