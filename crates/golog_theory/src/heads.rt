// What is named, with as many arguments as it has (`Callee`), and `(FLUENT ARGS)`, `(ACTION ARGS)`
// and `(ACTION VARS)`.
ghost use Rattle.std.specs.Prelude.{◌≡◌, []};
ghost use Rattle.golog_theory.specs.Reading.{Answers, each};
ghost use Rattle.golog_theory.specs.Heads.{head_word, head_place, arguments, args_of, fluent_named, action_named, allowed_action, declared_with, called, fluent_called, action_called, var_of, schema_of};

use crate::fault::{ARITY, DUPLICATE, TheoryFault, UNKNOWN_FORM, refuse_where, unknown_name};
use crate::indexed::Indexed;
use crate::names::{Actions, is_among};
use crate::parts::{arg_of, item_no, parts, short_name, word};
use golog_base::{List, Word, is_name};
use golog_form::Form;
use golog_tree::{DraftArg, Place};
use std::alloc::Global;

/// The word that a list begins with, and no text where there is none.
pub fn head_word(form: &Form) -> &[u8]
    ensures { result.now ≡ head_word form.now }
{
    match parts(form).split_first() {
        Some((head, _arguments)) => word(head),
        None => &[],
    }
}

/// The place where the first part of a list begins.
pub fn head_place(form: &Form) -> Place
    ensures { result ≡ head_place form.now }
{
    match parts(form).split_first() {
        Some((head, _arguments)) => head.at(),
        None => form.at(),
    }
}

/// The parts behind the first.
pub fn arguments(form: &Form) -> &[Form]
    ensures { result.now ≡ arguments form.now }
{
    match parts(form).split_first() {
        Some((_head, arguments)) => arguments,
        None => &[],
    }
}

/// The words and numbers in a list of arguments.
#[tactic(auto, using(crate::proofs::Each::laws), unfolding(crate::specs::Heads::args_of))]
pub fn args_of(alloc: Global, forms: &[Form]) -> Result<List<DraftArg>, TheoryFault>
    ensures { Answers result (args_of forms.now) }
{
    let mut args = List::new(alloc);
    for form in forms {
        args.push(arg_of(form)?)?;
    }
    Ok(args)
}

/// A fluent, an action or a procedure by its number, and how many arguments it has.
#[derive(Clone, Copy)]
pub struct Callee {
    pub item: usize,
    pub arity: usize,
}

/// The fluent with the name.
#[tactic(auto, unfolding(crate::specs::Heads::fluent_named))]
pub fn fluent_named(theory: &Indexed<'_>, name: &[u8]) -> Option<Callee>
    ensures { result ≡ fluent_named theory.now name.now }
{
    let item = theory.fluent_no(name)?;
    Some(Callee {
        item,
        arity: theory.fluent_arity(item),
    })
}

/// The action with the name.
#[tactic(auto, unfolding(crate::specs::Heads::action_named))]
fn action_named(theory: &Indexed<'_>, name: &[u8]) -> Option<Callee>
    ensures { result ≡ action_named theory.now name.now }
{
    let item = theory.action_no(name)?;
    Some(Callee {
        item,
        arity: theory.action_arity(item),
    })
}

/// The action with the name, where it is one of these.
#[tactic(auto, unfolding(crate::specs::Heads::allowed_action))]
fn allowed_action(theory: &Indexed<'_>, actions: Actions, name: &[u8]) -> Option<Callee>
    ensures { result ≡ allowed_action theory.now actions name.now }
{
    let item = theory.action_no(name)?;
    if !theory.allows(actions, item) {
        return None;
    }
    Some(Callee {
        item,
        arity: theory.action_arity(item),
    })
}

/// The number of what is named at one place, where it has so many arguments, in a form at another.
#[tactic(auto, unfolding(crate::specs::Heads::declared_with))]
pub fn declared_with(
    at: Place,
    name: Place,
    count: usize,
    callee: Option<Callee>,
) -> Result<u32, TheoryFault>
    ensures { Answers result (declared_with at name count callee) }
{
    let Some(Callee { item, arity }) = callee else {
        return Err(unknown_name(name));
    };
    refuse_where(count != arity, ARITY, at)?;
    item_no(item)
}

/// The number of the fluent or action that a list begins with, where it has as many arguments as the list.
#[tactic(auto, unfolding(crate::specs::Heads::called))]
pub fn item_called(form: &Form, callee: Option<Callee>) -> Result<u32, TheoryFault>
    ensures { Answers result (called form.now callee) }
{
    refuse_where(!is_name(head_word(form)), UNKNOWN_FORM, form.at())?;
    declared_with(form.at(), head_place(form), arguments(form).len(), callee)
}

/// A fluent or an action, and its arguments.
#[derive(Drop)]
pub struct Called {
    pub item: u32,
    pub args: List<DraftArg>,
}

/// `(FLUENT ARGS)`
#[tactic(auto, unfolding(crate::specs::Heads::fluent_called))]
pub fn fluent_called(
    alloc: Global,
    theory: &Indexed<'_>,
    form: &Form,
) -> Result<Called, TheoryFault>
    ensures { Answers result (fluent_called theory.now form.now) }
{
    let item = item_called(form, fluent_named(theory, head_word(form)))?;
    let args = args_of(alloc, arguments(form))?;
    Ok(Called { item, args })
}

/// `(ACTION ARGS)`
#[tactic(auto, unfolding(crate::specs::Heads::action_called))]
pub fn action_called(
    alloc: Global,
    theory: &Indexed<'_>,
    form: &Form,
) -> Result<Called, TheoryFault>
    ensures { Answers result (action_called theory.now form.now) }
{
    let item = item_called(form, action_named(theory, head_word(form)))?;
    let args = args_of(alloc, arguments(form))?;
    Ok(Called { item, args })
}

/// A word for an argument of an action, behind those before it.
#[tactic(auto, unfolding(crate::specs::Heads::var_of))]
fn var_of(theory: &Indexed<'_>, before: &[Word], form: &Form) -> Result<Word, TheoryFault>
    ensures { Answers result (var_of theory.now before.now form.now) }
{
    let name = word(form);
    refuse_where(
        !is_name(name) || theory.is_constant(name),
        UNKNOWN_FORM,
        form.at(),
    )?;
    refuse_where(is_among(name, before), DUPLICATE, form.at())?;
    short_name(form)
}

#[tactic(auto, using(crate::proofs::Each::laws))]
fn vars_of(alloc: Global, theory: &Indexed<'_>, forms: &[Form]) -> Result<List<Word>, TheoryFault>
    ensures { Answers result (each (var_of theory.now) [] forms.now) }
{
    let mut vars = List::new(alloc);
    for form in forms {
        let var = var_of(theory, vars.as_slice(), form)?;
        vars.push(var)?;
    }
    Ok(vars)
}

/// An action, and a word for each of its arguments.
#[derive(Drop)]
pub struct Schema {
    pub action: u32,
    pub vars: List<Word>,
}

/// `(ACTION VARS)`, the action being one of these.
#[tactic(auto, unfolding(crate::specs::Heads::schema_of))]
pub fn schema_of(
    alloc: Global,
    theory: &Indexed<'_>,
    actions: Actions,
    form: &Form,
) -> Result<Schema, TheoryFault>
    ensures { Answers result (schema_of theory.now actions form.now) }
{
    let action = item_called(form, allowed_action(theory, actions, head_word(form)))?;
    let vars = vars_of(alloc, theory, arguments(form))?;
    Ok(Schema { action, vars })
}
