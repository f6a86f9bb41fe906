// The items `fluent` and `start`.
ghost use Rattle.std.specs.Prelude.{◌≡◌, []};
ghost use Rattle.golog_theory.specs.Reading.{Answers, each, row};
ghost use Rattle.golog_theory.specs.Draft.{IsDraft};
ghost use Rattle.golog_theory.specs.Fluents.{sorts_of, constant_arg, start_value, fluent_of, fluent_item, constants_of, ground_of, is_started, start_item};
ghost use Rattle.golog_theory.specs.Parts.{sort_of};

use crate::draft::Draft;
use crate::fault::{
    COUNT, DUPLICATE, TheoryFault, UNKNOWN_FORM, UNKNOWN_NAME, refuse_where, unknown_form,
};
use crate::heads::{Called, arguments, fluent_named, head_word, item_called};
use crate::indexed::Indexed;
use crate::limits::ARGUMENTS;
use crate::parts::{arg_of, new_name, parts, sort_of, word};
use golog_base::{List, both, is_name};
use golog_form::Form;
use golog_tree::{DraftArg, DraftFluent, DraftStart, Place};
use std::alloc::Global;

#[tactic(auto, using(crate::proofs::Each::laws))]
fn each_sort_of(
    alloc: Global,
    theory: &Indexed<'_>,
    forms: &[Form],
) -> Result<List<u32>, TheoryFault>
    ensures { Answers result (each (λ _. sort_of theory.now) [] forms.now) }
{
    let mut sorts = List::new(alloc);
    for form in forms {
        sorts.push(sort_of(theory, form)?)?;
    }
    Ok(sorts)
}

/// `(SORTS)`: the sorts of arguments.
#[tactic(auto, unfolding(crate::specs::Fluents::sorts_of))]
pub fn sorts_of(alloc: Global, theory: &Indexed<'_>, form: &Form) -> Result<List<u32>, TheoryFault>
    ensures { Answers result (sorts_of theory.now form.now) }
{
    refuse_where(form.items().is_none(), UNKNOWN_FORM, form.at())?;
    refuse_where(parts(form).len() > ARGUMENTS, COUNT, form.at())?;
    each_sort_of(alloc, theory, parts(form))
}

/// A constant.
#[tactic(auto, unfolding(crate::specs::Fluents::constant_arg))]
fn constant_arg(theory: &Indexed<'_>, form: &Form) -> Result<DraftArg, TheoryFault>
    ensures { Answers result (constant_arg theory.now form.now) }
{
    let text = word(form);
    refuse_where(
        is_name(text) && !theory.is_constant(text),
        UNKNOWN_NAME,
        form.at(),
    )?;
    arg_of(form)
}

/// A constant, or nothing for `unknown`.
#[tactic(auto, unfolding(crate::specs::Fluents::start_value))]
fn start_value(theory: &Indexed<'_>, form: &Form) -> Result<Option<DraftArg>, TheoryFault>
    ensures { Answers result (start_value theory.now form.now) }
{
    if word(form) == b"unknown".as_slice() {
        return Ok(None);
    }
    let arg = constant_arg(theory, form)?;
    Ok(Some(arg))
}

/// `(fluent NAME (SORTS) SORT)`
#[tactic(auto, unfolding(crate::specs::Fluents::fluent_of))]
fn fluent_of(
    alloc: Global,
    theory: &Indexed<'_>,
    at: Place,
    name: &Form,
    sorts: &Form,
    sort: &Form,
) -> Result<DraftFluent, TheoryFault>
    ensures { Answers result (fluent_of theory.now at name.now sorts.now sort.now) }
{
    let name = new_name(theory, name)?;
    let (args, sort) = both(sorts_of(alloc, theory, sorts), sort_of(theory, sort))?;
    Ok(DraftFluent {
        name,
        args,
        sort,
        at,
    })
}

/// A fluent, and the start value of all its ground fluents, where it is known.
#[derive(Drop)]
pub struct FluentItem {
    pub fluent: DraftFluent,
    pub value: Option<DraftArg>,
}

/// A `fluent` item, with or without a start value.
#[tactic(auto, unfolding(crate::specs::Fluents::fluent_item))]
pub fn fluent_item(
    alloc: Global,
    theory: &Indexed<'_>,
    at: Place,
    parts: &[Form],
) -> Result<FluentItem, TheoryFault>
    ensures { Answers result (fluent_item theory.now at parts.now) }
{
    match parts {
        [name, sorts, sort] => {
            let fluent = fluent_of(alloc, theory, at, name, sorts, sort)?;
            Ok(FluentItem {
                fluent,
                value: None,
            })
        }
        [name, sorts, sort, value] => {
            let fluent = fluent_of(alloc, theory, at, name, sorts, sort);
            let (fluent, value) = both(fluent, start_value(theory, value))?;
            Ok(FluentItem { fluent, value })
        }
        _ => Err(unknown_form(at)),
    }
}

/// The constants in a list of arguments.
#[tactic(auto, using(crate::proofs::Each::laws), unfolding(crate::specs::Fluents::constants_of))]
fn constants_of(
    alloc: Global,
    theory: &Indexed<'_>,
    forms: &[Form],
) -> Result<List<DraftArg>, TheoryFault>
    ensures { Answers result (constants_of theory.now forms.now) }
{
    let mut args = List::new(alloc);
    for form in forms {
        args.push(constant_arg(theory, form)?)?;
    }
    Ok(args)
}

/// `(FLUENT CONSTANTS)`
#[tactic(auto, unfolding(crate::specs::Fluents::ground_of))]
fn ground_of(alloc: Global, theory: &Indexed<'_>, form: &Form) -> Result<Called, TheoryFault>
    ensures { Answers result (ground_of theory.now form.now) }
{
    let item = item_called(form, fluent_named(theory, head_word(form)))?;
    let args = constants_of(alloc, theory, arguments(form))?;
    Ok(Called { item, args })
}

/// The value that a `start` item gives its fluent at these constants, where no item before gives one.
fn value_of(
    draft: &Draft,
    at: Place,
    fluent: u32,
    args: &[DraftArg],
    value: &Form,
) -> Result<Option<DraftArg>, TheoryFault>
    requires { IsDraft draft.now }
    ensures { Answers result (row (is_started draft.now.theory fluent args.now) DUPLICATE at
        (start_value draft.now.theory value.now)) }
{
    let started = draft.is_started(fluent, args)?;
    refuse_where(started, DUPLICATE, at)?;
    start_value(&draft.indexed(), value)
}

/// `(start (FLUENT CONSTANTS) CONSTANT)`
#[tactic(auto, unfolding(crate::specs::Fluents::start_item))]
pub fn start_item(
    alloc: Global,
    draft: &Draft,
    at: Place,
    parts: &[Form],
) -> Result<DraftStart, TheoryFault>
    requires { IsDraft draft.now }
    ensures { Answers result (start_item draft.now.theory at parts.now) }
{
    let [fluent, value] = parts else {
        return Err(unknown_form(at));
    };
    let Called { item, args } = ground_of(alloc, &draft.indexed(), fluent)?;
    let value = value_of(draft, at, item, args.as_slice(), value);
    let (args, value) = both(Ok(args), value)?;
    Ok(DraftStart::One {
        fluent: item,
        args,
        value,
        at,
    })
}
