// The parts of a form; names, numbers, sorts and arguments.
ghost use Rattle.std.specs.Prelude.{◌≡◌, [], ◌∷◌, MatchResult, MatchOption, IsTrue};
ghost use Rattle.golog_base.specs.Names.{is_name};
ghost use Rattle.golog_theory.specs.Reading.{Answers};
ghost use Rattle.golog_theory.specs.Parts.{word, parts, short_name, new_name, sort_of, number_of, arg_of};
ghost use Rattle.golog_theory.specs.declared.fault.TheoryFault.TheVariants.{Memory};

use crate::fault::{
    COUNT, DUPLICATE, NUMBER_RANGE, TheoryFault, UNKNOWN_FORM, UNKNOWN_SORT, refuse_where,
};
use crate::indexed::Indexed;
use golog_base::{Word, is_name, is_number, value};
use golog_form::Form;
use golog_tree::DraftArg;

/// The text of an atom, and no text for a list.
pub fn word(form: &Form) -> &[u8]
    ensures { result.now ≡ word form.now }
{
    match form.atom() {
        Some(text) => text,
        None => &[],
    }
}

/// The parts of a list, and none for an atom.
pub fn parts(form: &Form) -> &[Form]
    ensures { result.now ≡ parts form.now }
{
    match form.items() {
        Some(items) => items,
        None => &[],
    }
}

/// The first part of a list and the others, and nothing for an atom or the empty list.
pub fn split_list(form: &Form) -> Option<(&Form, &[Form])>
    ensures { MatchOption result (parts form.now ≡ []) (λ split. parts form.now ≡ split.0.now ∷ split.1.now) }
{
    parts(form).split_first()
}

/// The number of an item as it stands in a draft. More items than a `u32` counts are as many as no memory
/// holds.
pub fn item_no(index: usize) -> Result<u32, TheoryFault>
    ensures { MatchResult result (λ number. number ≡ index) (λ fault. fault ≡ Memory) }
{
    match u32::try_from(index) {
        Ok(number) => Ok(number),
        Err(_) => Err(TheoryFault::Memory),
    }
}

/// A name that is short enough.
#[tactic(auto, unfolding(crate::specs::Parts::short_name))]
pub fn short_name(form: &Form) -> Result<Word, TheoryFault>
    requires { IsTrue (is_name (word form.now)) }
    ensures { Answers result (short_name form.now) }
{
    match Word::of(word(form)) {
        Some(name) => Ok(name),
        None => Err(TheoryFault::Refused {
            code: COUNT,
            at: form.at(),
        }),
    }
}

/// A name that an item declares.
#[tactic(auto, unfolding(crate::specs::Parts::new_name))]
pub fn new_name(theory: &Indexed<'_>, form: &Form) -> Result<Word, TheoryFault>
    ensures { Answers result (new_name theory.now form.now) }
{
    let name = word(form);
    refuse_where(!is_name(name), UNKNOWN_FORM, form.at())?;
    refuse_where(theory.is_taken(name), DUPLICATE, form.at())?;
    short_name(form)
}

/// The number of a sort.
#[tactic(auto, unfolding(crate::specs::Parts::sort_of))]
pub fn sort_of(theory: &Indexed<'_>, form: &Form) -> Result<u32, TheoryFault>
    ensures { Answers result (sort_of theory.now form.now) }
{
    let name = word(form);
    refuse_where(!is_name(name), UNKNOWN_FORM, form.at())?;
    match theory.sort_no(name) {
        Some(sort) => item_no(sort),
        None => Err(TheoryFault::Refused {
            code: UNKNOWN_SORT,
            at: form.at(),
        }),
    }
}

/// A number.
#[tactic(auto, unfolding(crate::specs::Parts::number_of))]
pub fn number_of(form: &Form) -> Result<i32, TheoryFault>
    ensures { Answers result (number_of form.now) }
{
    let text = word(form);
    refuse_where(!is_number(text), UNKNOWN_FORM, form.at())?;
    value(text).ok_or(TheoryFault::Refused {
        code: NUMBER_RANGE,
        at: form.at(),
    })
}

/// A word or a number in a term place.
#[tactic(auto, unfolding(crate::specs::Parts::arg_of))]
pub fn arg_of(form: &Form) -> Result<DraftArg, TheoryFault>
    ensures { Answers result (arg_of form.now) }
{
    let at = form.at();
    if is_name(word(form)) {
        let word = short_name(form)?;
        return Ok(DraftArg::Word { word, at });
    }
    let number = number_of(form)?;
    Ok(DraftArg::Number { number, at })
}
