// `theory_of` and `condition_of`; what each item spells is added to the theory.
ghost use Rattle.std.specs.Prelude.{◌≡◌, OnOk, IfOk, MatchResult, Err};
ghost use Rattle.golog_theory.specs.declared.fault.TheoryFault.TheVariants.{Memory};
ghost use Rattle.golog_draft.specs.Drafts.{TheoryKeeps, CondKeeps};
ghost use Rattle.golog_draft.specs.DraftOrder.{IsAscending, TheoryInOrder};
ghost use Rattle.golog_draft.specs.DraftPlaces.{cond_places};
ghost use Rattle.golog_theory.specs.Reading.{Answers, IsFirstRow, Leaves};
ghost use Rattle.golog_form.specs.Places.{IsInOrder};
ghost use Rattle.golog_theory.specs.Order.{IsLeastRow};
ghost use Rattle.golog_theory.specs.Conditions.{cond_of};
ghost use Rattle.golog_theory.specs.Draft.{IsDraft};
ghost use Rattle.golog_theory.specs.Items.{fluent_read, read_as, item_read, items_read, built_in, theory_of};

use crate::actions::{action_item, device_item, exo_item};
use crate::conditions::cond_of;
use crate::draft::{Draft, Entry};
use crate::effects::{causes_item, poss_item, senses_item};
use crate::fault::{TheoryFault, UNKNOWN_FORM, refuse_where, unknown_form};
use crate::fluents::{FluentItem, fluent_item, start_item};
use crate::heads::{arguments, head_word};
use crate::index::Index;
use crate::indexed::Indexed;
use crate::keyword::{ItemKeyword, item_keyword};
use crate::parts::item_no;
use crate::sorts::sort_item;
use golog_form::Form;
use golog_tree::{DraftCond, DraftStart, DraftTheory, Place};
use std::alloc::Global;

/// Adds what an item spells, unless it is refused.
fn read<T: Entry + Drop>(
    draft: &mut Draft,
    entry: Result<T, TheoryFault>,
) -> Result<(), TheoryFault>
    requires { IsDraft draft.old }
    ensures added { MatchResult entry
        (λ entry. MatchResult result (λ _. draft.new.theory ≡ T.added draft.old.theory entry) (λ fault. fault ≡ Memory))
        (λ fault. result ≡ Err fault) }
    ensures kept { OnOk result (IsDraft draft.new) }
{
    let entry = entry?;
    entry.add_to(draft)?;
    Ok(())
}

/// Adds a `fluent` item, and the start value that it gives.
#[tactic(auto, unfolding(crate::specs::Items::fluent_read))]
fn read_fluent(
    alloc: Global,
    draft: &mut Draft,
    at: Place,
    parts: &[Form],
) -> Result<(), TheoryFault>
    requires { IsDraft draft.old }
    ensures read { Leaves result draft.new.theory (fluent_read draft.old.theory at parts.now) }
    ensures kept { OnOk result (IsDraft draft.new) }
{
    let number = item_no(draft.theory().fluents.len())?;
    let FluentItem { fluent, value } = fluent_item(alloc, &draft.indexed(), at, parts)?;
    fluent.add_to(draft)?;
    let start = DraftStart::Each {
        fluent: number,
        value,
        at,
    };
    start.add_to(draft)?;
    Ok(())
}

/// Adds an item by its keyword. A `proc` or a `main` is passed over.
#[tactic(auto, unfolding(crate::specs::Items::read_as))]
fn read_item(
    alloc: Global,
    draft: &mut Draft,
    at: Place,
    keyword: ItemKeyword,
    parts: &[Form],
) -> Result<(), TheoryFault>
    requires { IsDraft draft.old }
    ensures read { Leaves result draft.new.theory (read_as draft.old.theory at keyword parts.now) }
    ensures kept { OnOk result (IsDraft draft.new) }
{
    match keyword {
        ItemKeyword::Sort => {
            let sort = sort_item(alloc, &draft.indexed(), at, parts);
            read(draft, sort)
        }
        ItemKeyword::Device => {
            let device = device_item(&draft.indexed(), at, parts);
            read(draft, device)
        }
        ItemKeyword::Fluent => read_fluent(alloc, draft, at, parts),
        ItemKeyword::Start => {
            let start = start_item(alloc, draft, at, parts);
            read(draft, start)
        }
        ItemKeyword::Action => {
            let action = action_item(alloc, &draft.indexed(), at, parts);
            read(draft, action)
        }
        ItemKeyword::Exo => {
            let action = exo_item(alloc, &draft.indexed(), at, parts);
            read(draft, action)
        }
        ItemKeyword::Poss => {
            let poss = poss_item(alloc, draft, at, parts);
            read(draft, poss)
        }
        ItemKeyword::Causes => {
            let cause = causes_item(alloc, &draft.indexed(), at, parts);
            read(draft, cause)
        }
        ItemKeyword::Senses => {
            let sense = senses_item(alloc, &draft.indexed(), at, parts);
            read(draft, sense)
        }
        ItemKeyword::Proc | ItemKeyword::Main => Ok(()),
    }
}

/// Adds an item by its first word.
fn read_form(alloc: Global, draft: &mut Draft, form: &Form) -> Result<(), TheoryFault>
    requires { IsDraft draft.old }
    ensures read { Leaves result draft.new.theory (item_read draft.old.theory form.now) }
    ensures kept { OnOk result (IsDraft draft.new) }
{
    match item_keyword(head_word(form)) {
        Some(keyword) => read_item(alloc, draft, form.at(), keyword, arguments(form)),
        None => Err(unknown_form(form.at())),
    }
}

/// Adds items, one after another.
#[tactic(auto, using(crate::proofs::Theory::laws))]
fn read_forms(alloc: Global, draft: &mut Draft, items: &[Form]) -> Result<(), TheoryFault>
    requires { IsDraft draft.old }
    ensures { Leaves result draft.new.theory (items_read draft.old.theory items.now) }
{
    for item in items {
        read_form(alloc, draft, item)?;
    }
    Ok(())
}

/// The theory that these items make of what is built in, one after another. It is refused as by `theory_of`.
/// `Memory` where memory runs out.
pub fn theory_of_items(alloc: Global, items: &[Form]) -> Result<DraftTheory, TheoryFault>
    ensures { Answers result (items_read built_in items.now) }
{
    let mut draft = Draft::built_in(alloc)?;
    match read_forms(alloc, &mut draft, items) {
        Ok(()) => Ok(draft.into_theory()),
        Err(fault) => {
            drop(draft);
            Err(fault)
        }
    }
}

/// The theory that an agent's form spells.
#[tactic(auto, unfolding(crate::specs::Items::theory_of))]
fn read_theory(alloc: Global, form: &Form) -> Result<DraftTheory, TheoryFault>
    ensures { Answers result (theory_of form.now) }
{
    refuse_where(
        head_word(form) != b"agent".as_slice(),
        UNKNOWN_FORM,
        form.at(),
    )?;
    theory_of_items(alloc, arguments(form))
}

/// The theory that an agent's form spells: its items but `proc` and `main`, behind what is built in. It is
/// refused with the code and the place of the first row that fits, in reading order, which is the least of
/// those that fit where the parts of the form stand in order: 20 where a form has not a shape of the grammar
/// for its place, 21 a name that is taken or reserved, a second item of one thing or a variable twice in one
/// head, 22 a sort and 23 another name that is not declared, 24 a wrong number of arguments, 25 a limit that
/// is passed, 26 a number out of range. `Memory` where memory runs out. Where the parts stand in order, as a
/// parser leaves them, the theory keeps all rules for drafts. The places of its fluents and of its actions
/// then stand in order too, and those within each start value, precondition, effect and sensing item ascend.
#[tactic(auto, using(crate::proofs::Theory::laws, crate::proofs::Ordered::laws, crate::proofs::Laws::laws, crate::proofs::PlacesOfTheory::laws))]
pub fn theory_of(alloc: Global, form: &Form) -> Result<DraftTheory, TheoryFault>
    ensures read { Answers result (theory_of form.now) }
    ensures first { IsFirstRow result (theory_of form.now).rows }
    ensures least { IsInOrder form.now → IsLeastRow result (theory_of form.now).rows }
    ensures keeps { IsInOrder form.now → IfOk result TheoryKeeps }
    ensures in_order { IsInOrder form.now → IfOk result TheoryInOrder }
{
    read_theory(alloc, form)
}

/// The condition that a form spells over a theory, with no variable around it.
fn read_condition(
    alloc: Global,
    theory: &DraftTheory,
    form: &Form,
) -> Result<DraftCond, TheoryFault>
    ensures { Answers result (cond_of theory.now form.now 0) }
{
    let index = Index::of(alloc, theory)?;
    let cond = cond_of(alloc, &Indexed::new(theory, &index), form, 0);
    drop(index);
    cond
}

/// The condition that a form spells over a theory, with no variable around it. It is refused with the code
/// and the place of the first row that fits, in reading order, with the codes of `theory_of`. `Memory` where
/// memory runs out. Where the parts of the form stand in order, the places in the condition ascend.
#[tactic(auto, using(crate::proofs::Ordered::laws, crate::proofs::Laws::laws, crate::proofs::PlacesOfTheory::laws))]
pub fn condition_of(
    alloc: Global,
    theory: &DraftTheory,
    form: &Form,
) -> Result<DraftCond, TheoryFault>
    ensures read { Answers result (cond_of theory.now form.now 0) }
    ensures least { IsInOrder form.now → IsLeastRow result (cond_of theory.now form.now 0).rows }
    ensures keeps { IfOk result (CondKeeps theory.now) }
    ensures in_order { IsInOrder form.now → IfOk result (λ cond. IsAscending (cond_places cond)) }
{
    read_condition(alloc, theory, form)
}
