// What is built in: the sort `bool`, the fluent `interrupts_running`, and the actions
// `start_interrupts` and `stop_interrupts` with their effects.
ghost use Rattle.std.specs.Prelude.{◌≡◌, [], ◌∷◌, IfOk};
ghost use Rattle.golog_base.specs.Names.{IsWord};
ghost use Rattle.golog_draft.specs.Drafts.{draft_bool, draft_own_action, draft_sets_running};
ghost use Rattle.golog_theory.specs.Items.{built_in};

use golog_base::{List, NoMemory, Word, both};
use golog_tree::{
    DraftAction, DraftArg, DraftCause, DraftCond, DraftFluent, DraftSort, DraftStart, DraftTerm,
    DraftTheory,
};
use std::alloc::Global;

/// A word that is built in.
fn word_of(text: &[u8]) -> Word
    requires { IsWord text.now }
    ensures { result ≡ text.now }
{
    Word::of(text).unwrap()
}

fn bool_sort(alloc: Global) -> Result<DraftSort, NoMemory>
    ensures { IfOk result (λ sort. sort ≡ draft_bool) }
{
    let constants = pair(alloc, word_of(b"false"), word_of(b"true"))?;
    Ok(DraftSort::Listed {
        name: word_of(b"bool"),
        constants,
        at: 0,
    })
}

/// An action without arguments that is built in.
fn action(alloc: Global, name: Word) -> DraftAction
    ensures { result ≡ draft_own_action name }
{
    DraftAction {
        name,
        args: List::new(alloc),
        device: None,
        posters: List::new(alloc),
        at: 0,
    }
}

/// The action makes the fluent that is built in so.
fn cause(alloc: Global, action: u32, value: Word) -> DraftCause
    ensures { result ≡ draft_sets_running action value }
{
    DraftCause {
        action,
        action_args: List::new(alloc),
        fluent: 0,
        fluent_args: List::new(alloc),
        term: DraftTerm::Arg(DraftArg::Word { word: value, at: 0 }),
        cond: DraftCond::Truth { truth: true, at: 0 },
        at: 0,
    }
}

fn alone<T: Drop>(alloc: Global, item: T) -> Result<List<T>, NoMemory>
    ensures { IfOk result (λ list. list ≡ item ∷ []) }
{
    let mut list = List::new(alloc);
    list.push(item)?;
    Ok(list)
}

fn pair<T: Drop>(alloc: Global, one: T, other: T) -> Result<List<T>, NoMemory>
    ensures { IfOk result (λ list. list ≡ one ∷ other ∷ []) }
{
    let mut list = alone(alloc, one)?;
    list.push(other)?;
    Ok(list)
}

#[tactic(auto, unfolding(crate::specs::Items::built_in))]
fn sorts(alloc: Global) -> Result<List<DraftSort>, NoMemory>
    ensures { IfOk result (λ list. list ≡ built_in.sorts) }
{
    alone(alloc, bool_sort(alloc)?)
}

#[tactic(auto, unfolding(crate::specs::Items::built_in))]
fn fluents(alloc: Global) -> Result<List<DraftFluent>, NoMemory>
    ensures { IfOk result (λ list. list ≡ built_in.fluents) }
{
    let fluent = DraftFluent {
        name: word_of(b"interrupts_running"),
        args: List::new(alloc),
        sort: 0,
        at: 0,
    };
    alone(alloc, fluent)
}

#[tactic(auto, unfolding(crate::specs::Items::built_in))]
fn actions(alloc: Global) -> Result<List<DraftAction>, NoMemory>
    ensures { IfOk result (λ list. list ≡ built_in.actions) }
{
    let start = action(alloc, word_of(b"start_interrupts"));
    pair(alloc, start, action(alloc, word_of(b"stop_interrupts")))
}

#[tactic(auto, unfolding(crate::specs::Items::built_in))]
fn causes(alloc: Global) -> Result<List<DraftCause>, NoMemory>
    ensures { IfOk result (λ list. list ≡ built_in.causes) }
{
    let start = cause(alloc, 0, word_of(b"true"));
    pair(alloc, start, cause(alloc, 1, word_of(b"false")))
}

#[tactic(auto, unfolding(crate::specs::Items::built_in))]
fn starts(alloc: Global) -> Result<List<DraftStart>, NoMemory>
    ensures { IfOk result (λ list. list ≡ built_in.starts) }
{
    let word = word_of(b"false");
    let start = DraftStart::Each {
        fluent: 0,
        value: Some(DraftArg::Word { word, at: 0 }),
        at: 0,
    };
    alone(alloc, start)
}

/// What is built in: the sort `bool`, the fluent `interrupts_running`, which starts false, and the actions
/// that make it true and false.
#[tactic(auto, unfolding(crate::specs::Items::built_in))]
pub fn built_in(alloc: Global) -> Result<DraftTheory, NoMemory>
    ensures { IfOk result (λ theory. theory ≡ built_in) }
{
    let named = both(sorts(alloc), both(fluents(alloc), actions(alloc)));
    let rules = both(causes(alloc), starts(alloc));
    let ((sorts, (fluents, actions)), (causes, starts)) = both(named, rules)?;
    Ok(DraftTheory {
        sorts,
        fluents,
        actions,
        devices: List::new(alloc),
        poss: List::new(alloc),
        causes,
        senses: List::new(alloc),
        starts,
    })
}
