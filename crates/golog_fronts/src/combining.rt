// Conditions put together: that both hold, that one does, that one doesn't, and by cases.
ghost use Rattle.std.specs.Prelude.{◌≡◌, [], ◌∷◌, IfOk};

use golog_base::{Boxed, List, NoMemory, both};
use golog_tree::{Cond, copy_cond};
use std::alloc::Global;

/// A list of two conditions.
fn two(alloc: Global, one: Cond, other: Cond) -> Result<List<Cond>, NoMemory>
    ensures { IfOk result (λ list. list ≡ one ∷ other ∷ []) }
{
    Ok(List::from_vec(vec![in alloc; one, other]?))
}

/// That both hold.
pub fn conjunction(alloc: Global, one: Cond, other: Cond) -> Result<Cond, NoMemory>
    ensures { IfOk result (λ c. c ≡ Cond.And (one ∷ other ∷ [])) }
{
    Ok(Cond::And(two(alloc, one, other)?))
}

/// That one of them holds.
pub fn disjunction(alloc: Global, one: Cond, other: Cond) -> Result<Cond, NoMemory>
    ensures { IfOk result (λ c. c ≡ Cond.Or (one ∷ other ∷ [])) }
{
    Ok(Cond::Or(two(alloc, one, other)?))
}

/// That a condition does not hold.
pub fn negation_of(alloc: Global, cond: &Cond) -> Result<Cond, NoMemory>
    ensures { IfOk result (λ c. c ≡ Cond.Not cond.now) }
{
    let cond = copy_cond(alloc, cond)?;
    Ok(Cond::Not(Boxed::new(alloc, cond)?))
}

/// That the first holds, and the second.
pub fn guarded(alloc: Global, cond: &Cond, other: Cond) -> Result<Cond, NoMemory>
    ensures { IfOk result (λ c. c ≡ Cond.And (cond.now ∷ other ∷ [])) }
{
    match copy_cond(alloc, cond) {
        Ok(cond) => conjunction(alloc, cond, other),
        Err(refused) => {
            drop(other);
            Err(refused)
        }
    }
}

/// That the first does not hold, and the second does.
fn barred(alloc: Global, cond: &Cond, other: Cond) -> Result<Cond, NoMemory>
    ensures { IfOk result (λ c. c ≡ Cond.And (Cond.Not cond.now ∷ other ∷ [])) }
{
    match negation_of(alloc, cond) {
        Ok(negation) => conjunction(alloc, negation, other),
        Err(refused) => {
            drop(other);
            Err(refused)
        }
    }
}

/// That the first does not hold, or the second does.
pub fn implied(alloc: Global, cond: &Cond, other: Cond) -> Result<Cond, NoMemory>
    ensures { IfOk result (λ c. c ≡ Cond.Or (Cond.Not cond.now ∷ other ∷ [])) }
{
    match negation_of(alloc, cond) {
        Ok(negation) => disjunction(alloc, negation, other),
        Err(refused) => {
            drop(other);
            Err(refused)
        }
    }
}

/// The one where a condition holds, and the other where it does not.
pub fn by_cases(alloc: Global, cond: &Cond, yes: Cond, no: Cond) -> Result<Cond, NoMemory>
    ensures { IfOk result (λ c. c ≡ Cond.Or
        (Cond.And (cond.now ∷ yes ∷ []) ∷ Cond.And (Cond.Not cond.now ∷ no ∷ []) ∷ [])) }
{
    let (yes, no) = both(guarded(alloc, cond, yes), barred(alloc, cond, no))?;
    disjunction(alloc, yes, no)
}
