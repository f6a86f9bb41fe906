// How many constants a sort and how many ground things an item has, and where the running sum
// passes its limit.
ghost use Rattle.std.specs.Prelude.{◌≡◌, ◌≤◌, length, map, MatchOption, Ok, Err};
ghost use Rattle.golog_check.specs.Sums.{size_in as spec_size_in, count_in as spec_count_in, sum_from as spec_sum_from, AreSmall, HaveFewArgs};

use crate::fault::GROUND_TOO_MANY;
use golog_rows::Refusal;
use golog_tree::{DraftAction, DraftFluent, Place, SortItem, item_size};

/// The most ground fluents.
pub const GROUND_FLUENTS: u32 = 4096;

/// The most ground actions.
pub const GROUND_ACTIONS: u32 = 65536;

/// What is declared with the sorts of its arguments.
pub trait Counted {
    ghost use Rattle.std.specs.Prelude.{ℕ, List};

    ghost counted: { Self → List ℕ × ℕ };

    fn arg_sorts(&self) -> &[u32]
        ensures { result.now ≡ (counted self.now).0 };

    fn place(&self) -> Place
        ensures { result ≡ (counted self.now).1 };
}

impl Counted for DraftFluent {
    ghost use Rattle.golog_check.specs.Sums.{fluent_counted};

    ghost counted = { fluent_counted };

    fn arg_sorts(&self) -> &[u32] {
        self.args.as_slice()
    }

    fn place(&self) -> Place {
        self.at
    }
}

impl Counted for DraftAction {
    ghost use Rattle.golog_check.specs.Sums.{action_counted};

    ghost counted = { action_counted };

    fn arg_sorts(&self) -> &[u32] {
        self.args.as_slice()
    }

    fn place(&self) -> Place {
        self.at
    }
}

/// How many constants a sort has, at most 255; 0 where there is no such sort.
pub fn size_in(sorts: &[SortItem], sort: u32) -> u32
    requires { AreSmall sorts.now }
    ensures size { result ≡ spec_size_in sorts.now sort }
    ensures small { result ≤ 255 }
{
    match sorts.get(sort as usize) {
        Some(item) => item_size(item),
        None => 0,
    }
}

/// How many lists of arguments of these sorts there are.
pub fn count_in(sorts: &[SortItem], args: &[u32]) -> u32
    requires small { AreSmall sorts.now }
    requires few { length args.now ≤ 3 }
    ensures count { result ≡ spec_count_in sorts.now args.now }
    ensures small { result ≤ 16581375 }
{
    match args.split_first() {
        None => 1,
        Some((sort, others)) => size_in(sorts, *sort) * count_in(sorts, others),
    }
}

/// The first item at which the sum of ground things passes the limit.
pub fn sum_passes<T: Counted>(sorts: &[SortItem], limit: u32, items: &[T]) -> Option<Refusal>
    requires limit { limit ≤ 65536 }
    requires small { AreSmall sorts.now }
    requires few { HaveFewArgs (map T.counted items.now) }
    ensures { let sum = spec_sum_from sorts.now limit 0 (map T.counted items.now) in
        MatchOption result (sum.outcome ≡ Ok tt) (λ refusal. sum.outcome ≡ Err (refusal.code, refusal.at)) }
{
    let mut sum = 0;
    for item in items {
        sum += count_in(sorts, item.arg_sorts());
        if sum > limit {
            return Some(Refusal {
                code: GROUND_TOO_MANY,
                at: item.place(),
            });
        }
    }
    None
}
