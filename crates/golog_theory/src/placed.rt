// What begins at a place of the file, and the first items of a list that do so before a place.
ghost use Rattle.std.specs.Prelude.{◌≡◌, ℕ, nat_lt, take_while};
ghost use Rattle.golog_draft.specs.DraftPlaces.{sort_place};

use golog_tree::{DraftAction, DraftDevice, DraftFluent, DraftSort, Place};

/// What begins at a place of a file.
pub trait Placed {
    ghost place: { Self → ℕ };

    /// The place where it begins.
    fn place(&self) -> Place
        ensures { result ≡ place self.now };
}

impl Placed for DraftSort {
    ghost place = { sort_place };

    fn place(&self) -> Place {
        match self {
            DraftSort::Range { at, .. } => *at,
            DraftSort::Listed { at, .. } => *at,
        }
    }
}

impl Placed for DraftDevice {
    ghost place = { λ device. device.at };

    fn place(&self) -> Place {
        self.at
    }
}

impl Placed for DraftFluent {
    ghost place = { λ fluent. fluent.at };

    fn place(&self) -> Place {
        self.at
    }
}

impl Placed for DraftAction {
    ghost place = { λ action. action.at };

    fn place(&self) -> Place {
        self.at
    }
}

/// The first items, as long as they begin before the place.
pub fn items_before<T: Placed>(items: &[T], place: Place) -> &[T]
    ensures { result.now ≡ take_while (λ item. nat_lt (T.place item) place) items.now }
{
    let count = items.iter().take_while(|item| item.place() < place).count();
    &items[..count]
}
