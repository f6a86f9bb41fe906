// Whether two steps do the same.
ghost use Rattle.std.specs.Prelude.{◌≡◌};
ghost use Rattle.golog_semantics.specs.Same.{same_label};

use golog_tree::Label;

/// Whether two steps do the same.
pub fn is_same_label(one: Label, other: Label) -> bool
    ensures { result ≡ same_label one other }
{
    match (one, other) {
        (Label::Quiet, Label::Quiet) => true,
        (Label::Do(action), Label::Do(another)) => action == another,
        _ => false,
    }
}
