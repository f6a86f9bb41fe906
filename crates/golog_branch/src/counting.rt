// How many steps a plan has, up to a number.
ghost use Rattle.std.specs.Prelude.{◌≡◌, map, min};
ghost use Rattle.std.specs.List.{sum};
ghost use Rattle.golog_branch.specs.declared.tree.Branch.{Branch as AnyBranch};
ghost use Rattle.golog_branch.specs.Trees.{steps};

use crate::tree::{Branch, Tree};

/// How many steps a plan has, or `most` where it has more.
#[cycle(steps)]
pub fn steps_within(tree: &Tree, most: u32) -> u32
    ensures { result ≡ min (steps tree.now) most }
{
    match tree {
        Tree::Done => 0,
        Tree::Step { next, .. } => {
            if most == 0 {
                0
            } else {
                1 + steps_behind(next.as_slice(), most - 1)
            }
        }
    }
}

/// How many steps the plans of these branches have, or `most` where they have more.
#[cycle(steps)]
fn steps_behind(next: &[Branch], most: u32) -> u32
    ensures { result ≡ min (sum (map (λ (b : AnyBranch). steps b.tree) next.now)) most }
{
    let mut count = 0;
    for branch in next {
        count += steps_within(branch.tree.get(), most - count);
    }
    count
}
