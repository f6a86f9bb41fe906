// Parts as one program, nested to the right.
ghost use Rattle.std.specs.Prelude.{◌≡◌, [], ◌∷◌, ◌++◌, IfOk};
ghost use Rattle.golog_shapes.specs.Nested.{nested};

use golog_base::{List, NoMemory};
use golog_tree::{Join, Prog, join_two};
use std::alloc::Global;

/// The last part behind the others, nested to the right.
#[tactic(auto, using(crate::proofs::PartsNested::laws))]
fn nested_behind(
    alloc: Global,
    join: Join,
    others: &mut List<Prog>,
    last: Prog,
) -> Result<Prog, NoMemory>
    ensures { IfOk result (λ prog. prog ≡ nested join (others.old ++ last ∷ [])) }
{
    let mut prog = last;
    while let Some(part) = others.pop() {
        prog = join_two(alloc, join, part, prog)?;
    }
    Ok(prog)
}

/// The parts, nested to the right: `nil` for none, and one for itself.
pub fn nested(alloc: Global, join: Join, parts: List<Prog>) -> Result<Prog, NoMemory>
    ensures { IfOk result (λ prog. prog ≡ nested join parts) }
{
    let mut parts = parts;
    match parts.pop() {
        Some(last) => {
            let prog = nested_behind(alloc, join, &mut parts, last);
            drop(parts);
            prog
        }
        None => {
            drop(parts);
            Ok(Prog::Nil)
        }
    }
}
