// `nest`: how deep a program nests.
ghost use Rattle.std.specs.Prelude.{◌≡◌, ◌^◌, ◌-◌, ◌+◌, min};
ghost use Rattle.golog_tree.specs.Nest.{nest as nest_of};

use crate::prog::Prog;

/// The nest of a program: 1 for one without parts, else one more than its deepest part. The greatest
/// `u32` stands for itself and all above.
pub fn nest(prog: &Prog) -> u32
    ensures { result ≡ min (nest_of prog.now) (2 ^ 32 - 1) }
{
    match prog {
        Prog::Nil | Prog::Act { .. } | Prog::Test(_) | Prog::Call { .. } => 1,
        Prog::Pick { body, .. }
        | Prog::Star(body)
        | Prog::While { body, .. }
        | Prog::Cstar(body)
        | Prog::Search { body, .. }
        | Prog::Follow { body, .. } => above(nest(body.get())),
        Prog::Seq(first, second)
        | Prog::Choice(first, second)
        | Prog::Conc(first, second)
        | Prog::Prio(first, second) => above(nest(first.get()).max(nest(second.get()))),
        Prog::If { yes, no, .. } => above(nest(yes.get()).max(nest(no.get()))),
    }
}

fn above(deepest: u32) -> u32
    ensures { result ≡ min (1 + deepest) (2 ^ 32 - 1) }
{
    deepest.saturating_add(1)
}
