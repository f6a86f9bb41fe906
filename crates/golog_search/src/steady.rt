// Whether no step of a program can leave one that nests deeper, told by its front.
ghost use Rattle.std.specs.Prelude.{◌≡◌};
ghost use Rattle.golog_search.specs.Steady.{steady as steady_of};

use golog_tree::Prog;

/// Whether a program may end at once, where it is steady: each of its steps leaves one that nests no deeper.
/// `None` where that is not seen at its front. What stands behind an action or a test is not looked at.
pub(crate) fn steady(prog: &Prog) -> Option<bool>
    ensures { result ≡ steady_of prog.now }
{
    match prog {
        Prog::Nil => Some(true),
        Prog::Act { .. } | Prog::Test(_) => Some(false),
        Prog::Seq(first, second) => {
            if steady(first.get())? {
                steady(second.get())
            } else {
                Some(false)
            }
        }
        Prog::Choice(first, second) => Some(steady(first.get())? | steady(second.get())?),
        Prog::If { yes, no, .. } => Some(steady(yes.get())? | steady(no.get())?),
        Prog::Conc(first, second) | Prog::Prio(first, second) => {
            Some(steady(first.get())? & steady(second.get())?)
        }
        Prog::Pick { .. }
        | Prog::Star(_)
        | Prog::While { .. }
        | Prog::Cstar(_)
        | Prog::Call { .. }
        | Prog::Search { .. }
        | Prog::Follow { .. } => None,
    }
}
