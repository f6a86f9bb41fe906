// `(act ACTION ARGS)` and `(call PROC ARGS)`: what they name, with as many arguments as it has.
ghost use Rattle.std.specs.Prelude.{◌≡◌};
ghost use Rattle.golog_theory.specs.Reading.{Answers};
ghost use Rattle.golog_prog.specs.Callees.{action_named, proc_named, named};
ghost use Rattle.golog_prog.specs.Constructs.{act_of, call_of};

use crate::procedures::Procedures;
use golog_base::is_name;
use golog_form::Form;
use golog_theory::fault::{UNKNOWN_FORM, refuse_where, unknown_form};
use golog_theory::heads::{Callee, args_of, declared_with};
use golog_theory::parts::word;
use golog_theory::{Indexed, TheoryFault};
use golog_tree::{DraftProg, Place};
use std::alloc::Global;

/// The action with the name, one of the program or a built-in one.
#[tactic(auto, unfolding(crate::specs::Callees::action_named))]
fn action_named(theory: &Indexed<'_>, name: &[u8]) -> Option<Callee>
    ensures { result ≡ action_named theory.now name.now }
{
    let item = theory.action_no(name)?;
    let action = theory.actions().get(item)?;
    if action.posters.len() > 0 {
        return None;
    }
    Some(Callee {
        item,
        arity: action.args.len(),
    })
}

/// The procedure with the name.
#[tactic(auto, unfolding(crate::specs::Callees::proc_named))]
fn proc_named(procs: &Procedures, name: &[u8]) -> Option<Callee>
    ensures { result ≡ proc_named procs.now name.now }
{
    let item = procs.number(name)?;
    let proc = procs.as_slice().get(item)?;
    Some(Callee {
        item,
        arity: proc.params,
    })
}

/// The number of the action or procedure that a form names, with these arguments, in a form at the place.
#[tactic(auto, unfolding(crate::specs::Callees::named))]
fn named(at: Place, name: &Form, args: &[Form], callee: Option<Callee>) -> Result<u32, TheoryFault>
    ensures { Answers result (named at name.now args.now callee) }
{
    refuse_where(!is_name(word(name)), UNKNOWN_FORM, name.at())?;
    declared_with(at, name.at(), args.len(), callee)
}

/// `(act ACTION ARGS)`
#[tactic(auto, unfolding(crate::specs::Constructs::act_of))]
pub fn act_of(
    alloc: Global,
    theory: &Indexed<'_>,
    at: Place,
    parts: &[Form],
) -> Result<DraftProg, TheoryFault>
    ensures { Answers result (act_of theory.now at parts.now) }
{
    let Some((name, args)) = parts.split_first() else {
        return Err(unknown_form(at));
    };
    let action = named(at, name, args, action_named(theory, word(name)))?;
    let args = args_of(alloc, args)?;
    Ok(DraftProg::Act { action, args, at })
}

/// `(call PROC ARGS)`
#[tactic(auto, unfolding(crate::specs::Constructs::call_of))]
pub fn call_of(
    alloc: Global,
    procs: &Procedures,
    at: Place,
    parts: &[Form],
) -> Result<DraftProg, TheoryFault>
    ensures { Answers result (call_of procs.now at parts.now) }
{
    let Some((name, args)) = parts.split_first() else {
        return Err(unknown_form(at));
    };
    let item = named(at, name, args, proc_named(procs, word(name)))?;
    let args = args_of(alloc, args)?;
    Ok(DraftProg::Call { item, args, at })
}
