// `program_of`: the `proc` and `main` items, one function each, which adds what it read to what was
// read so far.
ghost use Rattle.std.specs.Prelude.{◌≡◌, [], IfOk};
ghost use Rattle.std.specs.List.{list_any};
ghost use Rattle.golog_theory.specs.Reading.{Answers, Leaves, IsFirstRow, each};
ghost use Rattle.golog_theory.specs.Names.{same};
ghost use Rattle.golog_theory.specs.Before.{before};
ghost use Rattle.golog_tree.specs.declared.draft.DraftParam.{DraftParam};
ghost use Rattle.golog_tree.specs.declared.draft.DraftProc.{DraftProc};
ghost use Rattle.golog_prog.specs.Items.{proc_name, param_var, param_of, params_of, proc_item, main_item, proc_read, main_read, read_by, items_read, nothing, is_main, program_with, program_in, program_of};
ghost use Rattle.golog_prog.specs.Procedures.{declared_in};
ghost use Rattle.golog_theory.specs.Order.{IsLeastRow};
ghost use Rattle.golog_theory.specs.declared.fault.TheoryFault.TheVariants.{Refused};
ghost use Rattle.golog_form.specs.Places.{IsInOrder};
ghost use Rattle.golog_draft.specs.Drafts.{TheoryKeeps, ProgramKeeps};
ghost use Rattle.golog_draft.specs.DraftOrder.{ProgramInOrder};

use crate::procedures::Procedures;
use crate::programs::prog_of;
use golog_base::{List, Word, both, is_name};
use golog_form::Form;
use golog_theory::fault::{COUNT, DUPLICATE, UNKNOWN_FORM, refuse_where, unknown_form};
use golog_theory::heads::{arguments, head_word};
use golog_theory::limits::ARGUMENTS;
use golog_theory::parts::{parts, short_name, sort_of, word};
use golog_theory::{Index, Indexed, TheoryFault};
use golog_tree::{DraftMain, DraftParam, DraftProc, DraftProgram, DraftTheory, Place};
use std::alloc::Global;

/// No item is `main`.
pub const NO_MAIN: u8 = 27;

/// The most procedures.
pub const PROCEDURES: usize = 256;

/// Whether some procedure has the name.
fn is_among_procs(name: &[u8], procs: &[DraftProc]) -> bool
    ensures { result ≡ list_any (λ (proc : DraftProc). same name.now proc.name) procs.now }
{
    procs.iter().any(|proc| name == proc.name.as_bytes())
}

/// Whether some parameter has the name.
fn is_among_params(name: &[u8], params: &[DraftParam]) -> bool
    ensures { result ≡ list_any (λ (param : DraftParam). same name.now param.var) params.now }
{
    params.iter().any(|param| name == param.var.as_bytes())
}

/// The name of a procedure, behind the earlier ones.
#[tactic(auto, unfolding(crate::specs::Items::proc_name))]
fn proc_name(theory: &Indexed<'_>, earlier: &[DraftProc], form: &Form) -> Result<Word, TheoryFault>
    ensures { Answers result (proc_name theory.now earlier.now form.now) }
{
    let name = word(form);
    refuse_where(!is_name(name), UNKNOWN_FORM, form.at())?;
    refuse_where(
        theory.is_taken(name) || is_among_procs(name, earlier),
        DUPLICATE,
        form.at(),
    )?;
    short_name(form)
}

/// The variable of a parameter, behind the earlier parameters.
#[tactic(auto, unfolding(crate::specs::Items::param_var))]
fn param_var(earlier: &[DraftParam], form: &Form) -> Result<Word, TheoryFault>
    ensures { Answers result (param_var earlier.now form.now) }
{
    let name = word(form);
    refuse_where(!is_name(name), UNKNOWN_FORM, form.at())?;
    refuse_where(is_among_params(name, earlier), DUPLICATE, form.at())?;
    short_name(form)
}

/// `(VAR SORT)`, behind the earlier parameters.
#[tactic(auto, unfolding(crate::specs::Items::param_of))]
fn param_of(
    theory: &Indexed<'_>,
    earlier: &[DraftParam],
    form: &Form,
) -> Result<DraftParam, TheoryFault>
    ensures { Answers result (param_of theory.now earlier.now form.now) }
{
    let [var, sort] = parts(form) else {
        return Err(unknown_form(form.at()));
    };
    let var = param_var(earlier, var)?;
    let sort = sort_of(theory, sort)?;
    Ok(DraftParam { var, sort })
}

#[tactic(auto, using(crate::proofs::Progs::each_laws))]
fn each_param_of(
    alloc: Global,
    theory: &Indexed<'_>,
    forms: &[Form],
) -> Result<List<DraftParam>, TheoryFault>
    ensures { Answers result (each (param_of theory.now) [] forms.now) }
{
    let mut params = List::new(alloc);
    for form in forms {
        let param = param_of(theory, params.as_slice(), form)?;
        params.push(param)?;
    }
    Ok(params)
}

/// `(PARAMS)`, at most three.
#[tactic(auto, unfolding(crate::specs::Items::params_of))]
fn params_of(
    alloc: Global,
    theory: &Indexed<'_>,
    form: &Form,
) -> Result<List<DraftParam>, TheoryFault>
    ensures { Answers result (params_of theory.now form.now) }
{
    refuse_where(form.items().is_none(), UNKNOWN_FORM, form.at())?;
    refuse_where(parts(form).len() > ARGUMENTS, COUNT, form.at())?;
    each_param_of(alloc, theory, parts(form))
}

/// `(proc NAME (PARAMS) PROG)`, behind the earlier procedures.
#[tactic(auto, unfolding(crate::specs::Items::proc_item))]
fn proc_item(
    alloc: Global,
    theory: &Indexed<'_>,
    procs: &Procedures,
    earlier: &[DraftProc],
    at: Place,
    parts: &[Form],
) -> Result<DraftProc, TheoryFault>
    ensures { Answers result (proc_item theory.now procs.now earlier.now at parts.now) }
{
    let [name, params, body] = parts else {
        return Err(unknown_form(at));
    };
    refuse_where(earlier.len() >= PROCEDURES, COUNT, at)?;
    let name = proc_name(theory, earlier, name)?;
    let declared = theory.before(at);
    let params = params_of(alloc, &declared, params)?;
    let body = prog_of(alloc, &declared, procs, body, params.len());
    let (params, body) = both(Ok(params), body)?;
    Ok(DraftProc {
        name,
        params,
        body,
        at,
    })
}

/// `(main PROG)`, the only one.
#[tactic(auto, unfolding(crate::specs::Items::main_item))]
fn main_item(
    alloc: Global,
    theory: &Indexed<'_>,
    procs: &Procedures,
    main: &Option<DraftMain>,
    at: Place,
    parts: &[Form],
) -> Result<DraftMain, TheoryFault>
    ensures { Answers result (main_item theory.now procs.now main.now at parts.now) }
{
    refuse_where(main.is_some(), DUPLICATE, at)?;
    let [body] = parts else {
        return Err(unknown_form(at));
    };
    let body = prog_of(alloc, &theory.before(at), procs, body, 0)?;
    Ok(DraftMain { body, at })
}

/// The procedures so far, and `main` where it was read.
#[derive(Drop)]
pub struct SoFar {
    pub procs: List<DraftProc>,
    pub main: Option<DraftMain>,
}

/// Adds a `proc` item.
#[tactic(auto, unfolding(crate::specs::Items::proc_read))]
fn read_proc(
    alloc: Global,
    theory: &Indexed<'_>,
    procs: &Procedures,
    so_far: &mut SoFar,
    at: Place,
    parts: &[Form],
) -> Result<(), TheoryFault>
    ensures { Leaves result so_far.new (proc_read theory.now procs.now so_far.old at parts.now) }
{
    let proc = proc_item(alloc, theory, procs, so_far.procs.as_slice(), at, parts)?;
    so_far.procs.push(proc)?;
    Ok(())
}

/// Adds a `main` item.
#[tactic(auto, unfolding(crate::specs::Items::main_read))]
fn read_main(
    alloc: Global,
    theory: &Indexed<'_>,
    procs: &Procedures,
    so_far: &mut SoFar,
    at: Place,
    parts: &[Form],
) -> Result<(), TheoryFault>
    ensures { Leaves result so_far.new (main_read theory.now procs.now so_far.old at parts.now) }
{
    let main = main_item(alloc, theory, procs, &so_far.main, at, parts)?;
    drop(so_far.main.replace(main));
    Ok(())
}

/// Adds an item by its first word, where it is one of the program.
#[tactic(auto, unfolding(crate::specs::Items::read_by))]
fn read_item(
    alloc: Global,
    theory: &Indexed<'_>,
    procs: &Procedures,
    so_far: &mut SoFar,
    at: Place,
    keyword: &[u8],
    parts: &[Form],
) -> Result<(), TheoryFault>
    ensures { Leaves result so_far.new
        (read_by theory.now procs.now so_far.old at keyword.now parts.now) }
{
    if keyword == b"proc".as_slice() {
        read_proc(alloc, theory, procs, so_far, at, parts)
    } else if keyword == b"main".as_slice() {
        read_main(alloc, theory, procs, so_far, at, parts)
    } else {
        Ok(())
    }
}

/// Whether some item is `main`.
fn has_main(items: &[Form]) -> bool
    ensures { result ≡ list_any is_main items.now }
{
    items
        .iter()
        .any(|item| head_word(item) == b"main".as_slice())
}

/// Adds the items, one after another.
#[tactic(auto, using(crate::proofs::Program::laws))]
fn read_each(
    alloc: Global,
    theory: &Indexed<'_>,
    procs: &Procedures,
    so_far: &mut SoFar,
    items: &[Form],
) -> Result<(), TheoryFault>
    ensures { Leaves result so_far.new (items_read theory.now procs.now so_far.old items.now) }
{
    for item in items {
        let at = item.at();
        read_item(
            alloc,
            theory,
            procs,
            so_far,
            at,
            head_word(item),
            arguments(item),
        )?;
    }
    Ok(())
}

/// What the items make, one after another.
fn read_items(
    alloc: Global,
    theory: &Indexed<'_>,
    procs: &Procedures,
    items: &[Form],
) -> Result<SoFar, TheoryFault>
    ensures { Answers result (items_read theory.now procs.now nothing items.now) }
{
    let mut so_far = SoFar {
        procs: List::new(alloc),
        main: None,
    };
    match read_each(alloc, theory, procs, &mut so_far, items) {
        Ok(()) => Ok(so_far),
        Err(fault) => {
            drop(so_far);
            Err(fault)
        }
    }
}

/// What the items make over a theory, where each may call the procedures of all.
fn read_over(alloc: Global, theory: &DraftTheory, items: &[Form]) -> Result<SoFar, TheoryFault>
    ensures { Answers result (items_read theory.now (declared_in items.now) nothing items.now) }
{
    let (index, procs) = both(Index::of(alloc, theory), Procedures::of(alloc, items))?;
    let so_far = read_items(alloc, &Indexed::new(theory, &index), &procs, items);
    drop(procs);
    drop(index);
    so_far
}

/// The refusal of a file, at the place of its form, in which no item is `main`.
fn no_main(at: Place) -> TheoryFault
    ensures { result ≡ Refused NO_MAIN at }
{
    TheoryFault::Refused { code: NO_MAIN, at }
}

/// The program of what was read.
fn program_with(at: Place, so_far: SoFar) -> Result<DraftProgram, TheoryFault>
    ensures { Answers result (program_with at so_far) }
{
    let SoFar { procs, main } = so_far;
    match main {
        Some(main) => Ok(DraftProgram { procs, main }),
        None => Err(no_main(at)),
    }
}

/// The program that the items of a file make.
fn program_in(
    alloc: Global,
    theory: &DraftTheory,
    at: Place,
    items: &[Form],
) -> Result<DraftProgram, TheoryFault>
    ensures { Answers result (program_in theory.now at items.now) }
{
    if !has_main(items) {
        return Err(no_main(at));
    }
    let so_far = read_over(alloc, theory, items)?;
    program_with(at, so_far)
}

/// The program that an agent's form spells.
#[tactic(auto, unfolding(crate::specs::Items::program_of))]
fn read_program(
    alloc: Global,
    theory: &DraftTheory,
    form: &Form,
) -> Result<DraftProgram, TheoryFault>
    ensures { Answers result (program_of theory.now form.now) }
{
    refuse_where(
        head_word(form) != b"agent".as_slice(),
        UNKNOWN_FORM,
        form.at(),
    )?;
    program_in(alloc, theory, form.at(), arguments(form))
}

/// The procedures and the program that an agent's form spells over its theory, which `theory_of` gives. It is
/// refused with the code and the place of the first row that fits, in reading order, which is the least of those
/// that fit where the parts of the form stand in order: 20 where a form has not a shape of the grammar for its
/// place, 21 a name that is taken or reserved, a parameter twice or a second `main`, 22 a sort and 23 another
/// name that no earlier item declares (procedures may be called anywhere), 24 a wrong number of arguments, 25 a
/// limit that is passed, 26 a number out of range, and 27 at the place of the form where no item is `main`.
/// `Memory` where memory runs out. Over a theory that keeps the rules for drafts, the program keeps them.
/// Where the parts of the form stand in order, the places in each procedure and in the program ascend.
#[tactic(auto, using(crate::proofs::Program::laws, crate::proofs::Ordered::laws, crate::proofs::KeptProgram::laws, crate::proofs::AscendingProgram::laws))]
pub fn program_of(
    alloc: Global,
    theory: &DraftTheory,
    form: &Form,
) -> Result<DraftProgram, TheoryFault>
    ensures read { Answers result (program_of theory.now form.now) }
    ensures first { IsFirstRow result (program_of theory.now form.now).rows }
    ensures least { IsInOrder form.now → IsLeastRow result (program_of theory.now form.now).rows }
    ensures keeps { TheoryKeeps theory.now → IfOk result (ProgramKeeps theory.now) }
    ensures in_order { IsInOrder form.now → IfOk result ProgramInOrder }
{
    read_program(alloc, theory, form)
}
