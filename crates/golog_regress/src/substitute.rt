// Terms and conditions with the images of their variables put in; binders are renamed away from
// these.
ghost use Rattle.std.specs.Prelude.{◌≡◌, [], ◌∷◌, ◌++◌, map, IfOk};
ghost use Rattle.golog_regress.specs.Images.{image as spec_image, fresh as spec_fresh, cond_image, term_image};

use crate::numbers::{fresh, image};
use golog_base::{Boxed, List, NoMemory};
use golog_tree::{
    Arg, Comparison, Cond, Term, all_cond, compared_terms, fluent_cond, fluent_term, ite_term,
    shift_term, some_cond,
};
use std::alloc::Global;

fn args_with(alloc: Global, args: &[Arg], images: &[Arg]) -> Result<List<Arg>, NoMemory>
    ensures { IfOk result (λ list. list ≡ map (spec_image images.now) args.now) }
{
    let mut list = List::new(alloc);
    for arg in args {
        list.push(image(images, *arg))?;
    }
    Ok(list)
}

/// The images with that of one more variable.
fn with_one(alloc: Global, images: &[Arg], var: u8) -> Result<List<Arg>, NoMemory>
    ensures { IfOk result (λ list. list ≡ images.now ++ Arg.Var var ∷ []) }
{
    let mut list = List::copy_of(alloc, images)?;
    list.push(Arg::Var(var))?;
    Ok(list)
}

#[cycle(cond_with)]
fn part_with(alloc: Global, part: &Boxed<Term>, images: &[Arg]) -> Result<Boxed<Term>, NoMemory>
    ensures { IfOk result (λ t. t ≡ term_image part.now images.now) }
{
    Boxed::new(alloc, term_with(alloc, part.get(), images)?)
}

#[cycle(cond_with)]
fn body_with(alloc: Global, body: &Boxed<Cond>, images: &[Arg]) -> Result<Boxed<Cond>, NoMemory>
    ensures { IfOk result (λ c. c ≡ cond_image body.now images.now) }
{
    Boxed::new(alloc, cond_with(alloc, body.get(), images)?)
}

/// The term with the images of its variables put in.
#[cycle(cond_with)]
pub fn term_with(alloc: Global, term: &Term, images: &[Arg]) -> Result<Term, NoMemory>
    ensures { IfOk result (λ t. t ≡ term_image term.now images.now) }
{
    match term {
        Term::Arg(arg) => Ok(Term::Arg(image(images, *arg))),
        Term::Fluent { fluent, args } => {
            fluent_term(*fluent, args_with(alloc, args.as_slice(), images))
        }
        Term::Shift { sort, term, by } => shift_term(*sort, part_with(alloc, term, images), *by),
        Term::Ite { cond, yes, no } => {
            let (yes, no) = (part_with(alloc, yes, images), part_with(alloc, no, images));
            ite_term(body_with(alloc, cond, images), yes, no)
        }
    }
}

#[cycle(cond_with)]
fn conds_with(alloc: Global, conds: &[Cond], images: &[Arg]) -> Result<List<Cond>, NoMemory>
    ensures { IfOk result (λ list. list ≡ map (λ c. cond_image c images.now) conds.now) }
{
    let mut list = List::new(alloc);
    for cond in conds {
        list.push(cond_with(alloc, cond, images)?)?;
    }
    Ok(list)
}

/// The body of a binder of the variable of this number.
#[cycle(cond_with)]
fn bound_with(
    alloc: Global,
    body: &Boxed<Cond>,
    images: &[Arg],
    var: u8,
) -> Result<Boxed<Cond>, NoMemory>
    ensures { IfOk result (λ c. c ≡ cond_image body.now (images.now ++ Arg.Var var ∷ [])) }
{
    let images = with_one(alloc, images, var)?;
    body_with(alloc, body, images.as_slice())
}

/// The condition with the images of its variables put in. Each binder takes the first number that no
/// image is.
#[cycle(cond_with)]
pub fn cond_with(alloc: Global, cond: &Cond, images: &[Arg]) -> Result<Cond, NoMemory>
    ensures { IfOk result (λ c. c ≡ cond_image cond.now images.now) }
{
    match cond {
        Cond::Truth(truth) => Ok(Cond::Truth(*truth)),
        Cond::Is { fluent, args } => {
            fluent_cond(*fluent, args_with(alloc, args.as_slice(), images))
        }
        Cond::Equal { sort, one, other } => {
            let (one, other) = (
                term_with(alloc, one, images),
                term_with(alloc, other, images),
            );
            compared_terms(Comparison::Equal, *sort, one, other)
        }
        Cond::Less { sort, one, other } => {
            let (one, other) = (
                term_with(alloc, one, images),
                term_with(alloc, other, images),
            );
            compared_terms(Comparison::Less, *sort, one, other)
        }
        Cond::AtMost { sort, one, other } => {
            let (one, other) = (
                term_with(alloc, one, images),
                term_with(alloc, other, images),
            );
            compared_terms(Comparison::AtMost, *sort, one, other)
        }
        Cond::Not(body) => body_with(alloc, body, images).map(Cond::Not),
        Cond::And(conds) => Ok(Cond::And(conds_with(alloc, conds.as_slice(), images)?)),
        Cond::Or(conds) => Ok(Cond::Or(conds_with(alloc, conds.as_slice(), images)?)),
        Cond::ForSome { sort, body, .. } => {
            let var = fresh(images);
            some_cond(var, *sort, bound_with(alloc, body, images, var))
        }
        Cond::ForAll { sort, body, .. } => {
            let var = fresh(images);
            all_cond(var, *sort, bound_with(alloc, body, images, var))
        }
    }
}
