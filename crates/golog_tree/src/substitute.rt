// Programs and conditions with a constant put in for a variable. Where nothing is put in they are
// equal, and parts that stand in `Boxed` are shared.
ghost use Rattle.std.specs.Prelude.{◌≡◌, map, IfOk, Some, None};
ghost use Rattle.golog_tree.specs.Made.{IsMade, IsMadeOfTwo, IsMadeOfThree};
ghost use Rattle.golog_tree.specs.Substitute.{arg_put, within as spec_within, term_put, cond_put, prog_put, way_put};

use crate::cond::{Arg, Cond, Term};
use crate::join::{Join, join_parts};
use crate::made::{
    Comparison, all_cond, compared_terms, fluent_cond, fluent_term, ite_term, shift_term, some_cond,
};
use crate::prog::{Prog, Way};
use golog_base::{Boxed, List, NoMemory, both};
use std::alloc::Global;

type Put = Option<(u8, u8)>;

fn arg_with(arg: Arg, put: Put) -> Arg
    ensures { result ≡ arg_put put arg }
{
    match (arg, put) {
        (Arg::Var(x), Some((var, value))) if x == var => Arg::Const(value),
        _ => arg,
    }
}

fn within(var: u8, put: Put) -> Put
    ensures { result ≡ spec_within var put }
{
    match put {
        Some((x, _)) if x == var => None,
        _ => put,
    }
}

fn args_with(alloc: Global, args: &[Arg], put: Put) -> Result<List<Arg>, NoMemory>
    ensures { IfOk result (λ list. list ≡ map (arg_put put) args.now) }
{
    let mut list = List::new(alloc);
    for arg in args {
        list.push(arg_with(*arg, put))?;
    }
    Ok(list)
}

/// The condition itself: where nothing is put in, it is shared.
fn body_without(body: &Boxed<Cond>) -> Result<Boxed<Cond>, NoMemory>
    ensures { IfOk result (λ c. c ≡ cond_put body.now None) }
{
    body.share()
}

#[cycle(cond_with)]
fn body_with(alloc: Global, body: &Boxed<Cond>, put: Put) -> Result<Boxed<Cond>, NoMemory>
    ensures { IfOk result (λ c. c ≡ cond_put body.now put) }
{
    match put {
        None => body_without(body),
        Some(_) => Boxed::new(alloc, cond_with(alloc, body.get(), put)?),
    }
}

#[cycle(cond_with)]
fn term_boxed(alloc: Global, term: &Boxed<Term>, put: Put) -> Result<Boxed<Term>, NoMemory>
    ensures { IfOk result (λ t. t ≡ term_put term.now put) }
{
    Boxed::new(alloc, term_with(alloc, term.get(), put)?)
}

#[cycle(cond_with)]
fn term_with(alloc: Global, term: &Term, put: Put) -> Result<Term, NoMemory>
    ensures { IfOk result (λ t. t ≡ term_put term.now put) }
{
    match term {
        Term::Arg(arg) => Ok(Term::Arg(arg_with(*arg, put))),
        Term::Fluent { fluent, args } => {
            fluent_term(*fluent, args_with(alloc, args.as_slice(), put))
        }
        Term::Shift { sort, term, by } => shift_term(*sort, term_boxed(alloc, term, put), *by),
        Term::Ite { cond, yes, no } => {
            let (yes, no) = (term_boxed(alloc, yes, put), term_boxed(alloc, no, put));
            ite_term(body_with(alloc, cond, put), yes, no)
        }
    }
}

#[cycle(cond_with)]
fn conds_with(alloc: Global, conds: &[Cond], put: Put) -> Result<List<Cond>, NoMemory>
    ensures { IfOk result (λ list. list ≡ map (λ c. cond_put c put) conds.now) }
{
    let mut list = List::new(alloc);
    for cond in conds {
        list.push(cond_with(alloc, cond, put)?)?;
    }
    Ok(list)
}

#[cycle(cond_with)]
pub(crate) fn cond_with(alloc: Global, cond: &Cond, put: Put) -> Result<Cond, NoMemory>
    ensures { IfOk result (λ c. c ≡ cond_put cond.now put) }
{
    match cond {
        Cond::Truth(truth) => Ok(Cond::Truth(*truth)),
        Cond::Is { fluent, args } => fluent_cond(*fluent, args_with(alloc, args.as_slice(), put)),
        Cond::Equal { sort, one, other } => {
            let (one, other) = (term_with(alloc, one, put), term_with(alloc, other, put));
            compared_terms(Comparison::Equal, *sort, one, other)
        }
        Cond::Less { sort, one, other } => {
            let (one, other) = (term_with(alloc, one, put), term_with(alloc, other, put));
            compared_terms(Comparison::Less, *sort, one, other)
        }
        Cond::AtMost { sort, one, other } => {
            let (one, other) = (term_with(alloc, one, put), term_with(alloc, other, put));
            compared_terms(Comparison::AtMost, *sort, one, other)
        }
        Cond::Not(cond) => body_with(alloc, cond, put).map(Cond::Not),
        Cond::And(conds) => Ok(Cond::And(conds_with(alloc, conds.as_slice(), put)?)),
        Cond::Or(conds) => Ok(Cond::Or(conds_with(alloc, conds.as_slice(), put)?)),
        Cond::ForSome { var, sort, body } => {
            some_cond(*var, *sort, body_with(alloc, body, within(*var, put)))
        }
        Cond::ForAll { var, sort, body } => {
            all_cond(*var, *sort, body_with(alloc, body, within(*var, put)))
        }
    }
}

/// The part itself: where nothing is put in, it is shared.
fn part_without(part: &Boxed<Prog>) -> Result<Boxed<Prog>, NoMemory>
    ensures { IfOk result (λ p. p ≡ prog_put part.now None) }
{
    part.share()
}

#[cycle(prog_with)]
fn part_with(alloc: Global, part: &Boxed<Prog>, put: Put) -> Result<Boxed<Prog>, NoMemory>
    ensures { IfOk result (λ p. p ≡ prog_put part.now put) }
{
    match put {
        None => part_without(part),
        Some(_) => Boxed::new(alloc, prog_with(alloc, part.get(), put)?),
    }
}

#[cycle(prog_with)]
fn ways_with(alloc: Global, ways: &[Way], put: Put) -> Result<List<Way>, NoMemory>
    ensures { IfOk result (λ list. list ≡ map (λ w. way_put w put) ways.now) }
{
    let mut list = List::new(alloc);
    for way in ways {
        let left = prog_with(alloc, &way.left, put)?;
        list.push(Way {
            label: way.label,
            left,
        })?;
    }
    Ok(list)
}

type Args = Result<List<Arg>, NoMemory>;

type Part = Result<Boxed<Prog>, NoMemory>;

/// The action, from its arguments.
fn act_of(action: u32, args: Args) -> Result<Prog, NoMemory>
    ensures { IfOk result (IsMade (Prog.Act action) args) }
{
    let args = args?;
    Ok(Prog::Act { action, args })
}

/// The call, from its arguments.
fn call_of(item: u32, args: Args) -> Result<Prog, NoMemory>
    ensures { IfOk result (IsMade (Prog.Call item) args) }
{
    let args = args?;
    Ok(Prog::Call { item, args })
}

/// The choice of a value, from its body.
fn pick_of(var: u8, sort: u32, body: Part) -> Result<Prog, NoMemory>
    ensures { IfOk result (IsMade (Prog.Pick var sort) body) }
{
    let body = body?;
    Ok(Prog::Pick { var, sort, body })
}

/// The conditional, from its condition and its parts.
fn if_of(cond: Result<Cond, NoMemory>, yes: Part, no: Part) -> Result<Prog, NoMemory>
    ensures { IfOk result (IsMadeOfThree Prog.If cond yes no) }
{
    let (cond, (yes, no)) = both(cond, both(yes, no))?;
    Ok(Prog::If { cond, yes, no })
}

/// The loop, from its condition and its body.
fn while_of(cond: Result<Cond, NoMemory>, body: Part) -> Result<Prog, NoMemory>
    ensures { IfOk result (IsMadeOfTwo Prog.While cond body) }
{
    let (cond, body) = both(cond, body)?;
    Ok(Prog::While { cond, body })
}

/// The search block, from its body.
fn search_of(depth: u32, fuel: u32, body: Part) -> Result<Prog, NoMemory>
    ensures { IfOk result (IsMade (Prog.Search depth fuel) body) }
{
    let body = body?;
    Ok(Prog::Search { depth, fuel, body })
}

#[cycle(prog_with)]
pub(crate) fn prog_with(alloc: Global, prog: &Prog, put: Put) -> Result<Prog, NoMemory>
    ensures { IfOk result (λ p. p ≡ prog_put prog.now put) }
{
    match prog {
        Prog::Nil => Ok(Prog::Nil),
        Prog::Act { action, args } => act_of(*action, args_with(alloc, args.as_slice(), put)),
        Prog::Test(cond) => cond_with(alloc, cond, put).map(Prog::Test),
        Prog::Seq(first, second) => {
            let first = part_with(alloc, first, put);
            join_parts(Join::Seq, first, part_with(alloc, second, put))
        }
        Prog::Choice(one, other) => {
            let one = part_with(alloc, one, put);
            join_parts(Join::Choice, one, part_with(alloc, other, put))
        }
        Prog::Pick { var, sort, body } => pick_of(
            *var,
            *sort,
            part_with(alloc, body, within(*var, put)),
        ),
        Prog::Star(body) => part_with(alloc, body, put).map(Prog::Star),
        Prog::If { cond, yes, no } => {
            let (yes, no) = (part_with(alloc, yes, put), part_with(alloc, no, put));
            if_of(cond_with(alloc, cond, put), yes, no)
        }
        Prog::While { cond, body } => while_of(
            cond_with(alloc, cond, put),
            part_with(alloc, body, put),
        ),
        Prog::Conc(one, other) => {
            let one = part_with(alloc, one, put);
            join_parts(Join::Conc, one, part_with(alloc, other, put))
        }
        Prog::Prio(high, low) => {
            let high = part_with(alloc, high, put);
            join_parts(Join::Prio, high, part_with(alloc, low, put))
        }
        Prog::Cstar(body) => part_with(alloc, body, put).map(Prog::Cstar),
        Prog::Call { item, args } => call_of(*item, args_with(alloc, args.as_slice(), put)),
        Prog::Search { depth, fuel, body } => search_of(*depth, *fuel, part_with(alloc, body, put)),
        Prog::Follow {
            depth,
            fuel,
            body,
            rest,
        } => {
            let (body, rest) = both(
                part_with(alloc, body, put),
                ways_with(alloc, rest.as_slice(), put),
            )?;
            Ok(Prog::Follow {
                depth: *depth,
                fuel: *fuel,
                body,
                rest,
            })
        }
    }
}

/// The program with the constant put in for the variable; a binder of the same variable keeps its own.
pub fn put_arg(alloc: Global, prog: &Prog, var: u8, value: u8) -> Result<Prog, NoMemory>
    ensures { IfOk result (λ p. p ≡ prog_put prog.now (Some (var, value))) }
{
    prog_with(alloc, prog, Some((var, value)))
}

/// The condition with the constant put in for the variable; a binder of the same variable keeps its own.
pub fn put_cond(alloc: Global, cond: &Cond, var: u8, value: u8) -> Result<Cond, NoMemory>
    ensures { IfOk result (λ c. c ≡ cond_put cond.now (Some (var, value))) }
{
    cond_with(alloc, cond, Some((var, value)))
}
