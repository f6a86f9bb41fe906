// The fronts of one construct, from those of its parts.
ghost use Rattle.std.specs.Prelude.{◌≡◌, [], ◌∷◌, ◌++◌, ◌≤◌, length, map, IfOk};
ghost use Rattle.golog_tree.specs.Tidy.{tidy_seq as seq_of, tidy_conc as conc_of, tidy_prio as prio_of};
ghost use Rattle.golog_fronts.specs.Closed.{IsFit, IsClosed};
ghost use Rattle.golog_fronts.specs.FrontLists.{AreClosedFronts, AreWhereEnds, IsPrecondition, front_in, front_where, last_front, none_open as none_of_these};
ghost use Rattle.golog_fronts.specs.Puts.{cond_put_args, cond_put_one};

use crate::combining::negation_of;
use crate::context::Place;
use crate::front_lists::{Front, fronts_at, fronts_where, joined, none_open};
use crate::here::Fit;
use golog_base::{List, NoMemory, both};
use golog_known::Env;
use golog_tree::{Agent, Arg, Cond, Label, Prog, action_no, copy_cond, put_cond};
use std::alloc::Global;

/// The condition with the constant put in for the variable.
fn put_value(alloc: Global, cond: Cond, var: u8, value: u8) -> Result<Cond, NoMemory>
    ensures { IfOk result (λ c. c ≡ cond_put_one cond var (Arg.Const value)) }
{
    let put = put_cond(alloc, &cond, var, value);
    drop(cond);
    put
}

/// The condition with the argument put in for the variable, where it is a constant.
fn put_one(alloc: Global, cond: Cond, var: u8, arg: Arg) -> Result<Cond, NoMemory>
    ensures { IfOk result (λ c. c ≡ cond_put_one cond var arg) }
{
    match arg {
        Arg::Const(value) => put_value(alloc, cond, var, value),
        Arg::Var(_) => Ok(cond),
    }
}

/// The condition with the constants among the arguments put in for the variables from 0 on.
fn put_args(alloc: Global, cond: &Cond, args: &[Arg]) -> Result<Cond, NoMemory>
    requires { length args.now ≤ 3 }
    ensures { IfOk result (λ c. c ≡ cond_put_args cond.now 0 args.now) }
{
    let mut put = copy_cond(alloc, cond)?;
    for (var, arg) in args.iter().enumerate() {
        put = put_one(alloc, put, var as u8, *arg)?;
    }
    Ok(put)
}

/// The precondition of an action at these constants.
fn precondition_of(
    alloc: Global,
    agent: &Agent,
    action: u32,
    args: &[Arg],
) -> Result<Cond, NoMemory>
    requires fit { IsFit agent.now }
    requires closed { IsClosed agent.now (Prog.Act action args.now) }
    ensures { IfOk result (IsPrecondition agent.now action args.now) }
{
    for item in agent.poss.as_slice() {
        if item.action == action {
            return put_args(alloc, &item.cond, args);
        }
    }
    Ok(Cond::Truth(true))
}

/// One front, which leaves nothing.
fn last(alloc: Global, cond: Cond, label: Label) -> Result<List<Front>, NoMemory>
    ensures { IfOk result (λ fs. fs ≡ last_front cond label ∷ []) }
{
    let front = Front {
        cond,
        label,
        left: Prog::Nil,
    };
    Ok(List::from_vec(vec![in alloc; front]?))
}

/// The front of an action.
pub fn act_front(
    alloc: Global,
    agent: &Agent,
    action: u32,
    args: &[Arg],
) -> Result<List<Front>, NoMemory>
    requires fit { IsFit agent.now }
    requires closed { IsClosed agent.now (Prog.Act action args.now) }
    ensures { IfOk result (AreClosedFronts agent.now (Prog.Act action args.now)) }
{
    let constants = Env::new().arg_values(args);
    let number = action_no(agent, action, &constants[..args.len()]);
    let cond = precondition_of(alloc, agent, action, args)?;
    last(alloc, cond, Label::Do(number))
}

/// The front of a test.
pub fn test_front(alloc: Global, cond: &Cond) -> Result<List<Front>, NoMemory>
    ensures { IfOk result (λ fs. fs ≡ last_front cond.now Label.Quiet ∷ []) }
{
    let cond = copy_cond(alloc, cond)?;
    last(alloc, cond, Label::Quiet)
}

/// The fronts of a second part, where the first may end.
fn where_ends(
    alloc: Global,
    agent: &Agent,
    fronts: &[Front],
    one: &Prog,
) -> Result<List<Front>, NoMemory>
    requires fit { IsFit agent.now }
    requires closed { IsClosed agent.now one.now }
    ensures { IfOk result (AreWhereEnds agent.now one.now fronts.now) }
{
    let fit = Fit { alloc, agent };
    let end = fit.end_of(one)?;
    let open = fronts_where(alloc, &end, fronts);
    drop(end);
    open
}

/// The fronts of one program and then another.
pub fn in_sequence(
    alloc: Global,
    agent: &Agent,
    ones: List<Front>,
    others: List<Front>,
    one: &Prog,
    other: &Prog,
) -> Result<List<Front>, NoMemory>
    requires fit { IsFit agent.now }
    requires closed { IsClosed agent.now one.now }
    requires ones { AreClosedFronts agent.now one.now ones }
    requires others { AreClosedFronts agent.now other.now others }
    ensures { IfOk result (AreClosedFronts agent.now (Prog.Seq one.now other.now)) }
{
    let ones = fronts_at(alloc, Place::Before, ones.as_slice(), other);
    let others = where_ends(alloc, agent, others.as_slice(), one);
    let (ones, others) = both(ones, others)?;
    joined(ones, others)
}

/// The fronts of two programs side by side.
pub fn side_by_side(
    alloc: Global,
    ones: List<Front>,
    others: List<Front>,
    one: &Prog,
    other: &Prog,
) -> Result<List<Front>, NoMemory>
    ensures { IfOk result (λ fs. fs ≡ map (front_in (λ l. conc_of l other.now)) ones
        ++ map (front_in (λ l. conc_of one.now l)) others) }
{
    let ones = fronts_at(alloc, Place::FirstBeside, ones.as_slice(), other);
    let others = fronts_at(alloc, Place::SecondBeside, others.as_slice(), one);
    let (ones, others) = both(ones, others)?;
    joined(ones, others)
}

/// The fronts, where none of the higher ones is open.
fn where_none_open(alloc: Global, highs: &[Front], lows: &[Front]) -> Result<List<Front>, NoMemory>
    ensures { IfOk result (λ fs. fs ≡ map (front_where (none_of_these highs.now)) lows.now) }
{
    let none = none_open(alloc, highs)?;
    let open = fronts_where(alloc, &none, lows);
    drop(none);
    open
}

/// The fronts of the lower part, below the higher part.
fn lower(
    alloc: Global,
    highs: &[Front],
    lows: &[Front],
    high: &Prog,
) -> Result<List<Front>, NoMemory>
    ensures { IfOk result (λ fs. fs ≡ map (front_in (λ l. prio_of high.now l))
        (map (front_where (none_of_these highs.now)) lows.now)) }
{
    let lows = where_none_open(alloc, highs, lows)?;
    fronts_at(alloc, Place::Under, lows.as_slice(), high)
}

/// The fronts of one program over another, which may only step where the first has no step.
pub fn one_over_other(
    alloc: Global,
    highs: List<Front>,
    lows: List<Front>,
    high: &Prog,
    low: &Prog,
) -> Result<List<Front>, NoMemory>
    ensures { IfOk result (λ fs. fs ≡ map (front_in (λ l. prio_of l low.now)) highs
        ++ map (front_in (λ l. prio_of high.now l)) (map (front_where (none_of_these highs)) lows)) }
{
    let over = fronts_at(alloc, Place::Over, highs.as_slice(), low);
    let under = lower(alloc, highs.as_slice(), lows.as_slice(), high);
    let (over, under) = both(over, under)?;
    joined(over, under)
}

/// The fronts, where the condition does not hold.
fn where_not(alloc: Global, cond: &Cond, fronts: &[Front]) -> Result<List<Front>, NoMemory>
    ensures { IfOk result (λ fs. fs ≡ map (front_where (Cond.Not cond.now)) fronts.now) }
{
    let negation = negation_of(alloc, cond)?;
    let open = fronts_where(alloc, &negation, fronts);
    drop(negation);
    open
}

/// The ones where the condition holds, and then the others where it does not.
pub fn either_way(
    alloc: Global,
    cond: &Cond,
    yes: List<Front>,
    no: List<Front>,
) -> Result<List<Front>, NoMemory>
    ensures { IfOk result (λ fs. fs ≡ map (front_where cond.now) yes
        ++ map (front_where (Cond.Not cond.now)) no) }
{
    let yes = fronts_where(alloc, cond, yes.as_slice());
    let no = where_not(alloc, cond, no.as_slice());
    let (yes, no) = both(yes, no)?;
    joined(yes, no)
}

/// The fronts of a loop's body, with the loop to be done after what each leaves.
pub fn while_holds(
    alloc: Global,
    cond: &Cond,
    steps: List<Front>,
    prog: &Prog,
) -> Result<List<Front>, NoMemory>
    ensures { IfOk result (λ fs. fs ≡ map (front_where cond.now)
        (map (front_in (λ l. seq_of l prog.now)) steps)) }
{
    let steps = fronts_at(alloc, Place::Before, steps.as_slice(), prog)?;
    fronts_where(alloc, cond, steps.as_slice())
}
