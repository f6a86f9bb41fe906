//! The code of a program, by which a map looks for it: a walk over constructs, numbers and
//! arguments.
ghost use Rattle.std.specs.Prelude.{◌≡◌};
ghost use Rattle.golog_memo.specs.Codes.{mixed as spec_mixed, pair_code as spec_pair_code, arg_code as spec_arg_code, args_code as spec_args_code, term_code as spec_term_code, cond_code as spec_cond_code, conds_code as spec_conds_code, prog_code as spec_prog_code};

use golog_tree::{Arg, Cond, Prog, Term};

/// An odd factor whose bits look random: 2 ^ 64 over the golden ratio.
const FACTOR: u64 = 0x9e37_79b9_7f4a_7c15;

/// A number that depends on both, and on their order.
#[tactic(auto, unfolding(crate::specs::Codes::mixed))]
fn mixed(code: u64, number: u64) -> u64
    ensures { result ≡ spec_mixed code number }
{
    let sum = code.wrapping_mul(FACTOR).wrapping_add(number);
    (sum ^ (sum / 0x1_0000_0000)).wrapping_mul(FACTOR)
}

fn arg_code(arg: Arg) -> u64
    ensures { result ≡ spec_arg_code arg }
{
    match arg {
        Arg::Const(value) => 2 * u64::from(value),
        Arg::Var(var) => 2 * u64::from(var) + 1,
    }
}

/// The code with those of the arguments.
fn args_code(start: u64, args: &[Arg]) -> u64
    ensures { result ≡ spec_args_code start args.now }
{
    let mut code = start;
    for arg in args {
        code = mixed(code, arg_code(*arg));
    }
    code
}

/// No program has an `Ite`, whose parts are left out.
fn term_code(term: &Term) -> u64
    ensures { result ≡ spec_term_code term.now }
{
    match term {
        Term::Arg(arg) => arg_code(*arg),
        Term::Fluent { fluent, args } => args_code(mixed(1, u64::from(*fluent)), args.as_slice()),
        Term::Shift { term, .. } => mixed(2, term_code(term.get())),
        Term::Ite { .. } => 3,
    }
}

/// The code with those of the conditions.
#[cycle(cond_code)]
fn conds_code(start: u64, conds: &[Cond]) -> u64
    ensures { result ≡ spec_conds_code start conds.now }
{
    let mut code = start;
    for cond in conds {
        code = mixed(code, cond_code(cond));
    }
    code
}

#[cycle(cond_code)]
fn cond_code(cond: &Cond) -> u64
    ensures { result ≡ spec_cond_code cond.now }
{
    match cond {
        Cond::Truth(_) => 1,
        Cond::Is { fluent, args } => args_code(mixed(2, u64::from(*fluent)), args.as_slice()),
        Cond::Equal { one, other, .. } => mixed(mixed(3, term_code(one)), term_code(other)),
        Cond::Less { one, other, .. } => mixed(mixed(4, term_code(one)), term_code(other)),
        Cond::AtMost { one, other, .. } => mixed(mixed(5, term_code(one)), term_code(other)),
        Cond::Not(cond) => mixed(6, cond_code(cond.get())),
        Cond::And(conds) => conds_code(7, conds.as_slice()),
        Cond::Or(conds) => conds_code(8, conds.as_slice()),
        Cond::ForSome { body, .. } => mixed(9, cond_code(body.get())),
        Cond::ForAll { body, .. } => mixed(10, cond_code(body.get())),
    }
}

/// The code of a program. The rest of a run is left out: what is left of its block stands for it.
pub fn prog_code(prog: &Prog) -> u64
    ensures { result ≡ spec_prog_code prog.now }
{
    match prog {
        Prog::Nil => 1,
        Prog::Act { action, args } => args_code(mixed(2, u64::from(*action)), args.as_slice()),
        Prog::Test(cond) => mixed(3, cond_code(cond)),
        Prog::Seq(first, second) => pair_code(4, prog_code(first.get()), prog_code(second.get())),
        Prog::Choice(one, other) => pair_code(5, prog_code(one.get()), prog_code(other.get())),
        Prog::Pick { body, .. } => mixed(6, prog_code(body.get())),
        Prog::Star(body) => mixed(7, prog_code(body.get())),
        Prog::If { cond, yes, no } => {
            let parts = pair_code(8, prog_code(yes.get()), prog_code(no.get()));
            mixed(parts, cond_code(cond))
        }
        Prog::While { cond, body } => pair_code(9, cond_code(cond), prog_code(body.get())),
        Prog::Conc(one, other) => pair_code(10, prog_code(one.get()), prog_code(other.get())),
        Prog::Prio(high, low) => pair_code(11, prog_code(high.get()), prog_code(low.get())),
        Prog::Cstar(body) => mixed(12, prog_code(body.get())),
        Prog::Call { item, args } => args_code(mixed(13, u64::from(*item)), args.as_slice()),
        Prog::Search { body, .. } => mixed(14, prog_code(body.get())),
        Prog::Follow { body, .. } => mixed(15, prog_code(body.get())),
    }
}

/// The code of a construct of two parts.
fn pair_code(construct: u64, one: u64, other: u64) -> u64
    ensures { result ≡ spec_pair_code construct one other }
{
    mixed(mixed(construct, one), other)
}
