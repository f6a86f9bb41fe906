// The body of a procedure, with the arguments of a call put in.
ghost use Rattle.std.specs.Prelude.{◌≡◌, ◌≤◌, IfOk, length};
ghost use Rattle.golog_semantics.specs.Program.{body_of as body_with, put_arg as with_value, put_args as with_args, put_one as with_one};

use golog_base::NoMemory;
use golog_tree::{Agent, Arg, Prog, copy_prog, put_arg};
use std::alloc::Global;

/// The program with the constant put in for the variable.
fn put_value(alloc: Global, prog: Prog, var: u8, value: u8) -> Result<Prog, NoMemory>
    ensures { IfOk result (λ p. p ≡ with_value prog var value) }
{
    let put = put_arg(alloc, &prog, var, value);
    drop(prog);
    put
}

/// The program with the argument put in for the variable, where it is a constant.
fn put_one(alloc: Global, prog: Prog, var: u8, arg: Arg) -> Result<Prog, NoMemory>
    ensures { IfOk result (λ p. p ≡ with_one prog var arg) }
{
    match arg {
        Arg::Const(value) => put_value(alloc, prog, var, value),
        Arg::Var(_) => Ok(prog),
    }
}

/// The program with the constants among the arguments put in for the variables from 0 on.
fn put_args(alloc: Global, body: &Prog, args: &[Arg]) -> Result<Prog, NoMemory>
    requires { length args.now ≤ 3 }
    ensures { IfOk result (λ p. p ≡ with_args body.now 0 args.now) }
{
    let mut put = copy_prog(alloc, body)?;
    for (var, arg) in args.iter().enumerate() {
        put = put_one(alloc, put, var as u8, *arg)?;
    }
    Ok(put)
}

/// The body of a procedure, with the arguments of a call put in.
pub fn body_of(alloc: Global, agent: &Agent, item: u32, args: &[Arg]) -> Result<Prog, NoMemory>
    requires { length args.now ≤ 3 }
    ensures { IfOk result (λ p. p ≡ body_with agent.now item args.now) }
{
    match agent.procs.as_slice().get(item as usize) {
        None => Ok(Prog::Nil),
        Some(procedure) => put_args(alloc, &procedure.body, args),
    }
}
