// Whether the steps of a program are few enough to be listed.
ghost use Rattle.std.specs.Prelude.{◌≡◌, ◌≤◌, ◌-◌, ◌*◌};
ghost use Rattle.golog_semantics.specs.WellFormed.{WellFormed};

use golog_tree::{Agent, Prog, sort_size};
use golog_ways::may_skip;

/// The most parts of a program that are looked at for its steps.
const LOOKS: u32 = 4_096;

/// How many of so many looks are left where some are taken so many times.
fn left_after(looks: u32, left: u32, times: u32) -> u32
    requires { left ≤ looks }
    ensures taken { result ≡ looks - (looks - left) * times }
    ensures most { result ≤ looks }
{
    looks.saturating_sub((looks - left).saturating_mul(times))
}

/// How many of so many looks are left after each part has been looked at with which a step of the program may
/// begin, calls included: a part of a `pick` once for each constant. None are left where they do not suffice.
#[cycle(looks_left)]
fn looks_left(agent: &Agent, prog: &Prog, looks: u32) -> u32
    requires { WellFormed agent.now }
    ensures { result ≤ looks }
{
    if looks == 0 {
        return 0;
    }
    let looks = looks - 1;
    match prog {
        Prog::Nil | Prog::Act { .. } | Prog::Test(_) => looks,
        Prog::Search { .. } | Prog::Follow { .. } => looks,
        Prog::Seq(one, other) => {
            if may_skip(agent, one.get()) {
                left_of_both(agent, one.get(), other.get(), looks)
            } else {
                looks_left(agent, one.get(), looks)
            }
        }
        Prog::Choice(one, other) | Prog::Conc(one, other) | Prog::Prio(one, other) => {
            left_of_both(agent, one.get(), other.get(), looks)
        }
        Prog::If { yes, no, .. } => left_of_both(agent, yes.get(), no.get(), looks),
        Prog::Pick { sort, body, .. } => {
            let left = looks_left(agent, body.get(), looks);
            left_after(looks, left, sort_size(agent, *sort))
        }
        Prog::Star(body) | Prog::Cstar(body) => looks_left(agent, body.get(), looks),
        Prog::While { body, .. } => looks_left(agent, body.get(), looks),
        Prog::Call { item, .. } => match agent.procs.as_slice().get(*item as usize) {
            None => looks,
            Some(procedure) => looks_left(agent, &procedure.body, looks),
        },
    }
}

/// How many looks are left after two programs.
#[cycle(looks_left)]
fn left_of_both(agent: &Agent, one: &Prog, other: &Prog, looks: u32) -> u32
    requires { WellFormed agent.now }
    ensures { result ≤ looks }
{
    let left = looks_left(agent, one, looks);
    looks_left(agent, other, left)
}

/// Whether the steps of a program are few enough to be listed with their conditions. Whatever this answers, a
/// watch is right; it bounds the memory that the list takes.
pub fn is_light(agent: &Agent, prog: &Prog) -> bool
    requires { WellFormed agent.now }
{
    looks_left(agent, prog, LOOKS) > 0
}
