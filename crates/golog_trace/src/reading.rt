// `may_read`: whether a condition may read a ground fluent, whatever the values of its variables.
ghost use Rattle.std.specs.Prelude.{◌≡◌, ◌<◌, map};
ghost use Rattle.std.specs.List.{list_any};
ghost use Rattle.golog_tree.specs.Ground.{IsCountable, fluent_args, ground_count};
ghost use Rattle.golog_trace.specs.Reading.{may_all_be as all_may_be, may_be as one_may_be, may_read as reads_at, reads as spec_reads, term_reads as spec_term_reads};

use golog_tree::{Agent, Arg, Cond, Term, fluent_of};

/// Whether an argument may have the value.
fn may_be(arg: Arg, value: u8) -> bool
    ensures { result ≡ one_may_be arg value }
{
    match arg {
        Arg::Const(constant) => constant == value,
        Arg::Var(_) => true,
    }
}

/// Whether the arguments may have these values.
fn may_all_be(args: &[Arg], values: &[u8]) -> bool
    ensures { result ≡ all_may_be args.now values.now }
{
    match (args.split_first(), values.split_first()) {
        (None, _) => true,
        (Some(_), None) => true,
        (Some((arg, args)), Some((value, values))) => {
            may_be(*arg, *value) && may_all_be(args, values)
        }
    }
}

#[cycle(reads)]
fn term_reads(term: &Term, fluent: u32, given: &[u8]) -> bool
    ensures { result ≡ spec_term_reads fluent given.now term.now }
{
    match term {
        Term::Arg(_) => false,
        Term::Fluent { fluent: read, args } => {
            *read == fluent && may_all_be(args.as_slice(), given)
        }
        Term::Shift { term, .. } => term_reads(term.get(), fluent, given),
        Term::Ite { cond, yes, no } => {
            reads(cond.get(), fluent, given)
                || term_reads(yes.get(), fluent, given)
                || term_reads(no.get(), fluent, given)
        }
    }
}

#[cycle(reads)]
fn one_reads(conds: &[Cond], fluent: u32, given: &[u8]) -> bool
    ensures { result ≡ list_any (λ read. read) (map (spec_reads fluent given.now) conds.now) }
{
    for cond in conds {
        if reads(cond, fluent, given) {
            return true;
        }
    }
    false
}

/// Whether the condition may read the fluent at these arguments.
#[cycle(reads)]
fn reads(cond: &Cond, fluent: u32, given: &[u8]) -> bool
    ensures { result ≡ spec_reads fluent given.now cond.now }
{
    match cond {
        Cond::Truth(_) => false,
        Cond::Is { fluent: read, args } => *read == fluent && may_all_be(args.as_slice(), given),
        Cond::Equal { one, other, .. }
        | Cond::Less { one, other, .. }
        | Cond::AtMost { one, other, .. } => {
            term_reads(one, fluent, given) || term_reads(other, fluent, given)
        }
        Cond::Not(body) => reads(body.get(), fluent, given),
        Cond::And(conds) | Cond::Or(conds) => one_reads(conds.as_slice(), fluent, given),
        Cond::ForSome { body, .. } | Cond::ForAll { body, .. } => reads(body.get(), fluent, given),
    }
}

/// Whether the condition may read the ground fluent. Takes no memory.
pub fn may_read(agent: &Agent, cond: &Cond, fluent: u32) -> bool
    requires countable { IsCountable agent.now }
    requires number { fluent < ground_count agent.now (fluent_args agent.now) }
    ensures { result ≡ reads_at agent.now cond.now fluent }
{
    let ground = fluent_of(agent, fluent);
    let given = &ground.args[..usize::from(ground.count)];
    reads(cond, ground.item, given)
}
