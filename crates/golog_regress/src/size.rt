// `nodes`: how many nodes a condition has.
ghost use Rattle.std.specs.Prelude.{◌≡◌, ◌^◌, ◌-◌, ◌+◌, min, map, sum};
ghost use Rattle.golog_regress.specs.Size.{nodes as spec_nodes, term_nodes as spec_term_nodes};

use golog_tree::{Cond, Term};

/// The sum, where the greatest `u64` stands for itself and all above.
fn plus(one: u64, other: u64) -> u64
    ensures { result ≡ min (one + other) (2 ^ 64 - 1) }
{
    one.saturating_add(other)
}

#[cycle(nodes)]
fn term_nodes(term: &Term) -> u64
    ensures { result ≡ min (spec_term_nodes term.now) (2 ^ 64 - 1) }
{
    match term {
        Term::Arg(_) | Term::Fluent { .. } => 1,
        Term::Shift { term, .. } => plus(1, term_nodes(term.get())),
        Term::Ite { cond, yes, no } => plus(
            plus(plus(1, nodes(cond.get())), term_nodes(yes.get())),
            term_nodes(no.get()),
        ),
    }
}

#[cycle(nodes)]
fn nodes_of_all(conds: &[Cond]) -> u64
    ensures { result ≡ min (1 + sum (map spec_nodes conds.now)) (2 ^ 64 - 1) }
{
    let mut count = 1;
    for cond in conds {
        count = plus(count, nodes(cond));
    }
    count
}

/// How many nodes a condition has, each condition and each term in it being one. The greatest `u64`
/// stands for itself and all above. Takes no memory.
#[cycle(nodes)]
pub fn nodes(cond: &Cond) -> u64
    ensures { result ≡ min (spec_nodes cond.now) (2 ^ 64 - 1) }
{
    match cond {
        Cond::Truth(_) | Cond::Is { .. } => 1,
        Cond::Equal { one, other, .. }
        | Cond::Less { one, other, .. }
        | Cond::AtMost { one, other, .. } => plus(plus(1, term_nodes(one)), term_nodes(other)),
        Cond::Not(body) => plus(1, nodes(body.get())),
        Cond::And(conds) | Cond::Or(conds) => nodes_of_all(conds.as_slice()),
        Cond::ForSome { body, .. } | Cond::ForAll { body, .. } => plus(1, nodes(body.get())),
    }
}
