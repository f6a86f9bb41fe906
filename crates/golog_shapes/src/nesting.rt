// How deep the program of a draft nests, up to a limit; whether that of `main` nests too deep,
// tested before it is built.
ghost use Rattle.std.specs.Prelude.{◌≡◌, ◌≤◌, nat_le, not, min, map};
ghost use Rattle.golog_shapes.specs.DraftNest.{parts_nest, draft_nest};
ghost use Rattle.golog_shapes.specs.Limits.{MAIN_NEST as spec_main_nest};

use golog_tree::DraftProg;

/// The deepest front nest of a procedure.
pub const PROC_NEST: u32 = 1024;

/// The deepest nest of the program of `main`.
const MAIN_NEST: u32 = 3072;

/// How deep the program of a draft nests, or the limit where it is deeper.
#[cycle(depth)]
pub fn nest_to(prog: &DraftProg, limit: u32) -> u32
    requires { limit ≤ 65536 }
    ensures { result ≡ min (draft_nest prog.now) limit }
{
    match prog {
        DraftProg::Nil { .. }
        | DraftProg::Act { .. }
        | DraftProg::Test { .. }
        | DraftProg::Call { .. } => limit.min(1),
        DraftProg::Seq { parts, .. }
        | DraftProg::Choice { parts, .. }
        | DraftProg::Conc { parts, .. }
        | DraftProg::Prio { parts, .. } => parts_nest_to(parts.as_slice(), limit),
        DraftProg::Pick { body, .. }
        | DraftProg::Star { body, .. }
        | DraftProg::While { body, .. }
        | DraftProg::Cstar { body, .. }
        | DraftProg::Search { body, .. } => limit.min(1 + nest_to(body.get(), limit)),
        DraftProg::If { yes, no, .. } => {
            let deeper = nest_to(yes.get(), limit).max(nest_to(no.get(), limit));
            limit.min(1 + deeper)
        }
    }
}

/// How deep parts nest, nested to the right, or the limit where they are deeper.
#[cycle(depth)]
fn parts_nest_to(parts: &[DraftProg], limit: u32) -> u32
    requires { limit ≤ 65536 }
    ensures { result ≡ min (parts_nest (map draft_nest parts.now)) limit }
{
    if parts.is_empty() {
        return limit.min(1);
    }
    let mut deepest = 0;
    let mut above = 0;
    for (index, part) in parts.iter().enumerate() {
        if index + 1 < parts.len() {
            above = limit.min(above + 1);
        }
        deepest = limit.min(above + nest_to(part, limit)).max(deepest);
    }
    deepest
}

/// Whether the program of `main` nests deeper than it may.
pub fn is_too_deep(main: &DraftProg) -> bool
    ensures { result ≡ not (nat_le (draft_nest main.now) spec_main_nest) }
{
    nest_to(main, MAIN_NEST + 1) > MAIN_NEST
}
