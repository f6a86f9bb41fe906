// What a program begins with: whether a search block stands at its front, and whether it may be
// skipped.
ghost use Rattle.std.specs.Prelude.{◌≡◌, false, true, ◌&&◌, ◌||◌};
ghost use Rattle.golog_semantics.specs.Guarded.{IsGuarded, front};
ghost use Rattle.golog_semantics.specs.WellFormed.{WellFormed};
ghost use Rattle.golog_fronts.specs.FrontBlock.{has_front_block as block_in_front};
ghost use Rattle.golog_fronts.specs.Fore.{IsFore, AreFores, IsCallFore};

use golog_tree::{Agent, Prog};

/// Whether a program may be final without a step, and whether a search block stands at its front.
#[derive(Clone, Copy, Debug)]
pub struct Fore {
    pub skip: bool,
    pub block: bool,
}

impl Fore {
    /// A program without parts.
    fn leaf(skip: bool) -> Fore
        ensures skip { result.skip ≡ skip }
        ensures block { result.block ≡ false }
    {
        Fore { skip, block: false }
    }

    /// Two parts that both run.
    fn and(self, other: Fore) -> Fore
        ensures skip { result.skip ≡ (self.skip && other.skip) }
        ensures block { result.block ≡ (self.block || other.block) }
    {
        Fore {
            skip: self.skip && other.skip,
            block: self.block || other.block,
        }
    }

    /// Two parts of which one runs.
    fn or(self, other: Fore) -> Fore
        ensures skip { result.skip ≡ (self.skip || other.skip) }
        ensures block { result.block ≡ (self.block || other.block) }
    {
        Fore {
            skip: self.skip || other.skip,
            block: self.block || other.block,
        }
    }

    /// A part that runs any number of times.
    fn repeated(self) -> Fore
        ensures skip { result.skip ≡ true }
        ensures block { result.block ≡ self.block }
    {
        Fore {
            skip: true,
            block: self.block,
        }
    }

    /// The body of a search block.
    fn blocked(self) -> Fore
        ensures skip { result.skip ≡ self.skip }
        ensures block { result.block ≡ true }
    {
        Fore {
            skip: self.skip,
            block: true,
        }
    }
}

/// What a program begins with.
#[cycle(fore)]
fn fore_of(agent: &Agent, prog: &Prog) -> Fore
    requires { IsGuarded agent.now }
    ensures { IsFore agent.now prog.now result }
{
    match prog {
        Prog::Nil => Fore::leaf(true),
        Prog::Act { .. } => Fore::leaf(false),
        Prog::Test(_) => Fore::leaf(false),
        Prog::Seq(one, other) => fore_of_seq(agent, one.get(), other.get()),
        Prog::Choice(one, other) => {
            let (one, other) = fores(agent, one.get(), other.get());
            one.or(other)
        }
        Prog::If { yes, no, .. } => {
            let (yes, no) = fores(agent, yes.get(), no.get());
            yes.or(no)
        }
        Prog::Conc(one, other) => {
            let (one, other) = fores(agent, one.get(), other.get());
            one.and(other)
        }
        Prog::Prio(high, low) => {
            let (high, low) = fores(agent, high.get(), low.get());
            high.and(low)
        }
        Prog::Pick { body, .. } => fore_of(agent, body.get()),
        Prog::Star(body) => fore_of(agent, body.get()).repeated(),
        Prog::Cstar(body) => fore_of(agent, body.get()).repeated(),
        Prog::While { body, .. } => fore_of(agent, body.get()).repeated(),
        Prog::Call { item, .. } => fore_of_call(agent, *item),
        Prog::Search { body, .. } => fore_of(agent, body.get()).blocked(),
        Prog::Follow { body, .. } => fore_of(agent, body.get()).blocked(),
    }
}

#[cycle(fore)]
fn fores(agent: &Agent, one: &Prog, other: &Prog) -> (Fore, Fore)
    requires { IsGuarded agent.now }
    ensures { AreFores agent.now one.now other.now result.0 result.1 }
{
    let one = fore_of(agent, one);
    let other = fore_of(agent, other);
    (one, other)
}

/// The second part stands at the front only where the first may be skipped.
#[cycle(fore)]
fn fore_of_seq(agent: &Agent, one: &Prog, other: &Prog) -> Fore
    requires { IsGuarded agent.now }
    ensures { IsFore agent.now (Prog.Seq one.now other.now) result }
{
    let one = fore_of(agent, one);
    if one.skip {
        one.and(fore_of(agent, other))
    } else {
        one
    }
}

/// A call begins with the body.
#[cycle(fore)]
fn fore_of_call(agent: &Agent, item: u32) -> Fore
    requires { IsGuarded agent.now }
    ensures { IsCallFore agent.now item result }
{
    match agent.procs.as_slice().get(item as usize) {
        None => Fore::leaf(true),
        Some(procedure) => fore_of(agent, &procedure.body),
    }
}

/// Whether a search block stands at the front of the program, or at that of a procedure that it may call
/// without a step. Takes no memory.
pub fn has_front_block(agent: &Agent, prog: &Prog) -> bool
    requires { WellFormed agent.now }
    ensures { result ≡ block_in_front agent.now prog.now }
{
    fore_of(agent, prog).block
}

/// Whether the program may be final without a step, at some values at least. Takes no memory.
pub fn may_skip(agent: &Agent, prog: &Prog) -> bool
    requires { IsGuarded agent.now }
    ensures { result ≡ (front agent.now prog.now).skip }
{
    fore_of(agent, prog).skip
}
