// `print_prog`: the text of a program.
ghost use Rattle.std.specs.Prelude.{◌≡◌, [], ◌∷◌, ◌++◌, OnOk, IfOk, codes, decimal};
ghost use Rattle.golog_print.specs.Printing.{in_list, args_texts, binder_text, cond_text, prog_text, text_of_prog};
ghost use Rattle.golog_print.specs.ReadBack.{IsPrintable, ReadsBack};

use crate::cond_text::{Writer, add_word, open_list};
use crate::laws::ranges_fit;
use crate::named::{action_name, action_sorts, proc_name, proc_sorts, stem_of};
use golog_base::{Bytes, NoMemory, add_decimal};
use golog_tree::{Agent, Arg, Cond, Prog};
use std::alloc::Global;

// Begins a list with `search`, a depth and a fuel.
fn open_search(text: &mut Bytes, depth: u32, fuel: u32) -> Result<(), NoMemory>
    ensures { OnOk result
        (text.new ≡ text.old ++
        codes "(" ++ (codes "search" ++ codes " " ++ (decimal depth ++ codes " " ++ decimal fuel))) }
{
    open_list(text, b"search")?;
    text.push(b' ')?;
    add_decimal(text, depth as usize)?;
    text.push(b' ')?;
    add_decimal(text, fuel as usize)
}

impl<'a> Writer<'a> {
    // Adds a word, a name and arguments of these sorts in a list.
    fn add_named(
        &self,
        text: &mut Bytes,
        word: &[u8],
        name: &[u8],
        sorts: &[u32],
        args: &[Arg],
    ) -> Result<(), NoMemory>
        ensures { OnOk result (text.new
            ≡ text.old ++
            in_list (word.now ∷ name.now ∷ args_texts self.now.agent.now self.now.stem.now sorts.now args.now)) }
    {
        open_list(text, word)?;
        add_word(text, name)?;
        self.add_args(text, sorts, args)?;
        text.push(b')')
    }

    // Begins a list with a word and a condition.
    fn open_guarded(&self, text: &mut Bytes, word: &[u8], cond: &Cond) -> Result<(), NoMemory>
        ensures { OnOk result
            (text.new ≡ text.old ++
            codes "(" ++ (word.now ++ codes " " ++ cond_text self.now.agent.now self.now.stem.now cond.now)) }
    {
        open_list(text, word)?;
        text.push(b' ')?;
        self.add_cond(text, cond)
    }

    // Adds a test of a condition.
    fn add_test(&self, text: &mut Bytes, cond: &Cond) -> Result<(), NoMemory>
        ensures { OnOk result
            (text.new ≡ text.old ++
            in_list (codes "test" ∷ cond_text self.now.agent.now self.now.stem.now cond.now ∷ [])) }
    {
        self.open_guarded(text, b"test", cond)?;
        text.push(b')')
    }

    // Begins a list with `pick`, a variable and its sort.
    fn open_pick(&self, text: &mut Bytes, var: u8, sort: u32) -> Result<(), NoMemory>
        ensures { OnOk result
            (text.new ≡ text.old ++
            codes "(" ++ (codes "pick" ++ codes " " ++ binder_text self.now.agent.now self.now.stem.now var sort)) }
    {
        open_list(text, b"pick")?;
        self.add_binder(text, var, sort)
    }

    // Adds a program behind a space.
    #[cycle(add_prog)]
    fn add_part(&self, text: &mut Bytes, prog: &Prog) -> Result<(), NoMemory>
        ensures { OnOk result (text.new ≡ text.old ++
            codes " " ++ prog_text self.now.agent.now self.now.stem.now prog.now) }
    {
        text.push(b' ')?;
        self.add_prog(text, prog)
    }

    // Begins a list with a word and a program.
    #[cycle(add_prog)]
    fn open_part(&self, text: &mut Bytes, word: &[u8], prog: &Prog) -> Result<(), NoMemory>
        ensures { OnOk result
            (text.new ≡ text.old ++
            codes "(" ++ (word.now ++ codes " " ++ prog_text self.now.agent.now self.now.stem.now prog.now)) }
    {
        open_list(text, word)?;
        self.add_part(text, prog)
    }

    // Adds a program behind a space as the last of its list.
    #[cycle(add_prog)]
    fn add_last(&self, text: &mut Bytes, prog: &Prog) -> Result<(), NoMemory>
        ensures { OnOk result (text.new ≡ text.old ++
            codes " " ++ (prog_text self.now.agent.now self.now.stem.now prog.now ++ codes ")")) }
    {
        self.add_part(text, prog)?;
        text.push(b')')
    }

    // Adds a program in a list behind a word.
    #[cycle(add_prog)]
    fn add_one(&self, text: &mut Bytes, word: &[u8], body: &Prog) -> Result<(), NoMemory>
        ensures { OnOk result
            (text.new ≡ text.old ++
            in_list (word.now ∷ prog_text self.now.agent.now self.now.stem.now body.now ∷ [])) }
    {
        open_list(text, word)?;
        self.add_last(text, body)
    }

    // Adds a program.
    #[cycle(add_prog)]
    fn add_prog(&self, text: &mut Bytes, prog: &Prog) -> Result<(), NoMemory>
        ensures { OnOk result (text.new ≡ text.old ++ prog_text self.now.agent.now self.now.stem.now prog.now) }
    {
        match prog {
            Prog::Nil => text.extend(b"nil"),
            Prog::Act { action, args } => self.add_named(
                text,
                b"act",
                action_name(self.agent, *action),
                action_sorts(self.agent, *action),
                args.as_slice(),
            ),
            Prog::Test(cond) => self.add_test(text, cond),
            Prog::Seq(first, second) => {
                self.open_part(text, b"seq", first.get())?;
                self.add_last(text, second.get())
            }
            Prog::Choice(first, second) => {
                self.open_part(text, b"choice", first.get())?;
                self.add_last(text, second.get())
            }
            Prog::Pick { var, sort, body } => {
                self.open_pick(text, *var, *sort)?;
                self.add_last(text, body.get())
            }
            Prog::Star(body) => self.add_one(text, b"star", body.get()),
            Prog::If { cond, yes, no } => {
                self.open_guarded(text, b"if", cond)?;
                self.add_part(text, yes.get())?;
                self.add_last(text, no.get())
            }
            Prog::While { cond, body } => {
                self.open_guarded(text, b"while", cond)?;
                self.add_last(text, body.get())
            }
            Prog::Conc(first, second) => {
                self.open_part(text, b"conc", first.get())?;
                self.add_last(text, second.get())
            }
            Prog::Prio(first, second) => {
                self.open_part(text, b"prio", first.get())?;
                self.add_last(text, second.get())
            }
            Prog::Cstar(body) => self.add_one(text, b"cstar", body.get()),
            Prog::Call { item, args } => self.add_named(
                text,
                b"call",
                proc_name(self.agent, *item),
                proc_sorts(self.agent, *item),
                args.as_slice(),
            ),
            Prog::Search { depth, fuel, body } => {
                open_search(text, *depth, *fuel)?;
                self.add_last(text, body.get())
            }
            Prog::Follow { .. } => text.extend(b"()"),
        }
    }
}

/// The text of a program, as an agent's file could say it. A variable is printed under a name that is neither
/// declared nor reserved. Where a file can say the program, the text reads back to it, limits of size and nesting
/// aside.
#[tactic(auto, using(crate::proofs::PrintBack::prints_back))]
pub fn print_prog(alloc: Global, agent: &Agent, prog: &Prog) -> Result<Bytes, NoMemory>
    ensures text { IfOk result (λ text. text ≡ text_of_prog agent.now prog.now) }
    ensures back { IfOk result (λ text. IsPrintable agent.now prog.now → ReadsBack text agent.now prog.now) }
{
    // Only with this is it known that the text of a whole number reads back.
    ranges_fit(agent);
    let stem = stem_of(alloc, agent)?;
    let mut text = Bytes::new(alloc);
    let writer = Writer {
        agent,
        stem: stem.as_slice(),
    };
    match writer.add_prog(&mut text, prog) {
        Ok(()) => Ok(text),
        Err(NoMemory) => Err(NoMemory),
    }
}
