// The texts of arguments, terms and conditions, added to a text; `print_cond`, that of a condition.
ghost use Rattle.std.specs.Prelude.{◌≡◌, [], ◌∷◌, ◌++◌, IfOk, OnOk, codes, map};
ghost use Rattle.std.specs.List.{flat_map};
ghost use Rattle.golog_print.specs.Printing.{in_list, sign_text, variable_text, arg_text, args_texts, binder_text, fluent_text, term_text, cond_text, text_of_cond};

use crate::named::{add_constant, fluent_name, fluent_sorts, sort_name, stem_of};
use golog_base::{Bytes, NoMemory, add_decimal};
use golog_tree::{Agent, Arg, Cond, Term};
use std::alloc::Global;

/// Begins a list with a word.
pub fn open_list(text: &mut Bytes, word: &[u8]) -> Result<(), NoMemory>
    ensures { OnOk result (text.new ≡ text.old ++ codes "(" ++ word.now) }
{
    text.push(b'(')?;
    text.extend(word)
}

/// Adds a word behind a space.
pub fn add_word(text: &mut Bytes, word: &[u8]) -> Result<(), NoMemory>
    ensures { OnOk result (text.new ≡ text.old ++ codes " " ++ word.now) }
{
    text.push(b' ')?;
    text.extend(word)
}

// Begins a list with the sign of a number.
fn open_shift(text: &mut Bytes, by: i32) -> Result<(), NoMemory>
    ensures { OnOk result (text.new ≡ text.old ++ codes "(" ++ sign_text by) }
{
    if by < 0 {
        open_list(text, b"-")
    } else {
        open_list(text, b"+")
    }
}

/// How a text is written: the agent whose things it names, and what the names of variables begin with.
#[derive(Clone, Copy)]
pub struct Writer<'a> {
    pub agent: &'a Agent,
    pub stem: &'a [u8],
}

impl<'a> Writer<'a> {
    // Adds a variable.
    fn add_variable(&self, text: &mut Bytes, var: u8) -> Result<(), NoMemory>
        ensures { OnOk result (text.new ≡ text.old ++ variable_text self.now.agent.now self.now.stem.now var) }
    {
        text.extend(self.stem)?;
        add_decimal(text, var as usize)
    }

    // Adds an argument in a place of the sort.
    fn add_arg(&self, text: &mut Bytes, sort: u32, arg: Arg) -> Result<(), NoMemory>
        ensures { OnOk result (text.new ≡ text.old ++ arg_text self.now.agent.now self.now.stem.now sort arg) }
    {
        match arg {
            Arg::Const(value) => add_constant(text, self.agent, sort, value),
            Arg::Var(var) => self.add_variable(text, var),
        }
    }

    /// Adds arguments in places of these sorts, each behind a space.
    pub fn add_args(&self, text: &mut Bytes, sorts: &[u32], args: &[Arg]) -> Result<(), NoMemory>
        ensures { OnOk result
            (text.new ≡ text.old ++
            flat_map (λ t. 32 ∷ t) (args_texts self.now.agent.now self.now.stem.now sorts.now args.now)) }
    {
        match (sorts.split_first(), args.split_first()) {
            (Some((sort, sorts)), Some((arg, args))) => {
                text.push(b' ')?;
                self.add_arg(text, *sort, *arg)?;
                self.add_args(text, sorts, args)
            }
            _ => Ok(()),
        }
    }

    /// Adds the variable and the sort of a binder, behind a space.
    pub fn add_binder(&self, text: &mut Bytes, var: u8, sort: u32) -> Result<(), NoMemory>
        ensures { OnOk result (text.new ≡ text.old ++
            codes " " ++ binder_text self.now.agent.now self.now.stem.now var sort) }
    {
        text.push(b' ')?;
        text.push(b'(')?;
        self.add_variable(text, var)?;
        add_word(text, sort_name(self.agent, sort))?;
        text.push(b')')
    }

    // Adds a fluent with its arguments.
    fn add_fluent(&self, text: &mut Bytes, fluent: u32, args: &[Arg]) -> Result<(), NoMemory>
        ensures { OnOk result (text.new ≡ text.old ++
            fluent_text self.now.agent.now self.now.stem.now fluent args.now) }
    {
        open_list(text, fluent_name(self.agent, fluent))?;
        self.add_args(text, fluent_sorts(self.agent, fluent), args)?;
        text.push(b')')
    }

    // Adds a term of the sort.
    fn add_term(&self, text: &mut Bytes, term: &Term, sort: u32) -> Result<(), NoMemory>
        ensures { OnOk result (text.new ≡ text.old ++
            term_text self.now.agent.now self.now.stem.now term.now sort) }
    {
        match term {
            Term::Arg(arg) => self.add_arg(text, sort, *arg),
            Term::Fluent { fluent, args } => self.add_fluent(text, *fluent, args.as_slice()),
            Term::Shift { sort, term, by } => {
                open_shift(text, *by)?;
                text.push(b' ')?;
                self.add_term(text, term.get(), *sort)?;
                text.push(b' ')?;
                add_decimal(text, by.unsigned_abs() as usize)?;
                text.push(b')')
            }
            Term::Ite { .. } => text.extend(b"()"),
        }
    }

    // Adds two terms of the sort in a list behind a sign.
    fn add_sides(
        &self,
        text: &mut Bytes,
        sign: &[u8],
        sort: u32,
        one: &Term,
        other: &Term,
    ) -> Result<(), NoMemory>
        ensures { OnOk result (text.new
            ≡ text.old ++ in_list (sign.now ∷ term_text self.now.agent.now self.now.stem.now one.now sort
            ∷ term_text self.now.agent.now self.now.stem.now other.now sort ∷ [])) }
    {
        open_list(text, sign)?;
        text.push(b' ')?;
        self.add_term(text, one, sort)?;
        text.push(b' ')?;
        self.add_term(text, other, sort)?;
        text.push(b')')
    }

    // Adds a condition behind a space as the last of its list.
    #[cycle(add_cond)]
    fn add_last_cond(&self, text: &mut Bytes, cond: &Cond) -> Result<(), NoMemory>
        ensures { OnOk result (text.new ≡ text.old ++
            codes " " ++ (cond_text self.now.agent.now self.now.stem.now cond.now ++ codes ")")) }
    {
        text.push(b' ')?;
        self.add_cond(text, cond)?;
        text.push(b')')
    }

    // Adds conditions in a list behind a word.
    #[cycle(add_cond)]
    fn add_conds(&self, text: &mut Bytes, word: &[u8], conds: &[Cond]) -> Result<(), NoMemory>
        ensures { OnOk result (text.new
            ≡ text.old ++ in_list (word.now ∷ map (cond_text self.now.agent.now self.now.stem.now) conds.now)) }
    {
        open_list(text, word)?;
        for cond in conds {
            text.push(b' ')?;
            self.add_cond(text, cond)?;
        }
        text.push(b')')
    }

    // Adds a condition in which a variable is bound, in a list behind a word.
    #[cycle(add_cond)]
    fn add_bound(
        &self,
        text: &mut Bytes,
        word: &[u8],
        var: u8,
        sort: u32,
        body: &Cond,
    ) -> Result<(), NoMemory>
        ensures { OnOk result (text.new
            ≡ text.old ++ in_list (word.now ∷ binder_text self.now.agent.now self.now.stem.now var sort
            ∷ cond_text self.now.agent.now self.now.stem.now body.now ∷ [])) }
    {
        open_list(text, word)?;
        self.add_binder(text, var, sort)?;
        self.add_last_cond(text, body)
    }

    /// Adds a condition.
    #[cycle(add_cond)]
    pub fn add_cond(&self, text: &mut Bytes, cond: &Cond) -> Result<(), NoMemory>
        ensures { OnOk result (text.new ≡ text.old ++ cond_text self.now.agent.now self.now.stem.now cond.now) }
    {
        match cond {
            Cond::Truth(true) => text.extend(b"true"),
            Cond::Truth(false) => text.extend(b"false"),
            Cond::Is { fluent, args } => self.add_fluent(text, *fluent, args.as_slice()),
            Cond::Equal { sort, one, other } => self.add_sides(text, b"=", *sort, one, other),
            Cond::Less { sort, one, other } => self.add_sides(text, b"<", *sort, one, other),
            Cond::AtMost { sort, one, other } => self.add_sides(text, b"<=", *sort, one, other),
            Cond::Not(body) => {
                open_list(text, b"not")?;
                self.add_last_cond(text, body.get())
            }
            Cond::And(conds) => self.add_conds(text, b"and", conds.as_slice()),
            Cond::Or(conds) => self.add_conds(text, b"or", conds.as_slice()),
            Cond::ForSome { var, sort, body } => self.add_bound(
                text,
                b"some",
                *var,
                *sort,
                body.get(),
            ),
            Cond::ForAll { var, sort, body } => self.add_bound(
                text,
                b"all",
                *var,
                *sort,
                body.get(),
            ),
        }
    }
}

/// The text of a condition, as an agent's file could say it, with its variables under names as `print_prog` has them.
pub fn print_cond(alloc: Global, agent: &Agent, cond: &Cond) -> Result<Bytes, NoMemory>
    ensures { IfOk result (λ text. text ≡ text_of_cond agent.now cond.now) }
{
    let stem = stem_of(alloc, agent)?;
    let mut text = Bytes::new(alloc);
    let writer = Writer {
        agent,
        stem: stem.as_slice(),
    };
    match writer.add_cond(&mut text, cond) {
        Ok(()) => Ok(text),
        Err(NoMemory) => Err(NoMemory),
    }
}
