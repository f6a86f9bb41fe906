// From tokens to a form: the lists that are open, at most 128, stand on a stack of their own.
ghost use Rattle.std.specs.Prelude.{◌≡◌, ◌∷◌, [], ◌+◌, ◌≤◌, ◌<◌, ◌^◌, length, None, OnOk, IfOk, MatchOption};
ghost use Rattle.golog_form.specs.Tokens.{tokens, place, end_of};
ghost use Rattle.golog_form.specs.Gives.{Gives};
ghost use Rattle.golog_form.specs.Parsing.{Steps, put_form, open_level, close_level, take_token, finish, parse, start};

use crate::fault::FormFault;
use crate::form::Form;
use crate::lexer::next_token;
use crate::token::Token;
use golog_base::{List, NoMemory};
use std::alloc::Global;
use std::marker::Model;

// How many lists may be open at once.
const LEVELS: usize = 128;

/// A list under way: the place of its `(` and the items so far.
#[derive(Drop)]
pub struct Level {
    pub at: u32,
    pub items: List<Form>,
}

/// The lists under way. Contracts see the innermost first.
#[derive(Drop)]
pub struct Levels {
    levels: Vec<Level>,
}

impl Model for Levels {
    ghost use Rattle.std.specs.Prelude.{List as ListOf, reverse};
    ghost use Rattle.golog_form.specs.declared.parser.Level.{Level};
    ghost use Rattle.golog_form.specs.contracts.form.Form as form;
    ghost use Rattle.std.specs.Coded.{codes};

    ghost Value = { ListOf Level };

    ghost coded = { Prim.hlevel (codes, form.the_row.coded) };

    ghost view = { λ l. reverse l.levels.items };
}

impl Levels {
    /// No list is open.
    pub fn new(alloc: Global) -> Levels
        ensures { result ≡ [] }
    {
        Levels {
            levels: Vec::new(alloc),
        }
    }

    /// How many lists are open.
    pub fn len(&self) -> usize
        ensures { result ≡ length self.now }
    {
        self.levels.len()
    }

    /// Opens a list in the innermost.
    pub fn push(&mut self, level: Level) -> Result<(), NoMemory>
        ensures { OnOk result (self.new ≡ level ∷ self.old) }
    {
        self.levels.push(level)?;
        Ok(())
    }

    /// Takes the innermost list away; `None` where none is open.
    pub fn pop(&mut self) -> Option<Level>
        ensures { MatchOption result ((self.old ≡ []) × (self.new ≡ []))
            (λ level. self.old ≡ level ∷ self.new) }
    {
        self.levels.pop()
    }
}

/// The tokens read so far: the lists under way, and the form where one is whole.
#[derive(Drop)]
pub struct Parser {
    pub levels: Levels,
    pub found: Option<Form>,
}

impl Parser {
    fn new(alloc: Global) -> Parser
        ensures { result ≡ start }
    {
        Parser {
            levels: Levels::new(alloc),
            found: None,
        }
    }

    // Takes a form that begins at `at` as the next item of the innermost list, or as the form of the text.
    fn put_form(&mut self, form: Form, at: u32) -> Result<(), FormFault>
        ensures { Steps result self.new (put_form form at self.old.levels self.old.found) }
    {
        match self.levels.pop() {
            Some(mut level) => {
                level.items.push(form)?;
                self.levels.push(level)?;
                Ok(())
            }
            None if self.found.is_some() => Err(FormFault::Refused { why: 2, at }),
            None => {
                self.found = Some(form);
                Ok(())
            }
        }
    }

    fn open_level(&mut self, alloc: Global, at: u32) -> Result<(), FormFault>
        ensures { Steps result self.new (open_level at self.old.levels self.old.found) }
    {
        if self.levels.len() == 0 && self.found.is_some() {
            return Err(FormFault::Refused { why: 2, at });
        }
        if self.levels.len() >= LEVELS {
            return Err(FormFault::Refused { why: 4, at });
        }
        self.levels.push(Level {
            at,
            items: List::new(alloc),
        })?;
        Ok(())
    }

    fn close_level(&mut self, end: u32) -> Result<(), FormFault>
        requires { 0 < end }
        ensures { Steps result self.new (close_level end self.old.levels self.old.found) }
    {
        match self.levels.pop() {
            None => Err(FormFault::Refused {
                why: 2,
                at: end - 1,
            }),
            Some(Level { at, items }) => self.put_form(Form::Group { items, at, end }, at),
        }
    }

    fn take(&mut self, alloc: Global, token: Token) -> Result<(), FormFault>
        requires { place token < end_of token }
        ensures { Steps result self.new (take_token token self.old.levels self.old.found) }
    {
        match token {
            Token::Open { at } => self.open_level(alloc, at),
            Token::Close { end } => self.close_level(end),
            Token::Atom { text, at, end } => self.put_form(Form::Atom { text, at, end }, at),
            Token::Bad { at } => Err(FormFault::Refused { why: 3, at }),
        }
    }

    fn finish(self, end: u32) -> Result<Form, FormFault>
        ensures { Gives result (finish end self.levels self.found) }
    {
        let Parser { levels, found } = self;
        if levels.len() > 0 {
            return Err(FormFault::Refused { why: 1, at: end });
        }
        match found {
            None => Err(FormFault::Refused { why: 6, at: end }),
            Some(form) => Ok(form),
        }
    }
}

/// The form that the tokens of the bytes spell, which are read one after another up to the first refusal.
#[tactic(auto, unfolding(crate::specs::Parsing::parse))]
pub fn parse(alloc: Global, bytes: &[u8]) -> Result<Form, FormFault>
    requires { length bytes.now < 2 ^ 32 }
    ensures { Gives result (parse (length bytes.now) (tokens bytes.now) start) }
{
    let mut parser = Parser::new(alloc);
    let mut at = 0;
    while let Some(token) = next_token(alloc, bytes, at)? {
        at = token.end();
        parser.take(alloc, token)?;
    }
    parser.finish(bytes.len() as u32)
}
