// The constructs of programs, one function each, by recursion over forms.
ghost use Rattle.golog_tree.specs.declared.draft_prog.DraftProg.TheVariants.{Nil};
ghost use Rattle.golog_theory.specs.Reading.{Answers, gives};
ghost use Rattle.golog_prog.specs.Constructs.{test_of, progs_of, several_of, pick_of, one_of, guarded_of, guard_of, if_of, search_of, interrupt_of, interrupts_of};
ghost use Rattle.golog_prog.specs.Programs.{nil_of, construct_of, prog_of, prog_part, prog_parts};

use crate::callees::{act_of, call_of};
use crate::keyword::{Keyword, keyword_of};
use crate::procedures::Procedures;
use crate::written::{interrupt, interrupts};
use golog_base::{Boxed, List, both};
use golog_form::Form;
use golog_theory::conditions::{Binder, binder_of};
use golog_theory::fault::{COUNT, UNKNOWN_FORM, refuse_where, unknown_form};
use golog_theory::heads::arguments;
use golog_theory::limits::VARIABLES;
use golog_theory::parts::{number_of, split_list, word};
use golog_theory::{Indexed, TheoryFault, cond_of};
use golog_tree::{DraftCond, DraftProg, Place};
use std::alloc::Global;

/// `nil`
#[tactic(auto, unfolding(crate::specs::Programs::nil_of))]
fn nil_of(form: &Form) -> Result<DraftProg, TheoryFault>
    ensures { Answers result (nil_of form.now) }
{
    let at = form.at();
    if word(form) == b"nil".as_slice() {
        Ok(DraftProg::Nil { at })
    } else {
        Err(unknown_form(at))
    }
}

/// A condition, and the program that it guards.
#[derive(Drop)]
pub struct Guarded {
    pub cond: DraftCond,
    pub body: Boxed<DraftProg>,
}

/// `nil` in memory of its own.
fn boxed_nil(alloc: Global, at: Place) -> Result<Boxed<DraftProg>, TheoryFault>
    ensures { Answers result (gives (Nil at)) }
{
    Ok(Boxed::new(alloc, DraftProg::Nil { at })?)
}

/// What programs are read over: a theory, and the procedures that they may call.
#[derive(Clone, Copy)]
struct Reader<'a> {
    alloc: Global,
    theory: &'a Indexed<'a>,
    procs: &'a Procedures,
}

impl<'a> Reader<'a> {
    /// `(test COND)`
    #[tactic(auto, unfolding(crate::specs::Constructs::test_of))]
    fn test_of(&self, scope: usize, at: Place, parts: &[Form]) -> Result<DraftProg, TheoryFault>
        ensures { Answers result (test_of self.now.theory.now scope at
            (prog_parts self.now.theory.now self.now.procs.now parts.now)) }
    {
        let [cond] = parts else {
            return Err(unknown_form(at));
        };
        let cond = cond_of(self.alloc, self.theory, cond, scope)?;
        Ok(DraftProg::Test { cond, at })
    }

    /// The program that a form spells within so many variables.
    #[cycle(programs)]
    #[tactic(auto, using(crate::proofs::Progs::laws))]
    fn prog_of(&self, form: &Form, scope: usize) -> Result<DraftProg, TheoryFault>
        ensures { Answers result (prog_of self.now.theory.now self.now.procs.now form.now scope) }
    {
        let Some((head, parts)) = split_list(form) else {
            return nil_of(form);
        };
        match keyword_of(word(head)) {
            Some(keyword) => self.construct_of(form, scope, keyword, parts),
            None => Err(unknown_form(form.at())),
        }
    }

    /// The program of a list that begins with the keyword: `(seq PROGS)`, `(choice PROG PROG)` and more, `(star PROG)`
    /// and their like.
    #[cycle(programs)]
    #[tactic(auto, using(crate::proofs::Progs::laws), unfolding(crate::specs::Programs::construct_of, crate::specs::Constructs::seq_of, crate::specs::Constructs::choice_of, crate::specs::Constructs::conc_of, crate::specs::Constructs::prio_of, crate::specs::Constructs::star_of, crate::specs::Constructs::cstar_of, crate::specs::Constructs::while_of))]
    fn construct_of(
        &self,
        form: &Form,
        scope: usize,
        keyword: Keyword,
        parts: &[Form],
    ) -> Result<DraftProg, TheoryFault>
        ensures { Answers result (construct_of self.now.theory.now self.now.procs.now form.now scope keyword
            (prog_parts self.now.theory.now self.now.procs.now parts.now)) }
    {
        let at = form.at();
        match keyword {
            Keyword::Act => act_of(self.alloc, self.theory, at, arguments(form)),
            Keyword::Test => self.test_of(scope, at, parts),
            Keyword::Seq => {
                self.progs_of(scope, parts)
                    .map(|parts| DraftProg::Seq { parts, at })
            }
            Keyword::Choice => {
                self.several_of(scope, at, parts)
                    .map(|parts| DraftProg::Choice { parts, at })
            }
            Keyword::Pick => self.pick_of(scope, at, parts),
            Keyword::Star => {
                self.one_of(scope, at, parts)
                    .map(|body| DraftProg::Star { body, at })
            }
            Keyword::If => self.if_of(scope, at, parts),
            Keyword::While => {
                self.guard_of(scope, at, parts)
                    .map(|guarded| DraftProg::While {
                        cond: guarded.cond,
                        body: guarded.body,
                        at,
                    })
            }
            Keyword::Conc => {
                self.several_of(scope, at, parts)
                    .map(|parts| DraftProg::Conc { parts, at })
            }
            Keyword::Prio => {
                self.several_of(scope, at, parts)
                    .map(|parts| DraftProg::Prio { parts, at })
            }
            Keyword::Cstar => {
                self.one_of(scope, at, parts)
                    .map(|body| DraftProg::Cstar { body, at })
            }
            Keyword::Call => call_of(self.alloc, self.procs, at, arguments(form)),
            Keyword::Search => self.search_of(scope, at, parts),
            Keyword::Interrupt => self.interrupt_of(scope, at, parts),
            Keyword::Interrupts => self.interrupts_of(scope, at, parts),
        }
    }

    #[cycle(programs)]
    #[tactic(auto, using(crate::proofs::Progs::laws), unfolding(crate::specs::Constructs::progs_of))]
    fn progs_of(&self, scope: usize, forms: &[Form]) -> Result<List<DraftProg>, TheoryFault>
        ensures { Answers result (progs_of scope
            (prog_parts self.now.theory.now self.now.procs.now forms.now)) }
    {
        let mut progs = List::new(self.alloc);
        for form in forms {
            progs.push(self.prog_of(form, scope)?)?;
        }
        Ok(progs)
    }

    /// At least two programs.
    #[cycle(programs)]
    #[tactic(auto, using(crate::proofs::Progs::laws), unfolding(crate::specs::Constructs::several_of))]
    fn several_of(
        &self,
        scope: usize,
        at: Place,
        parts: &[Form],
    ) -> Result<List<DraftProg>, TheoryFault>
        ensures { Answers result (several_of scope at
            (prog_parts self.now.theory.now self.now.procs.now parts.now)) }
    {
        refuse_where(parts.len() < 2, UNKNOWN_FORM, at)?;
        self.progs_of(scope, parts)
    }

    /// A program in memory of its own.
    #[cycle(programs)]
    #[tactic(auto, using(crate::proofs::Progs::laws))]
    fn boxed_of(&self, form: &Form, scope: usize) -> Result<Boxed<DraftProg>, TheoryFault>
        ensures { Answers result (prog_of self.now.theory.now self.now.procs.now form.now scope) }
    {
        let prog = self.prog_of(form, scope)?;
        Ok(Boxed::new(self.alloc, prog)?)
    }

    /// `(pick (VAR SORT) PROG)`, where the variable is not one too many.
    #[cycle(programs)]
    #[tactic(auto, using(crate::proofs::Progs::laws), unfolding(crate::specs::Constructs::pick_of))]
    fn pick_of(&self, scope: usize, at: Place, parts: &[Form]) -> Result<DraftProg, TheoryFault>
        ensures { Answers result (pick_of self.now.theory.now scope at
            (prog_parts self.now.theory.now self.now.procs.now parts.now)) }
    {
        let [binder, body] = parts else {
            return Err(unknown_form(at));
        };
        refuse_where(scope >= VARIABLES, COUNT, at)?;
        let Binder { var, sort } = binder_of(self.theory, binder)?;
        let body = self.boxed_of(body, scope + 1)?;
        Ok(DraftProg::Pick {
            var,
            sort,
            body,
            at,
        })
    }

    /// One program.
    #[cycle(programs)]
    #[tactic(auto, using(crate::proofs::Progs::laws), unfolding(crate::specs::Constructs::one_of))]
    fn one_of(
        &self,
        scope: usize,
        at: Place,
        parts: &[Form],
    ) -> Result<Boxed<DraftProg>, TheoryFault>
        ensures { Answers result (one_of scope at
            (prog_parts self.now.theory.now self.now.procs.now parts.now)) }
    {
        let [body] = parts else {
            return Err(unknown_form(at));
        };
        self.boxed_of(body, scope)
    }

    /// A COND and a PROG.
    #[cycle(programs)]
    #[tactic(auto, using(crate::proofs::Progs::laws), unfolding(crate::specs::Constructs::guarded_of))]
    fn guarded_of(&self, scope: usize, cond: &Form, body: &Form) -> Result<Guarded, TheoryFault>
        ensures { Answers result (guarded_of self.now.theory.now scope
            (prog_part self.now.theory.now self.now.procs.now cond.now)
            (prog_part self.now.theory.now self.now.procs.now body.now)) }
    {
        let body = self.boxed_of(body, scope);
        let (cond, body) = both(cond_of(self.alloc, self.theory, cond, scope), body)?;
        Ok(Guarded { cond, body })
    }

    /// A COND and a PROG, and nothing more.
    #[cycle(programs)]
    #[tactic(auto, using(crate::proofs::Progs::laws), unfolding(crate::specs::Constructs::guard_of))]
    fn guard_of(&self, scope: usize, at: Place, parts: &[Form]) -> Result<Guarded, TheoryFault>
        ensures { Answers result (guard_of self.now.theory.now scope at
            (prog_parts self.now.theory.now self.now.procs.now parts.now)) }
    {
        let [cond, body] = parts else {
            return Err(unknown_form(at));
        };
        self.guarded_of(scope, cond, body)
    }

    /// `(if COND PROG)` or `(if COND PROG PROG)`
    #[cycle(programs)]
    #[tactic(auto, using(crate::proofs::Progs::laws), unfolding(crate::specs::Constructs::if_of))]
    fn if_of(&self, scope: usize, at: Place, parts: &[Form]) -> Result<DraftProg, TheoryFault>
        ensures { Answers result (if_of self.now.theory.now scope at
            (prog_parts self.now.theory.now self.now.procs.now parts.now)) }
    {
        match parts {
            [cond, yes] => {
                let yes = self.guarded_of(scope, cond, yes);
                both(yes, boxed_nil(self.alloc, at)).map(|(yes, no)| DraftProg::If {
                    cond: yes.cond,
                    yes: yes.body,
                    no,
                    at,
                })
            }
            [cond, yes, no] => {
                let yes = self.guarded_of(scope, cond, yes);
                both(yes, self.boxed_of(no, scope)).map(|(yes, no)| DraftProg::If {
                    cond: yes.cond,
                    yes: yes.body,
                    no,
                    at,
                })
            }
            _ => Err(unknown_form(at)),
        }
    }

    /// `(search DEPTH FUEL PROG)`
    #[cycle(programs)]
    #[tactic(auto, using(crate::proofs::Progs::laws), unfolding(crate::specs::Constructs::search_of))]
    fn search_of(&self, scope: usize, at: Place, parts: &[Form]) -> Result<DraftProg, TheoryFault>
        ensures { Answers result (search_of scope at
            (prog_parts self.now.theory.now self.now.procs.now parts.now)) }
    {
        let [depth, fuel, body] = parts else {
            return Err(unknown_form(at));
        };
        let depth = number_of(depth)?;
        let fuel = number_of(fuel)?;
        let body = self.boxed_of(body, scope)?;
        Ok(DraftProg::Search {
            depth,
            fuel,
            body,
            at,
        })
    }

    /// `(interrupt COND PROG)`
    #[cycle(programs)]
    #[tactic(auto, using(crate::proofs::Progs::laws), unfolding(crate::specs::Constructs::interrupt_of))]
    fn interrupt_of(
        &self,
        scope: usize,
        at: Place,
        parts: &[Form],
    ) -> Result<DraftProg, TheoryFault>
        ensures { Answers result (interrupt_of self.now.theory.now scope at
            (prog_parts self.now.theory.now self.now.procs.now parts.now)) }
    {
        let Guarded { cond, body } = self.guard_of(scope, at, parts)?;
        Ok(interrupt(self.alloc, cond, body, at)?)
    }

    /// `(interrupts PROG)`
    #[cycle(programs)]
    #[tactic(auto, using(crate::proofs::Progs::laws), unfolding(crate::specs::Constructs::interrupts_of, crate::specs::Constructs::one_of))]
    fn interrupts_of(
        &self,
        scope: usize,
        at: Place,
        parts: &[Form],
    ) -> Result<DraftProg, TheoryFault>
        ensures { Answers result (interrupts_of scope at
            (prog_parts self.now.theory.now self.now.procs.now parts.now)) }
    {
        let [body] = parts else {
            return Err(unknown_form(at));
        };
        let body = self.prog_of(body, scope)?;
        Ok(interrupts(self.alloc, body, at)?)
    }
}

/// The program that a form spells within so many variables.
pub fn prog_of(
    alloc: Global,
    theory: &Indexed<'_>,
    procs: &Procedures,
    form: &Form,
    scope: usize,
) -> Result<DraftProg, TheoryFault>
    ensures { Answers result (prog_of theory.now procs.now form.now scope) }
{
    let reader = Reader {
        alloc,
        theory,
        procs,
    };
    reader.prog_of(form, scope)
}
