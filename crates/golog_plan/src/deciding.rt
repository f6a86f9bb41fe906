//! What a program that follows plans does next.
ghost use Rattle.std.specs.Prelude.{◌≡◌, ◌++◌, IfOk, IsTrue, None, Some, codes, false};
ghost use Rattle.golog_semantics.specs.Journal.{has_end, is_full, lacks_results};
ghost use Rattle.golog_branch.specs.Following.{begins_with_step, first_label, plan_kept};
ghost use Rattle.golog_branch.specs.Going.{goes};
ghost use Rattle.golog_branch.specs.TreeTexts.{is_told};
ghost use Rattle.golog_branch.specs.TreesInWorlds.{IsFoundFor};
ghost use Rattle.golog_plan.specs.Next.{BeginsBy, NextIs, Planless, ahead_of, is_settled_at, kept_of, tail_begun, values_of};
ghost use Rattle.golog_plan.specs.PlanTexts.{ended_line, plan_tail};

use crate::next::{Begun, Next};
use crate::plan_core::PlanCore;
use golog_base::{Boxed, Bytes, List, NoMemory};
use golog_branch::{Kept, Planned, Tree, plan, tree_text};
use golog_semantics::{Answer, Mode};
use golog_tree::Label;
use golog_ways::is_final;

/// What the first step of a plan does.
fn label_of(tree: &Tree) -> Option<Label>
    ensures { result ≡ first_label tree.now }
{
    match tree {
        Tree::Done => None,
        Tree::Step { label, .. } => Some(*label),
    }
}

impl<'a> PlanCore<'a> {
    // The end of the line in which a plan begins, with its line feed.
    fn tail_of(&self, tree: &Tree) -> Result<Bytes, NoMemory>
        requires told { IsTrue (is_told self.now.agent tree.now) }
        ensures { IfOk result (λ tail. tail ≡ ended_line (plan_tail self.now.agent (Some tree.now))) }
    {
        let text = tree_text(self.alloc, self.agent, self.counts.facts(), tree)?;
        let tail = self.joined(text.as_slice());
        drop(text);
        tail
    }

    fn joined(&self, text: &[u8]) -> Result<Bytes, NoMemory>
        ensures { IfOk result (λ tail. tail ≡ ended_line (codes " tree " ++ text.now)) }
    {
        let mut tail = List::copy_of(self.alloc, b" tree ")?;
        tail.extend(text)?;
        tail.push(b'\n')?;
        Ok(tail)
    }

    // The first step of a plan.
    fn begin(&self, tree: &Boxed<Tree>, tail: Option<Bytes>) -> Result<Next, NoMemory>
        requires settled { IsTrue (is_settled_at self.now) }
        requires ahead { BeginsBy self.now tree.now }
        requires step { IsTrue (begins_with_step tree.now) }
        requires tail { tail ≡ tail_begun self.now }
        ensures { IfOk result (NextIs self.now) }
    {
        let Some(label) = label_of(tree.get()) else {
            unreachable!();
        };
        match Kept::after_step(self.alloc, self.counts.facts(), tree) {
            Ok(kept) => Ok(Next::Step(Begun { label, kept, tail })),
            Err(fault) => {
                drop(tail);
                Err(fault)
            }
        }
    }

    // The first step of a plan that is new.
    fn begin_new(&self, tree: &Boxed<Tree>) -> Result<Next, NoMemory>
        requires settled { IsTrue (is_settled_at self.now) }
        requires ahead { BeginsBy self.now tree.now }
        requires goes { IsTrue (goes self.now.agent tree.now (kept_of self.now).left (values_of self.now)) }
        requires told { IsTrue (is_told self.now.agent tree.now) }
        requires new { plan_kept self.now.agent (values_of self.now) (kept_of self.now) ≡ None }
        ensures { IfOk result (NextIs self.now) }
    {
        let tail = self.tail_of(tree.get())?;
        self.begin(tree, Some(tail))
    }

    // What the program does that has no plan: it ends where no device may post any more, and else waits.
    fn without_plan(&self) -> Next
        requires settled { IsTrue (is_settled_at self.now) }
        requires none { Planless self.now }
        ensures { NextIs self.now result }
    {
        if self.counts.is_quiet() {
            Next::End(Answer::Depth)
        } else {
            Next::Wait
        }
    }

    // What it does by what a search for a plan has come to.
    fn by_plan(&self, found: Planned) -> Result<Next, NoMemory>
        requires settled { IsTrue (is_settled_at self.now) }
        requires found { found ≡ ahead_of self.now }
        requires so { IsFoundFor self.now.agent self.now.depth (kept_of self.now).left (values_of self.now) found }
        requires new { plan_kept self.now.agent (values_of self.now) (kept_of self.now) ≡ None }
        ensures { IfOk result (NextIs self.now) }
    {
        match found {
            Planned::Found(tree) => {
                let next = self.begin_new(&tree);
                drop(tree);
                next
            }
            Planned::Absent => Ok(self.without_plan()),
            Planned::Fuel => Ok(Next::End(Answer::Fuel)),
            Planned::Large => Ok(Next::End(Answer::Deep)),
        }
    }

    // What it does where no plan is kept that goes through.
    fn search_on(&self, kept: &Kept) -> Result<Next, NoMemory>
        requires settled { IsTrue (is_settled_at self.now) }
        requires kept { kept.now ≡ kept_of self.now }
        requires new { plan_kept self.now.agent (values_of self.now) (kept_of self.now) ≡ None }
        ensures { IfOk result (NextIs self.now) }
    {
        let found = plan(
            self.alloc,
            self.agent,
            self.counts.facts(),
            &kept.left,
            &self.state,
            self.depth,
            self.fuel,
        )?;
        self.by_plan(found)
    }

    // What it does that does not end: it follows the plan that is kept, or looks for one.
    fn go_on(&self, kept: &Kept) -> Result<Next, NoMemory>
        requires settled { IsTrue (is_settled_at self.now) }
        requires kept { kept.now ≡ kept_of self.now }
        ensures { IfOk result (NextIs self.now) }
    {
        match kept.going(self.alloc, self.agent, self.counts.facts(), &self.state)? {
            Some(tree) => {
                let next = self.begin(&tree, None);
                drop(tree);
                next
            }
            None => self.search_on(kept),
        }
    }

    // What it does where no result is to come.
    fn settled(&self) -> Result<Next, NoMemory>
        requires goes_on { has_end self.now.list ≡ false }
        requires room { is_full self.now.list ≡ false }
        requires none { lacks_results self.now.agent self.now.list ≡ false }
        ensures { IfOk result (NextIs self.now) }
    {
        let Some(kept) = &self.kept else {
            return Err(NoMemory);
        };
        if is_final(self.alloc, self.agent, Mode::Must, &kept.left, &self.state)? {
            return Ok(Next::End(Answer::Done));
        }
        self.go_on(kept)
    }

    // What it does where a result is to come: it is one alone.
    fn awaiting(&self) -> Next
        requires goes_on { has_end self.now.list ≡ false }
        requires room { is_full self.now.list ≡ false }
        requires lacking { IsTrue (lacks_results self.now.agent self.now.list) }
        ensures { NextIs self.now result }
    {
        if self.counts.may_be_answered() {
            Next::Wait
        } else {
            Next::End(Answer::Unanswered)
        }
    }

    /// What the program is to do next.
    pub(crate) fn next(&self) -> Next
        requires { has_end self.now.list ≡ false }
        ensures { NextIs self.now result }
    {
        if self.counts.is_full() {
            return Next::End(Answer::Full);
        }
        if self.counts.lacks_results() {
            return self.awaiting();
        }
        match self.settled() {
            Ok(next) => next,
            Err(_) => Next::End(Answer::Memory),
        }
    }
}
