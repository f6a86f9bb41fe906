//! `Shared`, a journal as the object in a turn lock.
ghost use Rattle.std.specs.Prelude.{◌≡◌};
ghost use Rattle.golog_journal.specs.Boards.{IsBoardList};
ghost use Rattle.std.specs.Coded.{codes};
ghost use Rattle.golog_tree.specs.contracts.cond.Cond as cond;
ghost use Rattle.golog_tree.specs.contracts.cond.Term as term;
ghost use Rattle.golog_tree.specs.contracts.prog.Prog as prog;
ghost use Rattle.golog_tree.specs.contracts.prog.Way as way;

use crate::naming::Naming;
use crate::ops::{Op, Reply};
use golog_journal::{Board, Entry, Journal};
use golog_turn::Object;
use std::marker::PhantomData;

/// A journal of the agent that the type stands for, as the object in a lock: its list is the journal's entries, and its
/// calls are those of a board.
#[derive(Drop)]
pub struct Shared<A: Naming> {
    journal: Journal,
    name: PhantomData<A>,
    ghost named: { journal.agent ≡ A.agent } by { Prim.hlevel
        (codes, cond.the_row.coded, term.the_row.coded, prog.the_row.coded, way.the_row.coded) },
    ghost lawful: { IsBoardList journal.agent journal.entries },
}

impl<A: Naming> Shared<A> {
    // The journal, to be shared.
    pub(crate) fn new(journal: Journal) -> Shared<A>
        requires named { journal.agent ≡ A.agent }
        requires lawful { IsBoardList A.agent journal.entries }
        ensures { result.journal ≡ journal }
    {
        Shared {
            journal,
            name: PhantomData,
        }
    }
}

impl<A: Naming> Object for Shared<A> {
    ghost use Rattle.golog_journal.specs.Growing.{party_of};
    ghost use Rattle.golog_threads.specs.Sharing.{Allows, Answers};

    type Op = Op;

    type Reply = Reply;

    type Entry = Entry;

    ghost list = { λ shared. shared.journal.entries };

    ghost party = { party_of };

    ghost allows = { Allows A.agent };

    ghost answers = { Answers A.agent };

    fn apply(&mut self, op: Op) -> Reply {
        match op {
            Op::Post {
                poster,
                item,
                taken,
            } => Reply::OfPost(self.journal.post(poster, item, taken)),
            Op::NextCommand { poster, taken } => {
                Reply::OfNext(self.journal.next_command(poster, taken))
            }
            Op::HasMore { since } => Reply::OfMore(self.journal.has_more(since)),
            Op::CopySince { since } => Reply::OfCopy(self.journal.copy_since(since)),
            Op::Commit { at, entry } => Reply::OfCommit(self.journal.commit(at, entry)),
        }
    }

    fn length(&self) -> u64 {
        u64::from(self.journal.len())
    }
}
