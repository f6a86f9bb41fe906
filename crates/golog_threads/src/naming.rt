//! Types that stand for an agent and for a lock, and traits by which threads are handed an agent and a journal.
ghost use Rattle.std.specs.Prelude.{◌≡◌};

use golog_journal::Journal;
use golog_tree::Agent;
use std::marker::Brand;

/// The agent of a shared journal. What may be asked of the object in a lock, at each of its lists, can name no value,
/// so the agent is told by a type.
pub trait Naming {
    ghost use Rattle.golog_tree.specs.declared.agent.Agent.{Agent};

    ghost agent: { Agent };
}

impl Naming for Brand {
    ghost use Rattle.golog_semantics.specs.NoAgent.{no_agent};

    ghost agent = { no_agent };
}

/// The lock of a board. A call of a board tells nothing of the lock at which its seat is, so the lock is told by a
/// type.
pub trait AtLock {
    ghost use Rattle.atomic_table.specs.Seated.{TableId};

    ghost home: { TableId };
}

impl AtLock for Brand {
    ghost use Rattle.golog_threads.specs.NoTable.{no_table};

    ghost home = { no_table };
}

/// What has an agent. Code that hands an agent to threads takes it as this, so that their sharing it is a bound, and
/// not looked for where it is handed over.
pub(crate) trait Known: Sync {
    ghost use Rattle.golog_tree.specs.declared.agent.Agent.{Agent};

    ghost agent: { Self → Agent };

    /// The agent.
    fn get(&self) -> &Agent
        ensures { result.now ≡ agent self.now };
}

impl Known for Agent {
    ghost agent = { λ known. known };

    fn get(&self) -> &Agent {
        self
    }
}

/// What holds a journal. Code that says what threads may share takes the journal as this, so that it isn't looked into
/// there.
pub(crate) trait Held {
    ghost use Rattle.golog_journal.specs.Boards.{AgentJournal};

    ghost journal: { Self → AgentJournal };

    /// The journal.
    fn open(self) -> Journal
        ensures { result ≡ journal self };
}

impl Held for Journal {
    ghost journal = { λ journal. journal };

    fn open(self) -> Journal {
        self
    }
}
