//! `UnderWay`, the trait of a program under way as its record sees it.
ghost use Rattle.std.specs.Prelude.{◌≡◌, ◌≤◌, length};
ghost use Rattle.golog_semantics.specs.Journal.{longest};
ghost use Rattle.golog_semantics.specs.Progress.{values_after};
ghost use Rattle.golog_semantics.specs.InSorts.{AreInSorts};
ghost use Rattle.golog_semantics.specs.WellFormed.{WellFormed};
ghost use Rattle.golog_lead.specs.Courses.{Course};

use golog_progress::State;
use golog_tree::Agent;

/// A program under way: the agent that it was made with, the number of entries so far, and what is known after them.
pub trait UnderWay {
    // The agent, and the entries so far.
    ghost course: { Self → Course };

    /// The agent that it was made with.
    fn agent(&self) -> &Agent
        ensures agent { result.now ≡ (course self.now).agent }
        ensures formed { WellFormed result.now };

    /// The number of entries.
    fn len(&self) -> u32
        ensures number { result ≡ length (course self.now).list }
        ensures most { length (course self.now).list ≤ longest };

    /// What is known after the entries.
    fn state(&self) -> &State
        ensures values { result.now ≡ values_after (course self.now).agent (course self.now).list }
        ensures sorts { AreInSorts (course self.now).agent result.now };
}
