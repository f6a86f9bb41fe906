//! Laws of what certain means: what is certain is so in each world in which all is so that is
//! known, of conditions, programs with search blocks and journals.
ghost use Rattle.golog_certain.specs.CertainLaws.{AllStepsAreSo, JournalsAreSo};
ghost use Rattle.golog_certain.specs.CompleteLaws.{WorldsStayComplete};
ghost use Rattle.golog_certain.specs.SearchLaws.{
  BodiesArePlain,
  BodiesStayWithin,
  EndsAreFoundOrCut,
  WorldBlocksArePossible,
};
ghost use Rattle.golog_certain.specs.TransLaws.{TransUnfolds};
ghost use Rattle.golog_certain.specs.WorldLaws.{CertainBlocksAreSo, PlainStepsAreSo, RunsLead};

/// Without blocks, the certain steps are steps of each world in which all is so that is known, and the
/// steps of such a world are possible ones. So it is with ends.
pub fn plain_steps_are_so()
    ensures { PlainStepsAreSo }
{}

/// A run that goes through leads to an end in each world in which all is so that is known.
pub fn runs_lead()
    ensures { RunsLead }
{}

/// The certain step of a search block is, in each world in which all is so that is known, a step of its
/// body after which the body can still end.
pub fn certain_blocks_are_so()
    ensures { CertainBlocksAreSo }
{}

/// Where steps of a world, of any number, lead to an end, each search finds a run, or leaves something
/// unseen: search without a depth (De Giacomo and Levesque 1999), against search within one.
pub fn ends_are_found_or_cut()
    ensures { EndsAreFoundOrCut }
{}

/// A step of a world that the published rule of search allows (De Giacomo and Levesque 1999) may be a step of
/// the search block.
pub fn world_blocks_are_possible()
    ensures { WorldBlocksArePossible }
{}

/// No run is under way in a program that stands within a search block. (This project's own: no block stands
/// in another.)
pub fn bodies_are_plain()
    ensures { BodiesArePlain }
{}

/// What a step leaves of the body of a search block may stand within one too. (This project's own.)
pub fn bodies_stay_within()
    ensures { BodiesStayWithin }
{}

/// The certain steps and ends of a program, search blocks included, are steps and ends of each world in which
/// all is so that is known, by the published Trans and Final (ConGolog 2000), and each of these may be taken.
pub fn steps_are_so()
    ensures { AllStepsAreSo }
{}

/// In each world that agrees with the entries before it, each step of an online execution (De Giacomo and
/// Levesque 1999) is a step of the program left; the program may end where the journal says done, and may
/// neither step nor end where it says stuck.
pub fn journals_are_so()
    ensures { JournalsAreSo }
{}

/// For a guarded agent, each step of a program in a world is one by the published axiom of Trans for its one
/// construct (ConGolog 2000), and each such step is one of the program. (That it need not be looked deeper is
/// this project's own.)
pub fn trans_unfolds()
    ensures { TransUnfolds }
{}

/// In a complete world of a well-formed agent no condition is unknown, so actions keep it complete, and so do
/// the entries of a journal. (This project's own.)
pub fn worlds_stay_complete()
    ensures { WorldsStayComplete }
{}
