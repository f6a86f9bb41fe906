//! Laws of journals, of runs, of names and numbers, and of values in their sorts.
ghost use Rattle.golog_semantics.specs.OneMore.{OneMoreEntry, OneMorePosted, OneMoreStep, OneMoreCommand, OneMoreLine, NothingWithoutDevices, LaterRunsChangeNothing, NewRunsAreFound, OnlineIsWhole};
ghost use Rattle.golog_semantics.specs.FaultLaws.{NoFaultIsOnline};
ghost use Rattle.golog_semantics.specs.ReportLaws.{NamesTellApart};
ghost use Rattle.golog_semantics.specs.SortLaws.{SortsStay, StartsAreInSorts, ValuesStayInSorts, StepsStayInSorts, OnlineStaysInSorts};
ghost use Rattle.golog_semantics.specs.RestartLaws.{RestartedIsWellFormed};
ghost use Rattle.golog_semantics.specs.NumberLaws.{GroundThingsHaveOneNumber};
ghost use Rattle.golog_semantics.specs.RunLaws.{BestIsLeast, RunsAreSound, LevelsAreReached};

/// With one more entry, a journal has ended if it had or the entry is its end, counts the entry
/// where that is counted, stays full, and ends with the entry.
pub fn one_more_entry()
    ensures { OneMoreEntry }
{}

/// With one more entry, a device has posted what it had, and the entry if it is its own; it stays
/// open unless the entry closes it.
pub fn one_more_posted()
    ensures { OneMorePosted }
{}

/// With one more entry, the values are those after the entry, and the program left is that after
/// the step that the entry is.
pub fn one_more_step()
    ensures { OneMoreStep }
{}

/// With one more entry, a device has its commands and the entry if it is one, those without a
/// result are fewer by the one whose result the entry is, and the device is at rest where its
/// last entry says that it has taken all its commands.
pub fn one_more_command()
    ensures { OneMoreCommand }
{}

/// A report with one more entry is online so far exactly where it was and the entry keeps the
/// rules, and its text is one line longer.
pub fn one_more_line()
    ensures { OneMoreLine }
{}

/// A program without devices waits for no result, and no device keeps it from its answer.
pub fn nothing_without_devices()
    ensures { NothingWithoutDevices }
{}

/// Runs that begin past the entries of a report change neither its text nor its first fault.
pub fn later_runs_change_nothing()
    ensures { LaterRunsChangeNothing }
{}

/// At a place that all runs of a report come before there is none, and one that is put in there is
/// found.
pub fn new_runs_are_found()
    ensures { NewRunsAreFound }
{}

/// A report is an online execution exactly where it is one so far, the program has ended and each
/// device is closed.
pub fn online_is_whole()
    ensures { OnlineIsWhole }
{}

/// An entry has no fault exactly where it keeps the rules, and a report exactly where it is an
/// online execution; where lines are given, these are also its text.
pub fn no_fault_is_online()
    ensures { NoFaultIsOnline }
{}

/// A ground action or fluent has the number at which it stands among all of them, so no two numbers
/// have the same one; and with arguments of its sorts it stands at its number.
pub fn ground_things_have_one_number()
    ensures { GroundThingsHaveOneNumber }
{}

/// The best run of a block is the first of the least length, in the order of runs; where there is
/// none, no run is within the depth.
pub fn best_is_least()
    ensures { BestIsLeast }
{}

/// Runs of so many ways have that length, and the certain ones are those that go through, the best
/// among them.
pub fn runs_are_sound()
    ensures { RunsAreSound }
{}

/// A level of a search holds exactly the states that so many ways reach, each once.
pub fn levels_are_reached()
    ensures { LevelsAreReached }
{}

/// The devices, the actions and the constants of a well-formed agent have names of their own.
pub fn names_tell_apart()
    ensures { NamesTellApart }
{}

/// From start values in their sorts, with causes whose terms are of their fluents' sorts, the
/// values stay in the sorts of their fluents along a journal.
pub fn sorts_stay()
    ensures { SortsStay }
{}

/// The start values of a well-formed agent are in their sorts, or unknown.
pub fn starts_are_in_sorts()
    ensures { StartsAreInSorts }
{}

/// The values of a well-formed agent stay in the sorts of their fluents, or unknown, along a
/// journal whose results are values of their fluents.
pub fn values_stay_in_sorts()
    ensures { ValuesStayInSorts }
{}

/// The values of a well-formed agent that are in their sorts are so after a step.
pub fn steps_stay_in_sorts()
    ensures { StepsStayInSorts }
{}

/// The values of a well-formed agent are in the sorts of their fluents, or unknown, after each
/// online execution so far.
pub fn online_stays_in_sorts()
    ensures { OnlineStaysInSorts }
{}

/// A well-formed agent may start from any values in their sorts, or unknown.
pub fn restarted_is_well_formed()
    ensures { RestartedIsWellFormed }
{}
