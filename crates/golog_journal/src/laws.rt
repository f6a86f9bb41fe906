//! Laws of boards' lists, whoever adds the entries.
ghost use Rattle.golog_journal.specs.Laws.{WellFormedServes, FittingStays, DrivenStays, ReadyStays};

/// A well-formed agent has what a board needs of it.
pub fn well_formed_serves()
    ensures { WellFormedServes }
{}

/// What others add never makes a number of commands taken unfit.
pub fn fitting_stays()
    ensures { FittingStays }
{}

/// A device stays open, with the number of commands that it has taken, while others add entries.
pub fn driven_stays()
    ensures { DrivenStays }
{}

/// Where no result is awaited of a device, none is after others have added entries.
pub fn ready_stays()
    ensures { ReadyStays }
{}
