//! Laws of programs: constants put in, tidy programs, and the runs under way in them.
ghost use Rattle.golog_laws.specs.ProgLaws.{ConstantsPutIn, PlainlyWritten, WellFormedHasNoRuns};
ghost use Rattle.golog_laws.specs.Tidied.{LeftsAreTidy};
ghost use Rattle.golog_laws.specs.Within.{NoNearNoCertain, RunsStayWithin};

/// A constant that is put in goes into the parts of a tidy program, and changes neither nest nor front.
pub fn constants_put_in()
    ensures { ConstantsPutIn }
{}

/// Writing runs under way as blocks goes along with tidying, with constants put in, and with fronts.
pub fn plainly_written()
    ensures { PlainlyWritten }
{}

/// No run is under way in a well-formed agent as it is read.
pub fn well_formed_has_no_runs()
    ensures { WellFormedHasNoRuns }
{}

/// What a step leaves of a tidy program is tidy.
pub fn lefts_are_tidy()
    ensures { LeftsAreTidy }
{}

/// A run under way in what a step leaves may be found by a search within its depth.
pub fn runs_stay_within()
    ensures { RunsStayWithin }
{}

/// Where no step is near, none is certain.
pub fn no_near_no_certain()
    ensures { NoNearNoCertain }
{}
