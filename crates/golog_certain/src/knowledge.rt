//! Laws of knowledge: what is certain stays so where more is known.
ghost use Rattle.golog_certain.specs.KnowledgeLaws.{KnownStays, RunsStay, StepsKeepKnowledge, WaysSettle};

/// What is known of conditions and terms stays so where more is known.
pub fn known_stays()
    ensures { KnownStays }
{}

/// A run that goes through still does where more is known.
pub fn runs_stay()
    ensures { RunsStay }
{}

/// Where more is known, a program without blocks has all its certain ways and ends still, and no
/// new possible ones.
pub fn ways_settle()
    ensures { WaysSettle }
{}

/// More knowledge before a step is more knowledge after it.
pub fn steps_keep_knowledge()
    ensures { StepsKeepKnowledge }
{}
