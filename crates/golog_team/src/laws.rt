//! Laws of the sides of a team, whatever notes come.
ghost use Rattle.golog_team.specs.Laws.{StepsKeep, TeamsAreLinked, UnrefusedMatch};

/// Each step of a side keeps what is so of it.
pub fn steps_keep()
    ensures { StepsKeep }
{}

/// Two sides that are over, and have seen the same notes, are linked.
pub fn teams_are_linked()
    ensures { TeamsAreLinked }
{}

/// Two agents that are not refused may be a team.
pub fn unrefused_match()
    ensures { UnrefusedMatch }
{}
