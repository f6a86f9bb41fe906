// Laws of plans.
ghost use Rattle.golog_branch.specs.PlanEnds.{PlansEndPlainly};
ghost use Rattle.golog_branch.specs.PlansInWorlds.{PlanJournalsAreSo};
ghost use Rattle.golog_branch.specs.TreesInWorlds.{PlansLead};

/// A plan that is found leads to an end in each world in which all is so that is known: each of its steps is one of the
/// world's, by the published Trans (ConGolog 2000), it has a branch for what the world shows where it senses, and where
/// it is done the program may end. It takes at most as many steps as the depth. It goes through from where it was
/// searched for, and has a text.
pub fn plans_lead()
    ensures { PlansLead }
{}

/// The journal of a program that follows plans is so in each world that agrees with the entries before an entry: each
/// step is one of the program left, by the published Trans (ConGolog 2000), the program may end where the journal says
/// done, and each plan that is begun leads to an end.
pub fn plan_journals_are_so()
    ensures { PlanJournalsAreSo }
{}

/// A program that follows plans ends neither as stuck nor for what is unknown: the rules of its journal allow no such
/// end.
pub fn plans_end_plainly()
    ensures { PlansEndPlainly }
{}
