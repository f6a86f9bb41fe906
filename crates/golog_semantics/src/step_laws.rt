// Laws of Final and of the steps of programs: how they unfold, how the modes are ordered, and that
// what a step leaves stays inside the agent.
ghost use Rattle.golog_semantics.specs.FitLaws.{LeftStays, StepsStay, WellFormedFits};
ghost use Rattle.golog_semantics.specs.ModeLaws.{BlocklessSteps, EndsOrdered, NearStepsArePossible, NoPossibleNoNear, PlainStepsOrdered};
ghost use Rattle.golog_semantics.specs.StepLaws.{FinalSettles, FinalUnfolds, GuardedByReach, MovesSettle, MovesUnfold, StepsUnfold};

/// For a guarded agent, looking deeper changes nothing of Final.
pub fn final_settles()
    ensures { FinalSettles }
{}

/// For a guarded agent, looking deeper changes nothing of the steps.
pub fn moves_settle()
    ensures { MovesSettle }
{}

/// For a guarded agent, Final unfolds by one construct.
pub fn final_unfolds()
    ensures { FinalUnfolds }
{}

/// For a guarded agent, the steps unfold by one construct, whatever the steps of blocks are.
pub fn moves_unfold()
    ensures { MovesUnfold }
{}

/// For a guarded agent, the steps of any program unfold by one construct.
pub fn steps_unfold()
    ensures { StepsUnfold }
{}

/// A certain end is a near one, and the near ends are the possible ones.
pub fn ends_ordered()
    ensures { EndsOrdered }
{}

/// Without blocks, the certain steps are among the near ones, in order, and these are the possible ones.
pub fn plain_steps_ordered()
    ensures { PlainStepsOrdered }
{}

/// The near steps are among the possible ones, in order.
pub fn near_steps_are_possible()
    ensures { NearStepsArePossible }
{}

/// An agent is guarded exactly if no procedure reaches itself without a step.
pub fn guarded_by_reach()
    ensures { GuardedByReach }
{}

/// Each step of a program that fits stays inside the agent, as does what it leaves.
pub fn steps_stay()
    ensures { StepsStay }
{}

/// In a well-formed agent the procedures fit.
pub fn well_formed_fits()
    ensures { WellFormedFits }
{}

/// The program left along a journal of a well-formed agent stays inside the agent.
pub fn left_stays()
    ensures { LeftStays }
{}

/// A program that holds and reaches no block has the steps that it has without blocks.
pub fn blockless_steps()
    ensures { BlocklessSteps }
{}

/// Where no step is possible, none is near.
pub fn no_possible_no_near()
    ensures { NoPossibleNoNear }
{}
