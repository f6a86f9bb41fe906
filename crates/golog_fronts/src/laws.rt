// Laws of fronts: those of a well-formed agent can be found, and where `has_front_block` finds no
// search block none is reached without a step.
ghost use Rattle.golog_fronts.specs.Closed.{WellFormedIsFit};
ghost use Rattle.golog_fronts.specs.FrontBlock.{NoneIsReached};

/// The steps of the programs of a well-formed agent can be found.
pub fn well_formed_is_fit()
    ensures { WellFormedIsFit }
{}

/// Where no search block stands at the front (`has_front_block`), none is reached without a step.
pub fn none_is_reached()
    ensures { NoneIsReached }
{}
