// Laws of where conditions and terms can be evaluated: with their variables set to arguments of
// their sorts.
ghost use Rattle.golog_known.specs.Laws.{ConditionsFitAtArguments, TermsFitAtArguments};

/// A condition that fits the agent can be evaluated where its variables are set to arguments of their sorts.
pub fn conditions_fit_at_arguments()
    ensures { ConditionsFitAtArguments }
{}

/// A term that fits the agent can be evaluated where its variables are set to arguments of their sorts.
pub fn terms_fit_at_arguments()
    ensures { TermsFitAtArguments }
{}
