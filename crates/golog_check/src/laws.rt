// Laws of what is not refused: arguments, terms, conditions and programs fit the agent, and the
// agent of a draft is well-formed.
ghost use Rattle.golog_check.specs.AgentLaws.{UnguardedIsReached, AgentsFit};
ghost use Rattle.golog_check.specs.CheckLaws.{ArgsFit, TermsFit, CondsFit};
ghost use Rattle.golog_check.specs.ProgramLaws.{ProgsFit};

/// Arguments that are not refused fit the agent.
pub fn args_fit()
    ensures { ArgsFit }
{}

/// A term that is not refused fits the agent, and can stand in its file.
pub fn terms_fit()
    ensures { TermsFit }
{}

/// A condition that is not refused fits the agent, and can stand in its file.
pub fn conds_fit()
    ensures { CondsFit }
{}

/// A program that is not refused fits the agent where its blocks keep their limits, and can stand in its file.
pub fn progs_fit()
    ensures { ProgsFit }
{}

/// A procedure is refused as unguarded exactly where it reaches itself without a step.
pub fn unguarded_is_reached()
    ensures { UnguardedIsReached }
{}

/// The agent of a draft of which nothing is refused is well formed.
pub fn agents_fit()
    ensures { AgentsFit }
{}
