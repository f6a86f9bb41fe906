// Laws of bytes: they spell one agent at most, and are not refused where they do; the same of
// conditions. A condition read over a file's theory keeps the rules over its agent.
ghost use Rattle.golog_file.specs.Laws.{ConditionsStayKept, OneAgentIsSpelled, OneCondIsSpelled, RangesOfAgentsFit, ReadConditionsStayKept, SignatureStays, SpelledCondIsUnrefused, SpelledIsUnrefused};

/// Bytes that spell an agent are not refused.
pub fn spelled_is_unrefused()
    ensures { SpelledIsUnrefused }
{}

/// Bytes spell one agent at most.
pub fn one_agent_is_spelled()
    ensures { OneAgentIsSpelled }
{}

/// An agent that a check makes of a theory has as many sorts and arguments as the theory.
pub fn signature_stays()
    ensures { SignatureStays }
{}

/// A condition that keeps the rules over a theory, as one that was read does, keeps them over each agent that
/// a check makes of the theory.
pub fn conditions_stay_kept()
    ensures { ConditionsStayKept }
{}

/// A condition that was read over the theory of a file keeps the rules over the agent of the file, so that
/// `check_condition` may take it.
pub fn read_conditions_stay_kept()
    ensures { ReadConditionsStayKept }
{}

/// The ends of the sorts of whole numbers of each agent that a file spells are in the range of their type, so that
/// the agent tells its things apart by their names.
pub fn ranges_of_agents_fit()
    ensures { RangesOfAgentsFit }
{}

/// Bytes that spell a condition are not refused.
pub fn spelled_cond_is_unrefused()
    ensures { SpelledCondIsUnrefused }
{}

/// Bytes spell one condition at most.
pub fn one_cond_is_spelled()
    ensures { OneCondIsSpelled }
{}
