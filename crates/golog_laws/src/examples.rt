//! Worked examples of the definitions.
ghost use Rattle.golog_laws.specs.Examples.{WorkedExamples};
ghost use Rattle.golog_laws.specs.WrongExamples.{WrongJournals, StepsInWorlds, ScriptedTurns};

/// Journals of programs that are online executions, each with its text.
pub fn worked_examples()
    ensures { WorkedExamples }
{}

/// Journals that break a rule, each with the place and the rule.
pub fn wrong_journals()
    ensures { WrongJournals }
{}

/// Steps that programs have in some worlds and not in others.
pub fn steps_in_worlds()
    ensures { StepsInWorlds }
{}

/// What scripted devices do before a program ends and after it.
pub fn scripted_turns()
    ensures { ScriptedTurns }
{}
