// Laws of decisions: what is decided is the answer of the definitions, and the steps of programs
// without search blocks.
ghost use Rattle.golog_search.specs.Laws.{BlocklessLeft, BlocklessSteps, DecidedIsAnswered};

/// A step of a program without search blocks begins no run, and leaves a program without search blocks.
pub fn blockless_steps()
    ensures { BlocklessSteps }
{}

/// The program left along a journal has no search blocks, where `main` has none.
pub fn blockless_left()
    ensures { BlocklessLeft }
{}

/// Where the program waits for no result and the journal is not full, the answer is that of what the program does next.
pub fn decided_is_answered()
    ensures { DecidedIsAnswered }
{}
