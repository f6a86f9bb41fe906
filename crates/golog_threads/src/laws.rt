//! Laws of what may be asked of a board's list, whoever adds the entries.
ghost use Rattle.golog_threads.specs.Laws.{PostStays, CommitStays};

/// What a device may post, other than the refusal of its script, it may post after others have added entries.
pub fn post_stays()
    ensures { PostStays }
{}

/// What the program may commit it may commit after devices have added entries.
pub fn commit_stays()
    ensures { CommitStays }
{}
