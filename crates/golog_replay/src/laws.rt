//! Laws of replays: what is found online is an online execution, and the other way round.
ghost use Rattle.golog_replay.specs.Laws.{OnlineIsAnOnlineRun, RunsReplayOnline};

/// A report that was read from bytes is online exactly where it is an online execution and the bytes are its
/// text: the bytes are then those of a run that ends with this answer.
pub fn online_is_an_online_run()
    ensures { OnlineIsAnOnlineRun }
{}

/// What a run has printed is read back as its report and is online with its answer, whichever start it has: so is each
/// journal of a chain of runs, each from the journal before.
pub fn runs_replay_online()
    ensures { RunsReplayOnline }
{}
