// A law of reports: the entries of one that has a text fit the agent, as `ask` asks.
ghost use Rattle.golog_ask.specs.Laws.{EntriesOfReportsFit};

/// The entries of a report that has a text speak of the agent's actions, fluents and values, as `ask` asks.
pub fn entries_of_reports_fit()
    ensures { EntriesOfReportsFit }
{}
