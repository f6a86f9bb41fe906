//! Laws of reports and their texts: a report is known by its text.
ghost use Rattle.golog_laws.specs.TextLaws.{OneReportIsSpelled, ResultsOfReportsFit, TextTellsReports};

/// Two reports that have the same text are the same, where the devices, the actions and the constants of each sort have
/// names of their own, and no constant is taken for an unknown value.
pub fn text_tells_reports()
    ensures { TextTellsReports }
{}

/// Bytes spell one report at most, where the devices, the actions and the constants of each sort have names of their
/// own, and no constant is taken for an unknown value.
pub fn one_report_is_spelled()
    ensures { OneReportIsSpelled }
{}

/// The results of a report that has a text are values of their fluents.
pub fn results_of_reports_fit()
    ensures { ResultsOfReportsFit }
{}
