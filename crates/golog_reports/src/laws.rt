//! Laws of journals that are read: reading undoes writing.
ghost use Rattle.golog_reports.specs.Laws.{JournalIsRead, LinesSayTheirTexts, MigratedReadsBack, ReadIsSpelled, ReadOrRefused, ReportsAreRead, WrittenReadsBack};

/// A report that a text says has a text of its own.
pub fn reports_are_read()
    ensures { ReportsAreRead }
{}

/// A line says that of which it is the text, in words of their forms, and nothing else.
pub fn lines_say_their_texts()
    ensures { LinesSayTheirTexts }
{}

/// A text is read as the report that it says line by line, and one that says a report is not refused.
pub fn journal_is_read()
    ensures { JournalIsRead }
{}

/// Each text is read as the one report that it says, or says none and is refused with one code at one line.
pub fn read_or_refused()
    ensures { ReadOrRefused }
{}

/// The text of a report is read as that report.
pub fn written_reads_back()
    ensures { WrittenReadsBack }
{}

/// The text of a report with its start written out is read as it, and it is online where the report is.
pub fn migrated_reads_back()
    ensures { MigratedReadsBack }
{}

/// A text that is read as a report is the report's own text exactly where each line behind its head is that of its entry.
pub fn read_is_spelled()
    ensures { ReadIsSpelled }
{}
