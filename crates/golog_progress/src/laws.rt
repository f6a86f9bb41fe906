// Laws of values after entries: they go on from those before, and it is the same whether an action
// is done or happens.
ghost use Rattle.golog_progress.specs.Entries.{ValuesGoOn, HappeningIsDoing};

/// The values after a journal and further entries are those after the journal, and then after these entries.
pub fn values_go_on()
    ensures { ValuesGoOn }
{}

/// An action that happens leaves the values that it leaves when it is done.
pub fn happening_is_doing()
    ensures { HappeningIsDoing }
{}
