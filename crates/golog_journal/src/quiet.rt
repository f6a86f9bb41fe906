//! Whether each device is closed or at rest, and whether a result is still to come, also of a device
//! that is open, from what is counted.
ghost use Rattle.std.specs.Prelude.{◌≡◌};
ghost use Rattle.std.specs.List.{list_all, list_any};
ghost use Rattle.golog_journal.specs.Quiet.{is_quiet_by, lacks_by, may_be_answered_by};

use crate::standing::Standing;

/// Whether the device is closed or at rest.
fn is_quiet(standing: &Standing) -> bool
    ensures { result ≡ is_quiet_by standing.now }
{
    !standing.is_open || standing.is_resting(standing.commands)
}

/// Whether each device is closed or at rest.
pub(crate) fn all_quiet(standings: &[Standing]) -> bool
    ensures { result ≡ list_all is_quiet_by standings.now }
{
    standings.iter().all(|standing| is_quiet(standing))
}

/// Whether a result of the device is still to come.
fn lacks_result(standing: &Standing) -> bool
    ensures { result ≡ lacks_by standing.now }
{
    0 < standing.outstanding
}

/// Whether a result of one of the devices is still to come.
pub(crate) fn some_lack_results(standings: &[Standing]) -> bool
    ensures { result ≡ list_any lacks_by standings.now }
{
    standings.iter().any(|standing| lacks_result(standing))
}

/// Whether a result of the device is still to come, and it is open.
fn may_be_answered(standing: &Standing) -> bool
    ensures { result ≡ may_be_answered_by standing.now }
{
    standing.is_open && 0 < standing.outstanding
}

/// Whether a result of one of the devices that are open is still to come.
pub(crate) fn some_may_be_answered(standings: &[Standing]) -> bool
    ensures { result ≡ list_any may_be_answered_by standings.now }
{
    standings.iter().any(|standing| may_be_answered(standing))
}
