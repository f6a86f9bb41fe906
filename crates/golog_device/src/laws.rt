//! Laws of how devices are dealt with over a run.
ghost use Rattle.golog_device.specs.Laws.{DealtAtFirst, DealtStays};

/// A device that has just begun, or refused its script, is dealt with.
pub fn dealt_at_first()
    ensures { DealtAtFirst }
{}

/// A device that is dealt with is so while others add entries.
pub fn dealt_stays()
    ensures { DealtStays }
{}
