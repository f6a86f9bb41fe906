// A law of leads: where no one else adds entries, a turn of a runner is that of the program in a
// round.
ghost use Rattle.golog_agent.specs.Leading.{AddsOneAlone, LeadsAlone};

/// Where no one else adds entries, a turn of a runner is that of the program in a round, or memory or fuel
/// was wanted; and it adds one entry unless the program waits or had ended.
pub fn leads_alone()
    ensures leads { LeadsAlone }
    ensures one { AddsOneAlone }
{}
