// A law of each agent, `ranges_fit`: the ends of its sorts of whole numbers are in 32 bits.
ghost use Rattle.golog_semantics.specs.ReportLaws.{RangesFit};

use golog_tree::{Agent, SortItem};

/// The ends of the sorts of whole numbers are in the range of their type, which the law `names_tell_apart`
/// asks. This does nothing but read them: what a number's type says of it is known where it is read, and no
/// clause says it of an agent.
pub fn ranges_fit(agent: &Agent)
    ensures { RangesFit agent.now }
{
    for item in agent.sorts.as_slice() {
        if let SortItem::Range { low, high, .. } = item {
            let _low = *low;
            let _high = *high;
        }
    }
}
