//! What drives a program over a board, whatever it decides by: the rounds of a lead and of devices, and what records its
//! entries.
//!
//! It stands on nothing that searches: another lead than golog_agent's may stand beside it.
//!
//! A `RoundLead` says of itself what its copy keeps (`keeps`), what a turn alone makes of a list
//! (`alone`) and with which answers it may end early (`short`), each by the bounds of its `Mind`.
//!
//! What a record stands for is a ghost member of its trait, a relation to the agent and the
//! entries. `Kept` stands for exactly these entries and the runs that they begin. `Printed` has
//! written their text, with its runs, over what stood in the sink before (`HasWritten`); after a
//! write that failed it is a prefix of that, and nothing more is written. It keeps a reference to
//! the sink, beside the sink's value at first as a `Snapshot`.
#![tactic(auto)]

mod kept;
mod printed;
mod record;
mod round_lead;
mod rounds;
mod runs;
mod stepped;
mod under_way;

pub use kept::Kept;
pub use printed::Printed;
pub use record::Record;
pub use round_lead::RoundLead;
pub use rounds::run_inline;
pub use stepped::{Stepped, ended_after, entry_of, led_by};
pub use under_way::UnderWay;
