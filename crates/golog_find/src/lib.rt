//! The search of a block.
//!
//! `find` looks, within the fuel of the block, for a run that is certain, or for one that there may
//! be were more known. `search_block` looks for runs in any mode, within the fuel or without
//! bounds, where the body can be searched (`IsSearched` of golog_ways). `find_with` and
//! `search_block_with` are told who lists the steps of many states at once (`Expand` of
//! golog_ways); their answers name it nowhere.
//!
//! `find` searches a block whose body holds and reaches no block. It goes level by level: the first
//! level is the block's body with the values at hand, and each further one has the distinct states
//! that one step leads to from those of the one before, in the order in which they are found. A
//! state is kept by the number of its program (golog_memo), the values of all states stand in one
//! list, and places by their hashes tell whether a state is there, which is asked before it is
//! kept. The steps of a program are listed when it is first visited, and kept from its second visit
//! on, with the checks of their conditions and of its end, and with what they write where that is
//! the same at all values (golog_flat): so a further state with this program asks each check and
//! makes no program. A level is gone over in batches of 4,096 states: the steps of those of whose
//! programs nothing is kept are listed, and the conditions of the kept steps asked, for a whole
//! batch at once, and then the states that they lead to are added, in order. Where the search is
//! bounded, there is room in the next level for as many states as fuel is left: it stores one more
//! at most, and behind that asks of each further state whether the program may end in it, and
//! stores the first in which it may. The first state of a level in which the program may end is the
//! end of the first run of least length, and the run is read back from it by the places of the
//! states before it.
//!
//! The answer of `search_block` is `found_by`.
#![tactic(auto)]

mod batches;
mod deepening;
mod effects;
mod finding;
mod found;
mod level;
mod numbered;
mod search;
mod sources;
mod states;
mod visits;

pub use finding::{find, find_with, search_block, search_block_with};
pub use found::Found;
pub use golog_semantics::{Block, Mode};
pub use visits::NEST_LIMIT;
