// The numbers of what is built in.

/// The number of the fluent `interrupts_running` among the fluents, where it is built in.
pub const INTERRUPTS_RUNNING: u32 = 0;

/// The number of the action `start_interrupts`, which is built in.
pub const START_INTERRUPTS: u32 = 0;

/// The number of the action `stop_interrupts`, which is built in.
pub const STOP_INTERRUPTS: u32 = 1;
