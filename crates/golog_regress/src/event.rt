// `Event`, over which conditions are taken back.

/// What happens: a ground action is done, or happens, by its number; or a ground fluent is sensed to have a
/// value, a constant by its position in the fluent's sort.
#[derive(Clone, Copy, Debug, PartialEq, Eq)]
pub enum Event {
    Did(u32),
    Sensed { fluent: u32, value: u8 },
}
