// Checks: what a condition says of ground fluents by their places.
use golog_base::{Boxed, List};
use golog_tree::Cond;

/// A condition with no free variable, made to be asked often: a ground fluent stands in it by its place, which is its
/// number.
#[derive(Drop)]
pub enum Check {
    /// What is plainly true or false.
    Known(bool),
    /// The ground fluent is true.
    Is(u32),
    /// It is not.
    IsNot(u32),
    /// It has the value.
    Equals {
        place: u32,
        value: u8,
    },
    /// It has another value.
    Differs {
        place: u32,
        value: u8,
    },
    /// Its value is below this one, or above it, or is not.
    Order {
        place: u32,
        value: u8,
        above: bool,
        negated: bool,
    },
    /// All of these hold.
    Both(List<Check>),
    /// One of these holds.
    Either(List<Check>),
    /// Any other condition as it stands.
    Other(Boxed<Cond>),
}
