// The codes of refusals for the shape of programs.

/// A procedure reaches itself without a step.
pub const UNGUARDED: u8 = 32;

/// The program of a search block has a search block, or calls a procedure that has one.
pub const NESTED_SEARCH: u8 = 33;

/// The depth or the fuel of a search block is out of its range.
pub const SEARCH_NUMBERS: u8 = 37;

/// The program of `main`, or a procedure with what it calls without a step, nests too deep.
pub const FRONT_DEEP: u8 = 38;
