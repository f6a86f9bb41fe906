// The limits on a theory, each a named constant.

/// The most sorts, `bool` among them.
pub const SORTS: usize = 64;

/// The most constants of a sort.
pub const CONSTANTS: usize = 255;

/// The most arguments of a fluent, an action or a procedure.
pub const ARGUMENTS: usize = 3;

/// The most variables in scope.
pub const VARIABLES: usize = 32;

/// The most `causes` items of a file.
pub const CAUSES: usize = 1024;

/// The most devices.
pub const DEVICES: usize = 16;

/// The most bytes of a name.
pub const NAME_BYTES: usize = 31;

/// How many actions are built in, and how many effects, one of each.
pub const BUILT_IN: usize = 2;
