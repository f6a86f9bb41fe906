//! A type that stands for the lock of a link.

use std::marker::Brand;

/// The lock of a link. A call through a wire tells nothing of the lock at which its seat is, so the lock is told by a
/// type.
pub trait AtLock {
    ghost use Rattle.atomic_table.specs.Seated.{TableId};

    ghost home: { TableId };
}

impl AtLock for Brand {
    ghost use Rattle.golog_team.specs.NoTable.{no_table};

    ghost home = { no_table };
}
