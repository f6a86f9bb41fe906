// `Reach`, in which modes a program has a step, and how those of parts are put together.
ghost use Rattle.std.specs.Prelude.{◌≡◌, not, ◌&&◌, ◌||◌, false, true};
ghost use Rattle.golog_semantics.specs.declared.Mode.{Mode};
ghost use Rattle.golog_semantics.specs.Modes.{holds as holds_by, flip};
ghost use Rattle.golog_ways.specs.Reach.{reaches};

use crate::modes::holds;
use golog_semantics::Mode;
use golog_tree::Truth;

/// In which modes a program has a step.
#[derive(Clone, Copy, Debug, PartialEq, Eq)]
pub struct Reach {
    pub must: bool,
    pub near: bool,
    pub may: bool,
}

/// No step in any mode.
pub const NOWHERE: Reach = Reach {
    must: false,
    near: false,
    may: false,
};

impl Reach {
    /// Whether there is a step in the mode.
    pub fn holds_in(self, mode: Mode) -> bool
        ensures { result ≡ reaches mode self }
    {
        match mode {
            Mode::Must => self.must,
            Mode::Near => self.near,
            Mode::May => self.may,
        }
    }

    /// A step that is possible, or certain, as a condition of this truth is.
    pub fn of(truth: Truth) -> Reach
        ensures { (m : Mode) → reaches m result ≡ holds_by m truth }
    {
        Reach {
            must: holds(Mode::Must, truth),
            near: holds(Mode::Near, truth),
            may: holds(Mode::May, truth),
        }
    }

    /// A step of this program or of the other.
    pub fn or(self, other: Reach) -> Reach
        ensures { (m : Mode) → reaches m result ≡ (reaches m self || reaches m other) }
    {
        Reach {
            must: self.must || other.must,
            near: self.near || other.near,
            may: self.may || other.may,
        }
    }

    /// Whether no step that a condition of this truth would allow reaches further.
    pub fn is_settled(self, truth: Truth) -> bool
        ensures { result ≡ ((not (holds_by Mode.Must truth) || reaches Mode.Must self)
            && ((not (holds_by Mode.Near truth) || reaches Mode.Near self)
            && (not (holds_by Mode.May truth) || reaches Mode.May self))) }
    {
        match truth {
            Truth::Yes => self.must && self.near && self.may,
            Truth::Unknown => self.near && self.may,
            Truth::No => true,
        }
    }

    /// A step of this program where a condition of this truth holds.
    pub fn where_holds(self, truth: Truth) -> Reach
        ensures { (m : Mode) → reaches m result ≡ (holds_by m truth && reaches m self) }
    {
        Reach {
            must: holds(Mode::Must, truth) && self.must,
            near: holds(Mode::Near, truth) && self.near,
            may: holds(Mode::May, truth) && self.may,
        }
    }

    /// A step of this program over the other, which may only step where this one has no step: certainly where
    /// no step of this one is possible, and otherwise where none is certain.
    pub fn over(self, other: Reach) -> Reach
        ensures { (m : Mode)
            → reaches m result ≡ (reaches m self || (not (reaches (flip m) self) && reaches m other)) }
    {
        Reach {
            must: self.must || (!self.may && other.must),
            near: self.near || (!self.must && other.near),
            may: self.may || (!self.must && other.may),
        }
    }
}
