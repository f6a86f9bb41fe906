//! `Object`, the trait of what lies in a lock: it stands for a list of entries that only grows, by
//! one at most at each op.
ghost use Rattle.std.specs.Prelude.{◌≡◌, ℕ, ◌%◌, ◌^◌, List, length};
ghost use Rattle.golog_turn.specs.Acts.{Grows};

/// It stands for a list of entries that only grows, by at most one at a call. Neither call takes memory.
pub trait Object: Drop {
    /// What may be asked of it.
    type Op: Copy;

    /// What it answers.
    type Reply: Copy;

    /// An item of its list.
    type Entry: Copy;

    // The list that it stands for.
    ghost list: { Self → List Self.Entry };

    // Whose an entry is.
    ghost party: { Self.Entry → ℕ };

    // Whether an op may be asked where the list is this.
    ghost allows: { List Self.Entry → Self.Op → Type 0 };

    // Whether this reply may be given, and these entries added, where this op is asked and the list is this.
    ghost answers: { List Self.Entry → Self.Op → Self.Reply → List Self.Entry → Type 0 };

    /// Answers the op, and adds at most one entry at the end of the list.
    fn apply(&mut self, op: Self::Op) -> Self::Reply
        requires { allows (list self.old) op }
        ensures { (added : List Self.Entry) × Grows list answers self.old op result added self.new };

    /// The length of the list, modulo 2^64.
    fn length(&self) -> u64
        ensures { result ≡ length (list self.now) % 2 ^ 64 };
}
