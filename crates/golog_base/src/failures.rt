// The calls of files and sinks in memory that fail, by their numbers.
ghost use Rattle.std.specs.Prelude.{◌≡◌};
ghost use Rattle.golog_base.specs.Failures.{uncalled, after_call, fails_next};

use crate::List;

/// Which calls are to fail, by their numbers from 0, and how many calls there were.
#[derive(Debug, Drop)]
pub struct Failures {
    numbers: List<u32>,
    calls: u64,
}

impl Failures {
    /// No call is made yet.
    pub fn new(numbers: List<u32>) -> Failures
        ensures { result ≡ uncalled numbers }
    {
        Failures { numbers, calls: 0 }
    }

    /// Counts a call. The answer says whether it is to fail.
    pub fn fails_now(&mut self) -> bool
        ensures answer { result ≡ fails_next self.old }
        ensures counted { self.new ≡ after_call self.old }
    {
        let call = self.calls;
        self.calls = call.saturating_add(1);
        self.numbers
            .as_slice()
            .iter()
            .any(|number| u64::from(*number) == call)
    }
}
