//! Which calls of an object in memory are to fail.
ghost use Rattle.std.specs.Prelude.{◌≡◌, ◌↔◌, Contains, IsTrue};
ghost use Rattle.cubit_io.specs.Count.{raised};

use crate::count::raised;

/// The numbers of the calls that are to fail, from 1, and how many calls there were.
#[derive(Drop)]
pub(crate) struct FailingCalls {
    pub(crate) numbers: Vec<u32>,
    pub(crate) calls: u64,
}

impl FailingCalls {
    pub(crate) fn new(numbers: Vec<u32>) -> FailingCalls
        ensures numbers { result.numbers.items ≡ numbers.items }
        ensures calls { result.calls ≡ 0 }
    {
        FailingCalls { numbers, calls: 0 }
    }

    /// Counts a call, and says whether it is to fail.
    pub(crate) fn next_fails(&mut self) -> bool
        ensures listed { IsTrue result ↔ Contains self.old.numbers.items self.new.calls }
        ensures calls { self.new.calls ≡ raised self.old.calls }
        ensures numbers { self.new.numbers ≡ self.old.numbers }
    {
        self.calls = raised(self.calls);
        let number = self.calls;
        self.numbers
            .iter()
            .any(|listed| u64::from(*listed) == number)
    }
}
