//! Counters that contracts see and no program reads.
ghost use Rattle.std.specs.Prelude.{◌≡◌, ◌+◌, ◌<◌};

use std::marker::Model;
use std::sync::ledger::{Blank, Book, Ledger, Share};

/// How often something was done; contracts see it as a number. It takes no bytes, and only `tick` changes it.
#[derive(Drop)]
pub struct Steps<N: Ledger> {
    book: Book<N>,
    share: Share<N>,
}

impl<N: Ledger> Model for Steps<N> {
    ghost use Rattle.std.specs.Prelude.{ℕ, ◌<◌};

    ghost Value = { ℕ };

    ghost view = { λ s. s.book.total };

    ghost invariant = { λ s. 0 < s.share.parts };
}

impl<N: Ledger> Steps<N> {
    /// A counter at 0, from a ledger that nothing counts in yet. A caller that counts nothing calls a function with a
    /// `blank: Blank` for its ledger, and hands it `Blank::new(1)`.
    pub fn make(blank: Blank) -> Steps<N>
        requires name { blank.name ≡ N.name }
        requires parts { blank.parts ≡ N.parts }
        requires some { 0 < N.parts }
        ensures { result ≡ 0 }
    {
        let (book, share) = blank.open();
        Steps { book, share }
    }

    /// So many more. It takes no time.
    pub fn tick(&mut self, n: u64)
        ensures { self.new ≡ self.old + n }
    {
        self.book.add(&mut self.share, n);
    }
}

#[cfg(test)]
mod tests {
    use super::*;
    use std::marker::Brand;

    fn five_more<N: Ledger>(steps: &mut Steps<N>)
        ensures { steps.new ≡ steps.old + 5 }
    {
        steps.tick(2);
        steps.tick(3);
    }

    fn bytes_of<N: Ledger>(blank: Blank) -> usize
        requires name { blank.name ≡ N.name }
        requires parts { blank.parts ≡ N.parts }
        requires some { 0 < N.parts }
    {
        let mut steps = Steps::<N>::make(blank);
        five_more(&mut steps);
        size_of_val(&steps)
    }

    #[test]
    fn a_counter_takes_no_bytes(rt: HostRuntime) {
        let bytes = bytes_of::<Brand>(Blank::new(1));
        assert_eq!(rt; bytes, 0);
    }
}
