//! Where output goes.
ghost use Rattle.std.specs.Prelude.{ℕ, List, Option};
ghost use Rattle.cubit_io.specs.Sink.{IsWrite};

use crate::Failed;

/// Takes bytes in order. The count of faults never falls.
pub trait Sink {
    /// Where told, all that was taken so far.
    ghost taken: { Self → Option (List ℕ) };

    /// How often the outside has failed, up to 2^64 - 1.
    ghost faults: { Self → ℕ };

    /// Takes a front of the bytes, of at least one byte where there is one, and says how many.
    fn write(&mut self, bytes: &[u8]) -> Result<usize, Failed>
        ensures { IsWrite taken faults bytes.now self.old self.new result };
}
