//! Named files that are read from their start, one at a time.
ghost use Rattle.std.specs.Prelude.{ℕ, List, Option};
ghost use Rattle.cubit_io.specs.Files.{IsBegin, IsRead};
ghost use Rattle.cubit_io.specs.Held.{Held};

/// The outside failed. It says no more.
#[derive(Clone, Copy, Debug, PartialEq, Eq)]
pub struct Failed;

/// Named files. No call changes what is held, and the count of faults never falls.
pub trait Files {
    /// Where told, the bytes under each name that is held.
    ghost held: { Self → Held };

    /// Where told, what is left of the chosen file; nothing is left where none is chosen.
    ghost rest: { Self → Option (List ℕ) };

    /// How often the outside has failed, up to 2^64 - 1.
    ghost faults: { Self → ℕ };

    /// Chooses a file, from its start. Where it fails, none is chosen. A missing name is no fault.
    fn begin(&mut self, name: &str) -> Result<(), Failed>
        ensures { IsBegin held rest faults name.now self.old self.new result };

    /// Moves a front of what is left into the buffer. 0 in a buffer that is not empty is the end of the file, and
    /// where no file is chosen.
    fn read(&mut self, buffer: &mut [u8]) -> Result<usize, Failed>
        ensures { IsRead held rest faults self.old self.new buffer.old buffer.new result };
}
