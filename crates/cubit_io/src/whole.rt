//! Reading a file whole, and writing a text whole.
ghost use Rattle.std.specs.Prelude.{◌≡◌, ◌≤◌, [], IsOk, OnOk, OnErr};
ghost use Rattle.cubit_io.specs.Count.{Rose};
ghost use Rattle.cubit_io.specs.Pieces.{GrewBy, GrewByPrefix};
ghost use Rattle.cubit_io.specs.Whole.{IsWholeRead};
ghost use Rattle.cubit_io.specs.declared.whole.ReadStop.TheVariants.{Fault, Memory};

use crate::{Failed, Files, Sink};
use std::alloc::{AllocError, Global};

/// The most bytes that a file may have.
pub const FILE_LIMIT: usize = 1_073_741_824;

const _: () = prove!(FILE_LIMIT == 1_073_741_824);

// Large enough that calls cost little, and small enough to stay in the processor's near memory.
const PIECE: usize = 65_536;

/// Why a file was not read.
#[derive(Clone, Copy, Debug, PartialEq, Eq)]
pub enum ReadStop {
    /// The outside failed, or no file has this name.
    Fault = 1,
    /// The file has more than `FILE_LIMIT` bytes.
    TooLong = 2,
    /// Memory ran out.
    Memory = 3,
}

impl From<Failed> for ReadStop {
    ghost from_gives = { λ _ stop. stop ≡ Fault };

    fn from(_: Failed) -> ReadStop {
        ReadStop::Fault
    }
}

impl From<AllocError> for ReadStop {
    ghost from_gives = { λ _ stop. stop ≡ Memory };

    fn from(_: AllocError) -> ReadStop {
        ReadStop::Memory
    }
}

/// All bytes of a file of at most `FILE_LIMIT` bytes.
pub fn read_all<F: Files>(alloc: Global, files: &mut F, name: &str) -> Result<Vec<u8>, ReadStop>
    ensures { IsWholeRead F.held F.faults FILE_LIMIT name.now files.old files.new result }
{
    read_up_to(alloc, files, name, FILE_LIMIT)
}

// The limit is a parameter, so that a test can pass it.
fn read_up_to<F: Files>(
    alloc: Global,
    files: &mut F,
    name: &str,
    limit: usize,
) -> Result<Vec<u8>, ReadStop>
    ensures { IsWholeRead F.held F.faults limit name.now files.old files.new result }
{
    files.begin(name)?;
    let mut bytes = Vec::new(alloc);
    let mut piece = [0u8; PIECE];
    loop {
        let count = files.read(&mut piece)?;
        if count == 0 {
            return Ok(bytes);
        }
        if count > limit - bytes.len() {
            return Err(ReadStop::TooLong);
        }
        bytes.extend_from_slice(&piece[..count])?;
    }
}

/// Writes all the bytes, in as many pieces as the sink takes. It takes no memory.
#[tactic(auto, using(crate::proofs::Writing::grew_by_next))]
pub fn write_all<S: Sink>(sink: &mut S, bytes: &[u8]) -> Result<(), Failed>
    ensures whole { OnOk result (GrewBy (S.taken sink.old) (S.taken sink.new) bytes.now) }
    ensures part { OnErr result (GrewByPrefix (S.taken sink.old) (S.taken sink.new) bytes.now) }
    ensures cause { OnErr result (Rose (S.faults sink.old) (S.faults sink.new)) }
    ensures nothing { bytes.now ≡ [] → IsOk result × (sink.new ≡ sink.old) }
    ensures counted { S.faults sink.old ≤ S.faults sink.new }
{
    let mut done = 0;
    while done < bytes.len() {
        done += sink.write(&bytes[done..])?;
    }
    Ok(())
}

#[cfg(test)]
mod tests;
