//! Why a script is not read.
ghost use Rattle.std.specs.Prelude.{◌≡◌, ◌⊎◌};
ghost use Rattle.refresh_streams.specs.declared.stop.ScriptStop.TheVariants as stop;

use crate::{FileName, Memory};
use std::alloc::Global;

/// Why a script is not read. Lines count from 1; the faults have the numbers of docs/FORMATS.md.
#[derive(Drop)]
pub enum ScriptStop {
    /// The outside failed at this file, or there is no file of this name.
    Fault(FileName),
    /// This file has, at this line, the fault with this number; then for fault 1 the number of fields, and else 0. For
    /// fault 16, a file that is too long, the line is 0.
    Bad(FileName, u32, u8, u32),
    /// Memory ran out.
    Memory,
}

impl From<Memory> for ScriptStop {
    ghost use Rattle.std.specs.Prelude.{◌≡◌};
    ghost use Rattle.refresh_streams.specs.declared.stop.ScriptStop.TheVariants as stop;

    ghost from_gives = { λ _ given. given ≡ stop.Memory };

    fn from(_: Memory) -> ScriptStop {
        ScriptStop::Memory
    }
}

/// The outside failed at this file, or it is missing.
#[cold]
pub(crate) fn fault(alloc: Global, file: &str) -> ScriptStop
    ensures { (result ≡ stop.Fault file.now) ⊎ (result ≡ stop.Memory) }
{
    match FileName::of(alloc, file) {
        Ok(name) => ScriptStop::Fault(name),
        Err(_) => ScriptStop::Memory,
    }
}

/// This line of this file has this fault, of so many fields.
#[cold]
pub(crate) fn bad(alloc: Global, file: &str, line: u32, number: u8, fields: u32) -> ScriptStop
    ensures { (result ≡ stop.Bad file.now line number fields) ⊎ (result ≡ stop.Memory) }
{
    match FileName::of(alloc, file) {
        Ok(name) => ScriptStop::Bad(name, line, number, fields),
        Err(_) => ScriptStop::Memory,
    }
}
