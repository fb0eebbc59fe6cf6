//! What a key page keeps of a live row.
ghost use Rattle.std.specs.Prelude.{◌≡◌, ◌%◌, ◌<◌};
ghost use Rattle.unit_version.specs.Entry.{code_of};

use crate::packed::PackedTuple;
use cubit_base::Key;

/// A live row in 16 bytes.
#[derive(Clone, Copy)]
pub(crate) struct Entry {
    /// The key within its page: keys of one rest rise with it.
    pub(crate) code: u32,
    /// The row's number.
    pub(crate) row: u32,
    /// Its tuple.
    pub(crate) tuple: PackedTuple,
}

const _: () = prove!(size_of::<Entry>() == 16);

/// The page of the key, 0 to 63.
#[inline(always)]
pub(crate) fn rest_of(key: &Key) -> u8
    ensures { result ≡ key.now.order % 64 }
{
    (key.order % 64) as u8
}

/// The key within its page.
#[inline(always)]
pub(crate) fn code_of(key: &Key) -> u32
    ensures value { result ≡ code_of key.now }
    ensures line { key.now.line < 8 }
{
    key.order / 64 * 8 + u32::from(key.line)
}
