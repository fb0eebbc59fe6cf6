//! Counts of calls and of faults: a u64 that stands still at its last value.
ghost use Rattle.std.specs.Prelude.{◌≡◌};
ghost use Rattle.cubit_io.specs.Count.{raised};

/// The count after one more.
pub(crate) fn raised(count: u64) -> u64
    ensures { result ≡ raised count }
{
    count.saturating_add(1)
}
