//! Entries in the order of their codes.
ghost use Rattle.std.specs.Prelude.{◌≡◌, ◌≢◌, IfOk, IsTrue, ◌↔◌, AllPairs, IsPermutation};
ghost use Rattle.std.specs.List.Sorted.{IsStrictlyIncreasing};
ghost use Rattle.unit_version.specs.Entry.{codes};
ghost use Rattle.unit_version.specs.Search.{AreTops};

use super::entry::Entry;
use crate::Memory;
use std::alloc::Global;

/// Puts entries into the order of their codes. It takes no memory, and one pass where they stand so already.
pub(crate) fn sort(entries: &mut Vec<Entry>)
    requires { AllPairs (λ a b. a.code ≢ b.code) entries.old.items }
    ensures moved { IsPermutation entries.old.items entries.new.items }
    ensures rising { IsStrictlyIncreasing (codes entries.new.items) }
{
    if !are_rising(entries) {
        entries.sort_unstable_by_key(|entry| entry.code);
    }
}

// Whether each code is above the one before it.
fn are_rising(entries: &[Entry]) -> bool
    ensures { IsTrue result ↔ IsStrictlyIncreasing (codes entries.now) }
{
    for i in 1..entries.len() {
        if entries[i - 1].code >= entries[i].code {
            return false;
        }
    }
    true
}

/// The code of each 16th entry.
pub(crate) fn tops_of(alloc: Global, entries: &[Entry]) -> Result<Vec<u32>, Memory>
    ensures { IfOk result (λ tops. AreTops (codes entries.now) tops.items) }
{
    let pieces = entries.len().div_ceil(16);
    let mut tops = Vec::with_capacity(alloc, pieces)?;
    for piece in 0..pieces {
        tops.push(entries[16 * piece].code)?;
    }
    Ok(tops)
}
