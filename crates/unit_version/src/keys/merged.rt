//! Entries with some of their keys changed.
ghost use Rattle.std.specs.Prelude.{◌≡◌, ◌≤◌, IfOk, OnOk, ◌++◌, length, map};
ghost use Rattle.std.specs.List.Sorted.{IsStrictlyIncreasing};
ghost use Rattle.unit_version.specs.Entry.{codes};
ghost use Rattle.unit_version.specs.Merged.{AreBefore, AreMerged, IsGap, IsMergeStep, change_entries};
ghost use Rattle.unit_version.specs.Search.{AreTops, IsNear};

use super::entry::Entry;
use super::search::near_entries;
use crate::Memory;
use crate::changes::KeyChange;
use crate::packed::PackedTuple;
use std::alloc::Global;

/// The entries after changes of keys: those of other keys are copied, and each changed key has the entry of its change,
/// or none.
pub(crate) fn merged(
    alloc: Global,
    entries: &[Entry],
    tops: &[u32],
    changes: &[KeyChange],
) -> Result<Vec<Entry>, Memory>
    requires rising { IsStrictlyIncreasing (codes entries.now) }
    requires tops { AreTops (codes entries.now) tops.now }
    requires changes { IsStrictlyIncreasing (map (λ c. c.code) changes.now) }
    ensures { IfOk result (λ out. AreMerged changes.now entries.now out.items) }
{
    let mut out = Vec::with_capacity(alloc, entries.len().saturating_add(changes.len()))?;
    let mut from = 0;
    for change in changes {
        from = merge(&mut out, entries, tops, from, change)?;
    }
    out.extend_from_slice(&entries[from..])?;
    Ok(out)
}

// Goes on by a change: copies the entries from a place up to that of its key, puts its own in the place of that, and
// gives the place behind.
#[inline(always)]
fn merge(
    out: &mut Vec<Entry>,
    entries: &[Entry],
    tops: &[u32],
    from: usize,
    change: &KeyChange,
) -> Result<usize, Memory>
    requires rising { IsStrictlyIncreasing (codes entries.now) }
    requires tops { AreTops (codes entries.now) tops.now }
    requires within { from ≤ length entries.now }
    requires before { AreBefore change.now.code from entries.now }
    ensures { IfOk result (λ next. IsMergeStep entries.now from change.now out.old.items out.new.items next) }
{
    let behind = near_entries(entries, tops, change.code);
    let to = gap_of(entries, from, behind, change.code);
    out.extend_from_slice(&entries[from..to])?;
    put(out, change)?;
    Ok(behind)
}

// The place of the entry with this code, which stands before the place behind if anywhere, or else that place.
fn gap_of(entries: &[Entry], from: usize, behind: usize, code: u32) -> usize
    requires rising { IsStrictlyIncreasing (codes entries.now) }
    requires near { IsNear (codes entries.now) code behind }
    requires within { from ≤ length entries.now }
    requires before { AreBefore code from entries.now }
    ensures gap { IsGap entries.now code result behind }
    ensures order { from ≤ result }
{
    if behind != 0 && entries[behind - 1].code == code {
        return behind - 1;
    }
    behind
}

// Puts the entry of a change at the end, where it leaves a live row.
fn put(out: &mut Vec<Entry>, change: &KeyChange) -> Result<(), Memory>
    ensures { OnOk result (out.new.items ≡ out.old.items ++ change_entries change.now) }
{
    if let Some(tuple) = change.after.tuple() {
        out.push(Entry {
            code: change.code,
            row: change.row,
            tuple: PackedTuple::new(&tuple),
        })?;
    }
    Ok(())
}
