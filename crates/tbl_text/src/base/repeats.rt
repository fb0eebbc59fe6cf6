//! The first key that stands twice.
ghost use Rattle.std.specs.Prelude.{◌≡◌, length, IfOk, IsPermutation};
ghost use Rattle.std.specs.List.Sorted.{IsSorted};
ghost use Rattle.tbl_text.specs.Repeats.{FindsFirstRepeat, FindsLeastTie, entries_of, entry_cmp, lesser_tie};

use super::rows::ReadRows;
use crate::Memory;
use cubit_base::{Key, Table};
use std::alloc::Global;

/// Two rows with one key.
#[derive(Clone, Copy, Debug, PartialEq, Eq)]
pub(crate) struct Repeat {
    /// The number of the earlier row, from 0.
    pub(crate) earlier: u32,
    /// The number of the later row.
    pub(crate) later: u32,
}

// A row's key and number, in 12 bytes. They are ordered by key, and those of one key by number.
#[derive(Clone, Copy, Debug, PartialEq, Eq, PartialOrd, Ord)]
struct Entry {
    key: Key,
    row: u32,
}

const _: () = prove!(size_of::<Entry>() == 12);

impl ReadRows {
    /// The first row whose key an earlier row has, with that row. Only where keys fell or stayed is memory taken.
    pub(crate) fn first_repeat(&self, alloc: Global) -> Result<Option<Repeat>, Memory>
        ensures { IfOk result (FindsFirstRepeat self.now.table) }
    {
        if self.are_rising {
            return Ok(None);
        }
        let entries = sorted_entries(alloc, &self.table)?;
        Ok(least_tie(&entries))
    }
}

// The entries of all rows. No two are equal, so a sort that takes no memory serves.
fn sorted_entries(alloc: Global, table: &Table) -> Result<Vec<Entry>, Memory>
    ensures moved { IfOk result (λ entries. IsPermutation (entries_of table.now) entries.items) }
    ensures sorted { IfOk result (λ entries. IsSorted entry_cmp entries.items) }
{
    let mut entries = Vec::with_capacity(alloc, table.len() as usize)?;
    for row in 0..table.len() {
        let (key, _) = table.row(row).unwrap();
        entries.push(Entry { key, row })?;
    }
    entries.sort_unstable();
    Ok(entries)
}

// Two neighbours with one key, of which the later row is below that of the tie so far, or else that tie.
fn lesser_tie(least: Option<Repeat>, earlier: &Entry, later: &Entry) -> Option<Repeat>
    ensures { result ≡ lesser_tie least earlier.now later.now }
{
    if earlier.key != later.key {
        return least;
    }
    match least {
        Some(tie) if tie.later <= later.row => least,
        _ => Some(Repeat {
            earlier: earlier.row,
            later: later.row,
        }),
    }
}

// The neighbours with one key whose later row is least.
fn least_tie(entries: &[Entry]) -> Option<Repeat>
    ensures { FindsLeastTie entries.now (length entries.now) result }
{
    let mut least = None;
    for i in 1..entries.len() {
        least = lesser_tie(least, &entries[i - 1], &entries[i]);
    }
    least
}
