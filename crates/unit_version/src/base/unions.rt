//! Unions of neighbouring bins in plain groups: years, pairs of discounts, sixteens and fours of quantities. They are
//! made of the groups of their bins while these are at hand, and serve a query that wants all bins of one.
ghost use Rattle.std.specs.Prelude.{◌≡◌, ◌<◌, ◌+◌, ◌*◌, ◌++◌, ◌≤◌, [], All, IfOk, MatchOption, OnOk, false, length, take, ◌^◌, true};
ghost use Rattle.column_bins.specs.Column.{bin_count};
ghost use Rattle.wah_words.specs.Group.{unpacked};
ghost use Rattle.wah_words.specs.Place.{ArePagesOf};
ghost use Rattle.unit_version.specs.Tile.{ArePushed};
ghost use Rattle.unit_version.specs.Union.{bins_from, is_kept, union_at, union_count};

use super::tile::{PageGroups, union_page};
use crate::Memory;
use column_bins::{Column, Stretch};
use fence_window::{PAGE_GROUPS, Plain};
use std::alloc::Global;
use std::marker::Model;

/// How many unions are kept of a column's bins.
pub(crate) fn union_count(column: Column) -> usize
    ensures value { result ≡ union_count column }
    ensures within { result ≤ 15 }
{
    match column {
        Column::Ship => 7,
        Column::Disc => 5,
        Column::Qty => 15,
        Column::Flag | Column::Status => 0,
    }
}

// The bins of one of a column's unions.
fn union_at(column: Column, n: usize) -> Stretch
    requires { n < union_count column }
    ensures value { result ≡ union_at column n }
    ensures order { result.first ≤ result.after }
    ensures within { result.after ≤ bin_count column }
{
    let n = n as u8;
    match column {
        Column::Ship => bins_from(12 * n, 12),
        Column::Disc => bins_from(2 * n, 2),
        Column::Qty if n < 3 => bins_from(16 * n, 16),
        Column::Qty => bins_from(4 * (n - 3), 4),
        Column::Flag | Column::Status => bins_from(0, 0),
    }
}

// So many bins from one on.
fn bins_from(first: u8, bins: u8) -> Stretch
    requires { first + bins ≤ 255 }
    ensures { result ≡ bins_from first bins }
{
    Stretch {
        first,
        after: first + bins,
    }
}

/// Which of a column's unions is of so many bins from the first on, or none where it is not kept.
pub(crate) fn union_of(column: Column, first: u8, bins: u8) -> Option<usize>
    ensures { MatchOption result (is_kept column first bins ≡ false) (λ n. (is_kept column first bins ≡ true)
        × (n < union_count column) × (union_at column n ≡ bins_from first bins)) }
{
    let (earlier, count) = match (column, bins) {
        (Column::Ship, 12) => (0, 7),
        (Column::Disc, 2) => (0, 5),
        (Column::Qty, 16) => (0, 3),
        (Column::Qty, 4) => (3, 12),
        _ => return None,
    };
    let n = usize::from(first / bins);
    if first % bins == 0 && n < count {
        Some(earlier + n)
    } else {
        None
    }
}

/// A union in the making, page by page; contracts see the groups pushed so far.
#[derive(Drop)]
pub(crate) struct UnionWriter {
    groups: Vec<u32>,
}

impl Model for UnionWriter {
    ghost use Rattle.std.specs.Prelude.{List, ℕ};

    ghost Value = { List ℕ };

    ghost view = { λ w. w.groups.items };
}

impl UnionWriter {
    /// No groups yet, with room for that many pages.
    pub(crate) fn with_capacity(alloc: Global, pages: u32) -> Result<UnionWriter, Memory>
        ensures { IfOk result (λ writer. writer ≡ []) }
    {
        Ok(UnionWriter {
            groups: Vec::with_capacity(alloc, PAGE_GROUPS * pages as usize)?,
        })
    }

    // Puts the groups of a page at the end.
    fn push_page(&mut self, page: &PageGroups) -> Result<(), Memory>
        ensures { OnOk result (self.new ≡ self.old ++ page.now) }
    {
        self.groups.extend_from_slice(page)?;
        Ok(())
    }

    /// The union of so many rows.
    pub(crate) fn finish(self, rows: u32) -> Plain
        requires within { All (λ group. group < 2 ^ 31) self }
        requires pages { ArePagesOf self rows }
        ensures { result ≡ take rows (unpacked self) }
    {
        Plain::from_groups(self.groups, rows)
    }
}

/// Puts the groups of the rows of each union's bins at its end.
pub(crate) fn push_unions(
    unions: &mut [UnionWriter],
    column: Column,
    tile: &[u32],
) -> Result<(), Memory>
    requires all { length unions.old ≡ union_count column }
    requires whole { length tile.now ≡ 144 * bin_count column }
    ensures { OnOk result (ArePushed (union_at column) tile.now (length unions.old) unions.old unions.new) }
{
    for n in 0..unions.len() {
        unions[n].push_page(&union_page(tile, union_at(column, n)))?;
    }
    Ok(())
}
