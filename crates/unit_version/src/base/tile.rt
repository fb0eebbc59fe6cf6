//! The groups of a page for all bins of a column at once, so that one pass over its rows serves them all.
ghost use Rattle.std.specs.Prelude.{◌≡◌, ℕ, List, ◌+◌, ◌*◌, ◌<◌, ◌≤◌, ◌^◌, ◌++◌, [], All, OnOk, length, take, slice_index, slice_index_or, slice_set, bit_or};
ghost use Rattle.unit_version.specs.Content.{one_bin};
ghost use Rattle.unit_version.specs.Tile.{ArePushed, HasPage, IsPageOf, IsTile, page_of, rows_in};

use super::rows::PageBins;
use crate::Memory;
use column_bins::Stretch;
use fence_window::{PAGE_GROUPS, PageWriter};
use wah_words::{GROUP_ROWS, laws};

/// The numbers of a bin in a tile: its groups of the page, and a gap, so that bins do not share the sets of a cache.
pub(crate) const BIN_NUMBERS: usize = 144;

const _: () = prove!(BIN_NUMBERS == 144);

/// The groups of a page.
pub(crate) type PageGroups = [u32; PAGE_GROUPS];

/// Sets the numbers to the groups of each bin's rows. Rows of bins that have no numbers are in no group.
pub(crate) fn fill(tile: &mut [u32], bins: &PageBins)
    ensures { IsTile bins.now tile.new }
{
    tile.fill(0);
    for group in 0..PAGE_GROUPS {
        set_group(tile, group, bins);
    }
}

// Sets the rows of one group.
#[inline(always)]
fn set_group(tile: &mut [u32], group: usize, bins: &PageBins)
    requires within { group < 128 }
    requires before { IsTile (take (31 * group) bins.now) tile.old }
    ensures { IsTile (take (31 * (group + 1)) bins.now) tile.new }
{
    for at in 0..GROUP_ROWS {
        let bin = bins[31 * group + at as usize];
        let place = BIN_NUMBERS * usize::from(bin) + group;
        if place < tile.len() {
            tile[place] |= 1u32 << at;
        }
    }
}

/// Puts the groups of each bin at the end of its list.
pub(crate) fn push_bins(lists: &mut [PageWriter], tile: &[u32]) -> Result<(), Memory>
    requires few { length lists.old ≤ 255 }
    requires whole { length tile.now ≡ 144 * length lists.old }
    requires within { All (λ group. group < 2 ^ 31) tile.now }
    requires room { (bin : ℕ) → length (slice_index_or lists.old bin []) + 128 < 2 ^ 30 }
    ensures { OnOk result (ArePushed one_bin tile.now (length lists.old) lists.old lists.new) }
{
    for bin in 0..lists.len() {
        push_bin(lists, bin, tile)?;
    }
    Ok(())
}

// Puts the groups of one bin at the end of its list.
#[inline(always)]
fn push_bin(lists: &mut [PageWriter], bin: usize, tile: &[u32]) -> Result<(), Memory>
    requires bin { bin < length lists.old }
    requires whole { length tile.now ≡ 144 * length lists.old }
    requires within { All (λ group. group < 2 ^ 31) tile.now }
    requires room { length (slice_index_or lists.old bin []) + 128 < 2 ^ 30 }
    ensures { OnOk result (lists.new
        ≡ slice_set lists.old bin (slice_index_or lists.old bin [] ++ page_of tile.now bin)) }
{
    let mut page = [0; PAGE_GROUPS];
    page.copy_from_slice(&tile[BIN_NUMBERS * bin..BIN_NUMBERS * bin + PAGE_GROUPS]);
    lists[bin].push_page(&page)?;
    Ok(())
}

/// The groups of the rows of a stretch of bins.
pub(crate) fn union_page(tile: &[u32], bins: Stretch) -> PageGroups
    requires order { bins.first ≤ bins.after }
    requires few { bins.after ≤ 255 }
    requires within { 144 * bins.after ≤ length tile.now }
    ensures { (rows : List ℕ) (page : ℕ) → HasPage rows page tile.now → IsPageOf (rows_in bins rows) page result }
{
    laws::operations();
    let mut page = [0; PAGE_GROUPS];
    for bin in bins.first..bins.after {
        let first = BIN_NUMBERS * usize::from(bin);
        or_groups(&mut page, &tile[first..first + PAGE_GROUPS]);
    }
    page
}

// Puts groups into those of a page, by or.
#[inline(always)]
fn or_groups(page: &mut PageGroups, groups: &[u32])
    requires { length groups.now ≡ 128 }
    ensures { (k : ℕ) → k < 128 → slice_index page.new k ≡ bit_or (slice_index page.old k) (slice_index groups.now k) }
{
    for k in 0..PAGE_GROUPS {
        page[k] |= groups[k];
    }
}
