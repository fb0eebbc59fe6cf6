//! Rows set in groups.
ghost use Rattle.std.specs.Prelude.{◌≡◌, ◌+◌, ◌*◌, ◌/◌, ◌^◌, ◌==◌, ◌<◌, ◌≤◌, ◌||◌, ℕ, false, List, All, length, slice_index_or, if◌then◌else◌};
ghost use Rattle.wah_words.specs.Group.{group_row};
ghost use Rattle.front_patch.specs.Bits.{row_in, shown_by};
ghost use Rattle.front_patch.specs.RowStates.{IsRising, last_state};
ghost use Rattle.front_patch.specs.Changed.{AreStates, ShowOthers, ShowRows};
ghost use Rattle.cubit_base.specs.Table.{Row};

use crate::changed::ChangedRows;
use crate::row_state::RowState;
use crate::row_test::RowTest;
use fence_window::{BLOCK_GROUPS, Fenced, PAGE_GROUPS, PAGE_ROWS, Plain};
use wah_words::laws;

// A group with this truth value in one place.
#[inline(always)]
fn placed(group: u32, place: u32, value: bool) -> u32
    requires within { place < 31 }
    requires group { group < 2 ^ 31 }
    ensures group { result < 2 ^ 31 }
    ensures rows { (other : ℕ) → other < 31 →
        group_row result other ≡ (if other == place then value else group_row group other) }
{
    group & !(1 << place) | u32::from(value) << place
}

// Gives one row of the groups a truth value.
#[inline(always)]
fn set_row(groups: &mut [u32], row: usize, value: bool)
    requires within { row < 31 * length groups.old }
    requires groups { All (λ group. group < 2 ^ 31) groups.old }
    ensures groups { All (λ group. group < 2 ^ 31) groups.new }
    ensures rows { (other : ℕ) → row_in groups.new other ≡ (if other == row then value else row_in groups.old other) }
{
    let at = row / 31;
    groups[at] = placed(groups[at], (row % 31) as u32, value);
}

/// Gives the rows that were changed what the test says of their states; the groups begin with those of a page.
pub(crate) fn set_changed(changed: &ChangedRows, test: RowTest, page: u32, groups: &mut [u32])
    requires whole { length groups.old ≡ 128 * (length groups.old / 128) }
    requires few { length groups.old ≤ 4_096 }
    requires groups { All (λ group. group < 2 ^ 31) groups.old }
    ensures { (table : List Row) → ShowOthers test changed.now table page groups.old → AreStates changed.now table →
        ShowRows test table page groups.new }
{
    laws::groups();
    let first = first_row(page);
    let rows = 31 * groups.len() as u64;
    set_states(groups, first, test, changed.among(first, rows));
}

/// The first row of a page.
pub(crate) fn first_row(page: u32) -> u64
    ensures { result ≡ 3_968 * page }
{
    u64::from(PAGE_ROWS) * u64::from(page)
}

/// Writes the groups of a page of a bitvector.
pub(crate) fn show_page(bits: &Fenced, page: u32, out: &mut [u32; PAGE_GROUPS])
    ensures groups { All (λ group. group < 2 ^ 31) out.new }
    ensures rows { (row : ℕ) → row < 3_968 →
        row_in out.new row ≡ slice_index_or bits.now (3_968 * page + row) false }
{
    laws::groups();
    bits.window(page, out);
}

/// Writes 32 pages in which no row is true.
pub(crate) fn show_none(out: &mut [u32; BLOCK_GROUPS])
    ensures groups { All (λ group. group < 2 ^ 31) out.new }
    ensures rows { (row : ℕ) → row_in out.new row ≡ false }
{
    out.fill(0);
}

/// Puts the groups of 32 pages of a bitvector into others, by or.
pub(crate) fn or_pages(bits: &Fenced, first: u32, out: &mut [u32; BLOCK_GROUPS])
    requires { All (λ group. group < 2 ^ 31) out.old }
    ensures groups { All (λ group. group < 2 ^ 31) out.new }
    ensures rows { (row : ℕ) → row < 126_976 →
        row_in out.new row ≡ (row_in out.old row || slice_index_or bits.now (3_968 * first + row) false) }
{
    laws::groups();
    bits.or_into(first, out);
}

/// The same of a plain bitvector.
pub(crate) fn or_plain(bits: &Plain, first: u32, out: &mut [u32; BLOCK_GROUPS])
    requires { All (λ group. group < 2 ^ 31) out.old }
    ensures groups { All (λ group. group < 2 ^ 31) out.new }
    ensures rows { (row : ℕ) → row < 126_976 →
        row_in out.new row ≡ (row_in out.old row || slice_index_or bits.now (3_968 * first + row) false) }
{
    laws::groups();
    bits.or_into(first, out);
}

// Gives each row that has a state what the test says of its last one; the groups begin with the first row.
fn set_states(groups: &mut [u32], first: u64, test: RowTest, states: &[RowState])
    requires within { All (λ s. (first ≤ s.row) × (s.row < first + 31 * length groups.old)) states.now }
    requires groups { All (λ group. group < 2 ^ 31) groups.old }
    ensures groups { All (λ group. group < 2 ^ 31) groups.new }
    ensures rows { (row : ℕ) →
        row_in groups.new row ≡ shown_by test (last_state (first + row) states.now) (row_in groups.old row) }
{
    let values = test.values();
    for state in states {
        let row = (u64::from(state.row) - first) as usize;
        set_row(groups, row, test.passes(values, &state.tuple));
    }
}
