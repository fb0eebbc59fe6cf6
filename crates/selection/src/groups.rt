//! Rows of groups.
ghost use Rattle.std.specs.Prelude.{◌≡◌, ◌+◌, ◌*◌, ◌^◌, ◌<◌, ◌==◌, ◌&&◌, ◌||◌, not, ℕ, Bool, List, Option, true, false, All, length, slice_index};
ghost use Rattle.wah_words.specs.Group.{group_row};
ghost use Rattle.front_patch.specs.Bits.{row_in};
ghost use Rattle.cubit_base.specs.Table.{Row};
ghost use Rattle.cubit_base.specs.Tuple.{TupleValue};
ghost use Rattle.selection.specs.Blocks.{Tells};

use fence_window::{BLOCK_GROUPS, PAGE_GROUPS};

// All rows of a group.
const ALL_ROWS: u32 = 0x7fff_ffff;

const _: () = prove!(ALL_ROWS == 2_147_483_647);

/// Makes every row true.
pub(crate) fn set_all(groups: &mut [u32; BLOCK_GROUPS])
    ensures small { All (λ group. group < 2 ^ 31) groups.new }
    ensures rows { (row : ℕ) → row < 126_976 → row_in groups.new row ≡ true }
{
    groups.fill(ALL_ROWS);
}

/// Whether no row is true.
pub(crate) fn is_empty(groups: &[u32]) -> bool
    ensures { result ≡ true → (row : ℕ) → row_in groups.now row ≡ false }
{
    let mut some = 0;
    for group in groups {
        some |= *group;
    }
    some == 0
}

/// Keeps the rows that are true in the others too.
pub(crate) fn keep(groups: &mut [u32], others: &[u32])
    requires long { length groups.old ≡ length others.now }
    requires small { All (λ group. group < 2 ^ 31) others.now }
    ensures small { All (λ group. group < 2 ^ 31) groups.new }
    ensures rows { (row : ℕ) → row_in groups.new row ≡ (row_in groups.old row && row_in others.now row) }
{
    for i in 0..groups.len() {
        groups[i] &= others[i];
    }
}

/// Makes the rows true that are true in the others.
pub(crate) fn join(groups: &mut [u32], others: &[u32])
    requires long { length groups.old ≡ length others.now }
    requires small { All (λ group. group < 2 ^ 31) groups.old }
    requires others { All (λ group. group < 2 ^ 31) others.now }
    ensures small { All (λ group. group < 2 ^ 31) groups.new }
    ensures rows { (row : ℕ) → row_in groups.new row ≡ (row_in groups.old row || row_in others.now row) }
{
    for i in 0..groups.len() {
        groups[i] |= others[i];
    }
}

/// Makes a row false, if it is to be dropped.
#[inline(always)]
pub(crate) fn drop_row(groups: &mut [u32; PAGE_GROUPS], row: u16, dropped: bool)
    requires within { row < 3_968 }
    requires small { All (λ group. group < 2 ^ 31) groups.old }
    ensures small { All (λ group. group < 2 ^ 31) groups.new }
    ensures rows { (other : ℕ) → row_in groups.new other
        ≡ (row_in groups.old other && not ((row == other) && dropped)) }
{
    let at = usize::from(row) / 31;
    groups[at] = without(groups[at], u32::from(row) % 31, dropped);
}

// A group without one of its rows, if that is to be dropped.
#[inline(always)]
fn without(group: u32, place: u32, dropped: bool) -> u32
    requires within { place < 31 }
    requires small { group < 2 ^ 31 }
    ensures small { result < 2 ^ 31 }
    ensures rows { (other : ℕ) → other < 31 →
        group_row result other ≡ (group_row group other && not ((place == other) && dropped)) }
{
    group & !(u32::from(dropped) << place)
}

/// One of the 32 pages of groups.
#[inline(always)]
pub(crate) fn page_of(groups: &[u32; BLOCK_GROUPS], k: u32) -> [u32; PAGE_GROUPS]
    requires { k < 32 }
    ensures long { length result ≡ 128 }
    ensures tells { (test : Option TupleValue → Bool) (table : List Row) (first : ℕ) →
        Tells test table first groups.now → Tells test table (first + k) result }
{
    let from = PAGE_GROUPS * k as usize;
    let mut page = [0; PAGE_GROUPS];
    page.copy_from_slice(&groups[from..from + PAGE_GROUPS]);
    page
}

/// Writes one of the 32 pages of groups; those before it stay.
#[inline(always)]
pub(crate) fn put_page(groups: &mut [u32; BLOCK_GROUPS], k: u32, page: &[u32; PAGE_GROUPS])
    requires { k < 32 }
    ensures before { (i : ℕ) → i < 128 * k → slice_index groups.new i ≡ slice_index groups.old i }
    ensures page { (i : ℕ) → i < 128 → slice_index groups.new (128 * k + i) ≡ slice_index page.now i }
{
    let from = PAGE_GROUPS * k as usize;
    groups[from..from + PAGE_GROUPS].copy_from_slice(page);
}
