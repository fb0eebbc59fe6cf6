//! The true rows of groups as they are.
ghost use Rattle.std.specs.Prelude.{◌≡◌, ◌<◌, ◌≤◌, ◌+◌, ◌^◌, ◌++◌, All, length, take};
ghost use Rattle.wah_words.specs.Group.{group_rows, low_bits, unpacked};
ghost use Rattle.wah_words.specs.Rows.{true_count, true_places as places_of};

use crate::place::{PAGE_GROUPS, PAGE_ROWS};

// The rows of a page, as a length.
const PAGE_LENGTH: usize = PAGE_ROWS as usize;
// The rows of two groups.
const PAIR_ROWS: u16 = 62;
// A bit above those of two groups, so that there is a lowest one.
const STOP: u64 = 0x8000_0000_0000_0000;

const _: () = prove!(PAGE_LENGTH == 3_968);

const _: () = prove!(STOP == 9_223_372_036_854_775_808);

/// Writes the numbers of a page's true rows, rising, into the first of the numbers, and gives how many there are. What
/// stands behind them is left over. It takes no memory.
pub fn true_places(page: &[u32; PAGE_GROUPS], out: &mut [u16; PAGE_LENGTH]) -> usize
    requires { All (λ group. group < 2 ^ 31) page.now }
    ensures places { take result out.new ≡ places_of 0 (unpacked page.now) }
    ensures bound { result ≤ PAGE_LENGTH }
{
    let mut len = 0;
    for pair in 0..PAGE_GROUPS / 2 {
        let rows = pair_rows(page[2 * pair], page[2 * pair + 1]);
        len = put_places(out, len, PAIR_ROWS * pair as u16, rows);
    }
    len
}

/// How many rows of groups are true. It takes no memory.
pub fn true_rows_of(groups: &[u32]) -> u32
    requires within { All (λ group. group < 2 ^ 31) groups.now }
    requires room { length groups.now < 2 ^ 27 }
    ensures { result ≡ true_count (unpacked groups.now) }
{
    let mut total = 0;
    for pair in 0..groups.len() / 2 {
        // One count of 64 bits takes both groups. Two of 32 bits would be made by shuffles of bytes, which takes
        // longer.
        total += pair_rows(groups[2 * pair], groups[2 * pair + 1]).count_ones();
    }
    if groups.len() % 2 == 0 {
        return total;
    }
    total + groups[groups.len() - 1].count_ones()
}

// The rows of two groups side by side.
#[inline(always)]
fn pair_rows(low: u32, high: u32) -> u64
    requires low { low < 2 ^ 31 }
    requires high { high < 2 ^ 31 }
    ensures rows { low_bits 62 result ≡ group_rows low ++ group_rows high }
    ensures within { result < 2 ^ 62 }
{
    u64::from(low) + (u64::from(high) << 31)
}

// Writes the numbers of the true rows of two groups. Most have three at most, which are written with no branch.
#[inline(always)]
fn put_places(out: &mut [u16; PAGE_LENGTH], len: usize, first: u16, rows: u64) -> usize
    requires rows { rows < 2 ^ 62 }
    requires first { first ≤ 3906 }
    requires room { len ≤ first }
    ensures places { take result out.new ≡ take len out.old ++ places_of first (low_bits 62 rows) }
    ensures bound { result ≤ len + 62 }
{
    let (len, rows) = put_lowest(out, len, first, rows);
    let (len, rows) = put_lowest(out, len, first, rows);
    let (len, rows) = put_lowest(out, len, first, rows);
    if rows == 0 {
        return len;
    }
    put_all(out, len, first, rows)
}

// The same, one after another.
#[cold]
fn put_all(out: &mut [u16; PAGE_LENGTH], len: usize, first: u16, rows: u64) -> usize
    requires rows { rows < 2 ^ 62 }
    requires first { first ≤ 3906 }
    requires room { len + length (places_of first (low_bits 62 rows)) ≤ PAGE_LENGTH }
    ensures places { take result out.new ≡ take len out.old ++ places_of first (low_bits 62 rows) }
    ensures count { result ≡ len + length (places_of first (low_bits 62 rows)) }
{
    let mut end = len;
    let mut left = rows;
    while left != 0 {
        (end, left) = put_lowest(out, end, first, left);
    }
    end
}

// Writes the number of the lowest true row, which counts where there is one, and gives the rows without it.
#[inline(always)]
fn put_lowest(out: &mut [u16; PAGE_LENGTH], len: usize, first: u16, rows: u64) -> (usize, u64)
    requires rows { rows < 2 ^ 62 }
    requires first { first ≤ 3906 }
    requires room { len < PAGE_LENGTH }
    ensures places { take result.0 out.new ++ places_of first (low_bits 62 result.1)
        ≡ take len out.old ++ places_of first (low_bits 62 rows) }
    ensures count { result.0 + length (places_of first (low_bits 62 result.1))
        ≡ len + length (places_of first (low_bits 62 rows)) }
    ensures bound { result.0 ≤ len + 1 }
    ensures within { result.1 < 2 ^ 62 }
    ensures fewer { 0 < rows → result.1 < rows }
{
    out[len] = first + (rows + STOP).trailing_zeros() as u16;
    (len + usize::from(rows != 0), rows & rows.wrapping_sub(1))
}
