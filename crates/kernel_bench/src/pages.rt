//! Kernels that read their inputs page by page, as queries do.
ghost use Rattle.std.specs.Prelude.{ℕ, ◌≡◌, ◌+◌, ◌*◌, ◌^◌, ◌<◌, ◌≤◌, IfOk, length, slice_index, bit_and, sum_by, count_ones};
ghost use Rattle.wah_words.specs.Place.{page_count};
ghost use Rattle.kernel_bench.specs.Pages.{xor_into, or_at, block_count, IsXor, IsSelected, IsSelectedIn};

use fence_window::{BLOCK_GROUPS, Fenced, PAGE_GROUPS, PAGE_ROWS};
use std::alloc::Global;
use wah_words::{Memory, PageWriter, laws, pages_of_list};

// The groups of a page.
type Page = [u32; PAGE_GROUPS];
// The groups of 32 pages.
type Block = [u32; BLOCK_GROUPS];

const BLOCK_PAGES: u32 = 32;

// The number of the definition.
const _: () = prove!(BLOCK_PAGES == 32);

/// The list, written page by page as it is read.
pub(crate) fn rewritten(alloc: Global, list: &Fenced) -> Result<Fenced, Memory>
    ensures { IfOk result (λ written. written ≡ list.now) }
{
    laws::groups();
    pages_of_list();
    let rows = list.wah().len();
    let pages = rows.div_ceil(PAGE_ROWS);
    let mut writer = PageWriter::with_capacity(alloc, pages)?;
    let mut page = [0; PAGE_GROUPS];
    for number in 0..pages {
        list.window(number, &mut page);
        writer.push_page(&page)?;
    }
    Fenced::from_pages(writer, rows)
}

/// The exclusive or of all groups, read page by page.
pub(crate) fn xor_of(list: &Fenced) -> u32
    ensures { IsXor list.now (page_count (length list.now)) result }
{
    let mut xor = 0;
    let mut page = [0; 128];
    for number in 0..list.wah().len().div_ceil(PAGE_ROWS) {
        list.window(number, &mut page);
        xor = xor_into(xor, &page);
    }
    xor
}

fn xor_into(start: u32, page: &Page) -> u32
    ensures { result ≡ xor_into start page.now }
{
    let mut xor = start;
    for group in page {
        xor ^= *group;
    }
    xor
}

/// How many of so many rows are true in a bin of each of three columns. It takes 32 pages at a time, a column after the
/// other.
pub(crate) fn selected(
    quantities: &[Fenced],
    months: &[Fenced],
    discounts: &[Fenced],
    rows: u32,
) -> u64
    ensures { IsSelected quantities.now months.now discounts.now (block_count rows) result }
{
    let mut total = 0;
    for number in 0..rows.div_ceil(PAGE_ROWS).div_ceil(BLOCK_PAGES) {
        total += u64::from(selected_in(quantities, months, discounts, number));
    }
    total
}

// How many rows of a block are true in a bin of each of three columns.
fn selected_in(quantities: &[Fenced], months: &[Fenced], discounts: &[Fenced], number: u32) -> u32
    requires { number < 2 ^ 26 }
    ensures rows { IsSelectedIn quantities.now months.now discounts.now number result }
    ensures few { result ≤ 131_072 }
{
    let mut block = [0; 4096];
    let mut other = [0; 4096];
    or_column(discounts, number, &mut block);
    or_column(months, number, &mut other);
    and_into(&mut block, &other);
    or_column(quantities, number, &mut other);
    and_into(&mut block, &other);
    true_rows(&block)
}

// Writes the or of the bins of a column, for the pages of a block.
fn or_column(bins: &[Fenced], number: u32, block: &mut Block)
    requires { number < 2 ^ 26 }
    ensures { (i : ℕ) → i < 4096 → slice_index block.new i ≡ or_at bins.now (4096 * number + i) }
{
    block.fill(0);
    for bin in bins {
        bin.or_into(BLOCK_PAGES * number, block);
    }
}

fn and_into(block: &mut Block, other: &Block)
    ensures { (i : ℕ) → i < 4096 →
        slice_index block.new i ≡ bit_and (slice_index block.old i) (slice_index other.now i) }
{
    for i in 0..4096 {
        block[i] &= other[i];
    }
}

fn true_rows(block: &Block) -> u32
    ensures rows { result ≡ sum_by count_ones block.now }
    ensures few { result ≤ 131_072 }
{
    let mut total = 0;
    for group in block {
        total += group.count_ones();
    }
    total
}
