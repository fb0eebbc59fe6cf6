//! The bins of the rows of a page.
ghost use Rattle.std.specs.Prelude.{◌≡◌, ◌≤◌, map, slice_index_or};
ghost use Rattle.cubit_base.specs.Key.{KeyValue};
ghost use Rattle.cubit_base.specs.declared.table.TheConstants.{ROW_LIMIT};
ghost use Rattle.column_bins.specs.Column.{tuple_bin};
ghost use Rattle.unit_version.specs.RowBins.{AreMonths, row_bin};
ghost use Rattle.unit_version.specs.PageRows.{ArePageRows};
ghost use Rattle.wah_words.specs.Place.{page_count};

use super::months::Months;
use column_bins::{Column, bin_of};
use cubit_base::{Table, Tuple};
use fence_window::PAGE_ROWS;

/// What stands for the bin of a row that is not live, or past the last row.
pub(crate) const NO_BIN: u8 = 255;

const _: () = prove!(NO_BIN == 255);

/// The bins of the rows of a page.
pub(crate) type PageBins = [u8; PAGE_ROWS as usize];

/// The bins of the rows of a page in each column.
#[derive(Drop)]
pub(crate) struct PageRows {
    pub(crate) ship: PageBins,
    pub(crate) disc: PageBins,
    pub(crate) qty: PageBins,
    pub(crate) flag: PageBins,
    pub(crate) status: PageBins,
}

/// The bins of no rows.
pub(crate) fn no_rows() -> PageRows {
    PageRows {
        ship: [NO_BIN; PAGE_ROWS as usize],
        disc: [NO_BIN; PAGE_ROWS as usize],
        qty: [NO_BIN; PAGE_ROWS as usize],
        flag: [NO_BIN; PAGE_ROWS as usize],
        status: [NO_BIN; PAGE_ROWS as usize],
    }
}

/// Reads the bins of the rows of a page. Each row is read once, before any of its bins is written.
pub(crate) fn read_page(rows: &mut PageRows, table: &Table, months: &Months, page: u32)
    requires page { page ≤ page_count ROW_LIMIT }
    requires months { AreMonths months.now }
    ensures { ArePageRows table.now page rows.new }
{
    let first = PAGE_ROWS * page;
    for at in 0..PAGE_ROWS {
        let row = first + at;
        let ship = bin_at(table, Column::Ship, months, row);
        let disc = bin_at(table, Column::Disc, months, row);
        let qty = bin_at(table, Column::Qty, months, row);
        let flag = bin_at(table, Column::Flag, months, row);
        let status = bin_at(table, Column::Status, months, row);
        let place = at as usize;
        rows.ship[place] = ship;
        rows.disc[place] = disc;
        rows.qty[place] = qty;
        rows.flag[place] = flag;
        rows.status[place] = status;
    }
}

// The bin of a row.
#[inline(always)]
fn bin_at(table: &Table, column: Column, months: &Months, row: u32) -> u8
    requires { AreMonths months.now }
    ensures { result ≡ slice_index_or (map (row_bin column) table.now) row 255 }
{
    match table.row(row) {
        Some((_, tuple)) => bin_or_none(column, months, &tuple),
        None => NO_BIN,
    }
}

// The bin of a row with this tuple or none.
#[inline(always)]
fn bin_or_none(column: Column, months: &Months, tuple: &Option<Tuple>) -> u8
    requires { AreMonths months.now }
    ensures { (key : KeyValue) → result ≡ row_bin column (key, tuple.now) }
{
    match tuple {
        Some(tuple) => bin_of_tuple(column, months, tuple),
        None => NO_BIN,
    }
}

// The bin of a tuple.
#[inline(always)]
fn bin_of_tuple(column: Column, months: &Months, tuple: &Tuple) -> u8
    requires { AreMonths months.now }
    ensures { result ≡ tuple_bin column tuple.now }
{
    match column {
        Column::Ship => months[usize::from(tuple.day)],
        Column::Disc | Column::Qty | Column::Flag | Column::Status => bin_of(column, tuple),
    }
}
