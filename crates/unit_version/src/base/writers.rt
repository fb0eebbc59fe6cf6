//! The bins of a column and their unions, in the making and made.
ghost use Rattle.std.specs.Prelude.{ℕ, ◌≡◌, ◌≤◌, ◌+◌, [], length, map, replicate, IfOk, OnOk, List};
ghost use Rattle.cubit_base.specs.Table.{Row};
ghost use Rattle.column_bins.specs.Column.{bin_count};
ghost use Rattle.unit_version.specs.Columns.{AreOfColumn, HasPages, HasRoom};
ghost use Rattle.unit_version.specs.Content.{AreContents, one_bin};
ghost use Rattle.unit_version.specs.RowBins.{row_bin};
ghost use Rattle.unit_version.specs.Tile.{ArePageBins, AreWritten, HasPage};
ghost use Rattle.unit_version.specs.Union.{AreUnions, union_at, union_count};
ghost use Rattle.wah_words.specs.Place.{page_count};
ghost use Rattle.unit_version.specs.declared.unit.Unit.TheVariants as unit;

use super::rows::PageBins;
use super::tile::{BIN_NUMBERS, fill, push_bins};
use super::unions::{UnionWriter, push_unions, union_count};
use crate::{Content, Memory};
use column_bins::Column;
use cubit_base::Table;
use fence_window::{Fenced, PageWriter, Plain};
use std::alloc::Global;
use wah_words::{laws, pages_of_list};

/// The bins of a column and their unions in the making, and the tile by way of which they are written.
#[derive(Drop)]
pub(crate) struct ColumnWriter {
    pub(crate) tile: Vec<u32>,
    bins: Vec<PageWriter>,
    unions: Vec<UnionWriter>,
}

/// What the bins of a column hold, and their unions.
#[derive(Drop)]
pub(crate) struct ColumnUnits {
    pub(crate) bins: Vec<Content>,
    pub(crate) unions: Vec<Plain>,
}

// How many bins a column has.
fn bin_count(column: Column) -> u8
    ensures value { result ≡ bin_count column }
    ensures within { result ≤ 84 }
{
    match column {
        Column::Ship => 84,
        Column::Disc => 11,
        Column::Qty => 50,
        Column::Flag => 3,
        Column::Status => 2,
    }
}

/// No pages yet, with room for so many.
pub(crate) fn empty_writer(
    alloc: Global,
    column: Column,
    pages: u32,
) -> Result<ColumnWriter, Memory>
    ensures { (table : List Row) → IfOk result (HasPages table column 0) }
{
    let count = usize::from(bin_count(column));
    Ok(ColumnWriter {
        tile: vec![in alloc; 0; BIN_NUMBERS * count]?,
        bins: empty_bins(alloc, count, pages)?,
        unions: empty_unions(alloc, union_count(column), pages)?,
    })
}

// So many bins with nothing in them, and with room for so many pages.
fn empty_bins(alloc: Global, count: usize, pages: u32) -> Result<Vec<PageWriter>, Memory>
    ensures { IfOk result (λ lists. lists.items ≡ replicate count []) }
{
    let mut lists = Vec::with_capacity(alloc, count)?;
    for _list in 0..count {
        lists.push(PageWriter::with_capacity(alloc, pages)?)?;
    }
    Ok(lists)
}

// So many unions with nothing in them, and with room for so many pages.
fn empty_unions(alloc: Global, count: usize, pages: u32) -> Result<Vec<UnionWriter>, Memory>
    ensures { IfOk result (λ lists. lists.items ≡ replicate count []) }
{
    let mut lists = Vec::with_capacity(alloc, count)?;
    for _list in 0..count {
        lists.push(UnionWriter::with_capacity(alloc, pages)?)?;
    }
    Ok(lists)
}

/// Writes the next page of each bin and each union, by the bins of its rows. The tile then has it.
pub(crate) fn write_page(
    writer: &mut ColumnWriter,
    column: Column,
    bins: &PageBins,
) -> Result<(), Memory>
    requires { HasRoom column writer.old }
    ensures { OnOk result ((table : List Row) (page : ℕ) → ArePageBins (map (row_bin column) table) page bins.now
        → HasPages table column page writer.old → HasPages table column (page + 1) writer.new
        × HasPage (map (row_bin column) table) page writer.new.tile.items) }
{
    laws::groups();
    fill(&mut writer.tile, bins);
    push_bins(&mut writer.bins, &writer.tile)?;
    push_unions(&mut writer.unions, column, &writer.tile)?;
    Ok(())
}

/// The bins and the unions, once all pages are written.
pub(crate) fn finished(
    alloc: Global,
    writer: ColumnWriter,
    table: &Table,
    column: Column,
) -> Result<ColumnUnits, Memory>
    requires { HasPages table.now column (page_count (length table.now)) writer }
    ensures { IfOk result (AreOfColumn column table.now) }
{
    Ok(ColumnUnits {
        bins: finished_bins(alloc, writer.bins, table, column)?,
        unions: finished_unions(alloc, writer.unions, table, column)?,
    })
}

fn finished_bins(
    alloc: Global,
    writers: Vec<PageWriter>,
    table: &Table,
    column: Column,
) -> Result<Vec<Content>, Memory>
    requires { AreWritten (map (row_bin column) table.now) one_bin (page_count (length table.now)) 0 (bin_count column)
        writers.items }
    ensures { IfOk result (λ contents. AreContents (unit.Bin column) table.now (bin_count column) contents.items) }
{
    laws::groups();
    pages_of_list();
    let mut writers = writers;
    let count = bin_count(column);
    let mut contents = Vec::with_capacity(alloc, usize::from(count))?;
    for _bin in 0..count {
        let list = Fenced::from_pages(writers.remove(0), table.len())?;
        contents.push(Content::Bits(list))?;
    }
    Ok(contents)
}

fn finished_unions(
    alloc: Global,
    writers: Vec<UnionWriter>,
    table: &Table,
    column: Column,
) -> Result<Vec<Plain>, Memory>
    requires { AreWritten (map (row_bin column) table.now) (union_at column) (page_count (length table.now)) 0
        (union_count column) writers.items }
    ensures { IfOk result (λ unions. AreUnions column table.now (union_count column) unions.items) }
{
    laws::groups();
    pages_of_list();
    let mut writers = writers;
    let count = union_count(column);
    let mut unions = Vec::with_capacity(alloc, count)?;
    for _union in 0..count {
        unions.push(writers.remove(0).finish(table.len()))?;
    }
    Ok(unions)
}
