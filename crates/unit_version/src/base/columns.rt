//! The live rows, the bins of all columns and their unions, made page by page in one pass over the table: a page of a
//! column is read into its tile, and each list takes its groups from there.
ghost use Rattle.std.specs.Prelude.{◌≡◌, length, IfOk};
ghost use Rattle.wah_words.specs.Place.{page_count};
ghost use Rattle.unit_version.specs.Columns.{AreColumns, AreOfColumn, HaveAllPages, live_rows};
ghost use Rattle.unit_version.specs.Content.{content_of};
ghost use Rattle.unit_version.specs.Tile.{AreFirstPages};
ghost use Rattle.unit_version.specs.declared.unit.Unit.TheVariants as unit;

use super::months::months_of_days;
use super::rows::{no_rows, read_page};
use super::tile::union_page;
use super::writers::{ColumnUnits, ColumnWriter, empty_writer, finished, write_page};
use crate::{Content, Memory};
use column_bins::{Column, Stretch};
use cubit_base::Table;
use fence_window::{Fenced, PAGE_ROWS, PageWriter};
use std::alloc::Global;
use wah_words::{laws, pages_of_list};

// Both statuses.
const STATUSES: Stretch = Stretch { first: 0, after: 2 };

/// What the live rows and the bins of each column hold.
#[derive(Drop)]
pub(crate) struct Columns {
    pub(crate) live: Content,
    pub(crate) ship: ColumnUnits,
    pub(crate) disc: ColumnUnits,
    pub(crate) qty: ColumnUnits,
    pub(crate) flag: ColumnUnits,
    pub(crate) status: ColumnUnits,
}

// The same in the making.
#[derive(Drop)]
struct Writers {
    live: PageWriter,
    ship: ColumnWriter,
    disc: ColumnWriter,
    qty: ColumnWriter,
    flag: ColumnWriter,
    status: ColumnWriter,
}

/// The live rows, the bins of all columns and their unions. It takes one pass over the rows, and room for a word for
/// each bin or union and each 31 rows.
pub(crate) fn column_contents(alloc: Global, table: &Table) -> Result<Columns, Memory>
    ensures { IfOk result (AreColumns table.now) }
{
    let writers = written(alloc, table)?;
    Ok(Columns {
        live: finished_live(writers.live, table)?,
        ship: finished(alloc, writers.ship, table, Column::Ship)?,
        disc: finished(alloc, writers.disc, table, Column::Disc)?,
        qty: finished(alloc, writers.qty, table, Column::Qty)?,
        flag: finished(alloc, writers.flag, table, Column::Flag)?,
        status: finished(alloc, writers.status, table, Column::Status)?,
    })
}

// All pages of all columns; the live rows are those of either status.
fn written(alloc: Global, table: &Table) -> Result<Writers, Memory>
    ensures { IfOk result (HaveAllPages table.now (page_count (length table.now))) }
{
    laws::groups();
    let pages = table.len().div_ceil(PAGE_ROWS);
    let months = months_of_days();
    let mut live = PageWriter::with_capacity(alloc, pages)?;
    let mut ship = empty_writer(alloc, Column::Ship, pages)?;
    let mut disc = empty_writer(alloc, Column::Disc, pages)?;
    let mut qty = empty_writer(alloc, Column::Qty, pages)?;
    let mut flag = empty_writer(alloc, Column::Flag, pages)?;
    let mut status = empty_writer(alloc, Column::Status, pages)?;
    let mut rows = no_rows();
    for page in 0..pages {
        read_page(&mut rows, table, &months, page);
        write_page(&mut ship, Column::Ship, &rows.ship)?;
        write_page(&mut disc, Column::Disc, &rows.disc)?;
        write_page(&mut qty, Column::Qty, &rows.qty)?;
        write_page(&mut flag, Column::Flag, &rows.flag)?;
        write_page(&mut status, Column::Status, &rows.status)?;
        live.push_page(&union_page(&status.tile, STATUSES))?;
    }
    Ok(Writers {
        live,
        ship,
        disc,
        qty,
        flag,
        status,
    })
}

// The live rows, once all pages are written.
fn finished_live(live: PageWriter, table: &Table) -> Result<Content, Memory>
    requires { AreFirstPages (live_rows table.now) (page_count (length table.now)) live }
    ensures { IfOk result (λ content. content ≡ content_of unit.Live table.now) }
{
    laws::groups();
    pages_of_list();
    Ok(Content::Bits(Fenced::from_pages(live, table.len())?))
}
