//! All units over the base table.
ghost use Rattle.std.specs.Prelude.{◌≡◌, ◌↔◌, ◌≤◌, length, map, IfOk, IfSome, IsSome, IsTrue};
ghost use Rattle.cubit_base.specs.LiveRow.{HasDistinctLiveKeys};
ghost use Rattle.cubit_base.specs.Table.{HasTuples};
ghost use Rattle.cubit_base.specs.declared.table.TheConstants.{ROW_LIMIT};
ghost use Rattle.wah_words.specs.Place.{page_count};
ghost use Rattle.unit_version.specs.Columns.{AreOfColumn};
ghost use Rattle.unit_version.specs.Content.{content_of, is_in_bins, AreContents};
ghost use Rattle.unit_version.specs.Union.{bins_from, is_kept};
ghost use Rattle.unit_version.specs.Unit.{IsUnit, unit_count};
ghost use Rattle.unit_version.specs.declared.unit.Unit.TheVariants as unit;

mod columns;
mod months;
mod rows;
mod tile;
mod unions;
mod writers;

use crate::keys::key_pages;
use crate::{Content, Memory, Page, Unit};
use column_bins::Column;
use columns::{Columns, column_contents};
use cubit_base::Table;
use fence_window::{PAGE_ROWS, Plain};
use std::alloc::Global;
use std::marker::Model;
use std::snapshot::Snapshot;
use unions::union_of;
use writers::ColumnUnits;

/// What each unit holds over a table; contracts see the table and the number of rows that there may ever be.
#[derive(Drop)]
pub struct Base {
    // The table, which takes no bytes here: contracts alone read it.
    table: Snapshot<Table>,
    row_room: u32,
    rows: u32,
    columns: Columns,
    pages: Vec<Content>,
    keys: Vec<Content>,
}

impl Model for Base {
    ghost use Rattle.unit_version.specs.BaseValue.{BaseValue};

    ghost Value = { BaseValue };

    ghost use Rattle.unit_version.specs.Base.{IsBase};

    ghost view = { λ b. record { table = b.table.value; row_room = b.row_room } };

    ghost invariant = { IsBase };
}

impl Base {
    /// The units of a table. No two live rows have one key, and there is room for as many rows as there ever may be.
    pub fn build(alloc: Global, table: Table, row_room: u32) -> Result<Base, Memory>
        requires keys { HasDistinctLiveKeys table }
        requires room { length table ≤ row_room }
        requires limit { row_room ≤ ROW_LIMIT }
        ensures { IfOk result (λ base. base ≡ record { table = table; row_room = row_room }) }
    {
        table.has_tuples();
        Ok(Base {
            row_room,
            rows: table.len(),
            columns: column_contents(alloc, &table)?,
            pages: page_contents(alloc, &table, row_room.div_ceil(PAGE_ROWS))?,
            keys: key_pages(alloc, &table)?,
            table: Snapshot::of(&table),
        })
    }

    /// The number of rows of the table.
    pub fn rows(&self) -> u32
        ensures { result ≡ length self.now.table }
    {
        self.rows
    }

    /// No two live rows of the table have one key. This does nothing: where it is called, that is known.
    pub fn keys_differ(&self)
        ensures { HasDistinctLiveKeys self.now.table }
    {
        let _rows = self.rows;
    }

    /// Each tuple of the table is within the accepted ranges. This does nothing: where it is called, that is known.
    pub fn has_tuples(&self)
        ensures { HasTuples self.now.table }
    {
        let _rows = self.rows;
    }

    /// How many rows there may ever be.
    pub fn row_room(&self) -> u32
        ensures value { result ≡ self.now.row_room }
        ensures within { self.now.row_room ≤ ROW_LIMIT }
    {
        self.row_room
    }

    /// The number of pages that all rows may ever take.
    pub fn pages(&self) -> u32
        ensures { result ≡ page_count self.now.row_room }
    {
        self.row_room.div_ceil(PAGE_ROWS)
    }

    /// The number of units.
    pub fn units(&self) -> u32
        ensures { result ≡ unit_count (page_count self.now.row_room) }
    {
        215 + self.row_room.div_ceil(PAGE_ROWS)
    }

    /// What the unit holds over the table.
    pub fn content(&self, unit: Unit) -> &Content
        requires { IsUnit (page_count self.now.row_room) unit }
        ensures { result.now ≡ content_of unit self.now.table }
    {
        match unit {
            Unit::Live => &self.columns.live,
            Unit::Bin(column, bin) => &self.units_of(column).bins[usize::from(bin)],
            Unit::Page(page) => &self.pages[page as usize],
            Unit::Keys(rest) => &self.keys[usize::from(rest)],
        }
    }

    /// The union of so many bins of a column from the first on: which rows are live and have one of these bins. Years,
    /// pairs of discounts, sixteens and fours of quantities are kept, each from a multiple of its width on; of other
    /// bins there is none. It takes no memory.
    pub fn coarse(&self, column: Column, first: u8, bins: u8) -> Option<&Plain>
        ensures kept { IsSome result ↔ IsTrue (is_kept column first bins) }
        ensures list { IfSome result (λ plain. plain.now
            ≡ map (is_in_bins column (bins_from first bins)) self.now.table) }
    {
        let n = union_of(column, first, bins)?;
        Some(&self.units_of(column).unions[n])
    }

    // What the bins of a column hold, and their unions.
    fn units_of(&self, column: Column) -> &ColumnUnits
        ensures { AreOfColumn column self.now.table result.now }
    {
        match column {
            Column::Ship => &self.columns.ship,
            Column::Disc => &self.columns.disc,
            Column::Qty => &self.columns.qty,
            Column::Flag => &self.columns.flag,
            Column::Status => &self.columns.status,
        }
    }
}

// The first pages of a table.
fn page_contents(alloc: Global, table: &Table, pages: u32) -> Result<Vec<Content>, Memory>
    requires { pages ≤ page_count ROW_LIMIT }
    ensures { IfOk result (λ contents. AreContents unit.Page table.now pages contents.items) }
{
    let mut contents = Vec::with_capacity(alloc, pages as usize)?;
    for page in 0..pages {
        contents.push(Content::Page(Page::of_table(alloc, table, page)?))?;
    }
    Ok(contents)
}
