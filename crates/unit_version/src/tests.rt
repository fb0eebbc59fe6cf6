// Small tables, against plain passes over their rows.
ghost use Rattle.std.specs.Prelude.{◌≡◌, ◌≢◌, ◌⊎◌, ◌+◌, ◌<◌, ◌≤◌, All, IsTrue, IfOk, length};
ghost use Rattle.cubit_base.specs.LiveRow.{HasDistinctLiveKeys};

mod carry;
mod histories;
mod story;
mod worked;

use super::*;
use column_bins::{Column, bin_of};
use cubit_base::{Flag, Key, LineStatus, Steps, Table, Tuple, laws};
use fence_window::{BLOCK_GROUPS, PAGE_ROWS, Plain};
use std::alloc::Global;
use std::marker::Brand;
use std::ops::Range;
use std::process::Abort;
use std::sync::ledger::{Blank, Ledger};
use std::test::Fail;

// Whether a row has the key.
fn has_key(table: &Table, key: &Key) -> bool
    ensures { IsTrue result ⊎ All (λ row. row.0 ≢ key.now) table.now }
{
    for n in 0..table.len() {
        let (other, _) = table.row(n).unwrap();
        if other == *key {
            return true;
        }
    }
    false
}

// The tuple of a row, by its number; each seventh row has none.
fn tuple_of(row: u32) -> Option<Tuple> {
    if row % 7 == 3 {
        return None;
    }
    Some(Tuple {
        price: row % 100_000,
        day: (row % 2557) as u16,
        qty: (row % 50) as u8 + 1,
        disc: (row % 11) as u8,
        tax: (row % 9) as u8,
        flag: if row % 3 == 0 { Flag::R } else { Flag::N },
        status: LineStatus::O,
    })
}

// The key of a row: orders in no order, of pages of every rest.
fn key_of(row: u32) -> Key {
    Key {
        order: row % 1_000 * 389 % 1_000 + 1,
        line: (row % 7) as u8 + 1,
    }
}

// A table of so many rows. A key that stands already is left out.
fn table_of(alloc: Global, rows: u32) -> Result<Table, Memory>
    requires { rows ≤ 5_000 }
    ensures distinct { IfOk result HasDistinctLiveKeys }
    ensures few { IfOk result (λ table. length table ≤ rows) }
{
    laws::live_rows();
    let mut table = Table::new(alloc);
    for row in 0..rows {
        let key = key_of(row);
        if !has_key(&table, &key) {
            table.push(key, tuple_of(row))?;
        }
    }
    Ok(table)
}

// The base of such a table, with room for one row more.
fn base_of(alloc: Global, rows: u32) -> Result<(Base, Table), Memory>
    requires { rows ≤ 5_000 }
    ensures { IfOk result (λ made. HasDistinctLiveKeys made.1 × (length made.1 ≤ 5_000)) }
{
    let table = table_of(alloc, rows)?;
    let base = Base::build(alloc, table_of(alloc, rows)?, rows + 1)?;
    Ok((base, table))
}

// What a key page finds.
fn found_in(content: &Content, key: &Key) -> Option<(u32, Tuple)> {
    match content {
        Content::Keys(keys) => keys.find(key),
        _ => None,
    }
}

// What the base's key page finds.
fn found(base: &Base, rest: u8, key: &Key) -> Option<(u32, Tuple)>
    requires { rest < 64 }
{
    found_in(base.content(Unit::Keys(rest)), key)
}

#[test]
fn keys_are_found(rt: HostRuntime) -> Result<(), Fail> {
    let (base, table) = base_of(rt.alloc(), 1_500)?;
    let pages = key_pages(rt.alloc(), &table)?;
    assert_eq!(rt; (table.len(), base.rows()), (1_500, 1_500));
    for row in 0..table.len() {
        let (key, tuple) = table.row(row).unwrap();
        let rest = (key.order % 64) as u8;
        let live = match tuple {
            Some(tuple) => Some((row, tuple)),
            None => None,
        };
        assert_eq!(rt; found(&base, rest, &key), live, "of row {row}");
        assert_eq!(rt; found_in(&pages[usize::from(rest)], &key), live, "alone");
        assert_eq!(rt; found(&base, (rest + 1) % 64, &key), None, "elsewhere");
    }
    for order in [1, 64, 1_001, 4_294_967_295] {
        for line in [1, 2, 7] {
            let key = Key { order, line };
            if !has_key(&table, &key) {
                assert_eq!(rt; found(&base, (order % 64) as u8, &key), None);
            }
        }
    }
    Ok(())
}

// What the page has of the row.
fn read<N: Ledger>(base: &Base, row: u32, reads: &mut Steps<N>) -> Option<Tuple> {
    let page = row / PAGE_ROWS;
    if page >= base.pages() {
        return None;
    }
    match base.content(Unit::Page(page)) {
        Content::Page(tuples) => tuples.get((row % PAGE_ROWS) as u16, reads),
        _ => None,
    }
}

// Two reads, of which one finds nothing, are two.
fn read_twice<N: Ledger>(page: &Page, reads: &mut Steps<N>) -> bool
    ensures { reads.new ≡ reads.old + 2 }
{
    page.get(0, reads) == page.get(3_967, reads)
}

fn read_pages<N: Ledger, R: Abort + AllocGlobal>(rt: &R, blank: Blank) -> Result<(), Memory>
    requires name { blank.name ≡ N.name }
    requires parts { blank.parts ≡ N.parts }
    requires some { 0 < N.parts }
{
    let mut reads = Steps::<N>::make(blank);
    let (base, table) = base_of(rt.alloc(), 3_968)?;
    assert_eq!(rt; (table.len(), base.pages(), base.units()), (3_968, 2, 217));
    for row in 0..table.len() {
        let (_, tuple) = table.row(row).unwrap();
        assert_eq!(rt; read(&base, row, &mut reads), tuple, "of row {row}");
    }
    assert_eq!(rt; read(&base, 3_968, &mut reads), None);
    if let Content::Page(page) = base.content(Unit::Page(1)) {
        assert!(rt; read_twice(page, &mut reads));
    }
    Ok(())
}

#[test]
fn pages_are_read(rt: HostRuntime) -> Result<(), Fail> {
    read_pages::<Brand, _>(&rt, Blank::new(1))?;
    Ok(())
}

// The truth value of the row, or false past the end.
fn bit(content: &Content, row: u32) -> bool {
    match content {
        Content::Bits(bits) => row < bits.wah().len() && bits.get(row),
        _ => false,
    }
}

#[test]
fn bits_are_those_of_the_rows(rt: HostRuntime) -> Result<(), Fail> {
    let (base, table) = base_of(rt.alloc(), 4_500)?;
    for row in 0..table.len() {
        let (_, tuple) = table.row(row).unwrap();
        assert_eq!(rt; bit(base.content(Unit::Live), row), tuple.is_some());
        for qty in 0..50 {
            let is = match tuple {
                Some(tuple) => tuple.qty == qty + 1,
                None => false,
            };
            assert_eq!(rt;
                bit(base.content(Unit::Bin(Column::Qty, qty)), row),
                is,
                "of row {row}"
            );
        }
        for month in 0..84 {
            let is = match tuple {
                Some(tuple) => bin_of(Column::Ship, &tuple) == month,
                None => false,
            };
            assert_eq!(rt;
                bit(base.content(Unit::Bin(Column::Ship, month)), row),
                is,
                "of row {row}"
            );
        }
    }
    Ok(())
}

// The rows of the union are those whose bin lies in it, by the groups of its first pages.
fn union_is<R: Abort + AllocGlobal>(
    rt: &R,
    plain: &Plain,
    table: &Table,
    column: Column,
    bins: Range<u8>,
) -> Result<(), Memory>
    requires { length table.now ≤ 5_000 }
{
    let mut groups = [0; BLOCK_GROUPS];
    plain.or_into(0, &mut groups);
    for row in 0..table.len() {
        let (_, tuple) = table.row(row).unwrap();
        let is = match tuple {
            Some(tuple) => {
                let bin = bin_of(column, &tuple);
                bins.start <= bin && bin < bins.end
            }
            None => false,
        };
        let has = (groups[(row / 31) as usize] >> (row % 31)) & 1 == 1;
        assert_eq!(rt; has, is, "of row {row}");
    }
    Ok(())
}

#[test]
fn unions_are_those_of_their_bins(rt: HostRuntime) -> Result<(), Fail> {
    let (base, table) = base_of(rt.alloc(), 4_500)?;
    for (column, bins, count) in [
        (Column::Ship, 12u8, 7u8),
        (Column::Disc, 2, 5),
        (Column::Qty, 16, 3),
        (Column::Qty, 4, 12),
    ] {
        for first in 0..84u8 {
            match base.coarse(column, first, bins) {
                Some(plain) => {
                    union_is(&rt, plain, &table, column, first..first + bins)?;
                    assert!(rt;
                        first % bins == 0 && first / bins < count,
                        "from {first} on"
                    );
                }
                None => assert!(rt;
                    first % bins != 0 || first / bins >= count,
                    "from {first} on"
                ),
            }
        }
    }
    for (column, bins) in [(Column::Qty, 8), (Column::Disc, 4), (Column::Status, 2)] {
        assert!(rt; base.coarse(column, 0, bins).is_none());
    }
    Ok(())
}

#[test]
fn an_empty_base_has_its_units(rt: HostRuntime) -> Result<(), Fail> {
    laws::live_rows();
    let base = Base::build(rt.alloc(), table_of(rt.alloc(), 0)?, 0)?;
    assert_eq!(rt; (base.rows(), base.pages(), base.units()), (0, 0, 215));
    assert!(rt; !bit(base.content(Unit::Live), 0));
    let key = Key { order: 1, line: 1 };
    for rest in 0..64 {
        assert_eq!(rt; found(&base, rest, &key), None);
    }
    Ok(())
}
