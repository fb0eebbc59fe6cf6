//! Plain tables: deltas drawn for them, and what bitvectors and pages of them are, row by row.
ghost use Rattle.std.specs.Prelude.{◌≡◌, ◌≢◌, ◌⊎◌, ◌+◌, ◌*◌, ◌<◌, ◌≤◌, All, IsTrue, IfOk, IfSome, length, slice_get};
ghost use Rattle.cubit_base.specs.LiveRow.{HasDistinctLiveKeys};
ghost use Rattle.cubit_base.specs.Delta.{applied, IsLawful};
ghost use Rattle.front_patch.specs.Bits.{bits_by, passes};

use crate::Memory;
use crate::row_test::RowTest;
use column_bins::bin_of;
use cubit_base::{Delta, Flag, Key, LineStatus, Table, Tuple, laws};
use fence_window::PAGE_GROUPS;
use std::alloc::Global;

// A tuple that is drawn by a number.
pub(crate) fn tuple_of(n: u32) -> Tuple {
    Tuple {
        price: n % 100_000,
        day: (n % 2557) as u16,
        qty: (n % 50) as u8 + 1,
        disc: (n % 11) as u8,
        tax: (n % 9) as u8,
        flag: if n % 3 == 0 { Flag::R } else { Flag::N },
        status: LineStatus::O,
    }
}

// Whether a row has the key.
pub(crate) fn has_key(table: &Table, key: &Key) -> bool
    ensures { IsTrue result ⊎ All (λ row. row.0 ≢ key.now) table.now }
{
    for n in 0..table.len() {
        let (other, _) = table.row(n).unwrap();
        if other == *key {
            return true;
        }
    }
    false
}

// A table of so many rows, of which each seventh is not live.
pub(crate) fn table_of(alloc: Global, rows: u32) -> Result<Table, Memory>
    requires { rows ≤ 10_000 }
    ensures distinct { IfOk result HasDistinctLiveKeys }
    ensures few { IfOk result (λ table. length table ≤ rows) }
{
    laws::live_rows();
    let mut table = Table::new(alloc);
    for row in 0..rows {
        let key = Key {
            order: row + 1,
            line: 1,
        };
        let tuple = if row % 7 == 3 {
            None
        } else {
            Some(tuple_of(row))
        };
        if !has_key(&table, &key) {
            table.push(key, tuple)?;
        }
    }
    Ok(table)
}

// The same rows.
pub(crate) fn copy_of(alloc: Global, table: &Table) -> Result<Table, Memory>
    ensures { IfOk result (λ copy. copy ≡ table.now) }
{
    let mut copy = Table::new(alloc);
    for n in 0..table.len() {
        let (key, tuple) = table.row(n).unwrap();
        copy.push(key, tuple)?;
    }
    Ok(copy)
}

// A delta that is drawn by a number, if one may come there.
pub(crate) fn delta_of(table: &Table, author: u8, limit: u32, n: u32) -> Option<Delta>
    requires { n < 4_000_000_000 }
    ensures lawful { IfSome result (IsLawful limit table.now) }
    ensures author { IfSome result (λ d. d.author ≡ author) }
{
    if table.is_empty() || n % 8 == 0 {
        return insert_of(table, author, limit, n);
    }
    let row = n / 8 % table.len();
    let (key, before) = table.row(row)?;
    if before.is_none() {
        return None;
    }
    let after = if n % 8 == 1 { None } else { Some(tuple_of(n)) };
    Some(Delta {
        author,
        row,
        key,
        before,
        after,
    })
}

fn insert_of(table: &Table, author: u8, limit: u32, n: u32) -> Option<Delta>
    ensures lawful { IfSome result (IsLawful limit table.now) }
    ensures author { IfSome result (λ d. d.author ≡ author) }
{
    let row = table.len();
    let key = Key {
        order: 20_000_000 + row,
        line: 2,
    };
    if limit <= row || has_key(table, &key) {
        return None;
    }
    Some(Delta {
        author,
        row,
        key,
        before: None,
        after: Some(tuple_of(n)),
    })
}

// The table after a delta.
pub(crate) fn table_after(
    alloc: Global,
    table: &Table,
    delta: &Delta,
    limit: u32,
) -> Result<Table, Memory>
    requires lawful { IsLawful limit table.now delta.now }
    requires limit { limit ≤ 16_777_216 }
    ensures { IfOk result (λ after. after ≡ applied table.now delta.now) }
{
    laws::deltas();
    let mut after = Table::new(alloc);
    let rows = table.len() + u32::from(delta.before.is_none());
    for n in 0..rows {
        let (key, tuple) = row_after(table, delta, n, limit).unwrap();
        after.push(key, tuple)?;
    }
    Ok(after)
}

// A row of the table after a delta.
fn row_after(table: &Table, delta: &Delta, n: u32, limit: u32) -> Option<(Key, Option<Tuple>)>
    requires { IsLawful limit table.now delta.now }
    ensures { result ≡ slice_get (applied table.now delta.now) n }
{
    laws::deltas();
    if n == delta.row {
        return Some((delta.key, delta.after));
    }
    table.row(n)
}

// Whether a row with this tuple, or none, passes, by its bin.
fn passes(test: RowTest, tuple: &Option<Tuple>) -> bool
    ensures { result ≡ passes test tuple.now }
{
    match (test, tuple) {
        (RowTest::IsLive, tuple) => tuple.is_some(),
        (RowTest::IsInBins(_, _), None) => false,
        (RowTest::IsInBins(column, stretch), Some(tuple)) => {
            let bin = bin_of(column, tuple);
            stretch.first <= bin && bin < stretch.after
        }
    }
}

// The rows of a table that pass.
pub(crate) fn passing(alloc: Global, table: &Table, test: RowTest) -> Result<Vec<bool>, Memory>
    ensures rows { IfOk result (λ rows. rows.items ≡ bits_by test table.now) }
    ensures few { IfOk result (λ rows. length rows.items ≤ 16_777_216) }
{
    let mut rows = Vec::new(alloc);
    for n in 0..table.len() {
        let (_, tuple) = table.row(n).unwrap();
        rows.push(passes(test, &tuple))?;
    }
    Ok(rows)
}

// The groups of a page of rows.
pub(crate) fn page_of(rows: &[bool], page: u32) -> [u32; PAGE_GROUPS] {
    let mut groups = [0; PAGE_GROUPS];
    for group in 0..PAGE_GROUPS {
        for place in 0..31u32 {
            let row = 3_968 * u64::from(page) + 31 * group as u64 + u64::from(place);
            if rows.get(row as usize).copied() == Some(true) {
                groups[group] |= 1u32 << place;
            }
        }
    }
    groups
}
