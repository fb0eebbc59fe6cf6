//! Plain tables, and deltas that may come there.
ghost use Rattle.std.specs.Prelude.{◌≡◌, ◌≢◌, ◌⊎◌, ℕ, ◌+◌, ◌<◌, ◌≤◌, All, IsTrue, IfOk, IfSome, OnOk, length, slice_get};
ghost use Rattle.cubit_base.specs.Table.{HasDistinctKeys};
ghost use Rattle.cubit_base.specs.LiveRow.{HasDistinctLiveKeys};
ghost use Rattle.cubit_base.specs.Delta.{applied, IsLawful};

use crate::Memory;
use cubit_base::{Delta, Flag, Key, LineStatus, Table, Tuple, laws};
use std::alloc::Global;

// A tuple that is drawn by a number.
pub(crate) fn drawn_tuple(n: u32) -> Tuple {
    Tuple {
        price: n % 100_000,
        day: (n % 2557) as u16,
        qty: (n % 50) as u8 + 1,
        disc: (n % 11) as u8,
        tax: (n % 9) as u8,
        flag: if n % 3 == 0 { Flag::R } else { Flag::N },
        status: if n % 4 == 0 {
            LineStatus::F
        } else {
            LineStatus::O
        },
    }
}

// So many drawn tuples; each seventh row has none.
pub(crate) fn drawn_tuples(alloc: Global, rows: u32) -> Result<Vec<Option<Tuple>>, Memory>
    ensures { IfOk result (λ tuples. length tuples.items ≡ rows) }
{
    let mut tuples = Vec::new(alloc);
    for row in 0..rows {
        let tuple = if row % 7 == 3 {
            None
        } else {
            Some(drawn_tuple(row.wrapping_mul(2_654_435_761)))
        };
        tuples.push(tuple)?;
    }
    Ok(tuples)
}

// A table of these tuples. The keys rise.
pub(crate) fn table_of(alloc: Global, tuples: &[Option<Tuple>]) -> Result<Table, Memory>
    requires { length tuples.now ≤ 200_000 }
    ensures distinct { IfOk result HasDistinctLiveKeys }
    ensures few { IfOk result (λ table. length table ≤ length tuples.now) }
{
    laws::live_rows();
    let mut table = Table::new(alloc);
    for row in 0..tuples.len() {
        push_row(&mut table, row as u32, tuples[row])?;
    }
    Ok(table)
}

// Puts a row behind the others, with an order above theirs.
fn push_row(table: &mut Table, row: u32, tuple: Option<Tuple>) -> Result<(), Memory>
    requires below { All (λ r. r.0.order ≤ row) table.old }
    requires distinct { HasDistinctKeys table.old }
    requires many { length table.old ≤ row }
    requires few { row < 200_000 }
    ensures below { OnOk result (All (λ r. r.0.order ≤ row + 1) table.new) }
    ensures distinct { OnOk result (HasDistinctKeys table.new) }
    ensures many { OnOk result (length table.new ≤ row + 1) }
{
    let key = Key {
        order: row + 1,
        line: 1,
    };
    table.push(key, tuple)
}

// The same rows.
pub(crate) fn copy_of(alloc: Global, table: &Table) -> Result<Table, Memory>
    ensures { IfOk result (λ copy. copy ≡ table.now) }
{
    let mut copy = Table::new(alloc);
    for n in 0..table.len() {
        let (key, tuple) = table.row(n).unwrap();
        copy.push(key, tuple)?;
    }
    Ok(copy)
}

// Whether a row has the key.
fn has_key(table: &Table, key: &Key) -> bool
    ensures { IsTrue result ⊎ All (λ row. row.0 ≢ key.now) table.now }
{
    for n in 0..table.len() {
        let (other, _) = table.row(n).unwrap();
        if other == *key {
            return true;
        }
    }
    false
}

// A delta that is drawn by a number, if one may come there.
pub(crate) fn drawn_delta(table: &Table, author: u8, limit: u32, n: u32) -> Option<Delta>
    ensures lawful { IfSome result (IsLawful limit table.now) }
    ensures author { IfSome result (λ d. d.author ≡ author) }
{
    if table.is_empty() || n % 8 == 0 {
        return insertion(table, author, limit, drawn_tuple(n));
    }
    let after = if n % 8 == 1 {
        None
    } else {
        Some(drawn_tuple(n))
    };
    change(table, author, n / 8 % table.len(), after)
}

// A change of a row, if it is live.
pub(crate) fn change(table: &Table, author: u8, row: u32, after: Option<Tuple>) -> Option<Delta>
    ensures lawful { (limit : ℕ) → IfSome result (IsLawful limit table.now) }
    ensures author { IfSome result (λ d. d.author ≡ author) }
{
    let (key, before) = table.row(row)?;
    if before.is_none() {
        return None;
    }
    Some(Delta {
        author,
        row,
        key,
        before,
        after,
    })
}

// A new row, if there is room for it.
pub(crate) fn insertion(table: &Table, author: u8, limit: u32, tuple: Tuple) -> Option<Delta>
    ensures lawful { IfSome result (IsLawful limit table.now) }
    ensures author { IfSome result (λ d. d.author ≡ author) }
{
    let row = table.len();
    let key = Key {
        order: 20_000_000 + row,
        line: 2,
    };
    if limit <= row || has_key(table, &key) {
        return None;
    }
    Some(Delta {
        author,
        row,
        key,
        before: None,
        after: Some(tuple),
    })
}

// The table after a delta.
pub(crate) fn table_after(
    alloc: Global,
    table: &Table,
    delta: &Delta,
    limit: u32,
) -> Result<Table, Memory>
    requires lawful { IsLawful limit table.now delta.now }
    requires limit { limit ≤ 16_777_216 }
    ensures { IfOk result (λ after. after ≡ applied table.now delta.now) }
{
    laws::deltas();
    let mut after = Table::new(alloc);
    for n in 0..rows_after(table, delta, limit) {
        let (key, tuple) = row_after(table, delta, n, limit).unwrap();
        after.push(key, tuple)?;
    }
    Ok(after)
}

// How many rows there are after a delta.
fn rows_after(table: &Table, delta: &Delta, limit: u32) -> u32
    requires lawful { IsLawful limit table.now delta.now }
    requires limit { limit ≤ 16_777_216 }
    ensures value { result ≡ length (applied table.now delta.now) }
    ensures few { result ≤ 16_777_216 }
{
    laws::deltas();
    if delta.before.is_none() {
        return table.len() + 1;
    }
    table.len()
}

// A row of the table after a delta.
fn row_after(table: &Table, delta: &Delta, n: u32, limit: u32) -> Option<(Key, Option<Tuple>)>
    requires { IsLawful limit table.now delta.now }
    ensures { result ≡ slice_get (applied table.now delta.now) n }
{
    laws::deltas();
    if n == delta.row {
        return Some((delta.key, delta.after));
    }
    table.row(n)
}
