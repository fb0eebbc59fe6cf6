// Histories over small tables, made delta by delta.
ghost use Rattle.std.specs.Prelude.{◌≡◌, ◌+◌, ◌<◌, ◌≤◌, List, [], IfOk, OnOk, IfSome, IsTrue, length};
ghost use Rattle.cubit_base.specs.Table.{Row};
ghost use Rattle.cubit_base.specs.LiveRow.{IsFree};
ghost use Rattle.cubit_base.specs.Delta.{applied, IsLawful};
ghost use Rattle.cubit_base.specs.History.{after, IsHistory};

use cubit_base::{Delta, DeltaList, Key, Memory, Table, Tuple, laws};
use std::alloc::Global;

/// Rows, each with its key and its tuple or none.
pub(super) type Rows = Vec<(Key, Option<Tuple>)>;

/// The rows of a table.
pub(super) fn rows_of(alloc: Global, table: &Table) -> Result<Rows, Memory>
    ensures { IfOk result (λ rows. rows.items ≡ table.now) }
{
    let mut rows = Vec::new(alloc);
    for n in 0..table.len() {
        rows.push(table.row(n).unwrap())?;
    }
    Ok(rows)
}

/// The table of rows.
pub(super) fn table_from(alloc: Global, rows: &Rows) -> Result<Table, Memory>
    requires { length rows.now.items ≤ 16_777_216 }
    ensures { IfOk result (λ table. table ≡ rows.now.items) }
{
    let mut table = Table::new(alloc);
    for n in 0..rows.len() {
        let (key, tuple) = rows[n];
        table.push(key, tuple)?;
    }
    Ok(table)
}

// Whether no live row has the key.
fn is_free(rows: &Rows, key: &Key) -> bool
    ensures { IsTrue result → IsFree rows.now.items key.now }
{
    for n in 0..rows.len() {
        let (other, tuple) = rows[n];
        if tuple.is_some() && other == *key {
            return false;
        }
    }
    true
}

/// The insert of a row, or none where the key is live.
pub(super) fn insert(rows: &Rows, key: Key, tuple: Tuple) -> Option<Delta>
    requires { length rows.now.items < 16_777_216 }
    ensures { IfSome result (λ d. IsLawful 16_777_216 rows.now.items d) }
{
    if !is_free(rows, &key) {
        return None;
    }
    Some(Delta {
        author: 0,
        row: rows.len() as u32,
        key,
        before: None,
        after: Some(tuple),
    })
}

/// Another tuple or none for a row, or none where it is not live.
pub(super) fn change(rows: &Rows, row: u32, after: Option<Tuple>) -> Option<Delta>
    ensures { IfSome result (λ d. IsLawful 16_777_216 rows.now.items d) }
{
    let (key, before) = *rows.get(row as usize)?;
    if before.is_none() {
        return None;
    }
    Some(Delta {
        author: 0,
        row,
        key,
        before,
        after,
    })
}

/// Applies a delta, and puts it at the end of a history, where there is one.
pub(super) fn follow(
    rows: &mut Rows,
    deltas: &mut DeltaList,
    delta: Option<Delta>,
) -> Result<(), Memory>
    requires lawful { IfSome delta (λ d. IsLawful 16_777_216 rows.old.items d) }
    requires few { length deltas.old < 1_000_000 }
    ensures rows_few { OnOk result (length rows.new.items ≤ length rows.old.items + 1) }
    ensures deltas_few { OnOk result (length deltas.new ≤ length deltas.old + 1) }
    ensures history { OnOk result ((base : List Row) → IsHistory 16_777_216 base deltas.old
        → rows.old.items ≡ after base deltas.old
        → IsHistory 16_777_216 base deltas.new × (rows.new.items ≡ after base deltas.new)) }
{
    laws::deltas();
    laws::histories();
    let Some(delta) = delta else {
        return Ok(());
    };
    deltas.push(Delta { ..delta })?;
    apply(rows, &delta)
}

// Applies a delta.
fn apply(rows: &mut Rows, delta: &Delta) -> Result<(), Memory>
    requires { IsLawful 16_777_216 rows.old.items delta.now }
    ensures { OnOk result (rows.new.items ≡ applied rows.old.items delta.now) }
{
    laws::deltas();
    let place = delta.row as usize;
    if place == rows.len() {
        rows.push((delta.key, delta.after))?;
        return Ok(());
    }
    rows[place] = (delta.key, delta.after);
    Ok(())
}
