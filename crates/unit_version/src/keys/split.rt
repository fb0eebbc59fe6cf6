//! The live rows of a table, split by the pages of their keys.
ghost use Rattle.std.specs.Prelude.{◌≡◌, ◌∷◌, ◌++◌, [], List, length, IfOk, OnOk};
ghost use Rattle.cubit_base.specs.Table.{Row};
ghost use Rattle.unit_version.specs.Split.{AreSplit};

use super::entry::{Entry, code_of, rest_of};
use crate::Memory;
use crate::packed::PackedTuple;
use cubit_base::{Key, Table, Tuple};
use std::alloc::Global;

/// The number of key pages.
pub(crate) const KEY_PAGES: u8 = 64;

const _: () = prove!(KEY_PAGES == 64);

// A number for each key page.
type Counts = [u32; KEY_PAGES as usize];

/// A list for each key page, in the order of rows.
pub(crate) fn split(alloc: Global, table: &Table) -> Result<Vec<Vec<Entry>>, Memory>
    ensures { IfOk result (λ lists. AreSplit table.now lists.items) }
{
    let mut lists = empty_lists(alloc, &counts_of(table))?;
    for row in 0..table.len() {
        let (key, tuple) = table.row(row).unwrap();
        add(&mut lists, row, &key, &tuple)?;
    }
    Ok(lists)
}

// How many live rows each page has. It is room to reserve, so that no contract speaks of it.
fn counts_of(table: &Table) -> Counts {
    let mut counts = [0; KEY_PAGES as usize];
    for row in 0..table.len() {
        if let Some((key, Some(_))) = table.row(row) {
            counts[usize::from(rest_of(&key))] += 1;
        }
    }
    counts
}

// A list with nothing in it for each key page, with room for so many entries.
fn empty_lists(alloc: Global, counts: &Counts) -> Result<Vec<Vec<Entry>>, Memory>
    ensures { IfOk result (λ lists. AreSplit [] lists.items) }
{
    let mut lists = Vec::with_capacity(alloc, usize::from(KEY_PAGES))?;
    for page in 0..KEY_PAGES {
        let count = counts[usize::from(page)];
        lists.push(Vec::with_capacity(alloc, count as usize)?)?;
    }
    Ok(lists)
}

// Puts a row at the end of its key's list, where it is live.
#[inline(always)]
fn add(
    lists: &mut Vec<Vec<Entry>>,
    row: u32,
    key: &Key,
    tuple: &Option<Tuple>,
) -> Result<(), Memory>
    requires { length lists.old.items ≡ 64 }
    ensures { OnOk result ((table : List Row) → length table ≡ row → AreSplit table lists.old.items
        → AreSplit (table ++ (key.now, tuple.now) ∷ []) lists.new.items) }
{
    let Some(tuple) = tuple else {
        return Ok(());
    };
    let list = &mut lists[usize::from(rest_of(key))];
    list.push(Entry {
        code: code_of(key),
        row,
        tuple: PackedTuple::new(tuple),
    })?;
    Ok(())
}
