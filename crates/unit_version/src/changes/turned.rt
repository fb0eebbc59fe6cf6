//! The rows that are turned in the units of truth values.
ghost use Rattle.std.specs.Prelude.{ℕ, ◌≡◌, ◌<◌, ◌==◌, IfOk, OnOk, [], ◌∷◌, ◌++◌, List, length, slice_index_or, if◌then◌else◌};
ghost use Rattle.std.specs.declared.alloc.Global.{Global};
ghost use Rattle.std.specs.declared.vec.Vec.{Vec};
ghost use Rattle.column_bins.specs.Column.{bin_count};
ghost use Rattle.wah_words.specs.Rows.{differs};
ghost use Rattle.unit_version.specs.Changes.{AreTurned, IsBitUnit, bit_place, first_place};
ghost use Rattle.unit_version.specs.Turned.{IsPlace, ArePushed};
ghost use Rattle.unit_version.specs.declared.changes.row.RowChange.{RowChange};

use super::row::RowChange;
use crate::{Memory, Unit};
use column_bins::{Column, bin_of};
use cubit_base::Tuple;
use std::alloc::Global;

// The lists: one for each unit of truth values, and one for what stands in none of a column's bins.
const LISTS: usize = 152;

const _: () = prove!(LISTS == 152);

// The place of the list of the live rows.
const LIVE_PLACE: usize = 0;

const _: () = prove!(LIVE_PLACE == 0);

// The place of the list of what stands in no bin.
const NO_PLACE: usize = 151;

const _: () = prove!(NO_PLACE == 151);

/// For each unit of truth values the rows that are turned in it, rising.
pub(crate) fn turned_rows(alloc: Global, changes: &[RowChange]) -> Result<Vec<Vec<u32>>, Memory>
    ensures { IfOk result (λ lists. AreTurned changes.now lists.items) }
{
    let mut lists = empty_lists(alloc)?;
    for change in changes {
        turn(&mut lists, change)?;
    }
    Ok(lists)
}

// A list with nothing in it for each place.
fn empty_lists(alloc: Global) -> Result<Vec<Vec<u32>>, Memory>
    ensures { IfOk result (λ lists. AreTurned [] lists.items) }
{
    let mut lists = Vec::with_capacity(alloc, LISTS)?;
    for _list in 0..LISTS {
        lists.push(Vec::new(alloc))?;
    }
    Ok(lists)
}

// Puts the row of a change at the end of the lists in which it is turned.
fn turn(lists: &mut Vec<Vec<u32>>, change: &RowChange) -> Result<(), Memory>
    requires { length lists.old.items ≡ 152 }
    ensures { OnOk result ((changes : List RowChange) → AreTurned changes lists.old.items
        → AreTurned (changes ++ change.now ∷ []) lists.new.items) }
{
    let row = change.row;
    let before = change.before.tuple();
    let after = change.after.tuple();
    push_live(lists, row, &before, &after)?;
    push_bins(lists, row, Column::Ship, &before, &after)?;
    push_bins(lists, row, Column::Disc, &before, &after)?;
    push_bins(lists, row, Column::Qty, &before, &after)?;
    push_bins(lists, row, Column::Flag, &before, &after)?;
    push_bins(lists, row, Column::Status, &before, &after)?;
    Ok(())
}

// The same for the list of live rows.
fn push_live(
    lists: &mut Vec<Vec<u32>>,
    row: u32,
    before: &Option<Tuple>,
    after: &Option<Tuple>,
) -> Result<(), Memory>
    requires { length lists.old.items ≡ 152 }
    ensures { OnOk result (ArePushed 0 1 row before.now after.now lists.old.items lists.new.items) }
{
    push(lists, row, live_place(before), live_place(after))
}

// The same for the lists of a column.
fn push_bins(
    lists: &mut Vec<Vec<u32>>,
    row: u32,
    column: Column,
    before: &Option<Tuple>,
    after: &Option<Tuple>,
) -> Result<(), Memory>
    requires { length lists.old.items ≡ 152 }
    ensures { OnOk result (ArePushed (first_place column) (bin_count column) row before.now after.now
        lists.old.items lists.new.items) }
{
    push(
        lists,
        row,
        bin_place(column, before),
        bin_place(column, after),
    )
}

// Puts a row at the end of two lists, where they are not one.
#[inline(always)]
fn push(lists: &mut Vec<Vec<u32>>, row: u32, old: usize, new: usize) -> Result<(), Memory>
    requires lists { length lists.old.items ≡ 152 }
    requires old { old < 152 }
    requires new { new < 152 }
    ensures long { length lists.new.items ≡ 152 }
    ensures each { OnOk result ((k : ℕ) (d : Vec ℕ Global) → (slice_index_or lists.new.items k d).items
        ≡ (slice_index_or lists.old.items k d).items ++ (if differs (old == k) (new == k) then row ∷ [] else [])) }
{
    if old != new {
        lists[old].push(row)?;
        lists[new].push(row)?;
    }
    Ok(())
}

// The place of the unit of live rows, where there is a tuple.
#[inline(always)]
fn live_place(tuple: &Option<Tuple>) -> usize
    ensures { IsPlace 0 1 tuple.now result }
{
    match tuple {
        Some(_) => LIVE_PLACE,
        None => NO_PLACE,
    }
}

// The place of the bin of a tuple, where there is one.
#[inline(always)]
fn bin_place(column: Column, tuple: &Option<Tuple>) -> usize
    ensures { IsPlace (first_place column) (bin_count column) tuple.now result }
{
    match tuple {
        Some(tuple) => first_place(column) + usize::from(bin_of(column, tuple)),
        None => NO_PLACE,
    }
}

/// The place of the list of a unit.
pub(crate) fn place_of(unit: Unit) -> usize
    requires { IsBitUnit unit }
    ensures value { result ≡ bit_place unit }
    ensures within { result < 151 }
{
    match unit {
        Unit::Live => LIVE_PLACE,
        Unit::Bin(column, bin) => first_place(column) + usize::from(bin),
        Unit::Page(_) | Unit::Keys(_) => unreachable!(),
    }
}

// The place of a column's first bin.
fn first_place(column: Column) -> usize
    ensures { result ≡ first_place column }
{
    match column {
        Column::Ship => 1,
        Column::Disc => 85,
        Column::Qty => 96,
        Column::Flag => 146,
        Column::Status => 149,
    }
}
