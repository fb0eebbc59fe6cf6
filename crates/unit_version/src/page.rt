//! Pages of tuples.
ghost use Rattle.std.specs.Prelude.{◌≡◌, ◌+◌, ◌*◌, ◌<◌, ◌≤◌, List, length, map, slice_get, Some, IfOk};
ghost use Rattle.std.specs.List.Sorted.{IsStrictlyIncreasing};
ghost use Rattle.cubit_base.specs.Table.{Row};
ghost use Rattle.cubit_base.specs.History.{after, IsHistory};
ghost use Rattle.cubit_base.specs.declared.delta.Delta.{Delta};
ghost use Rattle.cubit_base.specs.LiveRow.{tuple_at};
ghost use Rattle.cubit_base.specs.declared.table.TheConstants.{ROW_LIMIT};
ghost use Rattle.unit_version.specs.Changes.{AreHeldThen, AreRowChanges};
ghost use Rattle.unit_version.specs.Content.{tuples_from};

use crate::Memory;
use crate::changes::{RowChange, first_from};
use crate::packed::Slot;
use cubit_base::laws::rows;
use cubit_base::{Steps, Table, Tuple};
use fence_window::PAGE_ROWS;
use std::alloc::Global;
use std::marker::Model;
use std::sync::ledger::Ledger;

/// The tuples of 3,968 rows, in a word each; contracts see, for each row, its tuple or none.
#[derive(Drop)]
pub struct Page {
    slots: Vec<Slot>,
}

impl Model for Page {
    ghost use Rattle.std.specs.Prelude.{◌≡◌, List, Option, length};
    ghost use Rattle.cubit_base.specs.Tuple.{TupleValue};

    ghost Value = { List (Option TupleValue) };

    ghost view = { λ p. p.slots.items };

    ghost invariant = { λ p. length p.slots.items ≡ 3_968 };
}

impl Page {
    /// The tuple of the row at this place of the page, or none where the row is not live and past the last row. It
    /// counts one read whatever it answers, and is the only way from a page to a tuple.
    pub fn get<N: Ledger>(&self, at: u16, reads: &mut Steps<N>) -> Option<Tuple>
        requires { at < 3_968 }
        ensures value { slice_get self.now at ≡ Some result }
        ensures reads { reads.new ≡ reads.old + 1 }
    {
        reads.tick(1);
        self.slots[usize::from(at)].tuple()
    }

    /// The page with this number after changes of rows. It takes a copy of the words, and a step for each change of it.
    pub(crate) fn patched(
        &self,
        alloc: Global,
        page: u32,
        changes: &[RowChange],
    ) -> Result<Page, Memory>
        requires page { 3_968 * page ≤ ROW_LIMIT }
        requires rising { IsStrictlyIncreasing (map (λ c. c.row) changes.now) }
        ensures { IfOk result (λ p. (table : List Row) (deltas : List Delta) → IsHistory ROW_LIMIT table deltas
            → AreRowChanges deltas changes.now → self.now ≡ tuples_from table (3_968 * page) 3_968
            → p ≡ tuples_from (after table deltas) (3_968 * page) 3_968) }
    {
        rows();
        let mut slots = Vec::with_capacity(alloc, PAGE_ROWS as usize)?;
        slots.extend_from_slice(&self.slots)?;
        write_changes(&mut slots, PAGE_ROWS * page, changes);
        Ok(Page { slots })
    }

    /// The page with this number of a table's rows.
    pub(crate) fn of_table(alloc: Global, table: &Table, page: u32) -> Result<Page, Memory>
        requires { 3_968 * page ≤ ROW_LIMIT }
        ensures { IfOk result (λ p. p ≡ tuples_from table.now (3_968 * page) 3_968) }
    {
        let mut slots = Vec::with_capacity(alloc, PAGE_ROWS as usize)?;
        let first = PAGE_ROWS * page;
        for at in 0..PAGE_ROWS {
            slots.push(slot_of(table, first + at))?;
        }
        Ok(Page { slots })
    }
}

// Writes what the rows from one on hold after the changes of them.
fn write_changes(slots: &mut Vec<Slot>, first: u32, changes: &[RowChange])
    requires long { length slots.old.items ≡ 3_968 }
    requires first { first ≤ ROW_LIMIT }
    requires rising { IsStrictlyIncreasing (map (λ c. c.row) changes.now) }
    ensures { AreHeldThen first 3_968 changes.now slots.old.items slots.new.items }
{
    let from = first_from(changes, first);
    let to = first_from(changes, first + PAGE_ROWS);
    for k in from..to {
        let change = &changes[k];
        slots[(change.row - first) as usize] = change.after;
    }
}

// The tuple of a row, or none.
#[inline(always)]
fn slot_of(table: &Table, row: u32) -> Slot
    ensures { result ≡ tuple_at table.now row }
{
    match table.row(row) {
        Some((_, tuple)) => Slot::new(&tuple),
        None => Slot::new(&None),
    }
}
