//! The rows that deltas change.
ghost use Rattle.std.specs.Prelude.{◌<◌, ◌^◌, IfOk, length, map};
ghost use Rattle.std.specs.List.Sorted.{IsStrictlyIncreasing};
ghost use Rattle.unit_version.specs.Changes.{AreRowChanges, IsPlaceOf, IsRowChange, row_number};
ghost use Rattle.unit_version.specs.Span.{AreTags};

use super::span::{Span, spans_of, tag_of};
use crate::Memory;
use crate::packed::Slot;
use cubit_base::Delta;
use std::alloc::Global;

/// What a row holds before deltas and after them.
#[derive(Drop)]
pub(crate) struct RowChange {
    pub(crate) row: u32,
    pub(crate) before: Slot,
    pub(crate) after: Slot,
}

const _: () = prove!(size_of::<RowChange>() == 24);

/// The rows that deltas change, rising.
pub(crate) fn row_changes(alloc: Global, deltas: &[Delta]) -> Result<Vec<RowChange>, Memory>
    requires { length deltas.now < 2 ^ 32 }
    ensures { IfOk result (λ changes. AreRowChanges deltas.now changes.items) }
{
    let spans = spans_of(alloc, row_tags(alloc, deltas)?)?;
    let mut changes = Vec::with_capacity(alloc, spans.len())?;
    for span in &spans {
        changes.push(row_change(deltas, span))?;
    }
    Ok(changes)
}

// What the deltas of a row come to.
#[inline(always)]
fn row_change(deltas: &[Delta], span: &Span) -> RowChange
    requires first { span.now.first < length deltas.now }
    requires last { span.now.last < length deltas.now }
    ensures { IsRowChange deltas.now span.now result }
{
    RowChange {
        row: span.number,
        before: Slot::new(&deltas[span.first as usize].before),
        after: Slot::new(&deltas[span.last as usize].after),
    }
}

// The row of each delta, with its place.
fn row_tags(alloc: Global, deltas: &[Delta]) -> Result<Vec<u64>, Memory>
    requires { length deltas.now < 2 ^ 32 }
    ensures { IfOk result (λ tags. AreTags row_number deltas.now tags.items) }
{
    let mut tags = Vec::with_capacity(alloc, deltas.len())?;
    for (place, delta) in deltas.iter().enumerate() {
        tags.push(tag_of(delta.row, place as u32))?;
    }
    Ok(tags)
}

/// How many of the changes are of rows before this one.
pub(crate) fn first_from(changes: &[RowChange], row: u32) -> usize
    requires { IsStrictlyIncreasing (map (λ c. c.row) changes.now) }
    ensures { IsPlaceOf row changes.now result }
{
    let mut from = 0;
    let mut to = changes.len();
    while from < to {
        let middle = from + (to - from) / 2;
        if changes[middle].row < row {
            from = middle + 1;
        } else {
            to = middle;
        }
    }
    from
}
