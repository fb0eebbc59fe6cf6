//! A unit carried from one prefix of a history to a longer one.
ghost use Rattle.std.specs.Prelude.{IfOk};
ghost use Rattle.unit_version.specs.Patch.{IsSomeUnit, CanPatch, IsPatched};

use crate::{Changes, Content, Memory, Unit};
use cubit_base::DeltaList;
use cubit_base::laws::rows;
use std::alloc::Global;
use wah_words::laws::toggles;

/// What the unit holds after the deltas, given what it holds before them, the number of rows before them, and that
/// after them. Without memory all that was lent is as it was.
pub fn patched(
    alloc: Global,
    unit: Unit,
    content: &Content,
    rows_before: u32,
    deltas: &DeltaList,
    rows_after: u32,
) -> Result<Content, Memory>
    requires some { IsSomeUnit unit }
    requires can { CanPatch (record {
      unit = unit;
      content = content.now;
      rows_before = rows_before;
      deltas = deltas.now;
      rows_then = rows_after;
    }) }
    ensures { IfOk result (IsPatched (record {
      unit = unit;
      content = content.now;
      rows_before = rows_before;
      deltas = deltas.now;
      rows_then = rows_after;
    })) }
{
    let changes = Changes::of(alloc, deltas)?;
    patched_by(alloc, unit, content, rows_before, &changes, rows_after)
}

/// As [`patched`], by what the deltas change, which serves all units.
pub fn patched_by(
    alloc: Global,
    unit: Unit,
    content: &Content,
    rows_before: u32,
    changes: &Changes,
    rows_after: u32,
) -> Result<Content, Memory>
    requires some { IsSomeUnit unit }
    requires can { CanPatch (record {
      unit = unit;
      content = content.now;
      rows_before = rows_before;
      deltas = changes.now;
      rows_then = rows_after;
    }) }
    ensures { IfOk result (IsPatched (record {
      unit = unit;
      content = content.now;
      rows_before = rows_before;
      deltas = changes.now;
      rows_then = rows_after;
    })) }
{
    rows();
    toggles();
    match (unit, content) {
        (Unit::Live, Content::Bits(bits)) => {
            let turned = changes.turned_in(unit);
            Ok(Content::Bits(bits.toggled(alloc, turned, rows_after)?))
        }
        (Unit::Bin(_, _), Content::Bits(bits)) => {
            let turned = changes.turned_in(unit);
            Ok(Content::Bits(bits.toggled(alloc, turned, rows_after)?))
        }
        (Unit::Page(page), Content::Page(tuples)) => {
            let tuples = tuples.patched(alloc, page, changes.rows())?;
            Ok(Content::Page(tuples))
        }
        (Unit::Keys(rest), Content::Keys(keys)) => {
            let changed = changes.keys_of(rest);
            Ok(Content::Keys(keys.patched(alloc, rest, changed)?))
        }
        _ => unreachable!(),
    }
}
