//! The groups of a list that is true at a few places.
ghost use Rattle.std.specs.Prelude.{ℕ, ◌≡◌, ◌<◌, ◌+◌, ◌^◌, ◌++◌, ◌↔◌, All, Contains, IfOk, IsTrue, false, length, slice_index_or};
ghost use Rattle.std.specs.List.Sorted.{IsStrictlyIncreasing};
ghost use Rattle.wah_words.specs.Group.{group_count as groups_for, group_rows, unpacked};

use crate::Memory;
use crate::builder::Builder;
use crate::run::{GROUP_ROWS, group_count};
use std::alloc::Global;

/// The groups of so many rows that are true at these places alone.
pub(crate) fn groups_of_places(alloc: Global, places: &[u32], rows: u32) -> Result<Builder, Memory>
    requires rising { IsStrictlyIncreasing places.now }
    requires below { All (λ place. place < rows) places.now }
    ensures size { IfOk result (λ out. length out ≡ groups_for rows) }
    ensures places { IfOk result (λ out. (row : ℕ) →
        IsTrue (slice_index_or (unpacked out) row false) ↔ Contains places.now row) }
{
    let groups = group_count(rows);
    // A place takes a literal, and at most one fill before it.
    let words = places.len().saturating_mul(2).saturating_add(1);
    let mut out = Builder::with_capacity(alloc, words.min(groups as usize))?;
    let mut group = 0;
    let mut index = 0;
    for place in places {
        group = advance(&mut out, group, *place / GROUP_ROWS - index)?;
        index = *place / GROUP_ROWS;
        group |= 1u32 << (*place % GROUP_ROWS);
    }
    advance(&mut out, group, groups - index)?;
    Ok(out)
}

// Goes on by so many groups from the one under way, and gives the one that is under way then.
fn advance(out: &mut Builder, group: u32, count: u32) -> Result<u32, Memory>
    requires within { group < 2 ^ 31 }
    requires room { length out.old + count < 2 ^ 30 }
    ensures within { IfOk result (λ next. next < 2 ^ 31) }
    ensures size { IfOk result (λ next. length out.new ≡ length out.old + count) }
    ensures kept { IfOk result (λ next. count ≡ 0 → next ≡ group) }
    ensures ended { IfOk result (λ next. 0 < count → next ≡ 0) }
    ensures rows { IfOk result (λ next. (row : ℕ) →
        slice_index_or (unpacked out.new ++ group_rows next) row false
        ≡ slice_index_or (unpacked out.old ++ group_rows group) row false) }
{
    if count == 0 {
        return Ok(group);
    }
    out.push_group(group)?;
    out.push_false(count - 1)?;
    Ok(0)
}
