//! The groups of a list with the rows at a few places turned.
//!
//! Between the groups that have such a place all groups go over as they are, so that the time is that of a copy of
//! the words and a step for each place.
ghost use Rattle.std.specs.Prelude.{◌≡◌, ◌<◌, ◌≤◌, ◌+◌, ◌^◌, All, IfOk, length};
ghost use Rattle.std.specs.List.Sorted.{IsStrictlyIncreasing};
ghost use Rattle.wah_words.specs.Group.{group_count as groups_for, unpacked};
ghost use Rattle.wah_words.specs.Rows.{IsToggled};
ghost use Rattle.wah_words.specs.Canonical.{IsCanonical, spelled_rows};
ghost use Rattle.wah_words.specs.Moves.{Moves, first_toggled};
ghost use Rattle.wah_words.specs.Source.{source_left};

use crate::Memory;
use crate::builder::Builder;
use crate::run::{GROUP_ROWS, group_count};
use crate::source::Source;
use std::alloc::Global;

/// The groups of words with the rows at these places turned, and with groups of false rows after them up to `rows`.
pub(crate) fn toggled(
    alloc: Global,
    words: &[u32],
    old_rows: u32,
    places: &[u32],
    rows: u32,
) -> Result<Builder, Memory>
    requires canonical { IsCanonical words.now old_rows }
    requires longer { old_rows ≤ rows }
    requires rising { IsStrictlyIncreasing places.now }
    requires below { All (λ place. place < rows) places.now }
    ensures size { IfOk result (λ out. length out ≡ groups_for rows) }
    ensures rows { IfOk result (λ out. IsToggled (spelled_rows words.now old_rows) places.now (unpacked out)) }
{
    let groups = group_count(rows);
    // A place in a fill parts it into two and a literal.
    let most = places
        .len()
        .saturating_mul(2)
        .saturating_add(words.len() + 1);
    let mut out = Builder::with_capacity(alloc, most.min(groups as usize))?;
    let mut source = Source::new(words, groups - group_count(old_rows));
    let mut mask = 0;
    let mut index = 0;
    for place in places {
        mask = advance(&mut source, &mut out, mask, *place / GROUP_ROWS - index)?;
        index = *place / GROUP_ROWS;
        mask ^= 1u32 << (*place % GROUP_ROWS);
    }
    advance(&mut source, &mut out, mask, groups - index)?;
    Ok(out)
}

// Goes on by so many groups from the one under way, whose rows in the mask are turned, and gives the mask of the one
// that is under way then.
fn advance(source: &mut Source, out: &mut Builder, mask: u32, count: u32) -> Result<u32, Memory>
    requires within { mask < 2 ^ 31 }
    requires enough { count ≤ length (source_left source.old) }
    requires room { length out.old + length (source_left source.old) < 2 ^ 30 }
    ensures within { IfOk result (λ next. next < 2 ^ 31) }
    ensures moved { IfOk result (λ next. Moves out.old (first_toggled mask (source_left source.old))
        out.new (first_toggled next (source_left source.new)) count) }
{
    if count == 0 {
        return Ok(mask);
    }
    source.move_toggled(out, mask)?;
    source.move_groups(out, count - 1)?;
    Ok(0)
}
