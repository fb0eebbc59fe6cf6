//! The keys that deltas change.
ghost use Rattle.std.specs.Prelude.{ℕ, ◌≡◌, ◌<◌, ◌^◌, IfOk, OnOk, [], ◌∷◌, ◌++◌, List, All, length};
ghost use Rattle.cubit_base.specs.declared.delta.Delta.{Delta};
ghost use Rattle.unit_version.specs.Changes.{AreKeyChanges, AreKeyed, AreKeyTags, IsKeyChange, key_number};
ghost use Rattle.unit_version.specs.Span.{AreTags};

use super::span::{Span, spans_of, tag_of};
use crate::Memory;
use crate::keys::{KEY_PAGES, code_of, rest_of};
use crate::packed::Slot;
use cubit_base::Delta;
use std::alloc::Global;

/// The row and the tuple, or none, that the last delta of a key leaves.
#[derive(Drop)]
pub(crate) struct KeyChange {
    /// The key within its page.
    pub(crate) code: u32,
    pub(crate) row: u32,
    pub(crate) after: Slot,
}

const _: () = prove!(size_of::<KeyChange>() == 16);

/// For each key page the keys that deltas change, in rising order of codes.
pub(crate) fn key_changes(alloc: Global, deltas: &[Delta]) -> Result<Vec<Vec<KeyChange>>, Memory>
    requires { length deltas.now < 2 ^ 32 }
    ensures { IfOk result (λ lists. AreKeyed deltas.now lists.items) }
{
    let mut tags = key_tags(alloc, deltas)?;
    let mut lists = Vec::with_capacity(alloc, usize::from(KEY_PAGES))?;
    for rest in 0..KEY_PAGES {
        let own = tags.remove(0);
        lists.push(page_changes(alloc, rest, deltas, own)?)?;
    }
    Ok(lists)
}

// The keys of a page that deltas change, by the tags of the deltas.
fn page_changes(
    alloc: Global,
    rest: u8,
    deltas: &[Delta],
    tags: Vec<u64>,
) -> Result<Vec<KeyChange>, Memory>
    requires few { length deltas.now < 2 ^ 32 }
    requires lines { All (λ d. d.key.line < 8) deltas.now }
    requires tags { AreTags (key_number rest) deltas.now tags.items }
    ensures { IfOk result (λ changes. AreKeyChanges rest deltas.now changes.items) }
{
    let spans = spans_of(alloc, tags)?;
    let mut changes = Vec::with_capacity(alloc, spans.len())?;
    for span in &spans {
        changes.push(key_change(deltas, span))?;
    }
    Ok(changes)
}

// What the deltas of a key come to.
#[inline(always)]
fn key_change(deltas: &[Delta], span: &Span) -> KeyChange
    requires { span.now.last < length deltas.now }
    ensures { IsKeyChange deltas.now span.now result }
{
    let delta = &deltas[span.last as usize];
    KeyChange {
        code: span.number,
        row: delta.row,
        after: Slot::new(&delta.after),
    }
}

// For each key page the codes of its deltas, each with the delta's place.
fn key_tags(alloc: Global, deltas: &[Delta]) -> Result<Vec<Vec<u64>>, Memory>
    requires { length deltas.now < 2 ^ 32 }
    ensures { IfOk result (λ lists. AreKeyTags deltas.now lists.items) }
{
    let mut lists = empty_lists(alloc)?;
    for (place, delta) in deltas.iter().enumerate() {
        add(&mut lists, delta, place as u32)?;
    }
    Ok(lists)
}

// Goes on by the next delta.
#[inline(always)]
fn add(lists: &mut Vec<Vec<u64>>, delta: &Delta, place: u32) -> Result<(), Memory>
    requires { length lists.old.items ≡ 64 }
    ensures { OnOk result ((deltas : List Delta) → length deltas ≡ place → AreKeyTags deltas lists.old.items
        → AreKeyTags (deltas ++ delta.now ∷ []) lists.new.items) }
{
    let list = &mut lists[usize::from(rest_of(&delta.key))];
    list.push(tag_of(code_of(&delta.key), place))?;
    Ok(())
}

// A list with nothing in it for each key page.
fn empty_lists(alloc: Global) -> Result<Vec<Vec<u64>>, Memory>
    ensures { IfOk result (λ lists. AreKeyTags [] lists.items) }
{
    let mut lists = Vec::with_capacity(alloc, usize::from(KEY_PAGES))?;
    for _page in 0..KEY_PAGES {
        lists.push(Vec::new(alloc))?;
    }
    Ok(lists)
}
