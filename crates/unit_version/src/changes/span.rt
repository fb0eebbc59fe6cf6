//! Deltas of one row, or of one key, found by a sort of their numbers.
ghost use Rattle.std.specs.Prelude.{ℕ, ◌≡◌, ◌/◌, ◌%◌, ◌^◌, ◌≤◌, [], ◌∷◌, ◌++◌, List, All, IfOk, OnOk};
ghost use Rattle.unit_version.specs.Span.{AreSpans, tag_of};

use crate::Memory;
use std::alloc::Global;

/// The first and the last place that has a number.
#[derive(Drop)]
pub(crate) struct Span {
    pub(crate) number: u32,
    pub(crate) first: u32,
    pub(crate) last: u32,
}

/// A number and its place in one word, by which they are sorted.
#[inline(always)]
pub(crate) fn tag_of(number: u32, place: u32) -> u64
    ensures { result ≡ tag_of number place }
{
    (u64::from(number) << 32) | u64::from(place)
}

/// In rising order the numbers of tags, each with its first and its last place.
pub(crate) fn spans_of(alloc: Global, tags: Vec<u64>) -> Result<Vec<Span>, Memory>
    ensures { IfOk result (λ spans. AreSpans tags.items spans.items) }
{
    let mut tags = tags;
    tags.sort_unstable();
    let mut spans = Vec::with_capacity(alloc, tags.len())?;
    for tag in &tags {
        add(&mut spans, *tag)?;
    }
    Ok(spans)
}

// Goes on by the next tag.
#[inline(always)]
fn add(spans: &mut Vec<Span>, tag: u64) -> Result<(), Memory>
    ensures { OnOk result ((tags : List ℕ) → AreSpans tags spans.old.items → All (λ t. t ≤ tag) tags
        → AreSpans (tags ++ tag ∷ []) spans.new.items) }
{
    let number = number_in(tag);
    let place = place_in(tag);
    let len = spans.len();
    if len != 0 && spans[len - 1].number == number {
        spans[len - 1].last = place;
        return Ok(());
    }
    spans.push(Span {
        number,
        first: place,
        last: place,
    })?;
    Ok(())
}

// The number of a tag.
#[inline(always)]
fn number_in(tag: u64) -> u32
    ensures { result ≡ tag / 2 ^ 32 }
{
    (tag >> 32) as u32
}

// The place of a tag.
#[inline(always)]
fn place_in(tag: u64) -> u32
    ensures { result ≡ tag % 2 ^ 32 }
{
    (tag & 0xffff_ffff) as u32
}
