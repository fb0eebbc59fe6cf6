//! Two word lists walked together, run by run.
ghost use Rattle.std.specs.Prelude.{◌≡◌, ◌<◌, ◌+◌, ◌^◌, [], All, IfOk, IsTrue, OnOk, false, length};
ghost use Rattle.wah_words.specs.Group.{unpacked};
ghost use Rattle.wah_words.specs.Rows.{pointwise};
ghost use Rattle.wah_words.specs.Word.{groups as groups_of};
ghost use Rattle.wah_words.specs.Canonical.{IsCountedFill};
ghost use Rattle.wah_words.specs.Cursor.{groups_left};
ghost use Rattle.wah_words.specs.Walk.{Continues};

use crate::Memory;
use crate::block::{BLOCK_WORDS, literal_block};
use crate::builder::Builder;
use crate::cursor::Cursor;
use crate::operation::Operation;
use crate::run::Run;
use std::alloc::Global;

/// What the operation makes of the groups of two word lists, as many on each side. A step takes a run, so
/// a fill beside a fill costs the same whatever they count.
pub(crate) fn combined<O: Operation>(
    alloc: Global,
    a: &[u32],
    b: &[u32],
    groups: u32,
) -> Result<Builder, Memory>
    requires left { All IsCountedFill a.now }
    requires right { All IsCountedFill b.now }
    requires same { length (groups_of a.now) ≡ length (groups_of b.now) }
    requires room { length (groups_of a.now) < 2 ^ 30 }
    ensures { IfOk result (λ out. unpacked out
        ≡ pointwise O.of_rows (unpacked (groups_of a.now)) (unpacked (groups_of b.now))) }
{
    // Each run of the result ends a word on one side at least.
    let words = a.len() + b.len();
    let mut out = Builder::with_capacity(alloc, words.min(groups as usize))?;
    let mut left = Cursor::new(a);
    let mut right = Cursor::new(b);
    let mut step = 0u32;
    loop {
        push_blocks::<O>(&mut out, &mut left, &mut right, step)?;
        step = step.wrapping_add(1) % STEPS;
        if !push_step::<O>(&mut out, &mut left, &mut right)? {
            return Ok(out);
        }
    }
}

// How many steps go run by run before blocks are tried again. Where no block came, the next words hardly begin one.
const STEPS: u32 = 8;

// Goes on by blocks of literals, as many as come next on both sides, where the step is the first.
#[inline(always)]
fn push_blocks<O: Operation>(
    out: &mut Builder,
    left: &mut Cursor,
    right: &mut Cursor,
    step: u32,
) -> Result<(), Memory>
    requires { length (groups_left left.old) ≡ length (groups_left right.old) }
    ensures { OnOk result (Continues O.of_rows out.old (groups_left left.old) (groups_left right.old)
        out.new (groups_left left.new) (groups_left right.new)) }
{
    if step != 0 || left.run.count != 0 || right.run.count != 0 {
        return Ok(());
    }
    for _ in 0..left.words.len() {
        let Some((a, left_rest)) = left.words.split_first_chunk::<BLOCK_WORDS>() else {
            return Ok(());
        };
        let Some((b, right_rest)) = right.words.split_first_chunk::<BLOCK_WORDS>() else {
            return Ok(());
        };
        let Some(block) = literal_block::<O>(a, b) else {
            return Ok(());
        };
        out.push_literals(&block)?;
        left.words = left_rest;
        right.words = right_rest;
    }
    Ok(())
}

// Goes on by the run that both sides have, or answers false where no group is left.
#[inline(always)]
fn push_step<O: Operation>(
    out: &mut Builder,
    left: &mut Cursor,
    right: &mut Cursor,
) -> Result<bool, Memory>
    requires same { length (groups_left left.old) ≡ length (groups_left right.old) }
    requires room { length out.old + length (groups_left left.old) < 2 ^ 30 }
    ensures on { IfOk result (λ more. Continues O.of_rows out.old (groups_left left.old) (groups_left right.old)
        out.new (groups_left left.new) (groups_left right.new)) }
    ensures fewer { IfOk result (λ more. IsTrue more →
        length (groups_left left.new) < length (groups_left left.old)) }
    ensures end { IfOk result (λ more. more ≡ false → groups_left left.new ≡ []) }
{
    left.refill();
    right.refill();
    let count = left.run.count.min(right.run.count);
    if count == 0 {
        return Ok(false);
    }
    let group = O::of_groups(left.run.group, right.run.group);
    out.push_run(Run { group, count })?;
    left.skip(count);
    right.skip(count);
    Ok(true)
}
