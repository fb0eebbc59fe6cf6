//! Literals beside literals, a block of words at a time and with no branch for a word.
ghost use Rattle.std.specs.Prelude.{◌≡◌, ◌<◌, ◌^◌, IfSome, IsTrue};
ghost use Rattle.wah_words.specs.Walk.{IsBlock, IsMade};

use crate::operation::Operation;
use crate::run::{ALL_TRUE, is_literal};

/// The words of a block.
pub(crate) const BLOCK_WORDS: usize = 8;

/// What the operation makes of each two words, where all are literals and what it makes may stand as literals.
#[inline(always)]
pub(crate) fn literal_block<O: Operation>(
    a: &[u32; BLOCK_WORDS],
    b: &[u32; BLOCK_WORDS],
) -> Option<[u32; BLOCK_WORDS]>
    ensures { IfSome result (λ block. IsBlock O.of_rows a.now b.now block) }
{
    let mut block = [0; BLOCK_WORDS];
    let mut all_made = true;
    for i in 0..BLOCK_WORDS {
        let (group, is_made) = made::<O>(a[i], b[i]);
        block[i] = group;
        all_made &= is_made;
    }
    if all_made { Some(block) } else { None }
}

// What the operation makes of two words, and whether they are literals and it may stand as one. The masks change no
// literal; they let the operation go before the tests, so that no branch is taken.
#[inline(always)]
fn made<O: Operation>(a: u32, b: u32) -> (u32, bool)
    ensures { IsTrue result.1 → IsMade O.of_rows a b result.0 }
{
    let group = O::of_groups(a & ALL_TRUE, b & ALL_TRUE);
    (
        group,
        is_literal(a) && is_literal(b) && 0 < group && group < ALL_TRUE,
    )
}
