//! Places in words.
ghost use Rattle.std.specs.Prelude.{◌≡◌, ◌+◌, ◌<◌, ◌≤◌, ◌^◌, IsTrue, All, drop, length, replicate, slice_index};
ghost use Rattle.wah_words.specs.Word.{groups, run_count, run_group, word_groups};
ghost use Rattle.wah_words.specs.Place.{groups_from};
ghost use Rattle.fence_window.specs.Ors.{OrsFrom, OrsAt};

use wah_words::{Place, Run, TRUE_FILL, front_within, is_literal};

/// The place so many groups further on, or the end of the words.
pub(crate) fn advanced(words: &[u32], place: Place, groups: u32) -> Place
    requires { place.skipped + groups < 2 ^ 32 }
    ensures rest { groups_from words.now result ≡ drop groups (groups_from words.now place) }
    ensures inside { result.skipped < run_count (slice_index words.now result.word) }
    ensures few { result.skipped < 2 ^ 30 }
{
    let end = Place {
        word: words.len(),
        skipped: 0,
    };
    if place.word >= words.len() {
        return end;
    }
    let wanted = place.skipped + groups;
    // A long fill holds whole pages.
    if wanted < Run::of_word(words[place.word]).count {
        return Place {
            word: place.word,
            skipped: wanted,
        };
    }
    let front = front_within(&words[place.word..], wanted);
    let word = place.word + front.words;
    if word == words.len() {
        return end;
    }
    Place {
        word,
        skipped: wanted - front.groups,
    }
}

// The words that are taken together where all are literals.
const BLOCK_WORDS: usize = 8;

/// Puts the groups from a place on into numbers, by or, as far as there is room; behind the last group nothing changes.
/// It takes least time where the words of these groups end at `end`.
#[inline(always)]
pub(crate) fn or_groups(words: &[u32], place: Place, end: usize, out: &mut [u32])
    requires { place.skipped ≤ run_count (slice_index words.now place.word) }
    ensures { OrsFrom out.old out.new (groups_from words.now place) }
{
    if place.word >= words.len() {
        return;
    }
    let run = Run::of_word(words[place.word]);
    let at = or_run(out, 0, run.group, run.count - place.skipped);
    let rest = &words[place.word + 1..];
    or_words(out, at, rest, end.saturating_sub(place.word + 1));
}

// The same for the groups of words, from a number on, of which so many are likely to be read. A first pass over these
// counts the fills: where there are few, literals go by blocks. It also brings the words near at full speed, which one
// word after another does not: they come from far memory, and there are many lists.
#[inline(always)]
fn or_words(out: &mut [u32], from: usize, words: &[u32], near: usize)
    ensures { OrsAt out.old out.new from (groups words.now) }
{
    let near = near.min(words.len());
    if fill_count(&words[..near]) < near / BLOCK_WORDS {
        or_blocks(out, from, words);
        return;
    }
    or_one_by_one(out, from, words);
}

// How many words are fills.
#[inline(always)]
fn fill_count(words: &[u32]) -> usize {
    let mut count = 0u32;
    for word in words {
        count = count.wrapping_add(*word >> 31);
    }
    count as usize
}

// The same word by word. A list with many fills has few blocks that are literals alone, and a test for each is lost.
#[inline(always)]
fn or_one_by_one(out: &mut [u32], from: usize, words: &[u32])
    ensures { OrsAt out.old out.new from (groups words.now) }
{
    let mut at = from;
    for word in words {
        if at >= out.len() {
            return;
        }
        at = or_word(out, at, *word);
    }
}

// The same by blocks.
#[inline(always)]
fn or_blocks(out: &mut [u32], from: usize, words: &[u32])
    ensures { OrsAt out.old out.new from (groups words.now) }
{
    let mut at = from;
    let (blocks, rest) = words.as_chunks::<BLOCK_WORDS>();
    for block in blocks {
        if at >= out.len() {
            return;
        }
        at = or_block(out, at, block);
    }
    if at < out.len() {
        or_each(out, at, rest);
    }
}

// The same for the words of a block, and gives the place behind their groups.
#[inline(always)]
fn or_block(out: &mut [u32], at: usize, block: &[u32; BLOCK_WORDS]) -> usize
    requires { at < length out.old }
    ensures end { result ≡ at + length (groups block.now) }
    ensures part { OrsAt out.old out.new at (groups block.now) }
{
    if at + BLOCK_WORDS <= out.len() && are_literals(block) {
        or_literals(out, at, block);
        return at + BLOCK_WORDS;
    }
    or_each(out, at, block)
}

// Whether each word of a block is one group as it stands.
#[inline(always)]
fn are_literals(block: &[u32; BLOCK_WORDS]) -> bool
    ensures { IsTrue result → All (λ word. word < 2 ^ 31) block.now }
{
    let mut all = true;
    for word in block {
        all &= is_literal(*word);
    }
    all
}

// The groups of a block, as far as there are numbers: the same for all.
#[inline(always)]
fn or_literals(out: &mut [u32], at: usize, block: &[u32; BLOCK_WORDS])
    requires { at + 8 ≤ length out.old }
    ensures { OrsAt out.old out.new at block.now }
{
    for i in 0..BLOCK_WORDS {
        out[at + i] |= block[i];
    }
}

// The same for a few words, one after another.
#[inline(always)]
fn or_each(out: &mut [u32], from: usize, words: &[u32]) -> usize
    requires near { from < length out.old }
    requires few { length words.now ≤ 8 }
    ensures end { result ≡ from + length (groups words.now) }
    ensures part { OrsAt out.old out.new from (groups words.now) }
{
    let mut at = from;
    for word in words {
        at = or_word(out, at, *word);
    }
    at
}

// The same for one word. A literal and a fill of false rows, as most words are, go without a branch but that for the
// end of the numbers.
#[inline(always)]
fn or_word(out: &mut [u32], at: usize, word: u32) -> usize
    requires { at < 2 ^ 63 }
    ensures end { result ≡ at + run_count word }
    ensures near { result ≤ at + 2 ^ 30 }
    ensures part { OrsAt out.old out.new at (word_groups word) }
{
    let run = Run::of_word(word);
    if word >= TRUE_FILL {
        return or_run(out, at, run.group, run.count);
    }
    if at < out.len() {
        out[at] |= run.group;
    }
    at + run.count as usize
}

// The same for so many groups of one value.
fn or_run(out: &mut [u32], at: usize, group: u32, count: u32) -> usize
    requires { at < 2 ^ 63 }
    ensures end { result ≡ at + count }
    ensures part { OrsAt out.old out.new at (replicate count group) }
{
    let end = at + count as usize;
    for i in at..end.min(out.len()) {
        out[i] |= group;
    }
    end
}
