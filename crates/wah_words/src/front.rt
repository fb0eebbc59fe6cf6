//! How many words from the front have no more than so many groups.
//!
//! Words are measured by spans: one test tells that all words of a span are literals, which have a group each.
ghost use Rattle.std.specs.Prelude.{ℕ, ◌≡◌, ◌<◌, ◌+◌, ◌^◌, IsTrue, length, slice_index};
ghost use Rattle.wah_words.specs.Word.{groups as groups_of, run_count};
ghost use Rattle.wah_words.specs.Front.{IsFront};

use crate::run::{Run, is_literal};

// The words that are measured at a time.
const SPAN_WORDS: usize = 32;

const _: () = prove!(SPAN_WORDS == 32);

/// Words from the front of others: how many they are, and how many groups they have.
#[derive(Clone, Copy)]
pub struct Front {
    pub words: usize,
    pub groups: u32,
}

/// Words from the front that have no more than so many groups together, and with the next one have more. It takes a
/// step for each 32 literals, and for each other word.
pub fn front_within(words: &[u32], most: u32) -> Front
    ensures front { IsFront words.now most result.words result.groups }
    ensures longest { result.words < length words.now →
        most < result.groups + run_count (slice_index words.now result.words) }
{
    let spans = spans_within(words, most);
    let mut groups = spans.groups;
    for at in spans.words..words.len() {
        let count = Run::of_word(words[at]).count;
        if count > most - groups {
            return Front { words: at, groups };
        }
        groups += count;
    }
    Front {
        words: words.len(),
        groups,
    }
}

// The same by whole spans alone.
fn spans_within(words: &[u32], most: u32) -> Front
    ensures { IsFront words.now most result.words result.groups }
{
    let mut at = 0;
    let mut groups = 0;
    let mut rest = words;
    for _ in 0..words.len() {
        // Each word has a group.
        if most - groups < SPAN_WORDS as u32 {
            break;
        }
        let Some((span, after)) = rest.split_first_chunk::<SPAN_WORDS>() else {
            break;
        };
        let more = span_groups(span);
        if more > u64::from(most - groups) {
            break;
        }
        groups += more as u32;
        at += SPAN_WORDS;
        rest = after;
    }
    Front { words: at, groups }
}

// How many groups a span has.
#[inline(always)]
fn span_groups(span: &[u32; SPAN_WORDS]) -> u64
    ensures { result ≡ length (groups_of span.now) }
{
    if are_literals(span) {
        return SPAN_WORDS as u64;
    }
    let mut groups = 0u64;
    for word in span {
        groups += u64::from(Run::of_word(*word).count);
    }
    groups
}

// Whether all words of a span are literals.
#[inline(always)]
fn are_literals(span: &[u32; SPAN_WORDS]) -> bool
    ensures { IsTrue result → (k : ℕ) → k < length span.now → slice_index span.now k < 2 ^ 31 }
{
    let mut bits = 0;
    for word in span {
        bits |= *word;
    }
    is_literal(bits)
}
