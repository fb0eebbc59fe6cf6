//! How many rows of words are true.
ghost use Rattle.std.specs.Prelude.{◌≡◌, ◌<◌, ◌≤◌, ◌*◌, ◌^◌, [], ◌∷◌, count_ones};
ghost use Rattle.wah_words.specs.Group.{unpacked};
ghost use Rattle.wah_words.specs.Rows.{true_count};
ghost use Rattle.wah_words.specs.Word.{groups, run_count, run_group};

use crate::run::{FALSE_FILL, GROUP_ROWS, Run, TRUE_FILL, is_literal};

/// How many rows of the words are true.
pub(crate) fn true_rows(words: &[u32]) -> u32
    requires { true_count (unpacked (groups words.now)) < 2 ^ 32 }
    ensures { result ≡ true_count (unpacked (groups words.now)) }
{
    let (pairs, rest) = words.as_chunks::<2>();
    let mut total = 0;
    for [low, high] in pairs {
        total += true_rows_of_pair(*low, *high);
    }
    // A fill of no groups stands beside a word that has no other.
    match rest {
        [last] => total + true_rows_of_pair(*last, FALSE_FILL),
        _ => total,
    }
}

// How many rows of two words are true.
fn true_rows_of_pair(low: u32, high: u32) -> u32
    requires { true_count (unpacked (groups (low ∷ high ∷ []))) < 2 ^ 32 }
    ensures { result ≡ true_count (unpacked (groups (low ∷ high ∷ []))) }
{
    // One count of 64 bits takes both words where they are literals. Two counts of 32 bits would be
    // made by shuffles of bytes, which takes longer.
    let literals = literal_group(low) | (literal_group(high) << 32);
    literals.count_ones() + true_rows_of_fill(low) + true_rows_of_fill(high)
}

// The group of a literal, and none of the rows of a fill.
fn literal_group(word: u32) -> u64
    ensures within { result < 2 ^ 31 }
    ensures literal { word < 2 ^ 31 → result ≡ word }
    ensures fill { 2 ^ 31 ≤ word → result ≡ 0 }
{
    if is_literal(word) { u64::from(word) } else { 0 }
}

// How many rows of a fill are true, and 0 for a literal.
fn true_rows_of_fill(word: u32) -> u32
    requires { count_ones (run_group word) * run_count word < 2 ^ 32 }
    ensures literal { word < 2 ^ 31 → result ≡ 0 }
    ensures fill { 2 ^ 31 ≤ word → result ≡ count_ones (run_group word) * run_count word }
{
    if word < TRUE_FILL {
        return 0;
    }
    GROUP_ROWS * Run::of_word(word).count
}
