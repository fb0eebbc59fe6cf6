//! Groups of other words that go behind open words as they lie.
//!
//! The run that the groups begin in may join the one under way, and the last may be under way behind them. The words
//! between go over in one copy, and the starts of their pages by one distance.
ghost use Rattle.std.specs.Prelude.{ℕ, ◌≡◌, ◌<◌, ◌≤◌, ◌+◌, ◌-◌, ◌%◌, ◌^◌, [], ◌∷◌, ◌++◌, All, IfOk, OnOk, length, map, replicate, slice_index};
ghost use Rattle.wah_words.specs.Canonical.{AreApart, AreRuns};
ghost use Rattle.wah_words.specs.Pages.{IsUnderway, underway};
ghost use Rattle.wah_words.specs.Place.{IsAfter};
ghost use Rattle.wah_words.specs.Stretch.{Extends, Lies, groups_between, moved};
ghost use Rattle.wah_words.specs.Word.{groups, run_count, run_group};

use crate::Memory;
use crate::pages::close;
use crate::place::Place;
use crate::run::{ALL_TRUE, COUNT_BITS, Run, fill_word, is_literal, joins};

/// The same place, at the front of the next run where it is behind one.
pub(crate) fn settled(words: &[u32], place: Place) -> Place
    requires { AreRuns words.now }
    ensures after { (before : ℕ) → IsAfter words.now before place → IsAfter words.now before result }
    ensures inside { (before : ℕ) → IsAfter words.now before place → before < length (groups words.now) →
        result.skipped < run_count (slice_index words.now result.word) }
{
    if place.word < words.len() && place.skipped == Run::of_word(words[place.word]).count {
        return Place {
            word: place.word + 1,
            skipped: 0,
        };
    }
    place
}

/// Puts a run behind open words, and gives the run under way then.
pub(crate) fn push_run(words: &mut Vec<u32>, run: u32, more: Run) -> Result<u32, Memory>
    requires fill { IsUnderway run }
    requires some { 1 ≤ more.count }
    requires room { run % 2 ^ 30 + more.count < 2 ^ 30 }
    ensures extends { IfOk result (λ next. Extends words.old.items run (replicate more.count more.group)
        words.new.items next) }
    ensures group { IfOk result (λ next. 0 < next → run_group next ≡ more.group) }
{
    match more.group {
        0 => push_fill(words, run, fill_word(false, more.count)),
        ALL_TRUE => push_fill(words, run, fill_word(true, more.count)),
        _ => push_literal(words, run, more),
    }
}

// The same for a group whose rows differ.
fn push_literal(words: &mut Vec<u32>, run: u32, literal: Run) -> Result<u32, Memory>
    requires one { literal.count ≡ 1 }
    requires some_true { 0 < literal.group }
    requires some_false { literal.group < 2 ^ 31 - 1 }
    ensures extends { IfOk result (λ next. Extends words.old.items run (replicate literal.count literal.group)
        words.new.items next) }
    ensures none { IfOk result (λ next. next ≡ 0) }
{
    close(words, run)?;
    words.push(literal.group)?;
    Ok(0)
}

// The same for a fill, which joins the run under way where both have one value.
fn push_fill(words: &mut Vec<u32>, run: u32, fill: u32) -> Result<u32, Memory>
    requires fill { IsUnderway run }
    requires above { 2 ^ 31 ≤ fill }
    requires some { 1 ≤ run_count fill }
    requires room { run % 2 ^ 30 + run_count fill < 2 ^ 30 }
    ensures extends { IfOk result (λ next. Extends words.old.items run (replicate (run_count fill) (run_group fill))
        words.new.items next) }
    ensures group { IfOk result (λ next. run_group next ≡ run_group fill) }
{
    if joins(run, fill) {
        return Ok(run + (fill & COUNT_BITS));
    }
    push_apart(words, run, fill)
}

// The same for a fill that does not join the run under way.
fn push_apart(words: &mut Vec<u32>, run: u32, fill: u32) -> Result<u32, Memory>
    requires above { 2 ^ 31 ≤ fill }
    requires some { 1 ≤ run_count fill }
    requires apart { AreApart run fill }
    ensures extends { IfOk result (λ next. Extends words.old.items run (replicate (run_count fill) (run_group fill))
        words.new.items next) }
    ensures fill { IfOk result (λ next. next ≡ fill) }
    ensures whole { IfOk result (λ next.
        words.new.items ++ underway next ≡ (words.old.items ++ underway run) ++ fill ∷ []) }
{
    close(words, run)?;
    Ok(fill)
}

/// Puts words behind open words, of which the first does not join the run under way, and gives the run under way then.
pub(crate) fn push_words(words: &mut Vec<u32>, run: u32, more: &[u32]) -> Result<u32, Memory>
    requires fill { IsUnderway run }
    requires runs { AreRuns more.now }
    requires apart { 0 < length more.now → AreApart run (slice_index more.now 0) }
    ensures extends { IfOk result (λ next. Extends words.old.items run (groups more.now) words.new.items next) }
    ensures whole { IfOk result (λ next.
        words.new.items ++ underway next ≡ (words.old.items ++ underway run) ++ more.now) }
    ensures last { IfOk result (λ next. 0 < length more.now → 0 < next →
        next ≡ slice_index more.now (length more.now - 1)) }
    ensures none { IfOk result (λ next. length more.now ≡ 0 → next ≡ run) }
{
    let Some((last, front)) = more.split_last() else {
        return Ok(run);
    };
    close(words, run)?;
    words.extend_from_slice(front)?;
    if is_literal(*last) {
        words.push(*last)?;
        return Ok(0);
    }
    Ok(*last)
}

/// Puts the groups of words between two places behind open words, and gives where the word behind the first run came
/// to lie, and the run under way then.
pub(crate) fn copy(
    out: &mut Vec<u32>,
    run: u32,
    words: &[u32],
    first: Place,
    last: Place,
) -> Result<(usize, u32), Memory>
    requires fill { IsUnderway run }
    requires runs { AreRuns words.now }
    requires room { length (groups words.now) < 2 ^ 30 }
    requires first { IsAfter words.now (length (groups (out.old.items ++ underway run))) first }
    requires order { first.word < last.word }
    requires within { last.word < length words.now }
    requires first_inside { first.skipped < run_count (slice_index words.now first.word) }
    requires last_inside { last.skipped < run_count (slice_index words.now last.word) }
    ensures extends { IfOk result (λ made. Extends out.old.items run
        (groups_between words.now first last) out.new.items made.1) }
    ensures lies { IfOk result (λ made. Lies (out.new.items ++ underway made.1) made.0
        words.now (first.word + 1) (last.word - (first.word + 1))) }
{
    let left = Run::of_word(words[first.word]);
    let run = push_run(out, run, left.part(left.count - first.skipped))?;
    let base = out.len() + usize::from(run != 0);
    let run = push_words(out, run, &words[first.word + 1..last.word])?;
    if last.skipped == 0 {
        return Ok((base, run));
    }
    let word = words[last.word];
    let part = word - (Run::of_word(word).count - last.skipped);
    Ok((base, push_apart(out, run, part)?))
}

/// Puts places at the end that lie in words which were moved from one place to another.
pub(crate) fn push_moved(
    starts: &mut Vec<Place>,
    places: &[Place],
    from: usize,
    to: usize,
) -> Result<(), Memory>
    requires behind { All (λ place. from ≤ place.word) places.now }
    requires room { All (λ place. to + (place.word - from) < 2 ^ 64) places.now }
    ensures { OnOk result (starts.new.items ≡ starts.old.items ++ map (moved from to) places.now) }
{
    for place in places {
        starts.push(Place {
            word: to + (place.word - from),
            skipped: place.skipped,
        })?;
    }
    Ok(())
}
