//! The place of a code among rising codes.
ghost use Rattle.std.specs.Prelude.{◌≡◌, ◌<◌, ◌≤◌, length, count_by};
ghost use Rattle.std.specs.List.Sorted.{IsStrictlyIncreasing};
ghost use Rattle.unit_version.specs.Entry.{codes, is_up_to};
ghost use Rattle.unit_version.specs.Search.{AreTops, FindsPlace, IsUpTo, IsBelow, IsBetween, IsNear};

use super::entry::Entry;

/// The place of the entry with this code, or none.
pub(crate) fn place_of(entries: &[Entry], tops: &[u32], code: u32) -> Option<usize>
    requires rising { IsStrictlyIncreasing (codes entries.now) }
    requires tops { AreTops (codes entries.now) tops.now }
    ensures { FindsPlace (codes entries.now) code result }
{
    let behind = near_entries(entries, tops, code);
    if behind == 0 {
        return None;
    }
    let place = behind - 1;
    if entries[place].code == code {
        Some(place)
    } else {
        None
    }
}

/// The place behind the last entry whose code is not above this one.
#[inline(always)]
pub(crate) fn near_entries(entries: &[Entry], tops: &[u32], code: u32) -> usize
    requires rising { IsStrictlyIncreasing (codes entries.now) }
    requires tops { AreTops (codes entries.now) tops.now }
    ensures { IsNear (codes entries.now) code result }
{
    let pieces = near(tops, code);
    if pieces == 0 {
        return 0;
    }
    let from = 16 * (pieces - 1);
    let to = entries.len().min(from + 16);
    from + count_up_to(&entries[from..to], code)
}

// How many of the entries have a code up to this one.
#[inline(always)]
fn count_up_to(entries: &[Entry], code: u32) -> usize
    ensures { result ≡ count_by (is_up_to code) entries.now }
{
    let mut count = 0usize;
    for entry in entries {
        count += usize::from(entry.code <= code);
    }
    count
}

// The place behind the last number that is not above this one: from a guess outward by doubled steps, then by halves.
fn near(tops: &[u32], code: u32) -> usize
    ensures { IsNear tops.now code result }
{
    if tops.is_empty() {
        return 0;
    }
    let guess = guessed(tops, code);
    let (from, to) = if tops[guess] <= code {
        upward(tops, code, guess + 1)
    } else {
        downward(tops, code, guess)
    };
    halved(tops, code, from, to)
}

// Where the number would stand if all lay on the line from the first to the last. Any place would do, so that what
// wraps or ends early here only costs time.
#[inline(always)]
fn guessed(tops: &[u32], code: u32) -> usize
    requires { 0 < length tops.now }
    ensures { result < length tops.now }
{
    let last = tops.len() - 1;
    let above = u64::from(code.saturating_sub(tops[0]));
    let line = u64::from(tops[last].saturating_sub(tops[0]).max(1));
    let guess = above.wrapping_mul(last as u64) / line;
    (guess as usize).min(last)
}

// Two places between which the number's place lies, from a place on.
#[inline(always)]
fn upward(tops: &[u32], code: u32, place: usize) -> (usize, usize)
    requires within { place ≤ length tops.now }
    requires low { IsUpTo tops.now code place }
    ensures { IsBetween tops.now code result.0 result.1 }
{
    let mut from = place;
    let mut step = 1usize;
    while step <= tops.len() - from {
        let next = from + step - 1;
        if code < tops[next] {
            return (from, next);
        }
        from = next + 1;
        step = step.saturating_mul(2);
    }
    (from, tops.len())
}

// The same up to a place.
#[inline(always)]
fn downward(tops: &[u32], code: u32, place: usize) -> (usize, usize)
    requires within { place ≤ length tops.now }
    requires high { IsBelow tops.now code place }
    ensures { IsBetween tops.now code result.0 result.1 }
{
    let mut to = place;
    let mut step = 1usize;
    while step <= to {
        let next = to - step;
        if tops[next] <= code {
            return (next + 1, to);
        }
        to = next;
        step = step.saturating_mul(2);
    }
    (0, to)
}

// The place between two others.
#[inline(always)]
fn halved(tops: &[u32], code: u32, from: usize, to: usize) -> usize
    requires { IsBetween tops.now code from to }
    ensures { IsNear tops.now code result }
{
    let mut from = from;
    let mut to = to;
    while from < to {
        let middle = from + (to - from) / 2;
        if tops[middle] <= code {
            from = middle + 1;
        } else {
            to = middle;
        }
    }
    from
}
