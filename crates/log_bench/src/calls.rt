//! Callers of any log: one that fills it, and one that walks over it.
ghost use Rattle.std.specs.Prelude.{◌≡◌, ◌+◌, ◌≤◌, take, slice_get, Some, IfSome};
ghost use Rattle.cubit_base.specs.History.{after};
ghost use Rattle.commit_log.specs.Log.{Stands, IsWhole};

use commit_log::{CommitLog, Front, laws};
use cubit_base::{Delta, Entry, Key, Steps, Tuple};
use std::sync::ledger::Ledger;

/// Appends so many changes of row 0, which has the first tuple now, to and fro between two tuples. The front of all
/// deltas, or none where another caller appended.
pub(crate) fn filled<L: CommitLog, N: Ledger>(
    log: &mut L,
    from: &Front,
    key: Key,
    tuples: (Tuple, Tuple),
    count: u32,
    steps: &mut Steps<N>,
) -> Option<Front>
    requires at { IsWhole L.terms (L.handle log.old).seen from.now }
    requires live { slice_get (after L.terms.base (take from.now.len (L.handle log.old).seen)) 0
        ≡ Some (key, Some tuples.0) }
    requires spare { count ≤ (L.handle log.old).spare }
    ensures { IfSome result (λ front. IsWhole L.terms (L.handle log.new).seen front) }
{
    let mut at = *from;
    let (mut now, mut next) = tuples;
    for i in 0..count {
        at = updated(log, &at, key, (now, next), steps)?;
        let last = now;
        now = next;
        next = last;
    }
    Some(at)
}

fn updated<L: CommitLog, N: Ledger>(
    log: &mut L,
    at: &Front,
    key: Key,
    tuples: (Tuple, Tuple),
    steps: &mut Steps<N>,
) -> Option<Front>
    requires at { IsWhole L.terms (L.handle log.old).seen at.now }
    requires live { slice_get (after L.terms.base (take at.now.len (L.handle log.old).seen)) 0
        ≡ Some (key, Some tuples.0) }
    requires spare { 1 ≤ (L.handle log.old).spare }
    ensures at { IfSome result (λ front. IsWhole L.terms (L.handle log.new).seen front) }
    ensures spare { IfSome result (λ _. (L.handle log.new).spare + 1 ≡ (L.handle log.old).spare) }
    ensures live { IfSome result (λ front. slice_get (after L.terms.base (take front.len (L.handle log.new).seen)) 0
        ≡ Some (key, Some tuples.1)) }
{
    cubit_base::laws::deltas();
    laws::appends();
    let delta = Delta {
        author: log.author(),
        row: 0,
        key,
        before: Some(tuples.0),
        after: Some(tuples.1),
    };
    match log.try_append(at, &delta, steps) {
        Ok(front) => Some(front),
        Err(_) => None,
    }
}

/// A sum over the deltas from one front to another, of what a reader of each takes.
pub(crate) fn sum_of<L: CommitLog, N: Ledger>(
    log: &mut L,
    from: &Front,
    to: &Front,
    steps: &mut Steps<N>,
) -> u64
    requires from { Stands L.terms (L.handle log.old).seen from.now }
    requires to { Stands L.terms (L.handle log.old).seen to.now }
    requires order { from.now.len ≤ to.now.len }
    ensures from { Stands L.terms (L.handle log.new).seen from.now }
    ensures to { Stands L.terms (L.handle log.new).seen to.now }
{
    let mut cursor = log.cursor(from);
    let mut sum = 0u64;
    while let Some(entry) = log.following(&mut cursor, to, steps) {
        sum = sum.wrapping_add(taken(&entry));
    }
    sum
}

fn taken(entry: &Entry) -> u64 {
    let delta = &entry.delta;
    u64::from(entry.seq)
        .wrapping_add(u64::from(delta.row))
        .wrapping_add(u64::from(delta.key.order))
        .wrapping_add(word_of(delta.before))
        .wrapping_add(word_of(delta.after))
}

fn word_of(tuple: Option<Tuple>) -> u64 {
    match tuple {
        Some(tuple) => tuple.pack(),
        None => 0,
    }
}
