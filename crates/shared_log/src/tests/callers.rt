//! Callers of any log, whose changes are lawful by what they have read.
ghost use Rattle.std.specs.Prelude.{◌≡◌, ◌≤◌, take, slice_get};
ghost use Rattle.cubit_base.specs.LiveRow.{IsFree, HasDistinctLiveKeys};
ghost use Rattle.cubit_base.specs.History.{after};
ghost use Rattle.commit_log.specs.Log.{Stands};
ghost use Rattle.commit_log.specs.Handle.{Grows};

use commit_log::{AppendStop, CommitLog, Front};
use cubit_base::{Delta, Key, Steps, Table, Tuple};
use std::sync::ledger::Ledger;

// What a row holds at a front, by the deltas of it up to there.
pub(super) fn row_at<L: CommitLog, N: Ledger>(
    log: &mut L,
    base: &Table,
    at: &Front,
    row: u32,
    steps: &mut Steps<N>,
) -> Option<(Key, Option<Tuple>)>
    requires base { base.now ≡ L.terms.base }
    requires at { Stands L.terms (L.handle log.old).seen at.now }
    ensures row { result ≡ slice_get (after L.terms.base (take at.now.len (L.handle log.old).seen)) row }
    ensures seen { (L.handle log.new).seen ≡ (L.handle log.old).seen }
    ensures author { (L.handle log.new).author ≡ (L.handle log.old).author }
    ensures spare { (L.handle log.new).spare ≡ (L.handle log.old).spare }
{
    cubit_base::laws::deltas();
    cubit_base::laws::histories();
    commit_log::laws::stretches();
    let start = log.start();
    let mut cursor = log.cursor(&start);
    let mut held = base.row(row);
    while let Some(entry) = log.following(&mut cursor, at, steps) {
        if entry.delta.row == row {
            held = Some((entry.delta.key, entry.delta.after));
        }
    }
    held
}

// Changes a row that is live at a front, or deletes it where there is no tuple; none where it is not live, or the
// caller may append no more.
pub(super) fn change<L: CommitLog, N: Ledger>(
    log: &mut L,
    base: &Table,
    at: &Front,
    row: u32,
    after: Option<Tuple>,
    steps: &mut Steps<N>,
) -> Option<Result<Front, AppendStop>>
    requires base { base.now ≡ L.terms.base }
    requires at { Stands L.terms (L.handle log.old).seen at.now }
    ensures { Grows (L.handle log.old) (L.handle log.new) }
{
    let held = row_at(log, base, at, row, steps)?;
    held.1?;
    if log.spare() == 0 {
        return None;
    }
    let delta = Delta {
        author: log.author(),
        row,
        key: held.0,
        before: held.1,
        after,
    };
    match log.try_append(at, &delta, steps) {
        Ok(front) => Some(Ok(front)),
        Err(stop) => Some(Err(stop)),
    }
}

// Adds a row behind a front, with a key that no row of the base has; none where a delta had it, or there
// is no room.
pub(super) fn add<L: CommitLog, N: Ledger>(
    log: &mut L,
    at: &Front,
    key: Key,
    tuple: Tuple,
    steps: &mut Steps<N>,
) -> Option<Result<Front, AppendStop>>
    requires keys { HasDistinctLiveKeys L.terms.base }
    requires free { IsFree L.terms.base key }
    requires at { Stands L.terms (L.handle log.old).seen at.now }
    ensures { Grows (L.handle log.old) (L.handle log.new) }
{
    cubit_base::laws::histories();
    cubit_base::laws::live_rows();
    commit_log::laws::stretches();
    let start = log.start();
    if log.latest(&key, &start, at, steps).is_some() {
        return None;
    }
    if at.rows >= log.limits().row_limit || log.spare() == 0 {
        return None;
    }
    let delta = Delta {
        author: log.author(),
        row: at.rows,
        key,
        before: None,
        after: Some(tuple),
    };
    match log.try_append(at, &delta, steps) {
        Ok(front) => Some(Ok(front)),
        Err(stop) => Some(Err(stop)),
    }
}
