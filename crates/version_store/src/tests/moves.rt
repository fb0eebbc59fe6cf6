//! Callers of any store over a table of one live row.
ghost use Rattle.std.specs.Prelude.{◌≡◌, ◌≤◌, ◌<◌, IfOk, Some, slice_get, take};
ghost use Rattle.cubit_base.specs.History.{after};
ghost use Rattle.commit_log.specs.Log.{Stands, IsLog};
ghost use Rattle.commit_log.specs.Handle.{Grows};
ghost use Rattle.unit_version.specs.BaseValue.{BaseValue};
ghost use Rattle.unit_version.specs.Unit.{IsUnit};
ghost use Rattle.version_store.specs.Store.{IsStanding, Keeps};

use crate::{Again, Memory, ReplaceStop, VersionStore};
use commit_log::{AppendStop, CommitLog, Front, laws};
use cubit_base::{Delta, Key, Steps, Tuple};
use fence_window::Fenced;
use std::alloc::Global;
use std::sync::ledger::Ledger;
use unit_version::{Base, Content, Unit};
use wah_words::Wah;

// A change of row 0, behind a front.
pub(crate) fn update<L: CommitLog, N: Ledger>(
    log: &mut L,
    at: &Front,
    key: Key,
    tuples: (Tuple, Tuple),
    steps: &mut Steps<N>,
) -> Result<Front, AppendStop>
    requires at { Stands L.terms (L.handle log.old).seen at.now }
    requires live { slice_get (after L.terms.base (take at.now.len (L.handle log.old).seen)) 0
        ≡ Some (key, Some tuples.0) }
    requires spare { 1 ≤ (L.handle log.old).spare }
    ensures front { IfOk result (Stands L.terms (L.handle log.new).seen) }
    ensures live { IfOk result (λ front. slice_get (after L.terms.base (take front.len (L.handle log.new).seen)) 0
        ≡ Some (key, Some tuples.1)) }
    ensures grows { Grows (L.handle log.old) (L.handle log.new) }
{
    cubit_base::laws::deltas();
    laws::appends();
    laws::handles();
    let delta = Delta {
        author: log.author(),
        row: 0,
        key,
        before: Some(tuples.0),
        after: Some(tuples.1),
    };
    match log.try_append(at, &delta, steps) {
        Ok(front) => Ok(front),
        Err(stop) => Err(stop),
    }
}

// Replaces the version of the live rows by one of this front, after which there is one row, and it is live.
pub(crate) fn replace_live<S: VersionStore, N: Ledger>(
    alloc: Global,
    log: &mut S::Log,
    store: &mut S,
    base: &Base,
    front: &Front,
    live: (Key, Tuple),
    steps: &mut Steps<N>,
) -> Result<Result<(), ReplaceStop>, Memory>
    requires standing { IsStanding S.Log.terms (S.store store.old) base.now (S.over store.old log.old) }
    requires front { Stands S.Log.terms (S.Log.handle log.old).seen front.now }
    requires rows { front.now.rows ≡ 1 }
    requires live { slice_get (after S.Log.terms.base (take front.now.len (S.Log.handle log.old).seen)) 0
        ≡ Some (live.0, Some live.1) }
    ensures standing { IsStanding S.Log.terms (S.store store.new) base.now (S.over store.new log.new) }
    ensures keeps { Keeps (S.store store.old) (S.store store.new) }
    ensures grows { Grows (S.Log.handle log.old) (S.Log.handle log.new) }
{
    laws::handles();
    let wah = Wah::from_rows(alloc, &[true])?;
    let content = Content::Bits(Fenced::make(alloc, wah)?);
    match store.replace(log, Unit::Live, front, content, steps) {
        Ok(()) => Ok(Ok(())),
        Err((_, stop)) => Ok(Err(stop)),
    }
}

// Whether the unit's version has content of its own.
pub(crate) fn has_own<S: VersionStore, N: Ledger>(
    log: &mut S::Log,
    store: &mut S,
    base: &Base,
    unit: Unit,
    steps: &mut Steps<N>,
) -> Result<bool, Again>
    requires standing { IsStanding S.Log.terms (S.store store.old) base.now (S.over store.old log.old) }
    requires unit { IsUnit (S.store store.old).pages unit }
    ensures standing { IsStanding S.Log.terms (S.store store.new) base.now (S.over store.new log.new) }
    ensures pages { (S.store store.new).pages ≡ (S.store store.old).pages }
    ensures grows { Grows (S.Log.handle log.old) (S.Log.handle log.new) }
{
    laws::handles();
    let claim = store.hold(log, unit, 1, steps)?;
    let own = store.content(&claim).is_some();
    store.leave(claim);
    Ok(own)
}
