//! Merges over a small table, with the two stores of one caller.
ghost use Rattle.std.specs.Prelude.{◌≡◌, ◌≤◌, ◌<◌, [], ◌∷◌, Some, IfOk, take, slice_get};
ghost use Rattle.cubit_base.specs.History.{after};
ghost use Rattle.commit_log.specs.Log.{Stands};
ghost use Rattle.commit_log.specs.Handle.{Grows};
ghost use Rattle.unit_version.specs.Unit.{IsUnit};
ghost use Rattle.version_store.specs.Store.{IsStanding};

use super::*;
use commit_log::{AppendStop, CommitLog, Front, SerialLog, Setup};
use cubit_base::{Delta, Flag, Key, Limits, LineStatus, Steps, Table, Tuple, laws};
use std::alloc::Global;
use std::marker::Brand;
use std::process::Abort;
use std::sync::ledger::{Blank, Ledger};
use std::test::Fail;
use unit_version::{Base, Content, Unit};
use version_store::{LosingStore, MemoryStore, VersionStore};

fn tuple(qty: u8) -> Tuple
    requires { (1 ≤ qty) × (qty ≤ 50) }
{
    let (price, day, flag, status) = (2_116_823, 1533, Flag::N, LineStatus::O);
    Tuple {
        price,
        day,
        qty,
        disc: 4,
        tax: 2,
        flag,
        status,
    }
}

// A change of row 0, behind a front.
fn update<L: CommitLog, N: Ledger>(
    log: &mut L,
    at: &Front,
    row: (Key, Tuple),
    second: Tuple,
    steps: &mut Steps<N>,
) -> Result<Front, AppendStop>
    requires at { Stands L.terms (L.handle log.old).seen at.now }
    requires live { slice_get (after L.terms.base (take at.now.len (L.handle log.old).seen)) 0
        ≡ Some (row.0, Some row.1) }
    requires spare { 1 ≤ (L.handle log.old).spare }
    ensures grows { Grows (L.handle log.old) (L.handle log.new) }
{
    commit_log::laws::appends();
    commit_log::laws::handles();
    let delta = Delta {
        author: log.author(),
        row: 0,
        key: row.0,
        before: Some(row.1),
        after: Some(second),
    };
    match log.try_append(at, &delta, steps) {
        Ok(front) => Ok(front),
        Err(stop) => Err(stop),
    }
}

// What the key page of the key, by its version, has for it.
fn found<S: VersionStore, N: Ledger>(
    log: &mut S::Log,
    store: &mut S,
    base: &Base,
    key: &Key,
    steps: &mut Steps<N>,
) -> Option<(u32, Tuple)>
    requires standing { IsStanding S.Log.terms (S.store store.old) base.now (S.over store.old log.old) }
    ensures standing { IsStanding S.Log.terms (S.store store.new) base.now (S.over store.new log.new) }
{
    let unit = Unit::Keys((key.order % 64) as u8);
    let Ok(claim) = store.hold(log, unit, 1, steps) else {
        return None;
    };
    let found = match store.content(&claim) {
        Some(Content::Keys(keys)) => keys.find(key),
        _ => None,
    };
    store.leave(claim);
    found
}

fn counts(merged: u32, fresh: u32, busy: u32) -> MergeCount {
    MergeCount {
        merged,
        fresh,
        busy,
    }
}

// All units of one page follow one change, and then stay.
fn all_follow<S: VersionStore, N: Ledger, R: Abort + AllocGlobal>(
    rt: &R,
    log: &mut S::Log,
    store: &mut S,
    base: &Base,
    row: (Key, Tuple),
    steps: &mut Steps<N>,
) -> Result<(), Memory>
    requires standing { IsStanding S.Log.terms (S.store store.old) base.now (S.over store.old log.old) }
    requires base { S.Log.terms.base ≡ (row.0, Some row.1) ∷ [] }
    requires spare { 1 ≤ (S.Log.handle log.old).spare }
{
    commit_log::laws::prefixes();
    commit_log::laws::handles();
    commit_log::laws::reads();
    let alloc = rt.alloc();
    let second = tuple(18);
    let start = log.start();
    assert_eq!(rt; update(log, &start, row, second, steps).is_ok(), true);
    let unit = Unit::Keys((row.0.order % 64) as u8);
    let merged = merge(alloc, log, store, base, unit, 1, steps)?;
    assert_eq!(rt; merged, Merge::Merged { from: 0, to: 1 });
    let again = merge(alloc, log, store, base, unit, 1, steps)?;
    assert_eq!(rt; again, Merge::Fresh(1));
    assert_eq!(rt; found(log, store, base, &row.0, steps), Some((0, second)));
    let all = merge_all(alloc, log, store, base, 1, steps)?;
    assert_eq!(rt; all, counts(215, 1, 0));
    let none = merge_all(alloc, log, store, base, 1, steps)?;
    assert_eq!(rt; none, counts(0, 216, 0));
    Ok(())
}

// The first and the third hold are lost.
fn some_are_busy<S: VersionStore, N: Ledger, R: Abort + AllocGlobal>(
    rt: &R,
    log: &mut S::Log,
    store: &mut S,
    base: &Base,
    row: (Key, Tuple),
    steps: &mut Steps<N>,
) -> Result<(), Memory>
    requires standing { IsStanding S.Log.terms (S.store store.old) base.now (S.over store.old log.old) }
    requires base { S.Log.terms.base ≡ (row.0, Some row.1) ∷ [] }
    requires spare { 1 ≤ (S.Log.handle log.old).spare }
{
    commit_log::laws::prefixes();
    commit_log::laws::handles();
    commit_log::laws::reads();
    let alloc = rt.alloc();
    let start = log.start();
    assert_eq!(rt; update(log, &start, row, tuple(18), steps).is_ok(), true);
    let lost = merge(alloc, log, store, base, Unit::Live, 1, steps)?;
    assert_eq!(rt; lost, Merge::Busy);
    let all = merge_all(alloc, log, store, base, 1, steps)?;
    assert_eq!(rt; all, counts(215, 0, 1));
    let rest = merge_all(alloc, log, store, base, 1, steps)?;
    assert_eq!(rt; rest, counts(1, 215, 0));
    Ok(())
}

fn limits() -> Limits
    ensures { result ≡ record { row_limit = 1; log_limit = 2; tries = 1 } }
{
    Limits {
        row_limit: 1,
        log_limit: 2,
        tries: 1,
    }
}

fn session<S: Setup, N: Ledger, R: Abort + AllocGlobal>(
    rt: &R,
    blank: Blank,
    row: (Key, Tuple),
    lost: &[u32],
) -> Result<(), Memory>
    requires name { blank.name ≡ N.name }
    requires parts { blank.parts ≡ N.parts }
    requires some { 0 < N.parts }
    requires base { S.base ≡ (row.0, Some row.1) ∷ [] }
    requires limits { S.limits ≡ record { row_limit = 1; log_limit = 2; tries = 1 } }
{
    laws::live_rows();
    let alloc = rt.alloc();
    let mut steps = Steps::<N>::make(blank);
    let mut table = Table::new(alloc);
    table.push(row.0, Some(row.1))?;
    let base = Base::build(alloc, table, 1)?;
    let mut log = SerialLog::<S>::make(alloc, base.rows(), 2, limits())?;
    if lost.is_empty() {
        let mut store = MemoryStore::make(alloc, &base, &mut log)?;
        all_follow(rt, &mut log, &mut store, &base, row, &mut steps)
    } else {
        let lost = Vec::from_slice(alloc, lost)?;
        let mut store = LosingStore::make(alloc, &base, &mut log, lost)?;
        some_are_busy(rt, &mut log, &mut store, &base, row, &mut steps)
    }
}

#[test]
fn all_units_follow(rt: HostRuntime) -> Result<(), Fail> {
    let row = (Key { order: 1, line: 1 }, tuple(17));
    session::<Brand, Brand, HostRuntime>(&rt, Blank::new(1), row, &[])?;
    Ok(())
}

#[test]
fn units_that_others_have(rt: HostRuntime) -> Result<(), Fail> {
    let row = (Key { order: 1, line: 1 }, tuple(17));
    session::<Brand, Brand, HostRuntime>(&rt, Blank::new(1), row, &[1, 3])?;
    Ok(())
}
