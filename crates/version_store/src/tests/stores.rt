//! The stores of one caller, over a table of one live row.
ghost use Rattle.std.specs.Prelude.{◌≡◌, ◌<◌, ◌≤◌, [], ◌∷◌, Some, IfOk};
ghost use Rattle.commit_log.specs.Handle.{Grows};
ghost use Rattle.version_store.specs.Store.{IsStanding};

use super::held::deltas_behind;
use super::moves::{has_own, replace_live, update};
use crate::{LosingStore, Memory, MemoryStore, ReplaceStop, VersionStore};
use commit_log::{CommitLog, Front, SerialLog, Setup};
use cubit_base::{Flag, Key, Limits, LineStatus, Steps, Table, Tuple, laws};
use std::marker::Brand;
use std::process::Abort;
use std::sync::ledger::{Blank, Ledger};
use std::test::Fail;
use unit_version::{Base, Unit};

fn tuple(qty: u8) -> Tuple
    requires { (1 ≤ qty) × (qty ≤ 50) }
{
    let (price, day, flag, status) = (2_116_823, 1533, Flag::N, LineStatus::O);
    Tuple {
        price,
        day,
        qty,
        disc: 4,
        tax: 2,
        flag,
        status,
    }
}

// How many deltas lie behind the version of the live rows, and its front; none where the hold was given up.
fn behind<S: VersionStore, N: Ledger, R: Abort + AllocGlobal>(
    rt: &R,
    log: &mut S::Log,
    store: &mut S,
    base: &Base,
    steps: &mut Steps<N>,
) -> Result<Option<(u32, Front)>, Memory>
    requires standing { IsStanding S.Log.terms (S.store store.old) base.now (S.over store.old log.old) }
    ensures standing { IsStanding S.Log.terms (S.store store.new) base.now (S.over store.new log.new) }
    ensures grows { Grows (S.Log.handle log.old) (S.Log.handle log.new) }
{
    let found = deltas_behind(rt.alloc(), log, store, base, Unit::Live, 1, steps)?;
    match found {
        Some(stretch) => Ok(Some((stretch.deltas.len() as u32, stretch.from))),
        None => Ok(None),
    }
}

// A version is replaced by one of its length or longer, and no version by a shorter one.
fn versions_move<S: VersionStore, N: Ledger, R: Abort + AllocGlobal>(
    rt: &R,
    log: &mut S::Log,
    store: &mut S,
    base: &Base,
    row: (Key, Tuple),
    steps: &mut Steps<N>,
) -> Result<(), Memory>
    requires standing { IsStanding S.Log.terms (S.store store.old) base.now (S.over store.old log.old) }
    requires base { S.Log.terms.base ≡ (row.0, Some row.1) ∷ [] }
    requires spare { 1 ≤ (S.Log.handle log.old).spare }
    ensures standing { IsStanding S.Log.terms (S.store store.new) base.now (S.over store.new log.new) }
    ensures grows { Grows (S.Log.handle log.old) (S.Log.handle log.new) }
{
    commit_log::laws::prefixes();
    commit_log::laws::handles();
    let start = log.start();
    let (key, first) = row;
    let second = tuple(7);
    let Ok(one) = update(log, &start, key, (first, second), steps) else {
        panic!(rt; "the delta is not appended");
    };
    assert_eq!(rt; (one.len, one.rows), (1, 1));
    assert_eq!(rt; behind(rt, log, store, base, steps)?, Some((1, start)));
    assert_eq!(rt; has_own(log, store, base, Unit::Live, steps), Ok(false));
    let live = (key, second);
    let put = replace_live(rt.alloc(), log, store, base, &one, live, steps)?;
    assert_eq!(rt; put, Ok(()));
    assert_eq!(rt; behind(rt, log, store, base, steps)?, Some((0, one)));
    let put = replace_live(rt.alloc(), log, store, base, &start, row, steps)?;
    assert_eq!(rt; put, Err(ReplaceStop::Newer(one)));
    let put = replace_live(rt.alloc(), log, store, base, &one, live, steps)?;
    assert_eq!(rt; put, Ok(()));
    assert_eq!(rt; has_own(log, store, base, Unit::Live, steps), Ok(true));
    assert_eq!(rt; has_own(log, store, base, Unit::Keys(63), steps), Ok(false));
    Ok(())
}

// A base of one row, with room for no other, and a log over it.
fn base_of<R: AllocGlobal>(rt: &R, row: (Key, Tuple)) -> Result<Base, Memory>
    ensures { IfOk result (λ base. base ≡ record { table = (row.0, Some row.1) ∷ []; row_room = 1 }) }
{
    laws::live_rows();
    let mut table = Table::new(rt.alloc());
    table.push(row.0, Some(row.1))?;
    Base::build(rt.alloc(), table, 1)
}

fn limits() -> Limits
    ensures { result ≡ record { row_limit = 1; log_limit = 2; tries = 1 } }
{
    Limits {
        row_limit: 1,
        log_limit: 2,
        tries: 1,
    }
}

// An empty log over the base.
fn log_of<S: Setup, R: AllocGlobal>(
    rt: &R,
    base: &Base,
    key: Key,
    first: Tuple,
) -> Result<SerialLog<S>, Memory>
    requires row { S.base ≡ (key, Some first) ∷ [] }
    requires base { base.now ≡ record { table = S.base; row_room = 1 } }
    requires limits { S.limits ≡ record { row_limit = 1; log_limit = 2; tries = 1 } }
    ensures { IfOk result (λ log. log.spare ≡ 2) }
{
    SerialLog::<S>::make(rt.alloc(), base.rows(), 2, limits())
}

fn memory_moves<S: Setup, N: Ledger, R: Abort + AllocGlobal>(
    rt: &R,
    log: &mut SerialLog<S>,
    base: &Base,
    key: Key,
    first: Tuple,
    steps: &mut Steps<N>,
) -> Result<(), Memory>
    requires table { base.now ≡ record { table = S.base; row_room = 1 } }
    requires base { S.base ≡ (key, Some first) ∷ [] }
    requires limits { S.limits ≡ record { row_limit = 1; log_limit = 2; tries = 1 } }
    requires spare { log.old.spare ≡ 2 }
{
    let mut store = MemoryStore::make(rt.alloc(), base, log)?;
    versions_move(rt, log, &mut store, base, (key, first), steps)
}

fn memory<S: Setup, N: Ledger, R: Abort + AllocGlobal>(
    rt: &R,
    blank: Blank,
    key: Key,
    first: Tuple,
) -> Result<(), Memory>
    requires name { blank.name ≡ N.name }
    requires parts { blank.parts ≡ N.parts }
    requires some { 0 < N.parts }
    requires base { S.base ≡ (key, Some first) ∷ [] }
    requires limits { S.limits ≡ record { row_limit = 1; log_limit = 2; tries = 1 } }
{
    let mut steps = Steps::<N>::make(blank);
    let base = base_of(rt, (key, first))?;
    let mut log = log_of::<S, R>(rt, &base, key, first)?;
    memory_moves(rt, &mut log, &base, key, first, &mut steps)
}

// Three holds, of which the second is lost.
fn second_is_lost<S: VersionStore, N: Ledger, R: Abort + AllocGlobal>(
    rt: &R,
    log: &mut S::Log,
    store: &mut S,
    base: &Base,
    steps: &mut Steps<N>,
) -> Result<(), Memory>
    requires standing { IsStanding S.Log.terms (S.store store.old) base.now (S.over store.old log.old) }
    ensures standing { IsStanding S.Log.terms (S.store store.new) base.now (S.over store.new log.new) }
    ensures grows { Grows (S.Log.handle log.old) (S.Log.handle log.new) }
{
    commit_log::laws::handles();
    let start = log.start();
    let found = behind(rt, log, store, base, steps)?;
    assert_eq!(rt; found, Some((0, start)));
    let found = behind(rt, log, store, base, steps)?;
    assert_eq!(rt; found, None);
    let found = behind(rt, log, store, base, steps)?;
    assert_eq!(rt; found, Some((0, start)));
    Ok(())
}

// Two replacements, of which the first is lost.
fn first_is_busy<S: VersionStore, N: Ledger, R: Abort + AllocGlobal>(
    rt: &R,
    log: &mut S::Log,
    store: &mut S,
    base: &Base,
    key: Key,
    first: Tuple,
    steps: &mut Steps<N>,
) -> Result<(), Memory>
    requires standing { IsStanding S.Log.terms (S.store store.old) base.now (S.over store.old log.old) }
    requires base { S.Log.terms.base ≡ (key, Some first) ∷ [] }
{
    commit_log::laws::prefixes();
    let start = log.start();
    let put = replace_live(rt.alloc(), log, store, base, &start, (key, first), steps)?;
    assert_eq!(rt; put, Err(ReplaceStop::Busy));
    let put = replace_live(rt.alloc(), log, store, base, &start, (key, first), steps)?;
    assert_eq!(rt; put, Ok(()));
    Ok(())
}

fn losing_moves<S: Setup, N: Ledger, R: Abort + AllocGlobal>(
    rt: &R,
    log: &mut SerialLog<S>,
    base: &Base,
    key: Key,
    first: Tuple,
    steps: &mut Steps<N>,
) -> Result<(), Memory>
    requires table { base.now ≡ record { table = S.base; row_room = 1 } }
    requires base { S.base ≡ (key, Some first) ∷ [] }
    requires limits { S.limits ≡ record { row_limit = 1; log_limit = 2; tries = 1 } }
{
    let holds = vec![in rt.alloc(); 2]?;
    let replacements = vec![in rt.alloc(); 1]?;
    let mut store = LosingStore::make(rt.alloc(), base, log, holds)?;
    second_is_lost(rt, log, &mut store, base, steps)?;
    store.lose_replacements(replacements);
    first_is_busy(rt, log, &mut store, base, key, first, steps)
}

fn losing<S: Setup, N: Ledger, R: Abort + AllocGlobal>(
    rt: &R,
    blank: Blank,
    key: Key,
    first: Tuple,
) -> Result<(), Memory>
    requires name { blank.name ≡ N.name }
    requires parts { blank.parts ≡ N.parts }
    requires some { 0 < N.parts }
    requires base { S.base ≡ (key, Some first) ∷ [] }
    requires limits { S.limits ≡ record { row_limit = 1; log_limit = 2; tries = 1 } }
{
    let mut steps = Steps::<N>::make(blank);
    let base = base_of(rt, (key, first))?;
    let mut log = log_of::<S, R>(rt, &base, key, first)?;
    losing_moves(rt, &mut log, &base, key, first, &mut steps)
}

#[test]
fn a_store_in_memory(rt: HostRuntime) -> Result<(), Fail> {
    let key = Key { order: 1, line: 1 };
    memory::<Brand, Brand, HostRuntime>(&rt, Blank::new(1), key, tuple(17))?;
    Ok(())
}

#[test]
fn a_store_that_loses_turns(rt: HostRuntime) -> Result<(), Fail> {
    let key = Key { order: 1, line: 1 };
    losing::<Brand, Brand, HostRuntime>(&rt, Blank::new(1), key, tuple(17))?;
    Ok(())
}
