//! Callers of look-ups and changes, one after another.
ghost use Rattle.version_store.specs.Store.{IsStanding};

use commit_log::CommitLog;
use cubit_base::{Key, Steps, Tuple};
use std::sync::ledger::Ledger;
use table_ops::{lookup, update};
use unit_version::Base;
use version_store::VersionStore;

/// Looks up the keys of these rows. A sum over the rows and tuples that were found.
pub(crate) fn looked_up<S: VersionStore, N: Ledger>(
    log: &mut S::Log,
    store: &mut S,
    base: &Base,
    asked: &[(Key, Tuple)],
    steps: &mut Steps<N>,
) -> u64
    requires standing { IsStanding S.Log.terms (S.store store.old) base.now (S.over store.old log.old) }
    ensures standing { IsStanding S.Log.terms (S.store store.new) base.now (S.over store.new log.new) }
{
    let mut sum = 0u64;
    for (key, _) in asked {
        let (_, live) = lookup(log, store, base, key, 1, steps);
        sum = sum.wrapping_add(taken(live));
    }
    sum
}

fn taken(live: Option<(u32, Tuple)>) -> u64 {
    match live {
        Some((row, tuple)) => tuple.pack().wrapping_add(u64::from(row)),
        None => 0,
    }
}

/// Gives the rows with these keys these tuples. A sum over the rows and places that were changed.
pub(crate) fn updated<S: VersionStore, N: Ledger>(
    log: &mut S::Log,
    store: &mut S,
    base: &Base,
    asked: &[(Key, Tuple)],
    steps: &mut Steps<N>,
) -> u64
    requires standing { IsStanding S.Log.terms (S.store store.old) base.now (S.over store.old log.old) }
    ensures standing { IsStanding S.Log.terms (S.store store.new) base.now (S.over store.new log.new) }
{
    let mut sum = 0u64;
    for (key, tuple) in asked {
        sum = sum.wrapping_add(update_one(log, store, base, key, tuple, steps));
    }
    sum
}

// One update, where there is room for it.
fn update_one<S: VersionStore, N: Ledger>(
    log: &mut S::Log,
    store: &mut S,
    base: &Base,
    key: &Key,
    tuple: &Tuple,
    steps: &mut Steps<N>,
) -> u64
    requires standing { IsStanding S.Log.terms (S.store store.old) base.now (S.over store.old log.old) }
    ensures standing { IsStanding S.Log.terms (S.store store.new) base.now (S.over store.new log.new) }
{
    if log.spare() == 0 {
        return 0;
    }
    match update(log, store, base, key, tuple, 1, steps) {
        Ok(placed) => u64::from(placed.place).wrapping_add(u64::from(placed.row)),
        Err(_) => 0,
    }
}
