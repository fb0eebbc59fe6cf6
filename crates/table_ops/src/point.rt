//! Look-ups and changes, each decided at one front.
ghost use Rattle.std.specs.Prelude.{◌≡◌, ◌+◌, ◌-◌, ◌*◌, ◌≤◌, length};
ghost use Rattle.cubit_base.specs.Change.{Insert, Update, Delete, key_of};
ghost use Rattle.cubit_base.specs.LiveRow.{HasDistinctLiveKeys};
ghost use Rattle.commit_log.specs.Handle.{SeesMore, with_look, RisesWithin};
ghost use Rattle.version_store.specs.Store.{IsStanding, Asks};
ghost use Rattle.table_ops.specs.Found.{IsFound, page_of, known_length, lookup_steps};
ghost use Rattle.table_ops.specs.Changed.{change_of, IsChanged, change_steps};

use crate::change::Asked;
use crate::laws::changes;
use crate::live::found_since;
use crate::settle::{Found, settle};
use crate::{OpStop, Placed};
use commit_log::{CommitLog, Front};
use cubit_base::{Key, Steps, Tuple};
use std::sync::ledger::Ledger;
use unit_version::{Base, Unit};
use version_store::VersionStore;

/// The row and the tuple of the live row with this key, or none, and the front at which this is so: that of all that
/// the log holds. It takes no memory.
pub fn lookup<S: VersionStore, N: Ledger>(
    log: &mut S::Log,
    store: &mut S,
    base: &Base,
    key: &Key,
    tries: u32,
    steps: &mut Steps<N>,
) -> (Front, Option<(u32, Tuple)>)
    requires standing { IsStanding S.Log.terms (S.store store.old) base.now (S.over store.old log.old) }
    requires tries { 1 ≤ tries }
    ensures found { IsFound S.Log.terms (S.Log.handle log.new).seen key.now result }
    ensures more { SeesMore (with_look (S.Log.handle log.old)) (S.Log.handle log.new) }
    ensures asks { Asks (page_of key.now) (S.store store.old) (S.store store.new) }
    ensures standing { IsStanding S.Log.terms (S.store store.new) base.now (S.over store.new log.new) }
    ensures known { known_length (S.store store.old) (S.store store.new) (page_of key.now)
        ≤ length (S.Log.handle log.new).seen }
    ensures steps { RisesWithin (lookup_steps tries
        (known_length (S.store store.old) (S.store store.new) (page_of key.now))
        (length (S.Log.handle log.new).seen)) steps.old steps.new }
{
    version_store::laws::versions();
    commit_log::laws::handles();
    base.keys_differ();
    let unit = Unit::Keys((key.order % 64) as u8);
    match store.hold(log, unit, tries, steps) {
        Ok(claim) => {
            let from = store.front(&claim);
            let page = store.content(&claim).unwrap_or(base.content(unit));
            let found = found_since(log, page, key, &from, steps);
            store.leave(claim);
            found
        }
        Err(_) => {
            let start = log.start();
            found_since(log, base.content(unit), key, &start, steps)
        }
    }
}

/// Adds a row with this key and tuple.
pub fn insert<S: VersionStore, N: Ledger>(
    log: &mut S::Log,
    store: &mut S,
    base: &Base,
    key: &Key,
    tuple: &Tuple,
    tries: u32,
    steps: &mut Steps<N>,
) -> Result<Placed, OpStop>
    requires standing { IsStanding S.Log.terms (S.store store.old) base.now (S.over store.old log.old) }
    requires tries { 1 ≤ tries }
    requires spare { 1 ≤ (S.Log.handle log.old).spare }
    ensures changed { IsChanged S.Log.terms (with_look (S.Log.handle log.old)) (Insert key.now tuple.now)
        (S.Log.handle log.new) result }
    ensures asks { Asks (page_of key.now) (S.store store.old) (S.store store.new) }
    ensures standing { IsStanding S.Log.terms (S.store store.new) base.now (S.over store.new log.new) }
    ensures steps { RisesWithin (change_steps tries
        (known_length (S.store store.old) (S.store store.new) (page_of key.now))
        (S.Log.handle log.old) (S.Log.handle log.new)) steps.old steps.new }
{
    change(log, store, base, &Asked::Insert(*key, *tuple), tries, steps)
}

/// Gives the live row with this key another tuple.
pub fn update<S: VersionStore, N: Ledger>(
    log: &mut S::Log,
    store: &mut S,
    base: &Base,
    key: &Key,
    tuple: &Tuple,
    tries: u32,
    steps: &mut Steps<N>,
) -> Result<Placed, OpStop>
    requires standing { IsStanding S.Log.terms (S.store store.old) base.now (S.over store.old log.old) }
    requires tries { 1 ≤ tries }
    requires spare { 1 ≤ (S.Log.handle log.old).spare }
    ensures changed { IsChanged S.Log.terms (with_look (S.Log.handle log.old)) (Update key.now tuple.now)
        (S.Log.handle log.new) result }
    ensures asks { Asks (page_of key.now) (S.store store.old) (S.store store.new) }
    ensures standing { IsStanding S.Log.terms (S.store store.new) base.now (S.over store.new log.new) }
    ensures steps { RisesWithin (change_steps tries
        (known_length (S.store store.old) (S.store store.new) (page_of key.now))
        (S.Log.handle log.old) (S.Log.handle log.new)) steps.old steps.new }
{
    change(log, store, base, &Asked::Update(*key, *tuple), tries, steps)
}

/// Takes the tuple of the live row with this key away.
pub fn delete<S: VersionStore, N: Ledger>(
    log: &mut S::Log,
    store: &mut S,
    base: &Base,
    key: &Key,
    tries: u32,
    steps: &mut Steps<N>,
) -> Result<Placed, OpStop>
    requires standing { IsStanding S.Log.terms (S.store store.old) base.now (S.over store.old log.old) }
    requires tries { 1 ≤ tries }
    requires spare { 1 ≤ (S.Log.handle log.old).spare }
    ensures changed { IsChanged S.Log.terms (with_look (S.Log.handle log.old)) (Delete key.now)
        (S.Log.handle log.new) result }
    ensures asks { Asks (page_of key.now) (S.store store.old) (S.store store.new) }
    ensures standing { IsStanding S.Log.terms (S.store store.new) base.now (S.over store.new log.new) }
    ensures steps { RisesWithin (change_steps tries
        (known_length (S.store store.old) (S.store store.new) (page_of key.now))
        (S.Log.handle log.old) (S.Log.handle log.new)) steps.old steps.new }
{
    change(log, store, base, &Asked::Delete(*key), tries, steps)
}

// Looks the change's key up, and settles the change from there on.
fn change<S: VersionStore, N: Ledger>(
    log: &mut S::Log,
    store: &mut S,
    base: &Base,
    asked: &Asked,
    tries: u32,
    steps: &mut Steps<N>,
) -> Result<Placed, OpStop>
    requires standing { IsStanding S.Log.terms (S.store store.old) base.now (S.over store.old log.old) }
    requires tries { 1 ≤ tries }
    requires spare { 1 ≤ (S.Log.handle log.old).spare }
    ensures changed { IsChanged S.Log.terms (with_look (S.Log.handle log.old)) (change_of asked.now)
        (S.Log.handle log.new) result }
    ensures asks { Asks (page_of (key_of (change_of asked.now))) (S.store store.old) (S.store store.new) }
    ensures standing { IsStanding S.Log.terms (S.store store.new) base.now (S.over store.new log.new) }
    ensures steps { RisesWithin (change_steps tries
        (known_length (S.store store.old) (S.store store.new) (page_of (key_of (change_of asked.now))))
        (S.Log.handle log.old) (S.Log.handle log.new)) steps.old steps.new }
{
    changes();
    commit_log::laws::reads();
    commit_log::laws::handles();
    base.keys_differ();
    let key = asked.key();
    let (front, live) = lookup(log, store, base, &key, tries, steps);
    settle(log, asked, &Found { front, live }, steps)
}
