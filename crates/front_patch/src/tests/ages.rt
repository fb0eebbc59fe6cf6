//! Versions of different ages at one front, against the plain table.
ghost use Rattle.std.specs.Prelude.{◌≡◌, ◌+◌, ◌*◌, ◌<◌, ◌≤◌, [], Some, IfOk, IfSome, length};
ghost use Rattle.cubit_base.specs.History.{after};
ghost use Rattle.cubit_base.specs.LiveRow.{HasDistinctLiveKeys};
ghost use Rattle.column_bins.specs.Column.{bin_count};
ghost use Rattle.commit_log.specs.Log.{IsWhole};
ghost use Rattle.commit_log.specs.Handle.{Grows};
ghost use Rattle.unit_version.specs.Unit.{IsUnit};
ghost use Rattle.wah_words.specs.Place.{page_count};
ghost use Rattle.unit_version.specs.declared.unit.Unit.TheVariants.{Bin};
ghost use Rattle.commit_log.specs.Serial.{serial_terms, serial_handle};
ghost use Rattle.version_store.specs.Memory.{memory_store, AreVersions};
ghost use Rattle.version_store.specs.Store.{IsStanding};
ghost use Rattle.front_patch.specs.Bits.{IsBits};
ghost use Rattle.front_patch.specs.Planned.{FitsColumns};

use super::compared::agrees;
use super::plain::{copy_of, delta_of, passing, table_after, table_of};
use crate::Memory;
use crate::planned::test_of;
use column_bins::{Column, Plan, Stretch};
use commit_log::{CommitLog, Front, SerialLog, Setup};
use cubit_base::{DeltaList, Limits, Steps, Table};
use fence_window::Fenced;
use std::marker::Brand;
use std::process::Abort;
use std::sync::ledger::{Blank, Ledger};
use std::test::Fail;
use unit_version::{Base, Content, Unit, patched};
use version_store::{LosingStore, MemoryStore, VersionStore};
use wah_words::Wah;

pub(crate) const LIMIT: u32 = 9_100;

// One drawn delta more, where one may come there.
fn grow<L: CommitLog, N: Ledger, R: Abort + AllocGlobal>(
    rt: &R,
    log: &mut L,
    front: Front,
    table: Table,
    n: u32,
    steps: &mut Steps<N>,
) -> Result<(Front, Table), Memory>
    requires n { n < 4_000_000_000 }
    requires limit { L.terms.limits.row_limit ≡ LIMIT }
    requires whole { IsWhole L.terms (L.handle log.old).seen front }
    requires table { table ≡ after L.terms.base (L.handle log.old).seen }
    ensures whole { IfOk result (λ r. IsWhole L.terms (L.handle log.new).seen r.0) }
    ensures table { IfOk result (λ r. r.1 ≡ after L.terms.base (L.handle log.new).seen) }
    ensures grows { Grows (L.handle log.old) (L.handle log.new) }
{
    commit_log::laws::handles();
    commit_log::laws::appends();
    if log.spare() == 0 {
        return Ok((front, table));
    }
    let Some(delta) = delta_of(&table, log.author(), LIMIT, n) else {
        return Ok((front, table));
    };
    match log.try_append(&front, &delta, steps) {
        Ok(next) => Ok((next, table_after(rt.alloc(), &table, &delta, LIMIT)?)),
        Err(_) => panic!(rt; "the delta is not appended"),
    }
}

// Replaces the version of a bitvector by that of the table at a front.
fn replace_bits<S: Setup, N: Ledger, R: Abort + AllocGlobal>(
    rt: &R,
    log: &mut SerialLog<S>,
    store: &mut MemoryStore<S>,
    base: &Base,
    unit: Unit,
    front: &Front,
    table: &Table,
    steps: &mut Steps<N>,
) -> Result<(), Memory>
    requires standing { IsStanding (serial_terms S.base S.limits) (memory_store store.old) base.now
        (AreVersions (serial_terms S.base S.limits) store.old log.old.seen) }
    requires bits { IsBits unit }
    requires unit { IsUnit 0 unit }
    requires whole { IsWhole (serial_terms S.base S.limits) log.old.seen front.now }
    requires table { table.now ≡ after S.base log.old.seen }
    ensures standing { IsStanding (serial_terms S.base S.limits) (memory_store store.new) base.now
        (AreVersions (serial_terms S.base S.limits) store.new log.new.seen) }
    ensures same { log.new ≡ log.old }
{
    commit_log::laws::handles();
    let rows = passing(rt.alloc(), table, test_of(unit))?;
    let wah = Wah::from_rows(rt.alloc(), &rows)?;
    let content = Content::Bits(Fenced::make(rt.alloc(), wah)?);
    match store.replace(log, unit, front, content, steps) {
        Ok(()) => Ok(()),
        Err(_) => panic!(rt; "the version is not replaced"),
    }
}

// The same for the bins of a stretch.
fn replace_bins<S: Setup, N: Ledger, R: Abort + AllocGlobal>(
    rt: &R,
    log: &mut SerialLog<S>,
    store: &mut MemoryStore<S>,
    base: &Base,
    column: Column,
    stretch: Stretch,
    front: &Front,
    table: &Table,
    steps: &mut Steps<N>,
) -> Result<(), Memory>
    requires standing { IsStanding (serial_terms S.base S.limits) (memory_store store.old) base.now
        (AreVersions (serial_terms S.base S.limits) store.old log.old.seen) }
    requires bins { stretch.after ≤ bin_count column }
    requires whole { IsWhole (serial_terms S.base S.limits) log.old.seen front.now }
    requires table { table.now ≡ after S.base log.old.seen }
    ensures standing { IsStanding (serial_terms S.base S.limits) (memory_store store.new) base.now
        (AreVersions (serial_terms S.base S.limits) store.new log.new.seen) }
    ensures same { log.new ≡ log.old }
{
    for bin in stretch.first..stretch.after {
        replace_bits(
            rt,
            log,
            store,
            base,
            Unit::Bin(column, bin),
            front,
            table,
            steps,
        )?;
    }
    Ok(())
}

// Replaces the version of a page by that of the base of the table at a front.
fn replace_page<S: Setup, N: Ledger, R: Abort + AllocGlobal>(
    rt: &R,
    log: &mut SerialLog<S>,
    store: &mut MemoryStore<S>,
    base: &Base,
    page: u32,
    front: &Front,
    now: &Base,
    steps: &mut Steps<N>,
) -> Result<(), Memory>
    requires standing { IsStanding (serial_terms S.base S.limits) (memory_store store.old) base.now
        (AreVersions (serial_terms S.base S.limits) store.old log.old.seen) }
    requires page { page < page_count base.now.row_room }
    requires few { page < 4_229 }
    requires room { now.now.row_room ≡ base.now.row_room }
    requires whole { IsWhole (serial_terms S.base S.limits) log.old.seen front.now }
    requires table { now.now.table ≡ after S.base log.old.seen }
    ensures standing { IsStanding (serial_terms S.base S.limits) (memory_store store.new) base.now
        (AreVersions (serial_terms S.base S.limits) store.new log.new.seen) }
    ensures same { log.new ≡ log.old }
{
    commit_log::laws::handles();
    let unit = Unit::Page(page);
    let none = DeltaList::new(rt.alloc());
    let content = patched(
        rt.alloc(),
        unit,
        now.content(unit),
        now.rows(),
        &none,
        now.rows(),
    )?;
    match store.replace(log, unit, front, content, steps) {
        Ok(()) => Ok(()),
        Err(_) => panic!(rt; "the version is not replaced"),
    }
}

// The base of the table at the log's end.
fn base_at<S: Setup, R: Abort + AllocGlobal>(
    rt: &R,
    log: &SerialLog<S>,
    table: &Table,
) -> Result<Base, Memory>
    requires table { table.now ≡ after S.base log.now.seen }
    requires keys { HasDistinctLiveKeys S.base }
    ensures { IfOk result (λ base. base ≡ record { table = table.now; row_room = LIMIT }) }
{
    cubit_base::laws::live_rows();
    let _start = log.start();
    if LIMIT < table.len() {
        panic!(rt; "the table has too many rows");
    }
    Base::build(rt.alloc(), copy_of(rt.alloc(), table)?, LIMIT)
}

// Replaces the version of the page that has its turn at an age.
fn replace_page_of<S: Setup, N: Ledger, R: Abort + AllocGlobal>(
    rt: &R,
    log: &mut SerialLog<S>,
    store: &mut MemoryStore<S>,
    base: &Base,
    age: usize,
    front: &Front,
    table: &Table,
    steps: &mut Steps<N>,
) -> Result<(), Memory>
    requires standing { IsStanding (serial_terms S.base S.limits) (memory_store store.old) base.now
        (AreVersions (serial_terms S.base S.limits) store.old log.old.seen) }
    requires room { base.now.row_room ≡ LIMIT }
    requires keys { HasDistinctLiveKeys S.base }
    requires whole { IsWhole (serial_terms S.base S.limits) log.old.seen front.now }
    requires table { table.now ≡ after S.base log.old.seen }
    ensures standing { IsStanding (serial_terms S.base S.limits) (memory_store store.new) base.now
        (AreVersions (serial_terms S.base S.limits) store.new log.new.seen) }
    ensures same { log.new ≡ log.old }
{
    let page = match age {
        1 => 0,
        3 => 1,
        4 => 2,
        _ => return Ok(()),
    };
    let now = base_at(rt, log, table)?;
    replace_page(rt, log, store, base, page, front, &now, steps)
}

// So many drawn deltas more.
pub(crate) fn grow_by<S: Setup, N: Ledger, R: Abort + AllocGlobal>(
    rt: &R,
    log: &mut SerialLog<S>,
    front: Front,
    table: Table,
    draws: (u32, u32),
    steps: &mut Steps<N>,
) -> Result<(Front, Table), Memory>
    requires draws { draws.0 + draws.1 ≤ 100_000 }
    requires limit { S.limits.row_limit ≡ LIMIT }
    requires whole { IsWhole (serial_terms S.base S.limits) log.old.seen front }
    requires table { table ≡ after S.base log.old.seen }
    ensures whole { IfOk result (λ r. IsWhole (serial_terms S.base S.limits) log.new.seen r.0) }
    ensures table { IfOk result (λ r. r.1 ≡ after S.base log.new.seen) }
    ensures grows { Grows (serial_handle log.old) (serial_handle log.new) }
{
    commit_log::laws::handles();
    let (first, count) = draws;
    let mut at = front;
    let mut now = table;
    for k in 0..count {
        let n = (first + k).wrapping_mul(2_654_435_761) % 4_000_000_000;
        (at, now) = grow(rt, log, at, now, n, steps)?;
    }
    Ok((at, now))
}

const AGES: [(Column, Stretch); 5] = [
    (
        Column::Qty,
        Stretch {
            first: 0,
            after: 10,
        },
    ),
    (
        Column::Qty,
        Stretch {
            first: 10,
            after: 20,
        },
    ),
    (Column::Disc, Stretch { first: 4, after: 7 }),
    (
        Column::Ship,
        Stretch {
            first: 48,
            after: 54,
        },
    ),
    (Column::Flag, Stretch { first: 0, after: 2 }),
];

pub(crate) fn plan_of(
    ship: Option<Stretch>,
    disc: Option<Stretch>,
    qty: Option<Stretch>,
    pages: bool,
) -> Plan
    requires ship { IfSome ship (λ s. s.after ≤ 84) }
    requires disc { IfSome disc (λ s. s.after ≤ 11) }
    requires qty { IfSome qty (λ s. s.after ≤ 50) }
    ensures { FitsColumns result }
{
    Plan {
        ship,
        disc,
        qty,
        flag: None,
        status: None,
        pages,
    }
}

pub(crate) fn some(first: u8, after: u8) -> Option<Stretch>
    ensures { result ≡ Some (record { first = first; after = after }) }
{
    Some(Stretch { first, after })
}

// Versions of five ages, and the base's.
fn five_ages<S: Setup, N: Ledger, R: Abort + AllocGlobal>(
    rt: &R,
    log: &mut SerialLog<S>,
    store: &mut MemoryStore<S>,
    base: &Base,
    table: Table,
    steps: &mut Steps<N>,
) -> Result<(Table, [u32; 6]), Memory>
    requires limit { S.limits.row_limit ≡ LIMIT }
    requires room { base.now.row_room ≡ LIMIT }
    requires keys { HasDistinctLiveKeys S.base }
    requires standing { IsStanding (serial_terms S.base S.limits) (memory_store store.old) base.now
        (AreVersions (serial_terms S.base S.limits) store.old log.old.seen) }
    requires new { log.old.seen ≡ [] }
    requires table { table ≡ S.base }
    ensures standing { IsStanding (serial_terms S.base S.limits) (memory_store store.new) base.now
        (AreVersions (serial_terms S.base S.limits) store.new log.new.seen) }
{
    commit_log::laws::handles();
    let mut lengths = [0; 6];
    let mut at = log.start();
    let mut now = table;
    for age in 0..5 {
        (at, now) = grow_by(rt, log, at, now, (100 * age as u32, 100), steps)?;
        let (column, stretch) = AGES[age];
        replace_bins(rt, log, store, base, column, stretch, &at, &now, steps)?;
        replace_page_of(rt, log, store, base, age, &at, &now, steps)?;
        if age == 2 {
            replace_bits(rt, log, store, base, Unit::Live, &at, &now, steps)?;
        }
        lengths[age] = at.len;
    }
    (at, now) = grow_by(rt, log, at, now, (500, 100), steps)?;
    lengths[5] = at.len;
    Ok((now, lengths))
}

// Plans over versions of several ages, by how many deltas each is patched, against the plain table.
fn plans_agree<S: VersionStore, N: Ledger, M: Ledger, R: Abort + AllocGlobal>(
    rt: &R,
    log: &mut S::Log,
    store: &mut S,
    base: &Base,
    table: &Table,
    lengths: [u32; 6],
    steps: &mut Steps<N>,
    reads: &mut Steps<M>,
) -> Result<(), Memory>
    requires standing { IsStanding S.Log.terms (S.store store.old) base.now (S.over store.old log.old) }
    ensures standing { IsStanding S.Log.terms (S.store store.new) base.now (S.over store.new log.new) }
    ensures grows { Grows (S.Log.handle log.old) (S.Log.handle log.new) }
{
    commit_log::laws::handles();
    let [_, second, third, fourth, _, last] = lengths;
    assert!(rt; second < third && third < fourth && fourth < last);
    let plan = plan_of(None, None, None, false);
    assert_eq!(rt;
        agrees(rt, log, store, base, table, &plan, steps, reads)?,
        (last - third, 0)
    );
    let plan = plan_of(some(48, 54), None, None, false);
    assert_eq!(rt;
        agrees(rt, log, store, base, table, &plan, steps, reads)?,
        (last - fourth, 0)
    );
    let plan = plan_of(some(48, 54), some(4, 7), some(10, 20), false);
    assert_eq!(rt;
        agrees(rt, log, store, base, table, &plan, steps, reads)?,
        (last - second, 0)
    );
    let plan = plan_of(some(48, 54), some(4, 7), some(0, 50), true);
    assert_eq!(rt;
        agrees(rt, log, store, base, table, &plan, steps, reads)?,
        (last, 0)
    );
    let plan = plan_of(None, None, some(3, 2), false);
    assert_eq!(rt;
        agrees(rt, log, store, base, table, &plan, steps, reads)?,
        (0, 0)
    );
    let plan = plan_of(None, None, some(3, 2), true);
    assert_eq!(rt;
        agrees(rt, log, store, base, table, &plan, steps, reads)?,
        (last - second, 0)
    );
    Ok(())
}

// The first hold is lost.
fn lost_hold_agrees<S: Setup, N: Ledger, M: Ledger, R: Abort + AllocGlobal>(
    rt: &R,
    log: &mut SerialLog<S>,
    base: &Base,
    table: &Table,
    last: u32,
    steps: &mut Steps<N>,
    reads: &mut Steps<M>,
) -> Result<(), Memory>
    requires limits { S.limits ≡ record { row_limit = LIMIT; log_limit = 700; tries = 1 } }
    requires base { base.now ≡ record { table = S.base; row_room = LIMIT } }
{
    let lost = vec![in rt.alloc(); 1]?;
    let mut store = LosingStore::make(rt.alloc(), base, log, lost)?;
    let plan = plan_of(some(48, 54), some(4, 7), some(10, 20), true);
    let told = agrees(rt, log, &mut store, base, table, &plan, steps, reads)?;
    assert_eq!(rt; told, (last, 1));
    Ok(())
}

fn stores_agree<S: Setup, N: Ledger, M: Ledger, R: Abort + AllocGlobal>(
    rt: &R,
    log: &mut SerialLog<S>,
    base: &Base,
    table: Table,
    steps: &mut Steps<N>,
    reads: &mut Steps<M>,
) -> Result<(), Memory>
    requires limits { S.limits ≡ record { row_limit = LIMIT; log_limit = 700; tries = 1 } }
    requires base { base.now ≡ record { table = S.base; row_room = LIMIT } }
    requires keys { HasDistinctLiveKeys S.base }
    requires new { log.old.seen ≡ [] }
    requires table { table ≡ S.base }
{
    let mut store = MemoryStore::make(rt.alloc(), base, log)?;
    let (table, lengths) = five_ages(rt, log, &mut store, base, table, steps)?;
    plans_agree(rt, log, &mut store, base, &table, lengths, steps, reads)?;
    lost_hold_agrees(rt, log, base, &table, lengths[5], steps, reads)
}

fn ages<S: Setup, N: Ledger, M: Ledger, R: Abort + AllocGlobal>(
    rt: &R,
    blank: Blank,
    other: Blank,
    table: Table,
    same: Table,
) -> Result<(), Memory>
    requires name { blank.name ≡ N.name }
    requires parts { blank.parts ≡ N.parts }
    requires some { 0 < N.parts }
    requires other_name { other.name ≡ M.name }
    requires other_parts { other.parts ≡ M.parts }
    requires other_some { 0 < M.parts }
    requires limits { S.limits ≡ record { row_limit = LIMIT; log_limit = 700; tries = 1 } }
    requires base { S.base ≡ table }
    requires same { same ≡ table }
    requires keys { HasDistinctLiveKeys table }
    requires few { length table ≤ 9_000 }
{
    let mut steps = Steps::<N>::make(blank);
    let mut reads = Steps::<M>::make(other);
    let base = Base::build(rt.alloc(), same, LIMIT)?;
    let limits = Limits {
        row_limit: LIMIT,
        log_limit: 700,
        tries: 1,
    };
    let mut log = SerialLog::<S>::make(rt.alloc(), base.rows(), 700, limits)?;
    stores_agree(rt, &mut log, &base, table, &mut steps, &mut reads)
}

#[test]
fn versions_of_five_ages(rt: HostRuntime) -> Result<(), Fail> {
    let table = table_of(rt.alloc(), 9_000)?;
    let same = copy_of(rt.alloc(), &table)?;
    ages::<Brand, Brand, Brand, HostRuntime>(&rt, Blank::new(1), Blank::new(1), table, same)?;
    Ok(())
}
