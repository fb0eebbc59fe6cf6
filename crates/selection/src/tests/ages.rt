//! Drawn tables and deltas, with versions of different ages.
ghost use Rattle.std.specs.Prelude.{◌≡◌, ◌+◌, ◌*◌, ◌<◌, ◌≤◌, [], IfOk, length};
ghost use Rattle.cubit_base.specs.History.{after};
ghost use Rattle.cubit_base.specs.LiveRow.{HasDistinctLiveKeys};
ghost use Rattle.column_bins.specs.Column.{bin_count};
ghost use Rattle.commit_log.specs.Log.{IsWhole};
ghost use Rattle.commit_log.specs.Handle.{Grows};
ghost use Rattle.version_store.specs.Store.{IsStanding};

use super::compared::agrees;
use super::moves::{append, replace_bins};
use super::plain::{copy_of, drawn_delta, drawn_tuples, table_of};
use crate::Memory;
use column_bins::{Column, Stretch};
use commit_log::{CommitLog, Front, SerialLog, Setup};
use cubit_base::{Limits, Predicate, Range, Steps, Table};
use std::marker::Brand;
use std::process::Abort;
use std::sync::ledger::{Blank, Ledger};
use std::test::Fail;
use unit_version::Base;
use version_store::{LosingStore, MemoryStore, VersionStore};

const LIMIT: u32 = 128_000;

// So many drawn deltas more, of those from a number on.
fn grow<L: CommitLog, N: Ledger, R: Abort + AllocGlobal>(
    rt: &R,
    log: &mut L,
    front: Front,
    table: Table,
    draws: (u32, u32),
    steps: &mut Steps<N>,
) -> Result<(Front, Table), Memory>
    requires draws { draws.0 + draws.1 ≤ 100_000 }
    requires limit { L.terms.limits.row_limit ≡ LIMIT }
    requires whole { IsWhole L.terms (L.handle log.old).seen front }
    requires table { table ≡ after L.terms.base (L.handle log.old).seen }
    ensures whole { IfOk result (λ r. IsWhole L.terms (L.handle log.new).seen r.0) }
    ensures table { IfOk result (λ r. r.1 ≡ after L.terms.base (L.handle log.new).seen) }
    ensures grows { Grows (L.handle log.old) (L.handle log.new) }
{
    commit_log::laws::handles();
    let (first, count) = draws;
    let mut at = front;
    let mut now = table;
    for k in 0..count {
        let n = (first + k).wrapping_mul(2_654_435_761);
        let delta = drawn_delta(&now, log.author(), LIMIT, n);
        (at, now) = append(rt, log, at, now, delta, steps)?;
    }
    Ok((at, now))
}

// Drawn deltas, and then versions of these bins.
fn age<S: VersionStore, N: Ledger, R: Abort + AllocGlobal>(
    rt: &R,
    log: &mut S::Log,
    store: &mut S,
    base: &Base,
    front: Front,
    table: Table,
    draws: (u32, u32),
    bins: (Column, Stretch),
    steps: &mut Steps<N>,
) -> Result<(Front, Table), Memory>
    requires draws { draws.0 + draws.1 ≤ 100_000 }
    requires limit { S.Log.terms.limits.row_limit ≡ LIMIT }
    requires standing { IsStanding S.Log.terms (S.store store.old) base.now (S.over store.old log.old) }
    requires bins { bins.1.after ≤ bin_count bins.0 }
    requires whole { IsWhole S.Log.terms (S.Log.handle log.old).seen front }
    requires table { table ≡ after S.Log.terms.base (S.Log.handle log.old).seen }
    ensures standing { IsStanding S.Log.terms (S.store store.new) base.now (S.over store.new log.new) }
    ensures whole { IfOk result (λ r. IsWhole S.Log.terms (S.Log.handle log.new).seen r.0) }
    ensures table { IfOk result (λ r. r.1 ≡ after S.Log.terms.base (S.Log.handle log.new).seen) }
{
    let (at, now) = grow(rt, log, front, table, draws, steps)?;
    replace_bins(rt, log, store, base, bins, &at, &now, steps)?;
    Ok((at, now))
}

const AGES: [(Column, Stretch); 5] = [
    (
        Column::Qty,
        Stretch {
            first: 0,
            after: 10,
        },
    ),
    (
        Column::Qty,
        Stretch {
            first: 10,
            after: 20,
        },
    ),
    (Column::Disc, Stretch { first: 4, after: 7 }),
    (
        Column::Ship,
        Stretch {
            first: 48,
            after: 54,
        },
    ),
    (Column::Flag, Stretch { first: 0, after: 2 }),
];

// Versions of five ages, and the base's: the table in the end, and how long the log was at each age.
fn five_ages<S: VersionStore, N: Ledger, R: Abort + AllocGlobal>(
    rt: &R,
    log: &mut S::Log,
    store: &mut S,
    base: &Base,
    table: Table,
    draws: u32,
    steps: &mut Steps<N>,
) -> Result<(Table, [u32; 6]), Memory>
    requires draws { draws ≤ 1_000 }
    requires limit { S.Log.terms.limits.row_limit ≡ LIMIT }
    requires standing { IsStanding S.Log.terms (S.store store.old) base.now (S.over store.old log.old) }
    requires new { (S.Log.handle log.old).seen ≡ [] }
    requires table { table ≡ S.Log.terms.base }
    ensures standing { IsStanding S.Log.terms (S.store store.new) base.now (S.over store.new log.new) }
{
    let mut lengths = [0; 6];
    let mut at = log.start();
    let mut now = table;
    for k in 0..5 {
        (at, now) = age(
            rt,
            log,
            store,
            base,
            at,
            now,
            (draws * k as u32, draws),
            AGES[k],
            steps,
        )?;
        lengths[k] = at.len;
    }
    (at, now) = grow(rt, log, at, now, (5 * draws, draws), steps)?;
    lengths[5] = at.len;
    Ok((now, lengths))
}

fn range(lo: u16, hi: u16) -> Option<Range> {
    Some(Range { lo, hi })
}

fn predicate(
    ship: Option<Range>,
    disc: Option<Range>,
    qty: Option<Range>,
    flag: Option<Range>,
    status: Option<Range>,
) -> Predicate {
    Predicate {
        ship,
        disc,
        qty,
        flag,
        status,
    }
}

// Predicates, and the least length of what their rows need.
fn cases(lengths: [u32; 6]) -> [(Predicate, u32); 15] {
    let [first, second, _, fourth, fifth, last] = lengths;
    let half = range(1461, 1642);
    [
        (predicate(None, None, None, None, None), 0),
        (Predicate::q6(1996, 5, 24), 0),
        (predicate(half, None, None, None, None), fourth),
        (
            predicate(half, range(4, 6), range(11, 20), None, None),
            second,
        ),
        (predicate(None, None, range(1, 20), None, None), first),
        (predicate(None, None, None, range(0, 1), None), fifth),
        (predicate(None, range(0, 10), None, None, None), 0),
        (predicate(None, None, None, None, range(1, 1)), 0),
        // Months that are met in part: at both ends, within one, and two days of two.
        (predicate(range(1470, 1600), None, None, None, None), 0),
        (predicate(range(1470, 1475), None, None, None, None), 0),
        (
            predicate(range(1642, 1643), None, None, range(1, 2), None),
            0,
        ),
        (
            predicate(range(0, 9), None, range(50, 50), range(2, 2), range(0, 0)),
            0,
        ),
        // No bin is met.
        (predicate(range(2557, 3000), None, None, None, None), last),
        (predicate(None, None, range(3, 2), None, None), last),
        (predicate(None, range(11, 65_535), None, None, None), last),
    ]
}

// Each case against the plain table, and by how many deltas the versions were patched where no turn was lost.
fn cases_agree<S: VersionStore, N: Ledger, M: Ledger, R: Abort + AllocGlobal>(
    rt: &R,
    log: &mut S::Log,
    store: &mut S,
    base: &Base,
    table: &Table,
    lengths: [u32; 6],
    loses: bool,
    steps: &mut Steps<N>,
    reads: &mut Steps<M>,
) -> Result<(), Memory>
    requires standing { IsStanding S.Log.terms (S.store store.old) base.now (S.over store.old log.old) }
{
    let last = lengths[5];
    for (predicate, least) in &cases(lengths) {
        let told = agrees(rt, log, store, base, table, predicate, steps, reads)?;
        assert_eq!(rt; told.front, last);
        if !loses {
            let patched = last.wrapping_sub(*least);
            assert_eq!(rt; told.patched, (patched, patched, last), "{predicate:?}");
        }
    }
    Ok(())
}

// A whole session over a store.
fn session<S: VersionStore, N: Ledger, M: Ledger, R: Abort + AllocGlobal>(
    rt: &R,
    log: &mut S::Log,
    store: &mut S,
    base: &Base,
    table: Table,
    draws: u32,
    loses: bool,
    steps: &mut Steps<N>,
    reads: &mut Steps<M>,
) -> Result<(), Memory>
    requires draws { draws ≤ 1_000 }
    requires limit { S.Log.terms.limits.row_limit ≡ LIMIT }
    requires standing { IsStanding S.Log.terms (S.store store.old) base.now (S.over store.old log.old) }
    requires new { (S.Log.handle log.old).seen ≡ [] }
    requires table { table ≡ S.Log.terms.base }
{
    let (now, lengths) = five_ages(rt, log, store, base, table, draws, steps)?;
    assert!(rt; lengths[0] < lengths[1] && lengths[4] < lengths[5]);
    cases_agree(rt, log, store, base, &now, lengths, loses, steps, reads)
}

// Over a table, with a store that loses the holds with these numbers.
fn over<S: Setup, N: Ledger, M: Ledger, R: Abort + AllocGlobal>(
    rt: &R,
    blanks: (Blank, Blank),
    tables: (Table, Table),
    draws: u32,
    lost: &[u32],
) -> Result<(), Memory>
    requires draws { draws ≤ 1_000 }
    requires name { blanks.0.name ≡ N.name }
    requires parts { blanks.0.parts ≡ N.parts }
    requires some { 0 < N.parts }
    requires other_name { blanks.1.name ≡ M.name }
    requires other_parts { blanks.1.parts ≡ M.parts }
    requires other_some { 0 < M.parts }
    requires limits { S.limits ≡ record { row_limit = LIMIT; log_limit = 400; tries = 1 } }
    requires base { S.base ≡ tables.0 }
    requires same { tables.1 ≡ tables.0 }
    requires keys { HasDistinctLiveKeys tables.0 }
    requires few { length tables.0 ≤ LIMIT }
{
    let alloc = rt.alloc();
    let (blank, other) = blanks;
    let (table, same) = tables;
    let mut steps = Steps::<N>::make(blank);
    let mut reads = Steps::<M>::make(other);
    let base = Base::build(alloc, same, LIMIT)?;
    let limits = Limits {
        row_limit: LIMIT,
        log_limit: 400,
        tries: 1,
    };
    let mut log = SerialLog::<S>::make(alloc, base.rows(), 400, limits)?;
    if lost.is_empty() {
        let mut store = MemoryStore::make(alloc, &base, &mut log)?;
        session(
            rt, &mut log, &mut store, &base, table, draws, false, &mut steps, &mut reads,
        )
    } else {
        let lost = Vec::from_slice(alloc, lost)?;
        let mut store = LosingStore::make(alloc, &base, &mut log, lost)?;
        session(
            rt, &mut log, &mut store, &base, table, draws, true, &mut steps, &mut reads,
        )
    }
}

// Over so many drawn rows, with so many drawn deltas for each age.
fn check<R: Abort + AllocGlobal>(rt: &R, rows: u32, draws: u32, lost: &[u32]) -> Result<(), Memory>
    requires rows { rows ≤ LIMIT }
    requires draws { draws ≤ 1_000 }
{
    let tuples = drawn_tuples(rt.alloc(), rows)?;
    let table = table_of(rt.alloc(), &tuples)?;
    let same = copy_of(rt.alloc(), &table)?;
    let blanks = (Blank::new(1), Blank::new(1));
    over::<Brand, Brand, Brand, R>(rt, blanks, (table, same), draws, lost)
}

// More than 32 pages.
#[test]
fn a_store_in_memory(rt: HostRuntime) -> Result<(), Fail> {
    check(&rt, 127_500, 6, &[])?;
    Ok(())
}

#[test]
fn a_store_that_loses_turns(rt: HostRuntime) -> Result<(), Fail> {
    check(&rt, 9_000, 40, &[1, 2, 40, 77, 200, 201])?;
    Ok(())
}
