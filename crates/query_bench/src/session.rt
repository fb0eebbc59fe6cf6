//! The index of a file, asked at its base, beside deltas that are not merged, and after they are.
ghost use Rattle.std.specs.Prelude.{◌≡◌, ◌<◌, ◌≤◌, length};
ghost use Rattle.cubit_base.specs.LiveRow.{HasDistinctLiveKeys};
ghost use Rattle.version_store.specs.Store.{IsStanding};

use crate::cases::Case;
use crate::times::{TRIES, Timed, time_query};
use commit_log::{CommitLog, Memory, SerialLog, Setup};
use cubit_base::{Key, Limits, ROW_LIMIT, Steps, Table, Tuple, laws};
use merger::merge_all;
use std::alloc::Global;
use std::io;
use std::marker::Brand;
use std::rt::Clock;
use std::sync::ledger::{Blank, Ledger};
use std::time::{Duration, Instant};
use table_ops::update;
use tbl_text::base_of;
use unit_version::Base;
use version_store::{MemoryStore, VersionStore};

/// How many updates there are.
const UPDATES: u32 = 10_000;

/// What was measured: for each state each case, in their order.
#[derive(Drop)]
pub(crate) struct Report {
    pub(crate) build: Duration,
    pub(crate) at_base: Vec<Timed>,
    pub(crate) unmerged: Vec<Timed>,
    pub(crate) merged: Vec<Timed>,
}

/// Asks each case so many times, over the table of a file's bytes.
pub(crate) fn measured<R: Clock + AllocGlobal>(
    rt: &R,
    bytes: &[u8],
    rounds: u32,
    cases: &[Case],
) -> io::Result<Report>
    requires { length bytes.now ≤ u32.MAX }
{
    laws::live_rows();
    let Ok(table) = base_of(rt.alloc(), bytes, ROW_LIMIT) else {
        return Err(io::Error::from(io::ErrorKind::InvalidData));
    };
    let updates = drawn(rt.alloc(), &table)?;
    let blanks = (Blank::new(1), Blank::new(1));
    session::<Brand, Brand, Brand, R>(rt, blanks, table, &updates, rounds, cases)
}

// Other quantities for rows that are drawn from all.
fn drawn(alloc: Global, table: &Table) -> Result<Vec<(Key, Tuple)>, Memory> {
    let mut updates = Vec::with_capacity(alloc, UPDATES as usize)?;
    let mut state = 1u64;
    for _ in 0..UPDATES {
        state = state
            .wrapping_mul(6_364_136_223_846_793_005)
            .wrapping_add(1_442_695_040_888_963_407);
        let row = ((state >> 33) % u64::from(table.len().max(1))) as u32;
        if let Some(update) = update_of(table, row, 1 + ((state >> 20) % 50) as u8) {
            updates.push(update)?;
        }
    }
    Ok(updates)
}

// The key of a live row, and its tuple with another quantity.
fn update_of(table: &Table, row: u32, qty: u8) -> Option<(Key, Tuple)>
    requires { (1 ≤ qty) × (qty ≤ 50) }
{
    let (key, tuple) = table.row(row)?;
    let tuple = tuple?;
    Some((key, Tuple { qty, ..tuple }))
}

fn session<S: Setup, N: Ledger, M: Ledger, R: Clock + AllocGlobal>(
    rt: &R,
    blanks: (Blank, Blank),
    table: Table,
    updates: &[(Key, Tuple)],
    rounds: u32,
    cases: &[Case],
) -> io::Result<Report>
    requires steps_name { blanks.0.name ≡ N.name }
    requires steps_parts { blanks.0.parts ≡ N.parts }
    requires steps_some { 0 < N.parts }
    requires reads_name { blanks.1.name ≡ M.name }
    requires reads_parts { blanks.1.parts ≡ M.parts }
    requires reads_some { 0 < M.parts }
    requires base { S.base ≡ table }
    requires limits { S.limits ≡ record { row_limit = length table; log_limit = UPDATES; tries = TRIES } }
    requires keys { HasDistinctLiveKeys table }
{
    let (steps, reads) = blanks;
    let mut steps = Steps::<N>::make(steps);
    let mut reads = Steps::<M>::make(reads);
    let limits = Limits {
        row_limit: table.len(),
        log_limit: UPDATES,
        tries: TRIES,
    };
    let began = Instant::now(rt)?;
    let base = Base::build(rt.alloc(), table, limits.row_limit)?;
    let build = began.elapsed(rt)?;
    let mut log = SerialLog::<S>::make(rt.alloc(), base.rows(), UPDATES, limits)?;
    let mut store = MemoryStore::make(rt.alloc(), &base, &mut log)?;
    let at_base = all_timed(
        rt, &mut log, &mut store, &base, cases, rounds, &mut steps, &mut reads,
    )?;
    change(&mut log, &mut store, &base, updates, &mut steps);
    let unmerged = all_timed(
        rt, &mut log, &mut store, &base, cases, rounds, &mut steps, &mut reads,
    )?;
    merge_all(rt.alloc(), &mut log, &mut store, &base, TRIES, &mut steps)?;
    let merged = all_timed(
        rt, &mut log, &mut store, &base, cases, rounds, &mut steps, &mut reads,
    )?;
    Ok(Report {
        build,
        at_base,
        unmerged,
        merged,
    })
}

// Asks each case.
fn all_timed<S: VersionStore, N: Ledger, M: Ledger, R: Clock + AllocGlobal>(
    rt: &R,
    log: &mut S::Log,
    store: &mut S,
    base: &Base,
    cases: &[Case],
    rounds: u32,
    steps: &mut Steps<N>,
    reads: &mut Steps<M>,
) -> io::Result<Vec<Timed>>
    requires standing { IsStanding S.Log.terms (S.store store.old) base.now (S.over store.old log.old) }
    ensures standing { IsStanding S.Log.terms (S.store store.new) base.now (S.over store.new log.new) }
{
    let mut all = Vec::new(rt.alloc());
    for case in cases {
        all.push(time_query(rt, log, store, base, case, rounds, steps, reads)?)?;
    }
    Ok(all)
}

// Makes the updates, as far as there is a share left.
fn change<S: VersionStore, N: Ledger>(
    log: &mut S::Log,
    store: &mut S,
    base: &Base,
    updates: &[(Key, Tuple)],
    steps: &mut Steps<N>,
)
    requires standing { IsStanding S.Log.terms (S.store store.old) base.now (S.over store.old log.old) }
    ensures standing { IsStanding S.Log.terms (S.store store.new) base.now (S.over store.new log.new) }
{
    for (key, tuple) in updates {
        if log.spare() != 0 {
            let _ = update(log, store, base, key, tuple, TRIES, steps);
        }
    }
}
