//! How long it takes to see held versions at one front.
ghost use Rattle.std.specs.Prelude.{◌≡◌, ◌+◌, ◌<◌, ◌≤◌, [], Some, IfOk, length};
ghost use Rattle.cubit_base.specs.LiveRow.{HasDistinctLiveKeys};
ghost use Rattle.cubit_base.specs.History.{after};
ghost use Rattle.commit_log.specs.Log.{IsWhole};
ghost use Rattle.commit_log.specs.Serial.{serial_terms};
ghost use Rattle.column_bins.specs.Plan.{stretch_of};
ghost use Rattle.column_bins.specs.declared.column.Column.TheVariants.{Qty};
ghost use Rattle.cubit_base.specs.Delta.{IsLawful};
ghost use Rattle.version_store.specs.Memory.{memory_store, AreVersions};
ghost use Rattle.version_store.specs.Store.{IsStanding};
ghost use Rattle.front_patch.specs.Taken.{IsTakenOver};

use crate::patches::{Rows, apply, change, next, rows_of};
use column_bins::{Column, Plan, Stretch};
use commit_log::{CommitLog, Front, SerialLog, Setup};
use cubit_base::{Delta, Limits, ROW_LIMIT, Steps, Table, laws};
use fence_window::BLOCK_GROUPS;
use front_patch::{Taken, take};
use std::alloc::Global;
use std::io;
use std::marker::Brand;
use std::rt::Clock;
use std::sync::ledger::{Blank, Ledger};
use std::time::{Duration, Instant};
use tbl_text::base_of;
use unit_version::{Base, Content, Memory, Unit};
use version_store::{MemoryStore, VersionStore};

// The pages of a block.
const BLOCK_PAGES: u32 = 32;

// The bin that is read.
const BIN: Stretch = Stretch {
    first: 23,
    after: 24,
};

/// How many deltas, and the least times of the rounds over them.
#[derive(Drop)]
pub(crate) struct Fronts {
    pub(crate) deltas: u32,
    /// Of a walk over all deltas, and the last states of their rows in order.
    pub(crate) take: Duration,
    /// Of all groups of a bin.
    pub(crate) stretch: Duration,
    /// How many words the bin has in the base.
    pub(crate) words: usize,
    /// The sum of its groups at the front.
    pub(crate) sum: u64,
}

/// Takes the index of a file's bytes at the front of so many deltas, a few times for each number.
pub(crate) fn front_times<R: Clock + AllocGlobal>(
    rt: &R,
    bytes: &[u8],
    rounds: u32,
) -> io::Result<Vec<Fronts>>
    requires { length bytes.now ≤ u32.MAX }
{
    laws::live_rows();
    let mut times = Vec::new(rt.alloc());
    for count in [0, 1_000, 10_000, 100_000, 1_000_000] {
        let Ok(table) = base_of(rt.alloc(), bytes, ROW_LIMIT) else {
            return Err(io::Error::from(io::ErrorKind::InvalidData));
        };
        times.push(times_at(rt, table, count, rounds)?)?;
    }
    Ok(times)
}

// The same at one front, where nobody counts steps.
fn times_at<R: Clock + AllocGlobal>(
    rt: &R,
    table: Table,
    count: u32,
    rounds: u32,
) -> io::Result<Fronts>
    requires keys { HasDistinctLiveKeys table }
    requires few { length table ≤ 16_777_216 }
    requires count { count ≤ 1_000_000 }
{
    timed::<Brand, Brand, _>(rt, Blank::new(1), table, count, rounds)
}

fn timed<S: Setup, N: Ledger, R: Clock + AllocGlobal>(
    rt: &R,
    blank: Blank,
    table: Table,
    count: u32,
    rounds: u32,
) -> io::Result<Fronts>
    requires name { blank.name ≡ N.name }
    requires parts { blank.parts ≡ N.parts }
    requires some { 0 < N.parts }
    requires base { S.base ≡ table }
    requires limits { S.limits ≡ record { row_limit = length table; log_limit = 1_000_000; tries = 1 } }
    requires keys { HasDistinctLiveKeys table }
    requires few { length table ≤ 16_777_216 }
    requires count { count ≤ 1_000_000 }
{
    let mut steps = Steps::<N>::make(blank);
    let rows = rows_of(rt.alloc(), &table)?;
    let limits = Limits {
        row_limit: table.len(),
        log_limit: 1_000_000,
        tries: 1,
    };
    let room = table.len();
    let base = Base::build(rt.alloc(), table, room)?;
    let mut log = SerialLog::<S>::make(rt.alloc(), room, count, limits)?;
    fill(&mut log, rows, room, count, &mut steps)?;
    let mut store = MemoryStore::make(rt.alloc(), &base, &mut log)?;
    let mut best = Fronts {
        deltas: count,
        take: Duration::MAX,
        stretch: Duration::MAX,
        words: words_of(base.content(Unit::Bin(Column::Qty, BIN.first))),
        sum: 0,
    };
    improve(
        rt, &mut log, &mut store, &base, rounds, &mut best, &mut steps,
    )?;
    Ok(best)
}

// Takes and reads a few times, and keeps the least times.
fn improve<S: VersionStore, N: Ledger, R: Clock + AllocGlobal>(
    rt: &R,
    log: &mut S::Log,
    store: &mut S,
    base: &Base,
    rounds: u32,
    best: &mut Fronts,
    steps: &mut Steps<N>,
) -> io::Result<()>
    requires standing { IsStanding S.Log.terms (S.store store.old) base.now (S.over store.old log.old) }
{
    for _ in 0..rounds {
        let (take, stretch, sum) = taken(rt, log, store, base, steps)?;
        best.take = best.take.min(take);
        best.stretch = best.stretch.min(stretch);
        best.sum = sum;
    }
    Ok(())
}

fn words_of(content: &Content) -> usize {
    match content {
        Content::Bits(bits) => bits.wah().words().len(),
        _ => 0,
    }
}

// Appends so many drawn updates of quantities.
fn fill<S: Setup, N: Ledger>(
    log: &mut SerialLog<S>,
    rows: Rows,
    row_count: u32,
    count: u32,
    steps: &mut Steps<N>,
) -> Result<(), Memory>
    requires new { log.old.seen ≡ [] }
    requires rows { rows.items ≡ S.base }
    requires room { count ≤ log.old.spare }
{
    let mut at = log.start();
    let mut now = rows;
    let mut state = 1;
    for _i in 0..count {
        let row = next(&mut state) % row_count.max(1);
        let draw = next(&mut state);
        if let Some(delta) = change(&now, row, draw, false) {
            at = append(log, &mut now, at, &delta, steps)?;
        }
    }
    Ok(())
}

// Appends a delta behind a front that is that of all deltas, and applies it.
fn append<S: Setup, N: Ledger>(
    log: &mut SerialLog<S>,
    rows: &mut Rows,
    at: Front,
    delta: &Delta,
    steps: &mut Steps<N>,
) -> Result<Front, Memory>
    requires whole { IsWhole (serial_terms S.base S.limits) log.old.seen at }
    requires rows { rows.old.items ≡ after S.base log.old.seen }
    requires lawful { IsLawful S.limits.row_limit rows.old.items delta.now }
    requires applies { IsLawful 16_777_216 rows.old.items delta.now }
    requires author { delta.now.author ≡ 0 }
    requires spare { 1 ≤ log.old.spare }
    ensures whole { IfOk result (IsWhole (serial_terms S.base S.limits) log.new.seen) }
    ensures rows { IfOk result (λ _. rows.new.items ≡ after S.base log.new.seen) }
    ensures spare { IfOk result (λ _. log.old.spare ≤ log.new.spare + 1) }
{
    laws::deltas();
    laws::histories();
    commit_log::laws::appends();
    match log.try_append(&at, delta, steps) {
        Ok(front) => {
            apply(rows, delta)?;
            Ok(front)
        }
        Err(_) => Ok(at),
    }
}

// Takes the versions of one bin at the front of all deltas, and reads it: how long both take, and the sum of its
// groups.
fn taken<S: VersionStore, N: Ledger, R: Clock + AllocGlobal>(
    rt: &R,
    log: &mut S::Log,
    store: &mut S,
    base: &Base,
    steps: &mut Steps<N>,
) -> io::Result<(Duration, Duration, u64)>
    requires standing { IsStanding S.Log.terms (S.store store.old) base.now (S.over store.old log.old) }
    ensures standing { IsStanding S.Log.terms (S.store store.new) base.now (S.over store.new log.new) }
{
    let plan = Plan {
        ship: None,
        disc: None,
        qty: Some(BIN),
        flag: None,
        status: None,
        pages: false,
    };
    let began = Instant::now(rt)?;
    let taken = take(rt.alloc(), log, store, base, &plan, 1, steps)?;
    let walked = began.elapsed(rt);
    let read = read_time(rt, &taken, store, base);
    taken.close(store);
    let (read, sum) = read?;
    Ok((walked?, read, sum))
}

// How long it takes to read a bin, and the sum of its groups.
fn read_time<S: VersionStore, R: Clock>(
    rt: &R,
    taken: &Taken<S>,
    store: &S,
    base: &Base,
) -> io::Result<(Duration, u64)>
    requires over { IsTakenOver S.Log.terms (S.gave store.now) (S.shown store.now) base.now taken.now }
    requires planned { stretch_of Qty taken.now.plan ≡ Some BIN }
{
    front_patch::laws::units();
    let began = Instant::now(rt)?;
    let mut sum = 0u64;
    for block in 0..base.pages().div_ceil(BLOCK_PAGES) {
        let mut groups = [0; BLOCK_GROUPS];
        taken.stretch(
            store,
            base,
            Column::Qty,
            BIN,
            BLOCK_PAGES * block,
            &mut groups,
        );
        sum = sum.wrapping_add(sum_of(&groups));
    }
    Ok((began.elapsed(rt)?, sum))
}

fn sum_of(groups: &[u32; BLOCK_GROUPS]) -> u64 {
    let mut sum = 0u64;
    for group in groups {
        sum = sum.wrapping_add(u64::from(*group));
    }
    sum
}
