//! The rounds of a measurement.
ghost use Rattle.std.specs.Prelude.{◌≡◌, ◌<◌, ◌≤◌, length};
ghost use Rattle.cubit_base.specs.LiveRow.{HasDistinctLiveKeys};
ghost use Rattle.version_store.specs.Store.{IsStanding};

use crate::calls::{looked_up, updated};
use crate::checksum::Checksum;
use crate::drawn::Drawn;
use commit_log::{CommitLog, SerialLog, Setup};
use cubit_base::{Limits, ROW_LIMIT, Steps, Table, laws};
use merger::{MergeCount, merge_all};
use std::io;
use std::marker::Brand;
use std::rt::Clock;
use std::sync::ledger::{Blank, Ledger};
use std::time::{Duration, Instant};
use tbl_text::base_of;
use unit_version::Base;
use version_store::{MemoryStore, VersionStore};

/// The most updates of all rounds.
const MOST_UPDATES: u32 = 4_194_304;

/// What each round does before it merges all units.
#[derive(Clone, Copy)]
pub(crate) struct Work {
    /// Updates.
    pub(crate) deltas: u32,
    /// Look-ups and then updates that are timed beside these.
    pub(crate) beside: u32,
    pub(crate) rounds: u32,
    /// Whether they change all columns, or quantities alone.
    pub(crate) whole: bool,
}

/// The times of a round.
#[derive(Clone, Copy)]
pub(crate) struct Times {
    pub(crate) updates: Duration,
    pub(crate) beside_lookups: Duration,
    pub(crate) beside_updates: Duration,
    pub(crate) merge: Duration,
}

/// Does the work over the table of a file's bytes, and tells each round's times. A checksum of what was answered and of
/// all versions.
pub(crate) fn measured<R: Clock + Eprint + AllocGlobal>(
    rt: &R,
    bytes: Vec<u8>,
    work: Work,
) -> io::Result<u64>
    requires { length bytes.items ≤ u32.MAX }
{
    laws::live_rows();
    let Ok(table) = base_of(rt.alloc(), &bytes, ROW_LIMIT) else {
        return Err(io::Error::from(io::ErrorKind::InvalidData));
    };
    // From here on the table is enough, and the peak of memory is told of what comes.
    drop(bytes);
    one_session(rt, table, work)
}

// The steps of the session nobody counts.
fn one_session<R: Clock + Eprint + AllocGlobal>(rt: &R, table: Table, work: Work) -> io::Result<u64>
    requires keys { HasDistinctLiveKeys table }
    requires rows { length table ≤ ROW_LIMIT }
{
    let limits = Limits {
        row_limit: table.len(),
        log_limit: MOST_UPDATES,
        tries: 1,
    };
    session::<Brand, Brand, R>(rt, Blank::new(1), table, limits, work)
}

fn session<S: Setup, N: Ledger, R: Clock + Eprint + AllocGlobal>(
    rt: &R,
    blank: Blank,
    table: Table,
    limits: Limits,
    work: Work,
) -> io::Result<u64>
    requires name { blank.name ≡ N.name }
    requires parts { blank.parts ≡ N.parts }
    requires some { 0 < N.parts }
    requires base { S.base ≡ table }
    requires limits { S.limits ≡ limits }
    requires keys { HasDistinctLiveKeys table }
    requires rows { limits.row_limit ≡ length table }
    requires row_limit { limits.row_limit ≤ ROW_LIMIT }
    requires log_limit { limits.log_limit ≡ MOST_UPDATES }
    requires tries { limits.tries ≡ 1 }
{
    let alloc = rt.alloc();
    let mut drawn = Drawn::from(alloc, &table)?;
    let mut steps = Steps::<N>::make(blank);
    let base = Base::build(alloc, table, limits.row_limit)?;
    let mut log = SerialLog::<S>::make(alloc, base.rows(), MOST_UPDATES, limits)?;
    let mut store = MemoryStore::make(alloc, &base, &mut log)?;
    eprintln!(rt; "begin")?;
    run(
        rt, &mut log, &mut store, &base, &mut drawn, work, &mut steps,
    )
}

// All rounds, and then a checksum.
fn run<S: VersionStore, N: Ledger, R: Clock + Eprint + AllocGlobal>(
    rt: &R,
    log: &mut S::Log,
    store: &mut S,
    base: &Base,
    drawn: &mut Drawn,
    work: Work,
    steps: &mut Steps<N>,
) -> io::Result<u64>
    requires standing { IsStanding S.Log.terms (S.store store.old) base.now (S.over store.old log.old) }
{
    let mut sum = Checksum::new();
    for _ in 0..work.rounds {
        let times = round(rt, log, store, base, drawn, work, &mut sum, steps)?;
        tell(rt, &times)?;
    }
    sum.add(looked_up(log, store, base, drawn.rows(), steps));
    sum.add_versions(log, store, base, steps);
    Ok(sum.value())
}

fn round<S: VersionStore, N: Ledger, R: Clock + AllocGlobal>(
    rt: &R,
    log: &mut S::Log,
    store: &mut S,
    base: &Base,
    drawn: &mut Drawn,
    work: Work,
    sum: &mut Checksum,
    steps: &mut Steps<N>,
) -> io::Result<Times>
    requires standing { IsStanding S.Log.terms (S.store store.old) base.now (S.over store.old log.old) }
    ensures standing { IsStanding S.Log.terms (S.store store.new) base.now (S.over store.new log.new) }
{
    let alloc = rt.alloc();
    let first = drawn.batch(alloc, work.deltas, work.whole)?;
    let looks = drawn.batch(alloc, work.beside, work.whole)?;
    let second = drawn.batch(alloc, work.beside, work.whole)?;
    let began = Instant::now(rt)?;
    sum.add(updated(log, store, base, &first, steps));
    let updates = began.elapsed(rt)?;
    let began = Instant::now(rt)?;
    sum.add(looked_up(log, store, base, &looks, steps));
    let beside_lookups = began.elapsed(rt)?;
    let began = Instant::now(rt)?;
    sum.add(updated(log, store, base, &second, steps));
    let beside_updates = began.elapsed(rt)?;
    let began = Instant::now(rt)?;
    let count = merge_all(alloc, log, store, base, 1, steps)?;
    let merge = began.elapsed(rt)?;
    add_count(sum, &count);
    Ok(Times {
        updates,
        beside_lookups,
        beside_updates,
        merge,
    })
}

fn add_count(sum: &mut Checksum, count: &MergeCount) {
    sum.add(u64::from(count.merged));
    sum.add(u64::from(count.fresh));
    sum.add(u64::from(count.busy));
}

// In nanoseconds.
fn tell<R: Eprint>(rt: &R, times: &Times) -> io::Result<()> {
    eprintln!(rt;
        "updates={} beside_lookups={} beside_updates={} merge={}",
        times.updates.as_nanos(),
        times.beside_lookups.as_nanos(),
        times.beside_updates.as_nanos(),
        times.merge.as_nanos()
    )?;
    Ok(())
}
