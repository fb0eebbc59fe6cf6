//! How long a query takes.
ghost use Rattle.version_store.specs.Store.{IsStanding};
ghost use Rattle.std.specs.Prelude.{◌≤◌};

use crate::cases::Case;
use cubit_base::Steps;
use selection::{count, sum};
use std::io;
use std::rt::Clock;
use std::sync::ledger::Ledger;
use std::time::{Duration, Instant};
use unit_version::Base;
use version_store::VersionStore;

/// How often a version is asked for.
pub(crate) const TRIES: u32 = 8;

/// What a query answers, and how long its sum and its count took in each round.
#[derive(Drop)]
pub(crate) struct Timed {
    pub(crate) count: u32,
    pub(crate) sum: u64,
    pub(crate) sums: Vec<Duration>,
    pub(crate) counts: Vec<Duration>,
}

/// The least of the times, and the one in their middle.
pub(crate) fn least_and_median(times: &mut Vec<Duration>) -> (Duration, Duration) {
    times.sort_unstable();
    let middle = times.len() / 2;
    match (times.first(), times.get(middle)) {
        (Some(least), Some(median)) => (*least, *median),
        _ => (Duration::ZERO, Duration::ZERO),
    }
}

/// Asks a query so many times.
pub(crate) fn time_query<S: VersionStore, N: Ledger, M: Ledger, R: Clock + AllocGlobal>(
    rt: &R,
    log: &mut S::Log,
    store: &mut S,
    base: &Base,
    case: &Case,
    rounds: u32,
    steps: &mut Steps<N>,
    reads: &mut Steps<M>,
) -> io::Result<Timed>
    requires standing { IsStanding S.Log.terms (S.store store.old) base.now (S.over store.old log.old) }
    ensures standing { IsStanding S.Log.terms (S.store store.new) base.now (S.over store.new log.new) }
{
    let mut timed = Timed {
        count: 0,
        sum: 0,
        sums: Vec::new(rt.alloc()),
        counts: Vec::new(rt.alloc()),
    };
    for _ in 0..rounds {
        ask(rt, log, store, base, case, &mut timed, steps, reads)?;
    }
    Ok(timed)
}

// Asks a query once.
fn ask<S: VersionStore, N: Ledger, M: Ledger, R: Clock + AllocGlobal>(
    rt: &R,
    log: &mut S::Log,
    store: &mut S,
    base: &Base,
    case: &Case,
    timed: &mut Timed,
    steps: &mut Steps<N>,
    reads: &mut Steps<M>,
) -> io::Result<()>
    requires standing { IsStanding S.Log.terms (S.store store.old) base.now (S.over store.old log.old) }
    ensures standing { IsStanding S.Log.terms (S.store store.new) base.now (S.over store.new log.new) }
{
    let (alloc, predicate) = (rt.alloc(), &case.predicate);
    let began = Instant::now(rt)?;
    let found = sum(alloc, log, store, base, predicate, TRIES, steps, reads)?;
    timed.sums.push(began.elapsed(rt)?)?;
    let began = Instant::now(rt)?;
    let counted = count(alloc, log, store, base, predicate, TRIES, steps, reads)?;
    timed.counts.push(began.elapsed(rt)?)?;
    timed.sum = found.sum;
    timed.count = counted.count;
    Ok(())
}
