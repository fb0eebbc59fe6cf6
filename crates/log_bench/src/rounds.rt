//! The rounds of a measurement.
ghost use Rattle.std.specs.Prelude.{◌≡◌, ◌<◌, ◌≤◌, [], ◌∷◌, Some};

use crate::calls::{filled, sum_of};
use commit_log::{CommitLog, SerialLog, Setup};
use cubit_base::{Flag, Key, Limits, LineStatus, Steps, Tuple};
use std::io;
use std::marker::Brand;
use std::rt::Clock;
use std::sync::ledger::{Blank, Ledger};
use std::time::{Duration, Instant};

/// The most deltas that a log may have.
pub(crate) const MOST_DELTAS: u32 = 4_194_304;

/// What the calls gave, and the least times of the rounds for all deltas.
#[derive(Drop)]
pub(crate) struct Report {
    pub(crate) sum: u64,
    pub(crate) append: Duration,
    pub(crate) following: Duration,
    /// Of a search for a key that no delta has.
    pub(crate) latest: Duration,
}

/// Fills a log, walks over it and searches it, so many times.
pub(crate) fn measured<R: Clock + AllocGlobal>(
    rt: &R,
    deltas: u32,
    rounds: u32,
) -> io::Result<Report>
    requires { deltas ≤ MOST_DELTAS }
{
    let mut report = Report {
        sum: 0,
        append: Duration::MAX,
        following: Duration::MAX,
        latest: Duration::MAX,
    };
    for _ in 0..rounds {
        let last = one_round(rt, deltas)?;
        report = Report {
            sum: last.sum,
            append: report.append.min(last.append),
            following: report.following.min(last.following),
            latest: report.latest.min(last.latest),
        };
    }
    Ok(report)
}

// One round, whose steps nobody counts, over a table of one live row.
fn one_round<R: Clock + AllocGlobal>(rt: &R, deltas: u32) -> io::Result<Report>
    requires { deltas ≤ MOST_DELTAS }
{
    let key = Key { order: 1, line: 1 };
    round::<Brand, Brand, _>(rt, Blank::new(1), key, (tuple(17), tuple(7)), deltas)
}

fn tuple(qty: u8) -> Tuple
    requires { (1 ≤ qty) × (qty ≤ 50) }
{
    Tuple {
        price: 2_116_823,
        day: 1533,
        qty,
        disc: 4,
        tax: 2,
        flag: Flag::N,
        status: LineStatus::O,
    }
}

fn round<S: Setup, N: Ledger, R: Clock + AllocGlobal>(
    rt: &R,
    blank: Blank,
    key: Key,
    tuples: (Tuple, Tuple),
    deltas: u32,
) -> io::Result<Report>
    requires name { blank.name ≡ N.name }
    requires parts { blank.parts ≡ N.parts }
    requires some { 0 < N.parts }
    requires base { S.base ≡ (key, Some tuples.0) ∷ [] }
    requires limits { S.limits ≡ record { row_limit = 1; log_limit = MOST_DELTAS; tries = 1 } }
    requires deltas { deltas ≤ MOST_DELTAS }
{
    let limits = Limits {
        row_limit: 1,
        log_limit: MOST_DELTAS,
        tries: 1,
    };
    let mut steps = Steps::<N>::make(blank);
    let mut log = SerialLog::<S>::make(rt.alloc(), 1, deltas, limits)?;
    let start = log.front(&mut steps);
    let began = Instant::now(rt)?;
    let whole = filled(&mut log, &start, key, tuples, deltas, &mut steps);
    let append = began.elapsed(rt)?;
    let Some(to) = whole else {
        return Err(io::Error::from(io::ErrorKind::InvalidData));
    };
    let began = Instant::now(rt)?;
    let sum = sum_of(&mut log, &start, &to, &mut steps);
    let following = began.elapsed(rt)?;
    let other = Key { order: 2, line: 1 };
    let began = Instant::now(rt)?;
    let found = log.latest(&other, &start, &to, &mut steps);
    let latest = began.elapsed(rt)?;
    Ok(Report {
        sum: sum.wrapping_add(u64::from(found.is_some())),
        append,
        following,
        latest,
    })
}
