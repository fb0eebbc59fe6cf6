//! The rounds of a measurement.
ghost use Rattle.std.specs.Prelude.{◌≡◌, ◌<◌, ◌≤◌, length};
ghost use Rattle.cubit_base.specs.LiveRow.{HasDistinctLiveKeys};

use crate::checksum::Checksum;
use cubit_base::{Key, ROW_LIMIT, Steps, Table, laws};
use std::alloc::Global;
use std::io;
use std::marker::Brand;
use std::rt::Clock;
use std::sync::ledger::{Blank, Ledger};
use std::time::{Duration, Instant};
use tbl_text::base_of;
use unit_version::{Base, Content, Memory, Unit, key_pages};

// How many keys are asked for.
const FINDS: u32 = 400_000;

/// What was made, and the least times of the rounds.
#[derive(Drop)]
pub(crate) struct Report {
    pub(crate) checksum: Checksum,
    /// Of all units.
    pub(crate) build: Duration,
    /// Of the key pages alone.
    pub(crate) keys: Duration,
    /// Of a search on average.
    pub(crate) find: Duration,
}

/// Builds the index of the bytes of a file so many times, and asks it for keys.
pub(crate) fn measured<R: Clock + AllocGlobal>(
    rt: &R,
    bytes: &[u8],
    rounds: u32,
) -> io::Result<Report>
    requires { length bytes.now ≤ u32.MAX }
{
    let mut report = Report {
        checksum: Checksum::new(),
        build: Duration::MAX,
        keys: Duration::MAX,
        find: Duration::MAX,
    };
    for _ in 0..rounds {
        let last = one_round(rt, bytes)?;
        report = Report {
            checksum: last.checksum,
            build: report.build.min(last.build),
            keys: report.keys.min(last.keys),
            find: report.find.min(last.find),
        };
    }
    Ok(report)
}

// One round, whose reads of tuples nobody counts.
fn one_round<R: Clock + AllocGlobal>(rt: &R, bytes: &[u8]) -> io::Result<Report>
    requires { length bytes.now ≤ u32.MAX }
{
    round::<Brand, _>(rt, bytes, Blank::new(1))
}

fn round<N: Ledger, R: Clock + AllocGlobal>(
    rt: &R,
    bytes: &[u8],
    blank: Blank,
) -> io::Result<Report>
    requires bytes { length bytes.now ≤ u32.MAX }
    requires name { blank.name ≡ N.name }
    requires parts { blank.parts ≡ N.parts }
    requires some { 0 < N.parts }
{
    laws::live_rows();
    let Ok(table) = base_of(rt.alloc(), bytes, ROW_LIMIT) else {
        return Err(io::Error::from(io::ErrorKind::InvalidData));
    };
    let asked = asked(rt.alloc(), &table)?;
    let rows = table.len();
    let keys = keys_time(rt, &table)?;
    let began = Instant::now(rt)?;
    let base = Base::build(rt.alloc(), table, rows)?;
    let build = began.elapsed(rt)?;
    let began = Instant::now(rt)?;
    let found = rows_found(&base, &asked);
    let find = began.elapsed(rt)? / FINDS;
    let mut checksum = Checksum::new();
    checksum.add_base(&base, &mut Steps::<N>::make(blank));
    checksum.add(found);
    Ok(Report {
        checksum,
        build,
        keys,
        find,
    })
}

// How long the key pages alone take.
fn keys_time<R: Clock + AllocGlobal>(rt: &R, table: &Table) -> io::Result<Duration>
    requires { HasDistinctLiveKeys table.now }
{
    let began = Instant::now(rt)?;
    let _pages = key_pages(rt.alloc(), table)?;
    began.elapsed(rt)
}

// Keys of rows that are drawn from all.
fn asked(alloc: Global, table: &Table) -> Result<Vec<Key>, Memory> {
    let mut keys = Vec::with_capacity(alloc, FINDS as usize)?;
    let mut state = 1u64;
    for _ in 0..FINDS {
        state = state
            .wrapping_mul(6_364_136_223_846_793_005)
            .wrapping_add(1_442_695_040_888_963_407);
        let row = (state >> 33) % u64::from(table.len().max(1));
        if let Some((key, _)) = table.row(row as u32) {
            keys.push(key)?;
        }
    }
    Ok(keys)
}

// The sum of the numbers of the rows that the keys have.
fn rows_found(base: &Base, keys: &[Key]) -> u64 {
    let mut sum = 0u64;
    for key in keys {
        if let Content::Keys(page) = base.content(Unit::Keys((key.order % 64) as u8)) {
            if let Some((row, _)) = page.find(key) {
                sum = sum.wrapping_add(u64::from(row));
            }
        }
    }
    sum
}
