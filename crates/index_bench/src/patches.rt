//! How long it takes to carry units over deltas.
ghost use Rattle.std.specs.Prelude.{◌≡◌, ◌+◌, ◌<◌, ◌≤◌, ℕ, IfOk, IfSome, OnOk, List, length};
ghost use Rattle.column_bins.specs.Column.{bin_count};
ghost use Rattle.cubit_base.specs.Table.{Row};
ghost use Rattle.cubit_base.specs.Delta.{applied, IsLawful};
ghost use Rattle.cubit_base.specs.History.{after, rows_after, IsHistory};
ghost use Rattle.wah_words.specs.Place.{page_count};
ghost use Rattle.unit_version.specs.Patch.{IsSomeUnit};
ghost use Rattle.unit_version.specs.Unit.{IsUnit};

use column_bins::Column;
use cubit_base::{Delta, DeltaList, Flag, Key, LineStatus, ROW_LIMIT, Table, Tuple, laws};
use std::alloc::Global;
use std::io;
use std::rt::Clock;
use std::time::{Duration, Instant};
use tbl_text::base_of;
use unit_version::{Base, Changes, Content, Memory, Unit, patched_by};

/// Rows, each with its key and its tuple or none.
pub(crate) type Rows = Vec<(Key, Option<Tuple>)>;

/// How many deltas, and the least times of the rounds over them.
#[derive(Drop)]
pub(crate) struct Patches {
    pub(crate) deltas: u32,
    /// Of a copy of the words of one bin, and of that bin after updates of quantities.
    pub(crate) copy: Duration,
    pub(crate) bin: Duration,
    /// Of all units after updates of whole tuples: what the deltas change, the bits, the pages and the key pages.
    pub(crate) digest: Duration,
    pub(crate) bits: Duration,
    pub(crate) pages: Duration,
    pub(crate) keys: Duration,
}

/// Carries the units of the index of a file's bytes over so many deltas, a few times for each number.
pub(crate) fn patched_times<R: Clock + AllocGlobal>(
    rt: &R,
    bytes: &[u8],
    rounds: u32,
) -> io::Result<Vec<Patches>>
    requires { length bytes.now ≤ u32.MAX }
{
    laws::live_rows();
    let alloc = rt.alloc();
    let Ok(table) = base_of(alloc, bytes, ROW_LIMIT) else {
        return Err(io::Error::from(io::ErrorKind::InvalidData));
    };
    let rows = rows_of(alloc, &table)?;
    let room = table.len();
    let base = Base::build(alloc, table, room)?;
    let mut times = Vec::new(alloc);
    for count in [0, 10, 1_000, 10_000, 100_000] {
        times.push(timed(rt, &base, &rows, count, rounds)?)?;
    }
    Ok(times)
}

/// The rows of a table.
pub(crate) fn rows_of(alloc: Global, table: &Table) -> Result<Rows, Memory>
    ensures { IfOk result (λ rows. rows.items ≡ table.now) }
{
    let mut rows = Vec::with_capacity(alloc, table.len() as usize)?;
    for n in 0..table.len() {
        rows.push(table.row(n).unwrap())?;
    }
    Ok(rows)
}

fn timed<R: Clock + AllocGlobal>(
    rt: &R,
    base: &Base,
    rows: &Rows,
    count: u32,
    rounds: u32,
) -> io::Result<Patches>
    requires rows { rows.now.items ≡ base.now.table }
    requires few { length rows.now.items ≤ 16_777_216 }
    requires count { count ≤ 1_000_000 }
{
    let (quantities, rows_then) = drawn(rt.alloc(), rows, count, false)?;
    let changes = Changes::of(rt.alloc(), &quantities)?;
    let unit = Unit::Bin(Column::Qty, 23);
    let mut best = Patches {
        deltas: count,
        copy: Duration::MAX,
        bin: Duration::MAX,
        digest: Duration::MAX,
        bits: Duration::MAX,
        pages: Duration::MAX,
        keys: Duration::MAX,
    };
    for _ in 0..rounds {
        best.copy = best.copy.min(copied(rt, base.content(unit))?);
        best.bin = best.bin.min(carried(rt, base, unit, &changes, rows_then)?);
    }
    let (tuples, rows_then) = drawn(rt.alloc(), rows, count, true)?;
    for _ in 0..rounds {
        let began = Instant::now(rt)?;
        let changes = &Changes::of(rt.alloc(), &tuples)?;
        best.digest = best.digest.min(began.elapsed(rt)?);
        best.bits = best.bits.min(all_bits(rt, base, changes, rows_then)?);
        best.pages = best.pages.min(all_pages(rt, base, changes, rows_then)?);
        best.keys = best.keys.min(all_keys(rt, base, changes, rows_then)?);
    }
    Ok(best)
}

// The time of a copy of a bin's words.
fn copied<R: Clock + AllocGlobal>(rt: &R, content: &Content) -> io::Result<Duration> {
    let Content::Bits(bits) = content else {
        return Ok(Duration::ZERO);
    };
    let began = Instant::now(rt)?;
    let _copy = bits.wah().words().to_vec(rt.alloc())?;
    began.elapsed(rt)
}

// The time in which a unit is carried over deltas.
fn carried<R: Clock + AllocGlobal>(
    rt: &R,
    base: &Base,
    unit: Unit,
    changes: &Changes,
    rows_then: u32,
) -> io::Result<Duration>
    requires unit { IsUnit (page_count base.now.row_room) unit }
    requires some { IsSomeUnit unit }
    requires lawful { IsHistory 16_777_216 base.now.table changes.now }
    requires end { rows_after base.now.table changes.now ≡ rows_then }
{
    let began = Instant::now(rt)?;
    let _made = patched_by(
        rt.alloc(),
        unit,
        base.content(unit),
        base.rows(),
        changes,
        rows_then,
    )?;
    began.elapsed(rt)
}

fn all_bits<R: Clock + AllocGlobal>(
    rt: &R,
    base: &Base,
    changes: &Changes,
    rows_then: u32,
) -> io::Result<Duration>
    requires lawful { IsHistory 16_777_216 base.now.table changes.now }
    requires end { rows_after base.now.table changes.now ≡ rows_then }
{
    let began = Instant::now(rt)?;
    carried(rt, base, Unit::Live, changes, rows_then)?;
    column_bits(rt, base, Column::Ship, 84, changes, rows_then)?;
    column_bits(rt, base, Column::Disc, 11, changes, rows_then)?;
    column_bits(rt, base, Column::Qty, 50, changes, rows_then)?;
    column_bits(rt, base, Column::Flag, 3, changes, rows_then)?;
    column_bits(rt, base, Column::Status, 2, changes, rows_then)?;
    began.elapsed(rt)
}

fn column_bits<R: Clock + AllocGlobal>(
    rt: &R,
    base: &Base,
    column: Column,
    bins: u8,
    changes: &Changes,
    rows_then: u32,
) -> io::Result<()>
    requires bins { bins ≤ bin_count column }
    requires lawful { IsHistory 16_777_216 base.now.table changes.now }
    requires end { rows_after base.now.table changes.now ≡ rows_then }
{
    for bin in 0..bins {
        carried(rt, base, Unit::Bin(column, bin), changes, rows_then)?;
    }
    Ok(())
}

fn all_pages<R: Clock + AllocGlobal>(
    rt: &R,
    base: &Base,
    changes: &Changes,
    rows_then: u32,
) -> io::Result<Duration>
    requires lawful { IsHistory 16_777_216 base.now.table changes.now }
    requires end { rows_after base.now.table changes.now ≡ rows_then }
{
    let began = Instant::now(rt)?;
    for page in 0..base.pages().min(4_228) {
        carried(rt, base, Unit::Page(page), changes, rows_then)?;
    }
    began.elapsed(rt)
}

fn all_keys<R: Clock + AllocGlobal>(
    rt: &R,
    base: &Base,
    changes: &Changes,
    rows_then: u32,
) -> io::Result<Duration>
    requires lawful { IsHistory 16_777_216 base.now.table changes.now }
    requires end { rows_after base.now.table changes.now ≡ rows_then }
{
    let began = Instant::now(rt)?;
    for rest in 0..64 {
        carried(rt, base, Unit::Keys(rest), changes, rows_then)?;
    }
    began.elapsed(rt)
}

// So many drawn updates of rows, of whole tuples or of quantities alone, and how many rows there are then.
fn drawn(alloc: Global, rows: &Rows, count: u32, whole: bool) -> Result<(DeltaList, u32), Memory>
    requires few { length rows.now.items ≤ 16_777_216 }
    requires count { count ≤ 1_000_000 }
    ensures lawful { IfOk result (λ d. IsHistory 16_777_216 rows.now.items d.0) }
    ensures end { IfOk result (λ d. rows_after rows.now.items d.0 ≡ d.1) }
{
    let mut now = Vec::with_capacity(alloc, rows.len())?;
    now.extend_from_slice(rows)?;
    let mut deltas = DeltaList::new(alloc);
    let mut state = 1;
    for _i in 0..count {
        let row = next(&mut state) % (now.len() as u32).max(1);
        let delta = change(&now, row, next(&mut state), whole);
        follow(&mut now, &mut deltas, delta)?;
    }
    Ok((deltas, now.len() as u32))
}

/// The next drawn number.
pub(crate) fn next(state: &mut u64) -> u32 {
    *state = state
        .wrapping_mul(6_364_136_223_846_793_005)
        .wrapping_add(1_442_695_040_888_963_407);
    (*state >> 33) as u32
}

/// Another tuple for a live row, or none.
pub(crate) fn change(rows: &Rows, row: u32, draw: u32, whole: bool) -> Option<Delta>
    ensures lawful { IfSome result (λ d. IsLawful 16_777_216 rows.now.items d) }
    ensures within { IfSome result (λ d. (limit : ℕ) → IsLawful limit rows.now.items d) }
    ensures author { IfSome result (λ d. d.author ≡ 0) }
{
    let (key, before) = *rows.get(row as usize)?;
    let old = before?;
    let qty = (draw % 50) as u8 + 1;
    let after = if whole {
        Tuple {
            price: draw % 10_000_000,
            day: (draw / 3 % 2_557) as u16,
            qty,
            disc: (draw / 50 % 11) as u8,
            tax: (draw / 7 % 9) as u8,
            flag: if draw & 256 == 0 { Flag::R } else { Flag::N },
            status: if draw & 512 == 0 {
                LineStatus::O
            } else {
                LineStatus::F
            },
        }
    } else {
        Tuple { qty, ..old }
    };
    Some(Delta {
        author: 0,
        row,
        key,
        before,
        after: Some(after),
    })
}

// Applies a delta, and puts it at the end of a history, where there is one.
fn follow(rows: &mut Rows, deltas: &mut DeltaList, delta: Option<Delta>) -> Result<(), Memory>
    requires lawful { IfSome delta (λ d. IsLawful 16_777_216 rows.old.items d) }
    requires few { length deltas.old < 1_000_000 }
    ensures rows_few { OnOk result (length rows.new.items ≤ length rows.old.items + 1) }
    ensures deltas_few { OnOk result (length deltas.new ≤ length deltas.old + 1) }
    ensures history { OnOk result ((base : List Row) → IsHistory 16_777_216 base deltas.old
        → rows.old.items ≡ after base deltas.old
        → IsHistory 16_777_216 base deltas.new × (rows.new.items ≡ after base deltas.new)) }
{
    laws::deltas();
    laws::histories();
    let Some(delta) = delta else {
        return Ok(());
    };
    deltas.push(Delta { ..delta })?;
    apply(rows, &delta)
}

/// Applies a delta.
pub(crate) fn apply(rows: &mut Rows, delta: &Delta) -> Result<(), Memory>
    requires { IsLawful 16_777_216 rows.old.items delta.now }
    ensures { OnOk result (rows.new.items ≡ applied rows.old.items delta.now) }
{
    laws::deltas();
    let place = delta.row as usize;
    if place == rows.len() {
        rows.push((delta.key, delta.after))?;
        return Ok(());
    }
    rows[place] = (delta.key, delta.after);
    Ok(())
}
