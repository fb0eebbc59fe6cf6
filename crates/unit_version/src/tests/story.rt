// Histories over small tables: each unit after them is that of the table after them, made afresh.
ghost use Rattle.std.specs.Prelude.{◌≡◌, ◌<◌, ◌≤◌, ◌+◌, List, [], IfOk, OnOk, length};
ghost use Rattle.column_bins.specs.Column.{bin_count};
ghost use Rattle.cubit_base.specs.Table.{Row};
ghost use Rattle.cubit_base.specs.LiveRow.{HasDistinctLiveKeys};
ghost use Rattle.cubit_base.specs.History.{after, IsHistory};
ghost use Rattle.wah_words.specs.Place.{page_count};
ghost use Rattle.unit_version.specs.Unit.{IsUnit};
ghost use Rattle.unit_version.specs.Patch.{IsSomeUnit};

use super::carry::carried;
use super::histories::{Rows, change, follow, insert, rows_of, table_from};
use super::{key_of, table_of, tuple_of};
use crate::{Base, Changes, Content, Memory, Unit, patched, patched_by};
use column_bins::Column;
use cubit_base::{DeltaList, Steps, laws};
use std::alloc::Global;
use std::marker::Brand;
use std::process::Abort;
use std::sync::ledger::{Blank, Ledger};
use std::test::Fail;

// Goes on by so many drawn deltas at most: inserts, deletes, and updates of whole tuples.
fn draw(alloc: Global, rows: &mut Rows, count: u32, seed: u64) -> Result<DeltaList, Memory>
    requires { length rows.old.items + count ≤ 100_000 }
    ensures lawful { IfOk result (λ deltas. IsHistory 16_777_216 rows.old.items deltas) }
    ensures then { IfOk result (λ deltas. rows.new.items ≡ after rows.old.items deltas) }
    ensures few { IfOk result (λ deltas. length rows.new.items ≤ length rows.old.items + count) }
{
    let mut deltas = DeltaList::new(alloc);
    let mut state = seed;
    for n in 0..count {
        state = state
            .wrapping_mul(6_364_136_223_846_793_005)
            .wrapping_add(1_442_695_040_888_963_407);
        let drawn = (state >> 40) as u32;
        let row = drawn % (rows.len() as u32).max(1);
        let delta = match n % 10 {
            0 => match tuple_of(drawn % 5_000) {
                Some(tuple) => insert(rows, key_of(drawn % 9_000), tuple),
                None => None,
            },
            1 => change(rows, row, None),
            _ => change(rows, row, tuple_of(drawn % 70_000)),
        };
        follow(rows, &mut deltas, delta)?;
    }
    Ok(deltas)
}

// Both contents are alike, where keys are asked for those of the rows.
fn is_same<N: Ledger>(
    rt: &impl Abort,
    made: &Content,
    afresh: &Content,
    rows: &Rows,
    reads: &mut Steps<N>,
) {
    match (made, afresh) {
        (Content::Bits(a), Content::Bits(b)) => {
            assert_eq!(rt; a.wah().words(), b.wah().words());
            for page in 0..b.wah().len() / 3_968 + 1 {
                let (mut x, mut y) = ([0; 128], [0; 128]);
                a.window(page, &mut x);
                b.window(page, &mut y);
                assert!(rt; x == y, "page {page}");
            }
        }
        (Content::Page(a), Content::Page(b)) => {
            for at in 0..3_968 {
                assert_eq!(rt; a.get(at, reads), b.get(at, reads), "at {at}");
            }
        }
        (Content::Keys(a), Content::Keys(b)) => {
            for n in 0..rows.len() {
                let (key, _) = rows[n];
                assert_eq!(rt; a.find(&key), b.find(&key));
            }
        }
        _ => assert!(rt; false, "of two kinds"),
    }
}

// The unit after deltas is that of the base after them.
fn follows<N: Ledger, R: Abort + AllocGlobal>(
    rt: &R,
    unit: Unit,
    base: &Base,
    deltas: &DeltaList,
    changes: &Changes,
    then: &Base,
    rows: &Rows,
    reads: &mut Steps<N>,
) -> Result<(), Memory>
    requires unit { IsUnit (page_count base.now.row_room) unit }
    requires some { IsSomeUnit unit }
    requires room { then.now.row_room ≡ base.now.row_room }
    requires lawful { IsHistory 16_777_216 base.now.table deltas.now }
    requires changes { changes.now ≡ deltas.now }
    requires end { then.now.table ≡ after base.now.table deltas.now }
{
    let content = base.content(unit);
    let made = patched_by(rt.alloc(), unit, content, base.rows(), changes, then.rows())?;
    is_same(rt, &made, then.content(unit), rows, reads);
    let made = patched(rt.alloc(), unit, content, base.rows(), deltas, then.rows())?;
    is_same(rt, &made, then.content(unit), rows, reads);
    Ok(())
}

// Each bin of a column.
fn bins_follow<N: Ledger, R: Abort + AllocGlobal>(
    rt: &R,
    column: Column,
    bins: u8,
    base: &Base,
    deltas: &DeltaList,
    changes: &Changes,
    then: &Base,
    rows: &Rows,
    reads: &mut Steps<N>,
) -> Result<(), Memory>
    requires bins { bins ≤ bin_count column }
    requires room { then.now.row_room ≡ base.now.row_room }
    requires lawful { IsHistory 16_777_216 base.now.table deltas.now }
    requires changes { changes.now ≡ deltas.now }
    requires end { then.now.table ≡ after base.now.table deltas.now }
{
    for bin in 0..bins {
        follows(
            rt,
            Unit::Bin(column, bin),
            base,
            deltas,
            changes,
            then,
            rows,
            reads,
        )?;
    }
    Ok(())
}

// Each unit.
pub(super) fn all_follow<N: Ledger, R: Abort + AllocGlobal>(
    rt: &R,
    base: &Base,
    deltas: &DeltaList,
    then: &Base,
    rows: &Rows,
    reads: &mut Steps<N>,
) -> Result<(), Memory>
    requires room { then.now.row_room ≡ base.now.row_room }
    requires limit { base.now.row_room ≤ 16_777_216 }
    requires lawful { IsHistory 16_777_216 base.now.table deltas.now }
    requires end { then.now.table ≡ after base.now.table deltas.now }
{
    let changes = &Changes::of(rt.alloc(), deltas)?;
    follows(rt, Unit::Live, base, deltas, changes, then, rows, reads)?;
    for (column, bins) in [
        (Column::Ship, 84),
        (Column::Disc, 11),
        (Column::Qty, 50),
        (Column::Flag, 3),
        (Column::Status, 2),
    ] {
        bins_follow(rt, column, bins, base, deltas, changes, then, rows, reads)?;
    }
    for page in 0..base.pages() {
        follows(
            rt,
            Unit::Page(page),
            base,
            deltas,
            changes,
            then,
            rows,
            reads,
        )?;
    }
    for rest in 0..64 {
        follows(
            rt,
            Unit::Keys(rest),
            base,
            deltas,
            changes,
            then,
            rows,
            reads,
        )?;
    }
    Ok(())
}

// The unit is carried on from one stretch to the next.
fn goes_on<N: Ledger, R: Abort + AllocGlobal>(
    rt: &R,
    unit: Unit,
    base: &Base,
    first: &DeltaList,
    between: &Base,
    second: &DeltaList,
    then: &Base,
    rows: &Rows,
    reads: &mut Steps<N>,
) -> Result<(), Memory>
    requires unit { IsUnit (page_count base.now.row_room) unit }
    requires some { IsSomeUnit unit }
    requires room { then.now.row_room ≡ base.now.row_room }
    requires lawful { IsHistory 16_777_216 base.now.table first.now }
    requires middle { between.now.table ≡ after base.now.table first.now }
    requires on { IsHistory 16_777_216 between.now.table second.now }
    requires end { then.now.table ≡ after between.now.table second.now }
{
    laws::histories();
    let made = carried(
        rt.alloc(),
        base,
        unit,
        first,
        between.rows(),
        second,
        then.rows(),
    )?;
    is_same(rt, &made, then.content(unit), rows, reads);
    Ok(())
}

// Row 0 gets another tuple and its own again; a key comes, goes, and comes back in a new row.
fn told(alloc: Global, rows: &mut Rows) -> Result<DeltaList, Memory>
    requires { length rows.old.items ≤ 5_000 }
    ensures lawful { IfOk result (λ deltas. IsHistory 16_777_216 rows.old.items deltas) }
    ensures then { IfOk result (λ deltas. rows.new.items ≡ after rows.old.items deltas) }
    ensures few { IfOk result (λ deltas. length rows.new.items ≤ length rows.old.items + 5) }
{
    let mut deltas = DeltaList::new(alloc);
    let key = key_of(6_999);
    let new = rows.len() as u32;
    for n in 0..5 {
        let delta = match n {
            0 => change(rows, 0, tuple_of(2_007)),
            1 => change(rows, 0, tuple_of(0)),
            3 => change(rows, new, None),
            _ => match tuple_of(n) {
                Some(tuple) => insert(rows, key, tuple),
                None => None,
            },
        };
        follow(rows, &mut deltas, delta)?;
    }
    Ok(deltas)
}

// The same over a table of so many rows.
fn there_and_back<N: Ledger, R: Abort + AllocGlobal>(
    rt: &R,
    rows: u32,
    blank: Blank,
) -> Result<(), Memory>
    requires rows { rows ≤ 5_000 }
    requires name { blank.name ≡ N.name }
    requires parts { blank.parts ≡ N.parts }
    requires some { 0 < N.parts }
{
    laws::live_rows();
    let alloc = rt.alloc();
    let reads = &mut Steps::<N>::make(blank);
    let table = table_of(alloc, rows)?;
    let mut rows = rows_of(alloc, &table)?;
    let deltas = told(alloc, &mut rows)?;
    assert_eq!(rt; deltas.len(), 5);
    let then = Base::build(alloc, table_from(alloc, &rows)?, 16_000)?;
    let base = Base::build(alloc, table, 16_000)?;
    all_follow(rt, &base, &deltas, &then, &rows, reads)
}

// Two stretches of a history from a table of so many rows, of which so many deltas each are drawn.
fn story<N: Ledger, R: Abort + AllocGlobal>(
    rt: &R,
    rows: u32,
    count: u32,
    blank: Blank,
) -> Result<(), Memory>
    requires rows { rows ≤ 5_000 }
    requires count { count ≤ 5_000 }
    requires name { blank.name ≡ N.name }
    requires parts { blank.parts ≡ N.parts }
    requires some { 0 < N.parts }
{
    laws::live_rows();
    laws::histories();
    let alloc = rt.alloc();
    let reads = &mut Steps::<N>::make(blank);
    let table = table_of(alloc, rows)?;
    let mut rows = rows_of(alloc, &table)?;
    let first = draw(alloc, &mut rows, count, 1)?;
    let between = Base::build(alloc, table_from(alloc, &rows)?, 16_000)?;
    let second = draw(alloc, &mut rows, count, 2)?;
    let then = Base::build(alloc, table_from(alloc, &rows)?, 16_000)?;
    let base = Base::build(alloc, table, 16_000)?;
    all_follow(rt, &base, &first, &between, &rows, reads)?;
    goes_on(
        rt,
        Unit::Live,
        &base,
        &first,
        &between,
        &second,
        &then,
        &rows,
        reads,
    )?;
    goes_on(
        rt,
        Unit::Bin(Column::Qty, 6),
        &base,
        &first,
        &between,
        &second,
        &then,
        &rows,
        reads,
    )?;
    goes_on(
        rt,
        Unit::Page(1),
        &base,
        &first,
        &between,
        &second,
        &then,
        &rows,
        reads,
    )?;
    goes_on(
        rt,
        Unit::Keys(63),
        &base,
        &first,
        &between,
        &second,
        &then,
        &rows,
        reads,
    )?;
    Ok(())
}

#[test]
fn units_follow_drawn_histories(rt: HostRuntime) -> Result<(), Fail> {
    for (rows, count) in [(4_400, 500), (0, 60), (3_965, 200), (3_967, 0)] {
        story::<Brand, _>(&rt, rows, count, Blank::new(1))?;
    }
    Ok(())
}

// Over one page, and over the end of one.
#[test]
fn rows_and_keys_that_come_back(rt: HostRuntime) -> Result<(), Fail> {
    for rows in [3, 3_967] {
        there_and_back::<Brand, _>(&rt, rows, Blank::new(1))?;
    }
    Ok(())
}
