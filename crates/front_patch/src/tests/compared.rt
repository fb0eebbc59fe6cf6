//! What is seen at a front, against the plain table, row by row.
ghost use Rattle.std.specs.Prelude.{◌≡◌, ◌+◌, ◌<◌, ℕ, true, Contains};
ghost use Rattle.column_bins.specs.Plan.{stretch_of};
ghost use Rattle.commit_log.specs.Handle.{Grows};
ghost use Rattle.unit_version.specs.declared.unit.Unit.TheVariants.{Bin};
ghost use Rattle.version_store.specs.Store.{IsStanding};
ghost use Rattle.front_patch.specs.Bits.{IsBits};
ghost use Rattle.front_patch.specs.Planned.{FitsColumns, HasBin, is_open, units_of};
ghost use Rattle.front_patch.specs.Taken.{IsTakenOver};

use super::plain::{page_of, passing};
use crate::planned::is_open;
use crate::row_test::RowTest;
use crate::{Memory, Taken, laws, take};
use column_bins::{Column, Plan, Stretch};
use cubit_base::{Steps, Table};
use fence_window::{BLOCK_GROUPS, PAGE_GROUPS};
use std::process::Abort;
use std::sync::ledger::Ledger;
use unit_version::{Base, Unit};
use version_store::VersionStore;

fn stretch_in(plan: &Plan, column: Column) -> Option<Stretch>
    ensures { result ≡ stretch_of column plan.now }
{
    match column {
        Column::Ship => plan.ship,
        Column::Disc => plan.disc,
        Column::Qty => plan.qty,
        Column::Flag => plan.flag,
        Column::Status => plan.status,
    }
}

// Each page of a bitvector, and one more.
fn windows_agree<S: VersionStore, R: Abort + AllocGlobal>(
    rt: &R,
    taken: &Taken<S>,
    store: &S,
    base: &Base,
    table: &Table,
    unit: Unit,
    test: RowTest,
) -> Result<(), Memory>
    requires over { IsTakenOver S.Log.terms (S.gave store.now) (S.shown store.now) base.now taken.now }
    requires planned { Contains (units_of taken.now.plan taken.now.pages) unit }
    requires bits { IsBits unit }
{
    let rows = passing(rt.alloc(), table, test)?;
    for page in 0..4 {
        let mut out = [7; PAGE_GROUPS];
        taken.window(store, base, unit, page, &mut out);
        let expected = page_of(&rows, page);
        assert!(rt; out == expected, "page {page}");
    }
    Ok(())
}

// Each bin of a stretch, and the stretch at once.
fn stretch_agrees<S: VersionStore, R: Abort + AllocGlobal>(
    rt: &R,
    taken: &Taken<S>,
    store: &S,
    base: &Base,
    table: &Table,
    column: Column,
    stretch: Stretch,
) -> Result<(), Memory>
    requires over { IsTakenOver S.Log.terms (S.gave store.now) (S.shown store.now) base.now taken.now }
    requires planned { (bin : ℕ) → HasBin stretch bin →
        Contains (units_of taken.now.plan taken.now.pages) (Bin column bin) }
{
    for bin in stretch.first..stretch.after {
        let one = Stretch {
            first: bin,
            after: bin + 1,
        };
        windows_agree(
            rt,
            taken,
            store,
            base,
            table,
            Unit::Bin(column, bin),
            RowTest::IsInBins(column, one),
        )?;
    }
    let rows = passing(rt.alloc(), table, RowTest::IsInBins(column, stretch))?;
    let mut out = [7; BLOCK_GROUPS];
    taken.stretch(store, base, column, stretch, 0, &mut out);
    for page in 0..32 {
        let expected = page_of(&rows, page as u32);
        for group in 0..PAGE_GROUPS {
            assert_eq!(rt;
                out[PAGE_GROUPS * page + group],
                expected[group],
                "page {page} of a stretch"
            );
        }
    }
    Ok(())
}

// Each row, and some behind the last.
fn tuples_agree<S: VersionStore, M: Ledger, R: Abort>(
    rt: &R,
    taken: &Taken<S>,
    store: &S,
    base: &Base,
    table: &Table,
    reads: &mut Steps<M>,
)
    requires over { IsTakenOver S.Log.terms (S.gave store.now) (S.shown store.now) base.now taken.now }
    requires pages { taken.now.plan.pages ≡ true }
{
    for row in 0..20_000 {
        let expected = match table.row(row) {
            Some((_, tuple)) => tuple,
            None => None,
        };
        assert_eq!(rt; taken.tuple(store, base, row, reads), expected, "row {row}");
    }
}

// What is seen of a column.
fn column_agrees<S: VersionStore, R: Abort + AllocGlobal>(
    rt: &R,
    taken: &Taken<S>,
    store: &S,
    base: &Base,
    table: &Table,
    plan: &Plan,
    column: Column,
) -> Result<(), Memory>
    requires over { IsTakenOver S.Log.terms (S.gave store.now) (S.shown store.now) base.now taken.now }
    requires plan { taken.now.plan ≡ plan.now }
{
    laws::units();
    match stretch_in(plan, column) {
        Some(stretch) => stretch_agrees(rt, taken, store, base, table, column, stretch),
        None => Ok(()),
    }
}

// All that is seen of a plan.
fn all_agrees<S: VersionStore, M: Ledger, R: Abort + AllocGlobal>(
    rt: &R,
    taken: &Taken<S>,
    store: &S,
    base: &Base,
    table: &Table,
    plan: &Plan,
    reads: &mut Steps<M>,
) -> Result<(), Memory>
    requires over { IsTakenOver S.Log.terms (S.gave store.now) (S.shown store.now) base.now taken.now }
    requires plan { taken.now.plan ≡ plan.now }
{
    laws::units();
    for column in [
        Column::Ship,
        Column::Disc,
        Column::Qty,
        Column::Flag,
        Column::Status,
    ] {
        column_agrees(rt, taken, store, base, table, plan, column)?;
    }
    if is_open(plan) {
        windows_agree(rt, taken, store, base, table, Unit::Live, RowTest::IsLive)?;
    }
    if plan.pages {
        tuples_agree(rt, taken, store, base, table, reads);
    }
    Ok(())
}

// Takes a plan's units, compares, and gives back: by how many deltas they were patched, and how many the base served.
pub(crate) fn agrees<S: VersionStore, N: Ledger, M: Ledger, R: Abort + AllocGlobal>(
    rt: &R,
    log: &mut S::Log,
    store: &mut S,
    base: &Base,
    table: &Table,
    plan: &Plan,
    steps: &mut Steps<N>,
    reads: &mut Steps<M>,
) -> Result<(u32, u32), Memory>
    requires standing { IsStanding S.Log.terms (S.store store.old) base.now (S.over store.old log.old) }
    requires plan { FitsColumns plan.now }
    ensures standing { IsStanding S.Log.terms (S.store store.new) base.now (S.over store.new log.new) }
    ensures grows { Grows (S.Log.handle log.old) (S.Log.handle log.new) }
{
    let taken = take(rt.alloc(), log, store, base, plan, 1, steps)?;
    let compared = all_agrees(rt, &taken, store, base, table, plan, reads);
    let told = (taken.patched(), taken.fallbacks());
    taken.close(store);
    compared?;
    Ok(told)
}
