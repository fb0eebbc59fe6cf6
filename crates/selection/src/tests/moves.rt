//! Deltas that are appended, and versions that are replaced, beside the plain table.
ghost use Rattle.std.specs.Prelude.{◌≡◌, ◌+◌, ◌<◌, ◌≤◌, IfOk, IfSome, length, map};
ghost use Rattle.cubit_base.specs.Key.{KeyValue};
ghost use Rattle.cubit_base.specs.Delta.{IsLawful};
ghost use Rattle.cubit_base.specs.History.{after};
ghost use Rattle.commit_log.specs.Log.{IsWhole};
ghost use Rattle.commit_log.specs.Handle.{Grows};
ghost use Rattle.column_bins.specs.Column.{bin_count};
ghost use Rattle.unit_version.specs.Content.{is_in_bins};
ghost use Rattle.version_store.specs.Store.{IsStanding};

use super::plain::table_after;
use crate::Memory;
use column_bins::{Column, Stretch, bin_of};
use commit_log::{CommitLog, Front};
use cubit_base::{Delta, Steps, Table, Tuple};
use fence_window::Fenced;
use std::alloc::Global;
use std::process::Abort;
use std::sync::ledger::Ledger;
use unit_version::{Base, Content, Unit};
use version_store::VersionStore;
use wah_words::Wah;

// Appends a delta, if there is one and the caller has a share left: the front and the table after it.
pub(crate) fn append<L: CommitLog, N: Ledger, R: Abort + AllocGlobal>(
    rt: &R,
    log: &mut L,
    front: Front,
    table: Table,
    delta: Option<Delta>,
    steps: &mut Steps<N>,
) -> Result<(Front, Table), Memory>
    requires lawful { IfSome delta (IsLawful L.terms.limits.row_limit table) }
    requires author { IfSome delta (λ d. d.author ≡ (L.handle log.old).author) }
    requires whole { IsWhole L.terms (L.handle log.old).seen front }
    requires table { table ≡ after L.terms.base (L.handle log.old).seen }
    ensures whole { IfOk result (λ r. IsWhole L.terms (L.handle log.new).seen r.0) }
    ensures table { IfOk result (λ r. r.1 ≡ after L.terms.base (L.handle log.new).seen) }
    ensures grows { Grows (L.handle log.old) (L.handle log.new) }
{
    commit_log::laws::handles();
    commit_log::laws::appends();
    // From here on it is known that what was seen is a log.
    log.start();
    let limit = log.limits().row_limit;
    let Some(delta) = delta else {
        return Ok((front, table));
    };
    if log.spare() == 0 {
        return Ok((front, table));
    }
    match log.try_append(&front, &delta, steps) {
        Ok(next) => Ok((next, table_after(rt.alloc(), &table, &delta, limit)?)),
        Err(_) => panic!(rt; "the delta is not appended"),
    }
}

// Whether a row is live, and its bin lies in a stretch.
fn has_bin(column: Column, stretch: Stretch, tuple: &Option<Tuple>) -> bool
    ensures { (key : KeyValue) → result ≡ is_in_bins column stretch (key, tuple.now) }
{
    let Some(tuple) = tuple else {
        return false;
    };
    let bin = bin_of(column, tuple);
    stretch.first <= bin && bin < stretch.after
}

// Which rows of a table are live, and have their bin in a stretch.
fn rows_in(
    alloc: Global,
    table: &Table,
    column: Column,
    stretch: Stretch,
) -> Result<Vec<bool>, Memory>
    ensures rows { IfOk result (λ rows. rows.items ≡ map (is_in_bins column stretch) table.now) }
    ensures few { IfOk result (λ rows. length rows.items ≤ 16_777_216) }
{
    let mut rows = Vec::new(alloc);
    for n in 0..table.len() {
        let (_, tuple) = table.row(n).unwrap();
        rows.push(has_bin(column, stretch, &tuple))?;
    }
    Ok(rows)
}

// Replaces the version of a bin by that of the table at a front.
fn replace_bin<S: VersionStore, N: Ledger, R: Abort + AllocGlobal>(
    rt: &R,
    log: &mut S::Log,
    store: &mut S,
    base: &Base,
    column: Column,
    bin: u8,
    front: &Front,
    table: &Table,
    steps: &mut Steps<N>,
) -> Result<(), Memory>
    requires standing { IsStanding S.Log.terms (S.store store.old) base.now (S.over store.old log.old) }
    requires bin { bin < bin_count column }
    requires whole { IsWhole S.Log.terms (S.Log.handle log.old).seen front.now }
    requires table { table.now ≡ after S.Log.terms.base (S.Log.handle log.old).seen }
    ensures standing { IsStanding S.Log.terms (S.store store.new) base.now (S.over store.new log.new) }
    ensures same { S.Log.handle log.new ≡ S.Log.handle log.old }
{
    commit_log::laws::handles();
    let one = Stretch {
        first: bin,
        after: bin + 1,
    };
    let rows = rows_in(rt.alloc(), table, column, one)?;
    let wah = Wah::from_rows(rt.alloc(), &rows)?;
    let content = Content::Bits(Fenced::make(rt.alloc(), wah)?);
    match store.replace(log, Unit::Bin(column, bin), front, content, steps) {
        Ok(()) => Ok(()),
        Err(_) => panic!(rt; "the version is not replaced"),
    }
}

// The same for the bins of a stretch.
pub(crate) fn replace_bins<S: VersionStore, N: Ledger, R: Abort + AllocGlobal>(
    rt: &R,
    log: &mut S::Log,
    store: &mut S,
    base: &Base,
    bins: (Column, Stretch),
    front: &Front,
    table: &Table,
    steps: &mut Steps<N>,
) -> Result<(), Memory>
    requires standing { IsStanding S.Log.terms (S.store store.old) base.now (S.over store.old log.old) }
    requires bins { bins.1.after ≤ bin_count bins.0 }
    requires whole { IsWhole S.Log.terms (S.Log.handle log.old).seen front.now }
    requires table { table.now ≡ after S.Log.terms.base (S.Log.handle log.old).seen }
    ensures standing { IsStanding S.Log.terms (S.store store.new) base.now (S.over store.new log.new) }
    ensures same { S.Log.handle log.new ≡ S.Log.handle log.old }
{
    let (column, stretch) = bins;
    for bin in stretch.first..stretch.after {
        replace_bin(rt, log, store, base, column, bin, front, table, steps)?;
    }
    Ok(())
}
