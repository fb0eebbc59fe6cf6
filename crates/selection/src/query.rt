//! The rows of the table at one front that match a predicate.
ghost use Rattle.std.specs.Prelude.{◌≡◌, ◌+◌, ◌≤◌, IfOk, true, false};
ghost use Rattle.cubit_base.specs.History.{after};
ghost use Rattle.version_store.specs.Store.{IsStanding};
ghost use Rattle.front_patch.specs.Takes.{SeesOnly, KeepsVersions};
ghost use Rattle.selection.specs.Candidates.{candidate_count, part_count};
ghost use Rattle.selection.specs.Answered.{Lists, Counts, Sums, query_steps};

use crate::asked::ask;
use crate::scan::Scan;
use crate::{CountAnswer, RowsAnswer, SumAnswer};
use commit_log::{CommitLog, Memory};
use cubit_base::{Predicate, Steps};
use std::alloc::Global;
use std::sync::ledger::Ledger;
use unit_version::Base;
use version_store::VersionStore;

/// The numbers of the rows that match, at the front of all that the log holds. Without memory no claim stays out.
pub fn rows<S: VersionStore, N: Ledger, M: Ledger>(
    alloc: Global,
    log: &mut S::Log,
    store: &mut S,
    base: &Base,
    predicate: &Predicate,
    tries: u32,
    steps: &mut Steps<N>,
    reads: &mut Steps<M>,
) -> Result<RowsAnswer, Memory>
    requires standing { IsStanding S.Log.terms (S.store store.old) base.now (S.over store.old log.old) }
    requires tries { 1 ≤ tries }
    ensures rows { Lists S.Log.terms predicate.now tries (S.Log.handle log.old) (S.store store.old)
        (S.Log.handle log.new) (S.store store.new) result }
    ensures keeps { KeepsVersions (S.store store.old) (S.store store.new) }
    ensures sees { SeesOnly (S.Log.handle log.old) (S.Log.handle log.new) }
    ensures standing { IsStanding S.Log.terms (S.store store.new) base.now (S.over store.new log.new) }
    ensures steps { IfOk result (λ a. steps.new
        ≤ steps.old + query_steps predicate.now false tries a.front a.patched) }
    // A tuple is read only where the day decides.
    ensures reads { reads.new
        ≤ reads.old + part_count predicate.now (after S.Log.terms.base (S.Log.handle log.new).seen) }
{
    let asked = ask(alloc, log, store, base, predicate, false, tries, steps)?;
    let (front, patched) = (asked.taken.front(), asked.taken.patched());
    let list = Scan::new(predicate, &asked, store, base).rows(alloc, front.rows, reads);
    asked.close(store);
    Ok(RowsAnswer {
        list: list?,
        front,
        patched,
    })
}

/// How many rows match, at the front of all that the log holds. Without memory no claim stays out.
pub fn count<S: VersionStore, N: Ledger, M: Ledger>(
    alloc: Global,
    log: &mut S::Log,
    store: &mut S,
    base: &Base,
    predicate: &Predicate,
    tries: u32,
    steps: &mut Steps<N>,
    reads: &mut Steps<M>,
) -> Result<CountAnswer, Memory>
    requires standing { IsStanding S.Log.terms (S.store store.old) base.now (S.over store.old log.old) }
    requires tries { 1 ≤ tries }
    ensures count { Counts S.Log.terms predicate.now tries (S.Log.handle log.old) (S.store store.old)
        (S.Log.handle log.new) (S.store store.new) result }
    ensures keeps { KeepsVersions (S.store store.old) (S.store store.new) }
    ensures sees { SeesOnly (S.Log.handle log.old) (S.Log.handle log.new) }
    ensures standing { IsStanding S.Log.terms (S.store store.new) base.now (S.over store.new log.new) }
    ensures steps { IfOk result (λ a. steps.new
        ≤ steps.old + query_steps predicate.now false tries a.front a.patched) }
    // A tuple is read only where the day decides.
    ensures reads { reads.new
        ≤ reads.old + part_count predicate.now (after S.Log.terms.base (S.Log.handle log.new).seen) }
{
    let asked = ask(alloc, log, store, base, predicate, false, tries, steps)?;
    let (front, patched) = (asked.taken.front(), asked.taken.patched());
    let count = Scan::new(predicate, &asked, store, base).count(front.rows, reads);
    asked.close(store);
    Ok(CountAnswer {
        count,
        front,
        patched,
    })
}

/// The sum of price times discount over the rows that match, and how many these are, at the front of all that the log
/// holds. Without memory no claim stays out.
pub fn sum<S: VersionStore, N: Ledger, M: Ledger>(
    alloc: Global,
    log: &mut S::Log,
    store: &mut S,
    base: &Base,
    predicate: &Predicate,
    tries: u32,
    steps: &mut Steps<N>,
    reads: &mut Steps<M>,
) -> Result<SumAnswer, Memory>
    requires standing { IsStanding S.Log.terms (S.store store.old) base.now (S.over store.old log.old) }
    requires tries { 1 ≤ tries }
    ensures sum { Sums S.Log.terms predicate.now tries (S.Log.handle log.old) (S.store store.old)
        (S.Log.handle log.new) (S.store store.new) result }
    ensures keeps { KeepsVersions (S.store store.old) (S.store store.new) }
    ensures sees { SeesOnly (S.Log.handle log.old) (S.Log.handle log.new) }
    ensures standing { IsStanding S.Log.terms (S.store store.new) base.now (S.over store.new log.new) }
    ensures steps { IfOk result (λ a. steps.new
        ≤ steps.old + query_steps predicate.now true tries a.front a.patched) }
    // Each candidate's tuple is read once.
    ensures reads { reads.new
        ≤ reads.old + candidate_count predicate.now (after S.Log.terms.base (S.Log.handle log.new).seen) }
{
    let asked = ask(alloc, log, store, base, predicate, true, tries, steps)?;
    let (front, patched) = (asked.taken.front(), asked.taken.patched());
    let totals = Scan::new(predicate, &asked, store, base).sum(front.rows, reads);
    asked.close(store);
    Ok(SumAnswer {
        sum: totals.sum,
        count: totals.count,
        front,
        patched,
    })
}
