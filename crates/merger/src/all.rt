//! Merges of all units by one front.
ghost use Rattle.std.specs.Prelude.{◌≡◌, ℕ, ◌+◌, ◌≤◌, ◌<◌, List, IfOk, Result, Ok, length};
ghost use Rattle.cubit_base.specs.declared.delta.Delta.{Delta as DeltaValue};
ghost use Rattle.commit_log.specs.Log.{Terms, Stands, IsWhole};
ghost use Rattle.commit_log.specs.Handle.{Handle, Begins, SeesMore, ReadsOn, with_look};
ghost use Rattle.commit_log.specs.declared.front.Front.{Front as FrontValue};
ghost use Rattle.unit_version.specs.Unit.{IsUnit, unit_count};
ghost use Rattle.unit_version.specs.declared.unit.Unit.{Unit as IndexUnit};
ghost use Rattle.version_store.specs.Store.{Store, IsStanding};
ghost use Rattle.merger.specs.All.{MergesBy, AreMerged, IsAllMerged, counted};
ghost use Rattle.merger.specs.Digest.{AreDigests};
ghost use Rattle.merger.specs.Merge.{Visits};
ghost use Rattle.merger.specs.Order.{unit_at as nth_unit};
ghost use Rattle.merger.specs.declared.outcome.Merge.{Merge as MergeValue};
ghost use Rattle.std.specs.declared.alloc.AllocError.{AllocError as MemoryValue};
ghost use Rattle.merger.specs.declared.outcome.MergeCount.{MergeCount as CountValue};

use crate::digest::Digests;
use crate::one::merge_held;
use crate::order::unit_at;
use crate::{Memory, Merge, MergeCount};
use commit_log::{CommitLog, Front};
use cubit_base::Steps;
use std::alloc::Global;
use std::sync::ledger::Ledger;
use unit_version::{Base, Unit};
use version_store::VersionStore;

/// Carries the version of every unit on to the front of all that the log holds: one front, and each stretch of deltas
/// walked and digested once. Without memory the versions that were made so far stay.
pub fn merge_all<S: VersionStore, N: Ledger>(
    alloc: Global,
    log: &mut S::Log,
    store: &mut S,
    base: &Base,
    tries: u32,
    steps: &mut Steps<N>,
) -> Result<MergeCount, Memory>
    requires standing { IsStanding S.Log.terms (S.store store.old) base.now (S.over store.old log.old) }
    requires tries { 1 ≤ tries }
    ensures merged { IfOk result (IsAllMerged S.Log.terms (S.Log.handle log.old) (S.store store.old)
        (S.Log.handle log.new) (S.store store.new)) }
    ensures reads { ReadsOn (with_look (S.Log.handle log.old)) (S.Log.handle log.new) }
    ensures standing { IsStanding S.Log.terms (S.store store.new) base.now (S.over store.new log.new) }
{
    passes();
    commit_log::laws::handles();
    commit_log::laws::reads();
    commit_log::laws::prefixes();
    // The room is read, so that it is known how many pages there may be.
    let _room = base.row_room();
    let front = log.front(steps);
    let pages = base.pages();
    let mut digests = Digests::new();
    let mut count = MergeCount {
        merged: 0,
        fresh: 0,
        busy: 0,
    };
    for place in 0..base.units() {
        let unit = unit_at(place, pages);
        let merge = merge_next(
            alloc,
            log,
            store,
            base,
            unit,
            tries,
            &front,
            &mut digests,
            steps,
        )?;
        count.add(&merge);
    }
    Ok(count)
}

impl MergeCount {
    // Counts a merge.
    fn add(&mut self, merge: &Merge)
        requires { self.old.merged + self.old.fresh + self.old.busy < 4_294_967_295 }
        ensures { self.new ≡ counted self.old merge.now }
    {
        match merge {
            Merge::Merged { .. } => self.merged += 1,
            Merge::Fresh(_) => self.fresh += 1,
            Merge::Busy => self.busy += 1,
        }
    }
}

// Carries the unit's version on to the front, unless it is as new or another caller has it.
fn merge_next<S: VersionStore, N: Ledger>(
    alloc: Global,
    log: &mut S::Log,
    store: &mut S,
    base: &Base,
    unit: Unit,
    tries: u32,
    front: &Front,
    digests: &mut Digests,
    steps: &mut Steps<N>,
) -> Result<Merge, Memory>
    requires standing { IsStanding S.Log.terms (S.store store.old) base.now (S.over store.old log.old) }
    requires unit { IsUnit (S.store store.old).pages unit }
    requires tries { 1 ≤ tries }
    requires front { Stands S.Log.terms (S.Log.handle log.old).seen front.now }
    requires digests { AreDigests (S.Log.handle log.old).seen digests.old }
    ensures merge { MergesBy S.Log.terms unit front.now (S.Log.handle log.old) (S.store store.old)
        (S.Log.handle log.new) (S.store store.new) result }
    ensures visits { Visits unit (S.store store.old) (S.store store.new) }
    ensures standing { IsStanding S.Log.terms (S.store store.new) base.now (S.over store.new log.new) }
    ensures digests { AreDigests (S.Log.handle log.new).seen digests.new }
{
    crate::one::holds();
    crate::digest::later_digests();
    version_store::laws::versions();
    commit_log::laws::handles();
    commit_log::laws::reads();
    commit_log::laws::prefixes();
    match store.hold(log, unit, tries, steps) {
        Ok(claim) => merge_held(alloc, log, store, base, unit, claim, front, digests, steps),
        Err(_) => Ok(Merge::Busy),
    }
}

// One unit after another.
fn passes()
    ensures first { (terms : Terms) (log : List DeltaValue) (front : FrontValue) (store : Store) (later : Handle) →
        AreMerged terms log front store later store 0 (record { merged = 0; fresh = 0; busy = 0 }) }
    ensures next { (terms : Terms) (log : List DeltaValue) (front : FrontValue) (store before now : Store)
        (handle later : Handle) (n : ℕ) (count : CountValue) (merge : MergeValue) →
        front.len ≡ length log → Begins log handle.seen → n < unit_count store.pages →
        AreMerged terms log front store handle before n count →
        MergesBy terms (nth_unit store.pages n) front handle before later now (Ok merge) →
        Visits (nth_unit store.pages n) before now →
        AreMerged terms log front store later now (n + 1) (counted count merge) }
    ensures reads { (terms : Terms) (unit : IndexUnit) (front : FrontValue) (handle later : Handle) (store now : Store)
        (result : Result MergeValue MemoryValue) → MergesBy terms unit front handle store later now result →
        ReadsOn handle later }
    ensures looks { (handle read later : Handle) → SeesMore (with_look handle) read → ReadsOn read later →
        ReadsOn (with_look handle) later }
    ensures last { (terms : Terms) (front : FrontValue) (store now : Store) (handle read later : Handle)
        (count : CountValue) → SeesMore (with_look handle) read → IsWhole terms read.seen front → ReadsOn read later →
        AreMerged terms read.seen front store later now (unit_count store.pages) count →
        IsAllMerged terms handle store later now count }
{
    commit_log::laws::reads();
}
