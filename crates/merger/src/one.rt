//! The merge of one unit.
ghost use Rattle.std.specs.Prelude.{◌≡◌, ◌≤◌, ◌<◌, take, IfSome, Result, Ok};
ghost use Rattle.cubit_base.specs.History.{after};
ghost use Rattle.wah_words.specs.Place.{page_count};
ghost use Rattle.commit_log.specs.Log.{Terms, Stands};
ghost use Rattle.commit_log.specs.Handle.{Handle, SeesMore, ReadsOn};
ghost use Rattle.commit_log.specs.declared.front.Front.{Front as FrontValue};
ghost use Rattle.unit_version.specs.Content.{content_of};
ghost use Rattle.unit_version.specs.Patch.{IsSomeUnit};
ghost use Rattle.unit_version.specs.Unit.{IsUnit};
ghost use Rattle.unit_version.specs.declared.unit.Unit.{Unit as IndexUnit};
ghost use Rattle.version_store.specs.Store.{Store, IsStanding, Keeps, Asks};
ghost use Rattle.version_store.specs.Version.{Fits};
ghost use Rattle.merger.specs.Digest.{AreDigests};
ghost use Rattle.merger.specs.Merge.{Visits, Merges, MergesNow};
ghost use Rattle.merger.specs.declared.outcome.Merge.{Merge as MergeValue};
ghost use Rattle.std.specs.declared.alloc.AllocError.{AllocError as MemoryValue};

use crate::digest::{Digests, later_digests};
use crate::{Memory, Merge};
use commit_log::{CommitLog, Front};
use cubit_base::Steps;
use std::alloc::Global;
use std::sync::ledger::Ledger;
use unit_version::{Base, Content, Unit};
use version_store::{ReplaceStop, VersionStore};

/// Carries the unit's version on to the front of all that the log holds, unless it is as new or another caller has it.
/// Without memory no version changes.
pub fn merge<S: VersionStore, N: Ledger>(
    alloc: Global,
    log: &mut S::Log,
    store: &mut S,
    base: &Base,
    unit: Unit,
    tries: u32,
    steps: &mut Steps<N>,
) -> Result<Merge, Memory>
    requires standing { IsStanding S.Log.terms (S.store store.old) base.now (S.over store.old log.old) }
    requires unit { IsUnit (S.store store.old).pages unit }
    requires tries { 1 ≤ tries }
    ensures merge { MergesNow S.Log.terms unit (S.Log.handle log.old) (S.store store.old) (S.Log.handle log.new)
        (S.store store.new) result }
    ensures visits { Visits unit (S.store store.old) (S.store store.new) }
    ensures standing { IsStanding S.Log.terms (S.store store.new) base.now (S.over store.new log.new) }
{
    holds();
    version_store::laws::versions();
    commit_log::laws::handles();
    commit_log::laws::reads();
    let held = store.hold(log, unit, tries, steps);
    let front = log.front(steps);
    match held {
        Ok(claim) => {
            let mut digests = Digests::new();
            merge_held(
                alloc,
                log,
                store,
                base,
                unit,
                claim,
                &front,
                &mut digests,
                steps,
            )
        }
        Err(_) => Ok(Merge::Busy),
    }
}

/// Carries the unit's version, which is held, on to a front, unless it is as new.
pub(crate) fn merge_held<S: VersionStore, N: Ledger>(
    alloc: Global,
    log: &mut S::Log,
    store: &mut S,
    base: &Base,
    unit: Unit,
    claim: S::Claim,
    front: &Front,
    digests: &mut Digests,
    steps: &mut Steps<N>,
) -> Result<Merge, Memory>
    requires over { S.over store.old log.old }
    requires unit { IsUnit (S.store store.old).pages unit }
    requires lent { (S.store store.old).lent ≡ 1 }
    requires table { base.now.table ≡ S.Log.terms.base }
    requires pages { (S.store store.old).pages ≡ page_count base.now.row_room }
    requires gave { S.gave store.old claim }
    requires fits { Fits S.Log.terms (S.Log.handle log.old).seen unit (S.shown store.old claim) }
    requires is_told { IfSome (S.store store.old).told (λ told. S.shown store.old claim ≡ told unit) }
    requires front { Stands S.Log.terms (S.Log.handle log.old).seen front.now }
    requires digests { AreDigests (S.Log.handle log.old).seen digests.old }
    ensures merge { Merges S.Log.terms unit front.now (S.Log.handle log.old) (S.store store.old) (S.Log.handle log.new)
        (S.store store.new) result }
    ensures reads { ReadsOn (S.Log.handle log.old) (S.Log.handle log.new) }
    ensures keeps { Keeps (record (S.store store.old) { lent = 0 }) (S.store store.new) }
    ensures over { S.over store.new log.new }
    ensures digests { AreDigests (S.Log.handle log.new).seen digests.new }
{
    later_digests();
    version_store::laws::versions();
    commit_log::laws::handles();
    commit_log::laws::reads();
    unit_version::laws::units();
    let _room = base.row_room();
    let from = store.front(&claim);
    if front.len <= from.len {
        store.leave(claim);
        return Ok(Merge::Fresh(from.len));
    }
    let content = store.content(&claim).unwrap_or(base.content(unit));
    let carried = digests.carried(alloc, log, unit, content, &from, front, steps);
    store.leave(claim);
    let content = carried?;
    Ok(put(log, store, unit, &from, front, content, steps))
}

// Puts the content in the place of the unit's version, whose front was this.
fn put<S: VersionStore, N: Ledger>(
    log: &mut S::Log,
    store: &mut S,
    unit: Unit,
    from: &Front,
    front: &Front,
    content: Content,
    steps: &mut Steps<N>,
) -> Merge
    requires over { S.over store.old log.old }
    requires unit { IsUnit (S.store store.old).pages unit }
    requires lent { (S.store store.old).lent ≡ 0 }
    requires longer { from.now.len < front.now.len }
    requires was { IfSome (S.store store.old).told (λ told. (told unit).front ≡ from.now) }
    requires front { Stands S.Log.terms (S.Log.handle log.old).seen front.now }
    requires content { content
        ≡ content_of unit (after S.Log.terms.base (take front.now.len (S.Log.handle log.old).seen)) }
    ensures merge { Merges S.Log.terms unit front.now (S.Log.handle log.old) (S.store store.old) (S.Log.handle log.new)
        (S.store store.new) (Ok result) }
    ensures keeps { Keeps (S.store store.old) (S.store store.new) }
    ensures more { SeesMore (S.Log.handle log.old) (S.Log.handle log.new) }
    ensures over { S.over store.new log.new }
{
    match store.replace(log, unit, front, content, steps) {
        Ok(()) => Merge::Merged {
            from: from.len,
            to: front.len,
        },
        Err((_, ReplaceStop::Busy)) => Merge::Busy,
        Err((_, ReplaceStop::Newer(newer))) => Merge::Fresh(newer.len),
    }
}

/// What a merge comes to since a hold, it comes to since before it.
pub(crate) fn holds()
    ensures { (terms : Terms) (unit : IndexUnit) (front : FrontValue) (handle later : Handle) (store held now : Store)
        (result : Result MergeValue MemoryValue) → Asks unit store held →
        Merges terms unit front handle held later now result → Merges terms unit front handle store later now result }
{}
