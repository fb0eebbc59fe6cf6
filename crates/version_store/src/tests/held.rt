//! A caller of any store: what it walks is the log's history from a unit's version to a front, proved from the clauses
//! of the two traits alone.
ghost use Rattle.std.specs.Prelude.{◌≡◌, ◌+◌, ◌-◌, ◌*◌, ◌≤◌, None, IfOk, IfSome};
ghost use Rattle.commit_log.specs.Log.{Stands, IsWhole, between};
ghost use Rattle.commit_log.specs.Handle.{Grows, mine};
ghost use Rattle.unit_version.specs.Unit.{IsUnit};
ghost use Rattle.version_store.specs.Store.{IsStanding, Asks, RoseBy};

use crate::{Memory, VersionStore};
use commit_log::{CommitLog, Front, laws};
use cubit_base::{DeltaList, Steps};
use std::alloc::Global;
use std::sync::ledger::Ledger;
use unit_version::{Base, Unit};

// What lies between a version and all that the log holds.
#[derive(Drop)]
pub(crate) struct Stretch {
    pub(crate) from: Front,
    pub(crate) to: Front,
    pub(crate) deltas: DeltaList,
}

// The deltas behind a front, up to all that the log holds now.
fn deltas_since<L: CommitLog, N: Ledger>(
    alloc: Global,
    log: &mut L,
    from: &Front,
    steps: &mut Steps<N>,
) -> Result<(Front, DeltaList), Memory>
    requires { Stands L.terms (L.handle log.old).seen from.now }
    ensures from { Stands L.terms (L.handle log.new).seen from.now }
    ensures front { IfOk result (λ r. IsWhole L.terms (L.handle log.new).seen r.0) }
    ensures deltas { IfOk result (λ r. r.1 ≡ between from.now.len r.0.len (L.handle log.new).seen) }
    ensures grows { Grows (L.handle log.old) (L.handle log.new) }
    ensures mine { mine (L.handle log.new) ≡ mine (L.handle log.old) }
    ensures spare { (L.handle log.new).spare ≡ (L.handle log.old).spare }
    ensures steps { IfOk result (λ r. steps.new ≡ steps.old + 3 + 5 * (r.0.len - from.now.len)) }
{
    laws::prefixes();
    laws::handles();
    laws::stretches();
    let to = log.front(steps);
    let mut deltas = DeltaList::new(alloc);
    let mut cursor = log.cursor(from);
    while let Some(entry) = log.following(&mut cursor, &to, steps) {
        deltas.push(entry.delta)?;
    }
    Ok((to, deltas))
}

// Holds the unit's version, and walks from it to all that the log holds now. None where the hold was given up.
pub(crate) fn deltas_behind<S: VersionStore, N: Ledger>(
    alloc: Global,
    log: &mut S::Log,
    store: &mut S,
    base: &Base,
    unit: Unit,
    tries: u32,
    steps: &mut Steps<N>,
) -> Result<Option<Stretch>, Memory>
    requires standing { IsStanding S.Log.terms (S.store store.old) base.now (S.over store.old log.old) }
    requires unit { IsUnit (S.store store.old).pages unit }
    requires tries { 1 ≤ tries }
    ensures from { IfOk result (λ found. IfSome found (λ s. Stands S.Log.terms (S.Log.handle log.new).seen s.from)) }
    ensures told { IfOk result (λ found. IfSome found (λ s.
        IfSome (S.store store.old).told (λ told. s.from ≡ (told unit).front))) }
    ensures to { IfOk result (λ found. IfSome found (λ s. IsWhole S.Log.terms (S.Log.handle log.new).seen s.to)) }
    ensures deltas { IfOk result (λ found. IfSome found (λ s.
        s.deltas ≡ between s.from.len s.to.len (S.Log.handle log.new).seen)) }
    ensures none { IfOk result (λ found. found ≡ None →
        RoseBy tries (S.store store.old).losses (S.store store.new).losses) }
    ensures asks { Asks unit (S.store store.old) (S.store store.new) }
    ensures standing { IsStanding S.Log.terms (S.store store.new) base.now (S.over store.new log.new) }
    ensures grows { Grows (S.Log.handle log.old) (S.Log.handle log.new) }
    ensures mine { mine (S.Log.handle log.new) ≡ mine (S.Log.handle log.old) }
    ensures spare { (S.Log.handle log.new).spare ≡ (S.Log.handle log.old).spare }
    ensures steps { IfOk result (λ found. IfSome found (λ s.
        steps.new ≤ steps.old + (2 * tries + 8) + 3 + 5 * (s.to.len - s.from.len))) }
{
    laws::prefixes();
    laws::handles();
    let Ok(claim) = store.hold(log, unit, tries, steps) else {
        return Ok(None);
    };
    let from = store.front(&claim);
    let walked = deltas_since(alloc, log, &from, steps);
    store.leave(claim);
    let (to, deltas) = walked?;
    Ok(Some(Stretch { from, to, deltas }))
}
