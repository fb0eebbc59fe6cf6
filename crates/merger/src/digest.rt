//! Stretches of a log, each digested once for all units.
ghost use Rattle.std.specs.Prelude.{◌≡◌, ℕ, ◌≤◌, ◌<◌, List, length, take, IfOk, IfSome, None, IsTrue};
ghost use Rattle.cubit_base.specs.History.{after};
ghost use Rattle.cubit_base.specs.declared.delta.Delta.{Delta as DeltaValue};
ghost use Rattle.commit_log.specs.Log.{Terms, IsLog, Stands, between};
ghost use Rattle.commit_log.specs.Handle.{Begins, ReadsOn};
ghost use Rattle.commit_log.specs.declared.front.Front.{Front as FrontValue};
ghost use Rattle.unit_version.specs.Content.{content_of};
ghost use Rattle.unit_version.specs.Patch.{Leads, IsSomeUnit};
ghost use Rattle.unit_version.specs.declared.unit.Unit.{Unit as IndexUnit};
ghost use Rattle.merger.specs.Digest.{DigestsValue, IsDigest, AreDigests};

use crate::Memory;
use commit_log::{CommitLog, Front};
use cubit_base::{DeltaList, Steps};
use std::alloc::Global;
use std::marker::Model;
use std::sync::ledger::Ledger;
use unit_version::{Changes, Content, Unit, patched_by};

// What the deltas from one length of a log to another change.
#[derive(Drop)]
struct Digest {
    from: u32,
    to: u32,
    changes: Changes,
}

impl Model for Digest {
    ghost use Rattle.merger.specs.Digest.{DigestValue};

    ghost Value = { DigestValue };

    ghost view = { λ d. record { from = d.from; to = d.to; changes = d.changes } };
}

/// The last two stretches that were digested: after a merge that was hindered units have versions of two ages.
#[derive(Drop)]
pub(crate) struct Digests {
    last: Option<Digest>,
    other: Option<Digest>,
}

impl Model for Digests {
    ghost use Rattle.merger.specs.Digest.{DigestsValue};

    ghost Value = { DigestsValue };

    ghost view = { λ d. record { last = d.last; other = d.other } };
}

impl Digests {
    /// None.
    pub(crate) fn new() -> Digests
        ensures { result ≡ record { last = None; other = None } }
    {
        Digests {
            last: None,
            other: None,
        }
    }

    /// What the unit holds at a front, from what it holds at one before it.
    pub(crate) fn carried<L: CommitLog, N: Ledger>(
        &mut self,
        alloc: Global,
        log: &mut L,
        unit: Unit,
        content: &Content,
        from: &Front,
        to: &Front,
        steps: &mut Steps<N>,
    ) -> Result<Content, Memory>
        requires digests { AreDigests (L.handle log.old).seen self.old }
        requires from { Stands L.terms (L.handle log.old).seen from.now }
        requires to { Stands L.terms (L.handle log.old).seen to.now }
        requires order { from.now.len ≤ to.now.len }
        requires unit { IsSomeUnit unit }
        requires content { content.now
            ≡ content_of unit (after L.terms.base (take from.now.len (L.handle log.old).seen)) }
        ensures content { IfOk result (λ content. content
            ≡ content_of unit (after L.terms.base (take to.now.len (L.handle log.new).seen))) }
        ensures digests { AreDigests (L.handle log.new).seen self.new }
        ensures seen { (L.handle log.new).seen ≡ (L.handle log.old).seen }
        ensures reads { ReadsOn (L.handle log.old) (L.handle log.new) }
    {
        leads();
        let digest = self.digest(alloc, log, from, to, steps)?;
        let content = patched_by(alloc, unit, content, from.rows, &digest.changes, to.rows);
        self.other = self.last.take();
        self.last = Some(digest);
        content
    }

    // The digest between two fronts, which is one that was kept or a new one.
    fn digest<L: CommitLog, N: Ledger>(
        &mut self,
        alloc: Global,
        log: &mut L,
        from: &Front,
        to: &Front,
        steps: &mut Steps<N>,
    ) -> Result<Digest, Memory>
        requires digests { AreDigests (L.handle log.old).seen self.old }
        requires from { Stands L.terms (L.handle log.old).seen from.now }
        requires to { Stands L.terms (L.handle log.old).seen to.now }
        requires order { from.now.len ≤ to.now.len }
        ensures digest { IfOk result (λ digest. digest ≡ record {
          from = from.now.len;
          to = to.now.len;
          changes = between from.now.len to.now.len (L.handle log.new).seen;
        }) }
        ensures digests { AreDigests (L.handle log.new).seen self.new }
        ensures log { IsLog L.terms (L.handle log.new).seen }
        ensures seen { (L.handle log.new).seen ≡ (L.handle log.old).seen }
        ensures reads { ReadsOn (L.handle log.old) (L.handle log.new) }
    {
        commit_log::laws::reads();
        // From here on it is known that what was seen is a log.
        log.start();
        if let Some(digest) = self.known(from.len, to.len) {
            return Ok(digest);
        }
        Ok(Digest {
            from: from.len,
            to: to.len,
            changes: changes_between(alloc, log, from, to, steps)?,
        })
    }

    // Takes the digest of this stretch, if it is kept.
    fn known(&mut self, from: u32, to: u32) -> Option<Digest>
        ensures found { IfSome result (λ digest. (digest.from ≡ from) × (digest.to ≡ to)) }
        ensures digests { (log : List DeltaValue) → AreDigests log self.old →
            AreDigests log self.new × IfSome result (IsDigest log) }
    {
        let is_last = is_of(&self.last, from, to);
        let is_other = is_of(&self.other, from, to);
        if is_last {
            return self.last.take();
        }
        if is_other {
            return self.other.take();
        }
        None
    }
}

// Whether it is the digest of this stretch.
fn is_of(digest: &Option<Digest>, from: u32, to: u32) -> bool
    ensures { IsTrue result → IfSome digest.now (λ digest. (digest.from ≡ from) × (digest.to ≡ to)) }
{
    match digest {
        Some(digest) => digest.from == from && digest.to == to,
        None => false,
    }
}

// What the deltas between two fronts change.
fn changes_between<L: CommitLog, N: Ledger>(
    alloc: Global,
    log: &mut L,
    from: &Front,
    to: &Front,
    steps: &mut Steps<N>,
) -> Result<Changes, Memory>
    requires log { IsLog L.terms (L.handle log.old).seen }
    requires from { Stands L.terms (L.handle log.old).seen from.now }
    requires to { Stands L.terms (L.handle log.old).seen to.now }
    requires order { from.now.len ≤ to.now.len }
    ensures changes { IfOk result (λ changes. changes ≡ between from.now.len to.now.len (L.handle log.new).seen) }
    ensures seen { (L.handle log.new).seen ≡ (L.handle log.old).seen }
    ensures reads { ReadsOn (L.handle log.old) (L.handle log.new) }
{
    let deltas = deltas_between(alloc, log, from, to, steps)?;
    Changes::of(alloc, &deltas)
}

// The deltas between two fronts.
fn deltas_between<L: CommitLog, N: Ledger>(
    alloc: Global,
    log: &mut L,
    from: &Front,
    to: &Front,
    steps: &mut Steps<N>,
) -> Result<DeltaList, Memory>
    requires log { IsLog L.terms (L.handle log.old).seen }
    requires from { Stands L.terms (L.handle log.old).seen from.now }
    requires to { Stands L.terms (L.handle log.old).seen to.now }
    requires order { from.now.len ≤ to.now.len }
    ensures deltas { IfOk result (λ deltas. deltas ≡ between from.now.len to.now.len (L.handle log.new).seen) }
    ensures seen { (L.handle log.new).seen ≡ (L.handle log.old).seen }
    ensures reads { ReadsOn (L.handle log.old) (L.handle log.new) }
{
    commit_log::laws::prefixes();
    commit_log::laws::stretches();
    commit_log::laws::reads();
    let mut deltas = DeltaList::new(alloc);
    let mut cursor = log.cursor(from);
    while let Some(entry) = log.following(&mut cursor, to, steps) {
        deltas.push(entry.delta)?;
    }
    Ok(deltas)
}

// The deltas between two fronts lead from the table at the one to that at the other.
fn leads()
    ensures leads { (terms : Terms) (log : List DeltaValue) (unit : IndexUnit) (from to : FrontValue) →
        IsLog terms log → Stands terms log from → Stands terms log to → from.len ≤ to.len →
        Leads (record {
          unit = unit;
          content = content_of unit (after terms.base (take from.len log));
          rows_before = from.rows;
          deltas = between from.len to.len log;
          rows_then = to.rows;
        }) (after terms.base (take from.len log)) }
    ensures table { (terms : Terms) (log : List DeltaValue) (from to : ℕ) → from ≤ to →
        after (after terms.base (take from log)) (between from to log) ≡ after terms.base (take to log) }
{
    commit_log::laws::stretches();
    cubit_base::laws::histories();
}

/// Digests of a log are those of a longer one.
pub(crate) fn later_digests()
    ensures { (log longer : List DeltaValue) (digests : DigestsValue) → Begins log longer → AreDigests log digests →
        AreDigests longer digests }
{
    commit_log::laws::prefixes();
}
