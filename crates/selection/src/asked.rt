//! Versions that are taken for a query.
ghost use Rattle.std.specs.Prelude.{◌≡◌, ◌+◌, ◌≤◌, IfOk, OnErr};
ghost use Rattle.version_store.specs.Store.{IsStanding};
ghost use Rattle.front_patch.specs.Taken.{AreGiven, claim_count, patched_by};
ghost use Rattle.front_patch.specs.Takes.{SeesOnly, KeepsVersions};
ghost use Rattle.selection.specs.Answered.{query_steps};
ghost use Rattle.selection.specs.Asked.{IsAsked};

use column_bins::{Plan, plan};
use commit_log::{CommitLog, Memory};
use cubit_base::{Predicate, Steps};
use front_patch::{Taken, take};
use std::alloc::Global;
use std::sync::ledger::Ledger;
use unit_version::Base;
use version_store::VersionStore;

/// A plan, whether days decide in it, and the versions that were taken for it. These have to be given back.
pub(crate) struct Asked<S: VersionStore> {
    pub(crate) plan: Plan,
    pub(crate) cuts: bool,
    pub(crate) taken: Taken<S>,
}

/// Takes the versions of the units that a query needs.
pub(crate) fn ask<S: VersionStore, N: Ledger>(
    alloc: Global,
    log: &mut S::Log,
    store: &mut S,
    base: &Base,
    predicate: &Predicate,
    sum: bool,
    tries: u32,
    steps: &mut Steps<N>,
) -> Result<Asked<S>, Memory>
    requires standing { IsStanding S.Log.terms (S.store store.old) base.now (S.over store.old log.old) }
    requires tries { 1 ≤ tries }
    ensures asked { IfOk result (λ a. IsAsked S.Log.terms predicate.now sum tries (S.gave store.new) (S.shown store.new)
        base.now (S.Log.handle log.old) (S.store store.old) (S.Log.handle log.new) (S.store store.new) a.plan a.cuts
        a.taken) }
    ensures none { OnErr result ((S.store store.new).lent ≡ 0) }
    ensures keeps { KeepsVersions (S.store store.old) (S.store store.new) }
    ensures sees { SeesOnly (S.Log.handle log.old) (S.Log.handle log.new) }
    ensures over { S.over store.new log.new }
    ensures steps { IfOk result (λ a. steps.new
        ≤ steps.old + query_steps predicate.now sum tries a.taken.front (patched_by a.taken)) }
{
    base.has_tuples();
    cubit_base::laws::rows();
    commit_log::laws::prefixes();
    front_patch::laws::units();
    let cuts = plan(predicate, false).pages;
    let plan = plan(predicate, sum);
    let taken = take(alloc, log, store, base, &plan, tries, steps)?;
    // From here on it is known that what was seen is a log.
    log.start();
    Ok(Asked { plan, cuts, taken })
}

impl<S: VersionStore> Asked<S> {
    /// Gives every claim back.
    pub(crate) fn close(self, store: &mut S)
        requires given { AreGiven (S.gave store.old) self.taken.claims }
        requires lent { (S.store store.old).lent ≡ claim_count self.taken.claims }
        ensures store { S.store store.new ≡ record (S.store store.old) { lent = 0 } }
        ensures over { (log : S.Log) → S.over store.old log → S.over store.new log }
    {
        let Asked {
            plan: _,
            cuts: _,
            taken,
        } = self;
        taken.close(store);
    }
}
