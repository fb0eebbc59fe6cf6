//! Taking versions at one front.
ghost use Rattle.std.specs.Prelude.{◌≡◌, ◌+◌, ◌-◌, ◌*◌, ◌≤◌, IfOk, OnErr, length, map};
ghost use Rattle.std.specs.Option.{option_map};
ghost use Rattle.commit_log.specs.Log.{IsLog, IsWhole, Stands, between};
ghost use Rattle.commit_log.specs.Handle.{SeesMore, with_look};
ghost use Rattle.version_store.specs.Store.{IsStanding};
ghost use Rattle.front_patch.specs.Holding.{HoldsEach, AreAtFronts};
ghost use Rattle.front_patch.specs.Planned.{FitsColumns, units_of};
ghost use Rattle.front_patch.specs.RowStates.{AreLast, state_after};
ghost use Rattle.front_patch.specs.Taken.{AreGiven};
ghost use Rattle.front_patch.specs.Takes.{Takings, SeesOnly, KeepsVersions, take_steps, pages_of, least_length, with_walks};

use crate::changed::ChangedRows;
use crate::claims::{hold_each, leave_each, oldest};
use crate::patches::rows_rise;
use crate::planned::planned_units;
use crate::row_state::last_states;
use crate::taken::{Taken, taken_of};
use crate::walk::states_between;
use column_bins::Plan;
use commit_log::{CommitLog, Front, Memory, laws};
use cubit_base::Steps;
use fence_window::PAGE_ROWS;
use std::alloc::Global;
use std::sync::ledger::Ledger;
use unit_version::{Base, Unit};
use version_store::VersionStore;

/// Holds the versions of a plan's units, and takes the front at which they are all seen; the base's content serves a
/// unit whose hold was given up. Without memory no claim stays out.
pub fn take<S: VersionStore, N: Ledger>(
    alloc: Global,
    log: &mut S::Log,
    store: &mut S,
    base: &Base,
    plan: &Plan,
    tries: u32,
    steps: &mut Steps<N>,
) -> Result<Taken<S>, Memory>
    requires standing { IsStanding S.Log.terms (S.store store.old) base.now (S.over store.old log.old) }
    requires plan { FitsColumns plan.now }
    requires tries { 1 ≤ tries }
    ensures takes { Takings S.Log.terms plan.now tries (S.gave store.new) (S.shown store.new) base.now
        (S.Log.handle log.old) (S.store store.old) (S.Log.handle log.new) (S.store store.new) result }
    ensures keeps { KeepsVersions (S.store store.old) (S.store store.new) }
    ensures sees { SeesOnly (S.Log.handle log.old) (S.Log.handle log.new) }
    ensures over { S.over store.new log.new }
    ensures steps { IfOk result (λ taken. steps.new ≤ steps.old + take_steps tries taken) }
{
    laws::handles();
    laws::prefixes();
    rows_rise();
    let first = log.front(steps);
    let pages = planned_pages(plan, first.rows);
    let (units, claims) = hold_planned(alloc, log, store, plan, pages, tries, steps)?;
    match patch_since(alloc, log, store, &claims, first, steps) {
        Ok(patch) => Ok(taken_of(log, plan, pages, units, claims, patch)),
        Err(memory) => {
            leave_each(store, claims);
            Err(memory)
        }
    }
}

// How many pages a plan needs of so many rows.
fn planned_pages(plan: &Plan, rows: u32) -> u32
    ensures { result ≡ pages_of plan.now rows }
{
    if plan.pages {
        rows.div_ceil(PAGE_ROWS)
    } else {
        0
    }
}

// Holds the units of a plan; without memory, none.
fn hold_planned<S: VersionStore, N: Ledger>(
    alloc: Global,
    log: &mut S::Log,
    store: &mut S,
    plan: &Plan,
    pages: u32,
    tries: u32,
    steps: &mut Steps<N>,
) -> Result<(Vec<Unit>, Vec<Option<S::Claim>>), Memory>
    requires over { S.over store.old log.old }
    requires columns { FitsColumns plan.now }
    requires pages { pages ≤ (S.store store.old).pages }
    requires few { pages ≤ 4_229 }
    requires lent { (S.store store.old).lent ≡ 0 }
    requires tries { 1 ≤ tries }
    ensures units { IfOk result (λ held. held.0.items ≡ units_of plan.now pages) }
    ensures held { IfOk result (λ held. HoldsEach S.Log.terms (S.Log.handle log.new).seen tries
        (units_of plan.now pages) (S.gave store.new) (S.shown store.new) (S.store store.old) (S.store store.new)
        held.1.items) }
    ensures err { OnErr result (S.store store.new ≡ S.store store.old) }
    ensures over { S.over store.new log.new }
    ensures more { SeesMore (S.Log.handle log.old) (S.Log.handle log.new) }
    ensures steps { IfOk result (λ held.
        steps.new ≤ steps.old + (2 * tries + 8) * length (units_of plan.now pages)) }
{
    let units = planned_units(alloc, plan, pages)?;
    let mut claims = Vec::with_capacity(alloc, units.len())?;
    hold_each(log, store, &units, tries, &mut claims, steps);
    Ok((units, claims))
}

/// A front, and the last states of the rows that were changed from a length up to it.
#[derive(Drop)]
pub(crate) struct Patch {
    pub(crate) front: Front,
    pub(crate) least: u32,
    pub(crate) changed: ChangedRows,
}

// Takes a front, and walks to it from the shortest of a first front and what the claims show.
fn patch_since<S: VersionStore, N: Ledger>(
    alloc: Global,
    log: &mut S::Log,
    store: &S,
    claims: &[Option<S::Claim>],
    first: Front,
    steps: &mut Steps<N>,
) -> Result<Patch, Memory>
    requires first { Stands S.Log.terms (S.Log.handle log.old).seen first }
    requires given { AreGiven (S.gave store.now) claims.now }
    requires stand { AreAtFronts S.Log.terms (S.Log.handle log.old).seen (S.shown store.now) claims.now }
    ensures sees { IfOk result (λ p. SeesMore (with_walks (p.front.len - p.least) (with_look (S.Log.handle log.old)))
        (S.Log.handle log.new)) }
    ensures only { SeesOnly (S.Log.handle log.old) (S.Log.handle log.new) }
    ensures log { IsLog S.Log.terms (S.Log.handle log.new).seen }
    ensures whole { IfOk result (λ p. IsWhole S.Log.terms (S.Log.handle log.new).seen p.front) }
    ensures least { IfOk result (λ p.
        p.least ≡ least_length first.len (map (option_map (S.shown store.now)) claims.now)) }
    ensures order { IfOk result (λ p. p.least ≤ p.front.len) }
    ensures last { IfOk result (λ p.
        AreLast (map state_after (between p.least p.front.len (S.Log.handle log.new).seen)) p.changed) }
    ensures steps { IfOk result (λ p. steps.new ≡ steps.old + 3 + 5 * (p.front.len - p.least)) }
{
    laws::prefixes();
    let from = oldest(log, store, claims, first);
    let front = log.front(steps);
    let states = states_between(alloc, log, &from, &front, steps)?;
    let changed = ChangedRows::of(alloc, last_states(alloc, &states)?)?;
    Ok(Patch {
        front,
        least: from.len,
        changed,
    })
}
