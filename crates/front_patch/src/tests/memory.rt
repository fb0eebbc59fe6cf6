//! Memory that runs out while versions are taken.
ghost use Rattle.std.specs.Prelude.{◌≡◌, ◌+◌, ◌<◌, ◌≤◌, [], length};
ghost use Rattle.cubit_base.specs.LiveRow.{HasDistinctLiveKeys};
ghost use Rattle.version_store.specs.Store.{IsStanding};
ghost use Rattle.front_patch.specs.Planned.{FitsColumns};

use super::ages::{LIMIT, grow_by, plan_of, some};
use super::compared::agrees;
use super::plain::{copy_of, table_of};
use crate::{Memory, take};
use column_bins::Plan;
use commit_log::{CommitLog, SerialLog, Setup};
use cubit_base::{Limits, Steps, Table};
use std::marker::Brand;
use std::process::Abort;
use std::sync::ledger::{Blank, Ledger};
use std::test::Fail;
use unit_version::Base;
use version_store::{MemoryStore, VersionStore};

// Takes a plan's units, and gives them back; without memory none is out.
fn take_and_leave<S: VersionStore, N: Ledger, R: Abort + AllocGlobal>(
    rt: &R,
    log: &mut S::Log,
    store: &mut S,
    base: &Base,
    plan: &Plan,
    steps: &mut Steps<N>,
)
    requires standing { IsStanding S.Log.terms (S.store store.old) base.now (S.over store.old log.old) }
    requires plan { FitsColumns plan.now }
    ensures standing { IsStanding S.Log.terms (S.store store.new) base.now (S.over store.new log.new) }
{
    match take(rt.alloc(), log, store, base, plan, 1, steps) {
        Ok(taken) => taken.close(store),
        Err(_) => {}
    }
}

// Whether memory ran out or not, the next call answers for all deltas.
fn session<S: Setup, N: Ledger, M: Ledger, R: Abort + AllocGlobal>(
    rt: &R,
    log: &mut SerialLog<S>,
    base: &Base,
    table: Table,
    steps: &mut Steps<N>,
    reads: &mut Steps<M>,
) -> Result<(), Memory>
    requires limits { S.limits ≡ record { row_limit = LIMIT; log_limit = 9; tries = 1 } }
    requires base { base.now ≡ record { table = S.base; row_room = LIMIT } }
    requires new { log.old.seen ≡ [] }
    requires table { table ≡ S.base }
{
    commit_log::laws::handles();
    let start = log.start();
    let (front, now) = grow_by(rt, log, start, table, (0, 9), steps)?;
    let mut store = MemoryStore::make(rt.alloc(), base, log)?;
    let plan = plan_of(some(48, 54), None, some(10, 20), true);
    take_and_leave(rt, log, &mut store, base, &plan, steps);
    let told = agrees(rt, log, &mut store, base, &now, &plan, steps, reads)?;
    assert_eq!(rt; told, (front.len, 0));
    Ok(())
}

// Over a table.
fn over<S: Setup, N: Ledger, M: Ledger, R: Abort + AllocGlobal>(
    rt: &R,
    blanks: (Blank, Blank),
    tables: (Table, Table),
) -> Result<(), Memory>
    requires name { blanks.0.name ≡ N.name }
    requires parts { blanks.0.parts ≡ N.parts }
    requires some { 0 < N.parts }
    requires other_name { blanks.1.name ≡ M.name }
    requires other_parts { blanks.1.parts ≡ M.parts }
    requires other_some { 0 < M.parts }
    requires limits { S.limits ≡ record { row_limit = LIMIT; log_limit = 9; tries = 1 } }
    requires base { S.base ≡ tables.0 }
    requires same { tables.1 ≡ tables.0 }
    requires keys { HasDistinctLiveKeys tables.0 }
    requires few { length tables.0 ≤ 9_000 }
{
    let (blank, other) = blanks;
    let (table, same) = tables;
    let mut steps = Steps::<N>::make(blank);
    let mut reads = Steps::<M>::make(other);
    let base = Base::build(rt.alloc(), same, LIMIT)?;
    let limits = Limits {
        row_limit: LIMIT,
        log_limit: 9,
        tries: 1,
    };
    let mut log = SerialLog::<S>::make(rt.alloc(), base.rows(), 9, limits)?;
    session(rt, &mut log, &base, table, &mut steps, &mut reads)
}

// Small, so that each allocation of `take` can fail in its turn.
#[test]
fn a_call_after_memory_ran_out(rt: HostRuntime) -> Result<(), Fail> {
    let table = table_of(rt.alloc(), 3)?;
    let same = copy_of(rt.alloc(), &table)?;
    let blanks = (Blank::new(1), Blank::new(1));
    over::<Brand, Brand, Brand, HostRuntime>(&rt, blanks, (table, same))?;
    Ok(())
}
