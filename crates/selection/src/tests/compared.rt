//! The three queries at one front, against a pass over the plain table.
ghost use Rattle.std.specs.Prelude.{◌≡◌};
ghost use Rattle.version_store.specs.Store.{IsStanding};
ghost use Rattle.front_patch.specs.Takes.{SeesOnly};

use crate::{Memory, count, rows, sum};
use cubit_base::{Predicate, RowList, Steps, Table};
use std::process::Abort;
use std::sync::ledger::Ledger;
use unit_version::Base;
use version_store::VersionStore;

// What the queries told, beside the rows.
#[derive(Clone, Copy, Debug, PartialEq, Eq)]
pub(crate) struct Told {
    pub(crate) front: u32,
    pub(crate) count: u32,
    pub(crate) sum: u64,
    // By how many deltas the versions for the rows, for the count and for the sum were patched.
    pub(crate) patched: (u32, u32, u32),
}

// Whether a list has the numbers of the table's rows that match.
fn is_list(list: &RowList, table: &Table, predicate: &Predicate) -> bool {
    let mut at = 0u32;
    for n in 0..table.len() {
        if let Some((_, Some(tuple))) = table.row(n) {
            if predicate.matches(&tuple) {
                if list.get(at) != Some(&n) {
                    return false;
                }
                at = at.wrapping_add(1);
            }
        }
    }
    at == list.len()
}

// Asks, and compares.
pub(crate) fn agrees<S: VersionStore, N: Ledger, M: Ledger, R: Abort + AllocGlobal>(
    rt: &R,
    log: &mut S::Log,
    store: &mut S,
    base: &Base,
    table: &Table,
    predicate: &Predicate,
    steps: &mut Steps<N>,
    reads: &mut Steps<M>,
) -> Result<Told, Memory>
    requires standing { IsStanding S.Log.terms (S.store store.old) base.now (S.over store.old log.old) }
    ensures standing { IsStanding S.Log.terms (S.store store.new) base.now (S.over store.new log.new) }
{
    let alloc = rt.alloc();
    let listed = rows(alloc, log, store, base, predicate, 1, steps, reads)?;
    let counted = count(alloc, log, store, base, predicate, 1, steps, reads)?;
    let summed = sum(alloc, log, store, base, predicate, 1, steps, reads)?;
    let plain = table.totals(predicate);
    assert!(rt; is_list(&listed.list, table, predicate), "{predicate:?}");
    assert_eq!(rt;
        (counted.count, summed.count, summed.sum),
        (plain.count, plain.count, plain.sum)
    );
    assert_eq!(rt; (listed.front, counted.front), (summed.front, summed.front));
    Ok(Told {
        front: summed.front.len,
        count: counted.count,
        sum: summed.sum,
        patched: (listed.patched, counted.patched, summed.patched),
    })
}
