//! The answer to a query, by the index over its table.
ghost use Rattle.std.specs.Prelude.{◌≡◌, ◌<◌, ◌≤◌, length, IfOk};
ghost use Rattle.cubit_base.specs.Answer.{answer};
ghost use Rattle.cubit_base.specs.LiveRow.{HasDistinctLiveKeys};
ghost use Rattle.cubit_base.specs.Table.{HasDistinctKeys};
ghost use Rattle.cubit_base.specs.declared.table.TheConstants.{ROW_LIMIT};

use commit_log::{Memory, SerialLog, Setup};
use cubit_base::{Limits, Predicate, Steps, Table, Totals, laws};
use std::alloc::Global;
use std::marker::Brand;
use std::sync::ledger::{Blank, Ledger};
use unit_version::Base;
use version_store::MemoryStore;

// How often a version is asked for; a store of one caller gives it at once.
const TRIES: u32 = 8;

/// What the rows that match a predicate add up to. The index over the table is built, asked once, and let go.
pub(crate) fn totals(alloc: Global, table: Table, predicate: &Predicate) -> Result<Totals, Memory>
    requires keys { HasDistinctKeys table }
    ensures { IfOk result (λ totals. (totals.count ≡ (answer table predicate.now).count)
        × (totals.sum ≡ (answer table predicate.now).sum)) }
{
    laws::live_rows();
    let blanks = (Blank::new(1), Blank::new(1));
    totals_at_start::<Brand, Brand, Brand>(alloc, blanks, table, predicate)
}

// The same over a log that stays empty. The steps and the reads are counted, which takes no time.
fn totals_at_start<S: Setup, N: Ledger, M: Ledger>(
    alloc: Global,
    blanks: (Blank, Blank),
    table: Table,
    predicate: &Predicate,
) -> Result<Totals, Memory>
    requires steps_name { blanks.0.name ≡ N.name }
    requires steps_parts { blanks.0.parts ≡ N.parts }
    requires steps_some { 0 < N.parts }
    requires reads_name { blanks.1.name ≡ M.name }
    requires reads_parts { blanks.1.parts ≡ M.parts }
    requires reads_some { 0 < M.parts }
    requires base { S.base ≡ table }
    requires limits { S.limits ≡ record { row_limit = length table; log_limit = 0; tries = TRIES } }
    requires keys { HasDistinctLiveKeys table }
    ensures { IfOk result (λ totals. (totals.count ≡ (answer table predicate.now).count)
        × (totals.sum ≡ (answer table predicate.now).sum)) }
{
    let (steps, reads) = blanks;
    let mut steps = Steps::<N>::make(steps);
    let mut reads = Steps::<M>::make(reads);
    let limits = Limits {
        row_limit: table.len(),
        log_limit: 0,
        tries: TRIES,
    };
    let base = Base::build(alloc, table, limits.row_limit)?;
    let mut log = SerialLog::<S>::make(alloc, base.rows(), 0, limits)?;
    let mut store = MemoryStore::make(alloc, &base, &mut log)?;
    let found = selection::sum(
        alloc, &mut log, &mut store, &base, predicate, TRIES, &mut steps, &mut reads,
    )?;
    Ok(Totals {
        count: found.count,
        sum: found.sum,
    })
}
