//! A caller of any log: what it walks is the log's history between two fronts, proved from the trait's clauses alone.
ghost use Rattle.std.specs.Prelude.{◌≡◌, ◌+◌, ◌-◌, ◌*◌, ◌≤◌, IfOk};
ghost use Rattle.commit_log.specs.Log.{Stands, IsWhole, between};
ghost use Rattle.commit_log.specs.Handle.{Grows, mine};

use crate::{CommitLog, Front, Memory, laws};
use cubit_base::{DeltaList, Steps};
use std::alloc::Global;
use std::sync::ledger::Ledger;

// The deltas behind a front, up to all that the log holds now.
pub(crate) fn deltas_since<L: CommitLog, N: Ledger>(
    alloc: Global,
    log: &mut L,
    from: &Front,
    steps: &mut Steps<N>,
) -> Result<(Front, DeltaList), Memory>
    requires { Stands L.terms (L.handle log.old).seen from.now }
    ensures front { IfOk result (λ r. IsWhole L.terms (L.handle log.new).seen r.0) }
    ensures deltas { IfOk result (λ r. r.1 ≡ between from.now.len r.0.len (L.handle log.new).seen) }
    ensures grows { Grows (L.handle log.old) (L.handle log.new) }
    ensures mine { mine (L.handle log.new) ≡ mine (L.handle log.old) }
    ensures steps { IfOk result (λ r. steps.new ≡ steps.old + 3 + 5 * (r.0.len - from.now.len)) }
{
    laws::prefixes();
    laws::handles();
    laws::stretches();
    let to = log.front(steps);
    let mut deltas = DeltaList::new(alloc);
    let mut cursor = log.cursor(from);
    while let Some(entry) = log.following(&mut cursor, &to, steps) {
        deltas.push(entry.delta)?;
    }
    Ok((to, deltas))
}
