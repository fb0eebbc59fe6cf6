//! A caller of any log who changes a live row, proved from the trait's clauses alone.
ghost use Rattle.std.specs.Prelude.{◌≡◌, ◌≤◌, ◌<◌, length, take, slice_get, Some, IfOk};
ghost use Rattle.cubit_base.specs.History.{after};
ghost use Rattle.commit_log.specs.Log.{Stands, IsLog};
ghost use Rattle.commit_log.specs.Handle.{Appends, append_steps, RisesWithin};

use crate::{AppendStop, CommitLog, Front, laws};
use cubit_base::{Delta, Key, Steps, Tuple};
use std::sync::ledger::Ledger;

// A change of a live row, behind a front.
pub(crate) fn update<L: CommitLog, N: Ledger>(
    log: &mut L,
    at: &Front,
    row: u32,
    key: Key,
    tuples: (Tuple, Tuple),
    steps: &mut Steps<N>,
) -> Result<Front, AppendStop>
    requires at { Stands L.terms (L.handle log.old).seen at.now }
    requires live { slice_get (after L.terms.base (take at.now.len (L.handle log.old).seen)) row
        ≡ Some (key, Some tuples.0) }
    requires spare { 1 ≤ (L.handle log.old).spare }
    ensures append { Appends L.terms (L.handle log.old) at.now (record {
      author = (L.handle log.old).author;
      row = row;
      key = key;
      before = Some tuples.0;
      after = Some tuples.1;
    }) (L.handle log.new) result }
    ensures live { IfOk result (λ front. slice_get (after L.terms.base (take front.len (L.handle log.new).seen)) row
        ≡ Some (key, Some tuples.1)) }
    ensures log { IsLog L.terms (L.handle log.new).seen }
    ensures steps { RisesWithin (append_steps result) steps.old steps.new }
{
    cubit_base::laws::deltas();
    laws::appends();
    let delta = Delta {
        author: log.author(),
        row,
        key,
        before: Some(tuples.0),
        after: Some(tuples.1),
    };
    match log.try_append(at, &delta, steps) {
        Ok(front) => Ok(front),
        Err(stop) => Err(stop),
    }
}
