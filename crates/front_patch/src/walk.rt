//! The deltas between two fronts.
ghost use Rattle.std.specs.Prelude.{◌≡◌, ◌+◌, ◌-◌, ◌*◌, ◌≤◌, IfOk, map};
ghost use Rattle.commit_log.specs.Log.{Stands, between};
ghost use Rattle.front_patch.specs.RowStates.{state_after};
ghost use Rattle.front_patch.specs.Takes.{with_walks, AtMostWalks};

use crate::row_state::RowState;
use commit_log::{CommitLog, Front, Memory, laws};
use cubit_base::Steps;
use std::alloc::Global;
use std::sync::ledger::Ledger;

/// The states that the deltas from one front to another leave, in the order of deltas.
pub(crate) fn states_between<L: CommitLog, N: Ledger>(
    alloc: Global,
    log: &mut L,
    from: &Front,
    to: &Front,
    steps: &mut Steps<N>,
) -> Result<Vec<RowState>, Memory>
    requires from { Stands L.terms (L.handle log.old).seen from.now }
    requires to { Stands L.terms (L.handle log.old).seen to.now }
    requires order { from.now.len ≤ to.now.len }
    ensures states { IfOk result (λ states.
        states.items ≡ map state_after (between from.now.len to.now.len (L.handle log.old).seen)) }
    ensures walked { IfOk result (λ states.
        L.handle log.new ≡ with_walks (to.now.len - from.now.len) (L.handle log.old)) }
    ensures same { AtMostWalks (L.handle log.old) (L.handle log.new) }
    ensures steps { IfOk result (λ states. steps.new ≡ steps.old + 5 * (to.now.len - from.now.len)) }
{
    laws::stretches();
    let mut states = Vec::with_capacity(alloc, (to.len - from.len) as usize)?;
    let mut cursor = log.cursor(from);
    while let Some(entry) = log.following(&mut cursor, to, steps) {
        let delta = entry.delta;
        states.push(RowState {
            row: delta.row,
            tuple: delta.after,
        })?;
    }
    Ok(states)
}
